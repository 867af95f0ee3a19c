ghost use Rattle.std.specs.Prelude.{◌≡◌, IfOk};
ghost use Rattle.code_rules.specs.Deeds as deeds;
ghost use Rattle.code_rules.specs.ModelRules.Targets as targets;
ghost use Rattle.check_expressions.specs.CheckNames.Places.{scope_of};

use crate::use_of;
use check_expressions::check_names_api::Place;
use code_rules::model_rules_api::Meaning;
use flat_design::{Store, ValueType};
use model_tree::Name;
use std::alloc::AllocError;

/// The type of the variable of a name, where it is one.
fn variable_named(place: &Place<'_>, name: &[u8]) -> Option<ValueType>
    ensures { result ≡ targets.variable_named (scope_of place.now) name.now }
{
    match place.meaning(name) {
        Some(Meaning::Variable(t)) => t,
        _ => None,
    }
}

/// A variable that gets a value, with its type; none where the name is no variable or its type is not known.
pub fn store(place: &Place<'_>, name: &[u8]) -> Result<Option<Store>, AllocError>
    ensures { IfOk result (λ found. found ≡ deeds.store (scope_of place.now) name.now) }
{
    match use_of(place, name)? {
        None => Ok(None),
        Some(used) => match variable_named(place, name) {
            None => Ok(None),
            Some(value_type) => Ok(Some(Store {
                name: used,
                value_type,
            })),
        },
    }
}

/// A variable that gets a value, where one is written.
pub fn optional_store(
    place: &Place<'_>,
    name: &Option<Name>,
) -> Result<Option<Option<Store>>, AllocError>
    ensures { IfOk result (λ found. found ≡ deeds.if_written (deeds.store (scope_of place.now)) name.now) }
{
    match name {
        None => Ok(Some(None)),
        Some(name) => match store(place, name.bytes())? {
            None => Ok(None),
            Some(store) => Ok(Some(Some(store))),
        },
    }
}
