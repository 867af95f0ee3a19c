ghost use Rattle.std.specs.Prelude.{◌≡◌, IfOk};
ghost use Rattle.code_rules.specs.ModelRules.Scopes as spec;
ghost use Rattle.check_expressions.specs.CheckNames.Places.{scope_of};

use check_expressions::check_names_api::Place;
use flat_design::NameUse;
use std::alloc::AllocError;

/// A place in 32 bits. A greater one is answered as out of memory.
fn number_of(place: Option<usize>) -> Result<Option<u32>, AllocError>
    ensures { IfOk result (λ number. number ≡ place) }
{
    match place {
        None => Ok(None),
        Some(place) => match u32::try_from(place) {
            Ok(number) => Ok(Some(number)),
            Err(_) => Err(AllocError),
        },
    }
}

/// The place of a name among those that the module around declares. More than 32 bits can count are answered as out of
/// memory.
pub fn declared_place(place: &Place<'_>, name: &[u8]) -> Result<Option<u32>, AllocError>
    ensures { IfOk result (λ number. number ≡ spec.place_of (scope_of place.now) name.now) }
{
    number_of(place.names.place(name))
}

/// What a name is in the code of a body: the number of a local variable that is visible, or the place among the names
/// that the module around declares. More than 32 bits can count are answered as out of memory.
pub fn use_of(place: &Place<'_>, name: &[u8]) -> Result<Option<NameUse>, AllocError>
    ensures { IfOk result (λ found. found ≡ spec.use_of (scope_of place.now) name.now) }
{
    match place.locals.find(name) {
        Some(local) => Ok(Some(NameUse::Local(local.number))),
        None => match declared_place(place, name)? {
            None => Ok(None),
            Some(number) => Ok(Some(NameUse::Declared(number))),
        },
    }
}
