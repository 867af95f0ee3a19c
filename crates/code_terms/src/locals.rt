ghost use Rattle.std.specs.Prelude.{◌≡◌, IfOk, option_map};
ghost use Rattle.model_tree.specs.Views.{expression_of};
ghost use Rattle.code_rules.specs.Numbered.{var_code as var_in};
ghost use Rattle.code_rules.specs.ModelRules.Meanings.{variable_type as type_in};
ghost use Rattle.check_expressions.specs.CheckNames.Places.{scope_of};
ghost use Rattle.code_terms.specs.Statements as spec;

use super::deeds::Deed;
use crate::option_code;
use check_expressions::check_names_api::{Place, variable_type};
use flat_design::Statement;
use model_tree::{Expression, VarType};
use std::alloc::{AllocError, Global};

/// The code of a local variable, which gets the next number; none where its type is out of range or its first value has
/// no code. The place is that before it is declared.
pub fn var_code(
    alloc: Global,
    place: &Place<'_>,
    var_type: VarType,
    value: &Option<Expression>,
) -> Result<Option<Deed>, AllocError>
    ensures { IfOk result (λ found. option_map spec.statements_of found ≡ var_in (scope_of place.now) (type_in var_type) (option_map expression_of value.now)) }
{
    let number = place.locals.count();
    match variable_type(var_type) {
        None => Ok(None),
        Some(value_type) => match option_code(alloc, place, value)? {
            None => Ok(None),
            Some(value) => Ok(Some(Deed::One(Statement::Var(number, value_type, value)))),
        },
    }
}
