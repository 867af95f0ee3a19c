ghost use Rattle.std.specs.Prelude.{◌≡◌, IfOk, OnOk, Some, option_map};
ghost use Rattle.model_tree.specs.Views.{expression_of};
ghost use Rattle.flat_design.specs.Code as code;
ghost use Rattle.code_deeds.specs.ModelRules.Meanings.{variable_type};
ghost use Rattle.code_deeds.specs.ModelRules.Scopes.{with_local};
ghost use Rattle.code_deeds.specs.CodeRules.Deeds as deeds;
ghost use Rattle.code_deeds.specs.CodeRules.Numbered.{IsCoded, var_code as var_in};
ghost use Rattle.code_deeds.specs.CodeRules.Terms as terms;
ghost use Rattle.laws_code.specs.HasCode.{IsThere};
ghost use Rattle.laws_code.proofs.Plain.{NoneHasBlocks, Only};
ghost use Rattle.check_statements.specs.CheckNames.Places.{scope_of};
ghost use Rattle.code_deeds.specs.CodeTerms.Statements.{statements_of};
ghost use Rattle.code_deeds.specs.Homes.{home_of};
ghost use Rattle.code_blocks.specs.Laid.{Adds, Grows, IsNested, IsNext};

use super::laid::{Laid, add};
use check_statements::check_names_api::Place;
use code_deeds::code_terms_api::{Deed, term_code, var_code};
use code_deeds::logic_values_api::Items;
use code_deeds::{Home, exception_number};
use flat_design::{Expr, NameId, StmtId};
use model_tree::{Expression, Name, VarType};
use std::alloc::{AllocError, Global};

/// The code of an expression that has code.
pub(crate) fn known_term(
    alloc: Global,
    place: &Place<'_>,
    expression: &Expression,
) -> Result<Expr, AllocError>
    requires { IsThere (terms.term_of (scope_of place.now) (expression_of expression.now)) }
    ensures { IfOk result (λ term. terms.term_of (scope_of place.now) (expression_of expression.now) ≡ Some (code.term_of term)) }
{
    match term_code(alloc, place, expression)? {
        None => unreachable!(),
        Some(term) => Ok(term),
    }
}

/// The number of an exception that has one.
pub(crate) fn known_exception(home: Home<'_>, name: &[u8]) -> Result<NameId, AllocError>
    requires { IsThere (deeds.exception_number (home_of home) name.now) }
    ensures { IfOk result (λ number. deeds.exception_number (home_of home.entry) name.now ≡ Some number) }
{
    match exception_number(home, name)? {
        None => unreachable!(),
        Some(number) => Ok(number),
    }
}

/// Adds the statements of a statement that has code and holds no others.
pub(crate) fn lay_deed(
    laid: &mut Laid,
    ids: &mut Items<StmtId>,
    deed: Option<Deed>,
) -> Result<(), AllocError>
    requires coded { IsThere (option_map statements_of deed) }
    requires plain { Only NoneHasBlocks (option_map statements_of deed) }
    requires nested { IsNested laid.old }
    requires next { IsNext laid.old ids.old }
    ensures grows { OnOk result (Grows laid.old laid.new) }
    ensures nested { OnOk result (IsNested laid.new) }
    ensures next { OnOk result (IsNext laid.new ids.new) }
    ensures blocks { OnOk result (laid.new.blocks ≡ laid.old.blocks) }
    ensures reads { OnOk result (Adds laid.new ids.old ids.new (λ a ns rest. IsCoded a (option_map statements_of deed) ns rest)) }
{
    match deed {
        None => unreachable!(),
        Some(Deed::One(statement)) => {
            add(laid, ids, statement)?;
            Ok(())
        }
        Some(Deed::Two(first, second)) => {
            add(laid, ids, first)?;
            add(laid, ids, second)?;
            Ok(())
        }
    }
}

/// Adds the statement of a local variable that has code; the variable is visible from then on.
pub(crate) fn lay_local<'a>(
    var_type: VarType,
    name: &'a Name,
    value: &Option<Expression>,
    alloc: Global,
    place: &mut Place<'a>,
    laid: &mut Laid,
    ids: &mut Items<StmtId>,
) -> Result<(), AllocError>
    requires coded { IsThere (var_in (scope_of place.old) (variable_type var_type) (option_map expression_of value.now)) }
    requires nested { IsNested laid.old }
    requires next { IsNext laid.old ids.old }
    ensures grows { OnOk result (Grows laid.old laid.new) }
    ensures nested { OnOk result (IsNested laid.new) }
    ensures next { OnOk result (IsNext laid.new ids.new) }
    ensures blocks { OnOk result (laid.new.blocks ≡ laid.old.blocks) }
    ensures moves { OnOk result (scope_of place.new ≡ with_local (scope_of place.old) name.now var_type) }
    ensures reads { OnOk result (Adds laid.new ids.old ids.new (λ a ns rest. IsCoded a (var_in (scope_of place.old) (variable_type var_type) (option_map expression_of value.now)) ns rest)) }
{
    let deed = var_code(alloc, place, var_type, value)?;
    lay_deed(laid, ids, deed)?;
    place.declare(name.bytes(), var_type)
}
