ghost use Rattle.std.specs.Prelude.{◌≡◌, IfOk, option_map};
ghost use Rattle.model_tree.specs.Views.{expression_of};
ghost use Rattle.flat_design.specs.Code.{term_of};
ghost use Rattle.code_rules.specs.Terms as terms;
ghost use Rattle.code_rules.specs.Deeds as deeds;
ghost use Rattle.check_expressions.specs.CheckNames.Places.{scope_of};
ghost use Rattle.code_terms.specs.Parts as spec;

use super::forms::{binary, concat, convert, paren, slice, to_vector, unary};
use super::objects::{element, member, named, placed, placed_by};
use super::parts::{Coded, term_made, value_part};
use super::values::{constant_bits, logic_part, number, time_part};
use check_expressions::check_names_api::Place;
use code_rules::logic_values_api::Value;
use code_rules::model_rules_api::ExpressionType;
use flat_design::Expr;
use model_tree::Expression;
use std::alloc::{AllocError, Global};

/// What an expression stands for at a place, and what it is made into.
fn coded(alloc: Global, place: &Place<'_>, expression: &Expression) -> Result<Coded, AllocError>
    ensures { IfOk result (λ part. spec.part_of part ≡ spec.part_at (scope_of place.now) (expression_of expression.now)) }
{
    match expression {
        Expression::Number(_, n) => Ok(value_part(ExpressionType::Free, number(*n))),
        Expression::Constant(_, word) => {
            Ok(value_part(ExpressionType::Free, number(constant_bits(*word))))
        }
        Expression::Time(_, n, unit) => Ok(time_part(*n, *unit)),
        Expression::Logic(_, v) => Ok(logic_part(*v)),
        Expression::Truth(_, truth) => Ok(value_part(
            ExpressionType::Bool,
            Expr::Literal(Value::Bool(*truth)),
        )),
        Expression::Now(_) => Ok(value_part(ExpressionType::Time, Expr::Now)),
        Expression::Myself(_) => Ok(value_part(ExpressionType::Process, Expr::Myself)),
        Expression::Paren(_, inner) => Ok(paren(coded(alloc, place, inner)?)),
        Expression::Convert(_, conversion, inner) => {
            let inner = coded(alloc, place, inner)?;
            convert(alloc, *conversion, inner)
        }
        Expression::ToVector(_, width, inner) => {
            let inner = coded(alloc, place, inner)?;
            to_vector(alloc, *width, inner)
        }
        Expression::Concat(_, upper, lower) => {
            let upper = coded(alloc, place, upper)?;
            let lower = coded(alloc, place, lower)?;
            concat(alloc, upper, lower)
        }
        Expression::Named(_, name) => named(place, name.bytes()),
        Expression::Placed(_, name, n) => placed(alloc, place, name.bytes(), *n),
        Expression::PlacedBy(_, name, inner) => {
            let inner = coded(alloc, place, inner)?;
            placed_by(alloc, place, name.bytes(), inner)
        }
        Expression::Member(inner, name) => {
            let inner = coded(alloc, place, inner)?;
            Ok(member(inner, name.bytes()))
        }
        Expression::Element(of, index) => {
            let of = coded(alloc, place, of)?;
            let index = coded(alloc, place, index)?;
            element(alloc, of, index)
        }
        Expression::Slice(inner, high, low) => {
            let inner = coded(alloc, place, inner)?;
            slice(alloc, *high, *low, inner)
        }
        Expression::Unary(_, op, inner) => {
            let inner = coded(alloc, place, inner)?;
            unary(alloc, *op, inner)
        }
        Expression::Binary(op, left, right) => {
            let left = coded(alloc, place, left)?;
            let right = coded(alloc, place, right)?;
            binary(alloc, *op, left, right)
        }
    }
}

/// The code of an expression that is a value at a place of a model; none where it is no value there or breaks a rule on
/// types. The time grows with the expression.
pub fn term_code(
    alloc: Global,
    place: &Place<'_>,
    expression: &Expression,
) -> Result<Option<Expr>, AllocError>
    ensures { IfOk result (λ term. option_map term_of term ≡ terms.term_of (scope_of place.now) (expression_of expression.now)) }
{
    let part = coded(alloc, place, expression)?;
    Ok(term_made(part.made))
}

/// The code of an expression, where one is written.
pub fn option_code(
    alloc: Global,
    place: &Place<'_>,
    expression: &Option<Expression>,
) -> Result<Option<Option<Expr>>, AllocError>
    ensures { IfOk result (λ term. option_map (option_map term_of) term ≡ deeds.if_written (terms.term_of (scope_of place.now)) (option_map expression_of expression.now)) }
{
    match expression {
        None => Ok(Some(None)),
        Some(expression) => match term_code(alloc, place, expression)? {
            None => Ok(None),
            Some(term) => Ok(Some(Some(term))),
        },
    }
}
