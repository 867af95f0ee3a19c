//! Expressions.
ghost use Rattle.std.specs.Prelude.{◌≡◌, option_map};
ghost use Rattle.std.specs.List.{flat_map};
ghost use Rattle.model_tree.specs.Views.{expression_of, expressions_of};
ghost use Rattle.tick_trees.specs.Times as times;
ghost use Rattle.tick_trees.specs.Unfit.{first, unfit_in};

use crate::found::{Unfit, either, in_literal};
use model_tree::sim_time_api::Resolution;
use model_tree::{Expression, Span};

/// The first time of an expression that is none of the resolution.
#[tactic(auto, using(crate::proofs::Firsts::first_append))]
pub(crate) fn in_expression(e: &Expression, r: Resolution) -> Option<Unfit>
    ensures { result ≡ first (unfit_in r) (times.in_expression (expression_of e.now)) }
{
    match e {
        Expression::Number(_, _)
        | Expression::Logic(_, _)
        | Expression::Truth(_, _)
        | Expression::Now(_)
        | Expression::Myself(_)
        | Expression::Constant(_, _)
        | Expression::Named(_, _)
        | Expression::Placed(_, _, _) => None,
        Expression::Time(line, n, unit) => {
            let span = Span {
                count: *n,
                unit: *unit,
            };
            either(in_literal(*line, span, r), None)
        }
        Expression::Paren(_, of)
        | Expression::Convert(_, _, of)
        | Expression::ToVector(_, _, of)
        | Expression::PlacedBy(_, _, of)
        | Expression::Member(of, _)
        | Expression::Slice(of, _, _)
        | Expression::Unary(_, _, of) => in_expression(of, r),
        Expression::Concat(_, left, right)
        | Expression::Element(left, right)
        | Expression::Binary(_, left, right) => {
            either(in_expression(left, r), in_expression(right, r))
        }
    }
}

/// The same where an expression is written.
pub(crate) fn in_option(e: &Option<Expression>, r: Resolution) -> Option<Unfit>
    ensures { result ≡ first (unfit_in r) (times.in_option times.in_expression (option_map expression_of e.now)) }
{
    match e {
        None => None,
        Some(e) => in_expression(e, r),
    }
}

/// The same of expressions.
pub(crate) fn in_each(es: &[Expression], r: Resolution) -> Option<Unfit>
    ensures { result ≡ first (unfit_in r) (flat_map times.in_expression (expressions_of es.now)) }
{
    for e in es {
        match in_expression(e, r) {
            None => {}
            Some(unfit) => return Some(unfit),
        }
    }
    None
}
