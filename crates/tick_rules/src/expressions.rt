//! Expressions.
ghost use Rattle.std.specs.Prelude.{◌≡◌, map, option_map};
ghost use Rattle.tick_trees.specs.Retimed as retimed;
ghost use Rattle.tick_trees.specs.Ticks.{ticks_span};
ghost use Rattle.model_tree.specs.Views.{expression_of};

use model_tree::sim_time_api::{Resolution, Unit, UnitStop, of_unit};
use model_tree::{Expression, Span};

/// A time as its number of resolutions, with the unit ps; one that has none, as 2^64 - 1 seconds.
pub fn retime_span(span: Span, r: Resolution) -> Span
    ensures { result ≡ ticks_span r span }
{
    match of_unit(span.count, span.unit, r) {
        Ok(ticks) => Span {
            count: ticks.0,
            unit: Unit::Ps,
        },
        Err(UnitStop::Inexact | UnitStop::Range) => Span {
            count: u64::MAX,
            unit: Unit::S,
        },
    }
}

/// Writes the times of an expression as numbers of resolutions.
pub(crate) fn retime(e: &mut Expression, r: Resolution)
    ensures { expression_of e.new ≡ retimed.expression (ticks_span r) (expression_of e.old) }
{
    match e {
        Expression::Number(_, _)
        | Expression::Logic(_, _)
        | Expression::Truth(_, _)
        | Expression::Now(_)
        | Expression::Myself(_)
        | Expression::Constant(_, _)
        | Expression::Named(_, _)
        | Expression::Placed(_, _, _) => {}
        Expression::Time(_, n, unit) => {
            let span = Span {
                count: *n,
                unit: *unit,
            };
            let ticks = retime_span(span, r);
            *n = ticks.count;
            *unit = ticks.unit;
        }
        Expression::Paren(_, of) => retime(of, r),
        Expression::Convert(_, _, of) => retime(of, r),
        Expression::ToVector(_, _, of) => retime(of, r),
        Expression::PlacedBy(_, _, at) => retime(at, r),
        Expression::Member(of, _) => retime(of, r),
        Expression::Slice(of, _, _) => retime(of, r),
        Expression::Unary(_, _, of) => retime(of, r),
        Expression::Concat(_, upper, lower) => {
            retime(upper, r);
            retime(lower, r);
        }
        Expression::Element(of, index) => {
            retime(of, r);
            retime(index, r);
        }
        Expression::Binary(_, left, right) => {
            retime(left, r);
            retime(right, r);
        }
    }
}

/// The same where an expression is written.
pub(crate) fn retime_option(e: &mut Option<Expression>, r: Resolution)
    ensures { option_map expression_of e.new ≡ retimed.option (retimed.expression (ticks_span r)) (option_map expression_of e.old) }
{
    match e {
        None => {}
        Some(e) => retime(e, r),
    }
}

/// The same of each expression.
pub(crate) fn retime_each(es: &mut [Expression], r: Resolution)
    ensures { map expression_of es.new ≡ map (retimed.expression (ticks_span r)) (map expression_of es.old) }
{
    for e in es.iter_mut() {
        retime(e, r);
    }
}
