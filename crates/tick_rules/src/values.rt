//! Constants and clocks.
ghost use Rattle.std.specs.Prelude.{◌≡◌};
ghost use Rattle.tick_trees.specs.Retimed as retimed;
ghost use Rattle.tick_trees.specs.Ticks.{ticks_span};

use crate::retime_span;
use model_tree::sim_time_api::Resolution;
use model_tree::{ClockItem, Constant, ConstantForm, Span};

/// Writes the time of a constant as a number of resolutions.
pub(crate) fn retime_constant(constant: &mut Constant, r: Resolution)
    ensures { constant.new ≡ retimed.constant_ (ticks_span r) constant.old }
{
    match constant.form {
        ConstantForm::Number(_)
        | ConstantForm::Negative(_)
        | ConstantForm::Logic(_)
        | ConstantForm::Truth(_) => {}
        ConstantForm::Time(count, unit) => {
            let ticks = retime_span(Span { count, unit }, r);
            constant.form = ConstantForm::Time(ticks.count, ticks.unit);
        }
    }
}

/// The same where a constant is written.
pub(crate) fn retime_first(constant: &mut Option<Constant>, r: Resolution)
    ensures { constant.new ≡ retimed.option (retimed.constant_ (ticks_span r)) constant.old }
{
    match constant {
        None => {}
        Some(constant) => retime_constant(constant, r),
    }
}

/// A time, where one is written, as its number of resolutions.
fn retimed_start(start: Option<Span>, r: Resolution) -> Option<Span>
    ensures { result ≡ retimed.option (ticks_span r) start }
{
    match start {
        None => None,
        Some(start) => Some(retime_span(start, r)),
    }
}

/// Writes the times of a clock as numbers of resolutions.
pub(crate) fn retime_clock(clock: &mut ClockItem, r: Resolution)
    ensures { clock.new ≡ retimed.clock (ticks_span r) clock.old }
{
    clock.period = retime_span(clock.period, r);
    clock.high = retime_span(clock.high, r);
    clock.start = retimed_start(clock.start, r);
}
