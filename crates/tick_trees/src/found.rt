//! A time that is none of a resolution, and the times of one construct.
ghost use Rattle.std.specs.Prelude.{◌≡◌, [], ◌∷◌};
ghost use Rattle.std.specs.Option.{option_or};
ghost use Rattle.tick_trees.specs.Times.{span_if, timed};
ghost use Rattle.tick_trees.specs.Unfit as spec;

use model_tree::sim_time_api::{Resolution, UnitStop, of_unit};
use model_tree::{ClockItem, Span};

/// A time of a tree that is none of a resolution.
#[derive(Clone, Copy)]
pub struct Unfit {
    /// The line of the literal, or of the clock that has it.
    pub line: u32,
    /// The time as it is written.
    pub span: Span,
    /// Whether it is past the range, or no whole number of resolutions.
    pub stop: UnitStop,
}

/// The time where it is 2^64 resolutions or more.
fn late(line: u32, span: Span, r: Resolution) -> Option<Unfit>
    ensures { result ≡ spec.late r line span }
{
    match of_unit(span.count, span.unit, r) {
        Ok(_) | Err(UnitStop::Inexact) => None,
        Err(UnitStop::Range) => Some(Unfit {
            line,
            span,
            stop: UnitStop::Range,
        }),
    }
}

/// The time where it is no whole number of resolutions.
fn inexact(line: u32, span: Span, r: Resolution) -> Option<Unfit>
    ensures { result ≡ spec.inexact r line span }
{
    match of_unit(span.count, span.unit, r) {
        Ok(_) | Err(UnitStop::Range) => None,
        Err(UnitStop::Inexact) => Some(Unfit {
            line,
            span,
            stop: UnitStop::Inexact,
        }),
    }
}

/// The first of two findings.
pub(crate) fn either(first: Option<Unfit>, second: Option<Unfit>) -> Option<Unfit>
    ensures { result ≡ option_or first second }
{
    match first {
        None => second,
        Some(first) => Some(first),
    }
}

/// The time of a literal, where it is none of the resolution.
pub(crate) fn in_literal(line: u32, span: Span, r: Resolution) -> Option<Unfit>
    ensures { result ≡ spec.unfit_in r (timed line (span ∷ [])) }
{
    either(late(line, span, r), inexact(line, span, r))
}

fn late_start(line: u32, start: Option<Span>, r: Resolution) -> Option<Unfit>
    ensures { result ≡ spec.first (spec.late r line) (span_if start) }
{
    match start {
        None => None,
        Some(start) => late(line, start, r),
    }
}

fn inexact_start(line: u32, start: Option<Span>, r: Resolution) -> Option<Unfit>
    ensures { result ≡ spec.first (spec.inexact r line) (span_if start) }
{
    match start {
        None => None,
        Some(start) => inexact(line, start, r),
    }
}

/// Of the times of a clock the first that is past the range, and else the first that is inexact.
pub(crate) fn in_clock(line: u32, clock: &ClockItem, r: Resolution) -> Option<Unfit>
    ensures { result ≡ spec.unfit_in r (timed line (clock.now.period ∷ clock.now.high ∷ span_if clock.now.start)) }
{
    let high_late = either(late(line, clock.high, r), late_start(line, clock.start, r));
    let first_late = either(late(line, clock.period, r), high_late);
    let high_inexact = either(
        inexact(line, clock.high, r),
        inexact_start(line, clock.start, r),
    );
    let first_inexact = either(inexact(line, clock.period, r), high_inexact);
    either(first_late, first_inexact)
}
