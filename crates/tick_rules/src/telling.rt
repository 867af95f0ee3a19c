//! How a fault of the tree of ticks is told of the text.
ghost use Rattle.std.specs.Prelude.{◌≡◌};
ghost use Rattle.model_tree.specs.SimTime.declared.moments.UnitStop.TheVariants as stop;
ghost use Rattle.model_tree.specs.Stops.{IfRefused};
ghost use Rattle.tick_rules.specs.Sources as spec;

use model_tree::sim_time_api::UnitStop;
use model_tree::{CheckStop, Fault, Kind, Span};
use std::alloc::Global;
use tick_trees::{Unfit, inexact_name};

fn is_literal(kind: Kind) -> bool
    ensures { result ≡ spec.is_literal kind }
{
    matches!(kind, Kind::LiteralRange)
}

/// A time that is no whole number of resolutions, on the line of this fault.
fn inexact(alloc: Global, fault: Fault, span: Span) -> CheckStop
    ensures { IfRefused result (λ f. f ≡ spec.told_stop fault span stop.Inexact) }
{
    match inexact_name(alloc, span) {
        Ok(name) => CheckStop::Refused(Fault {
            kind: Kind::InexactTime,
            line: fault.line,
            name,
        }),
        Err(_) => CheckStop::NoMemory,
    }
}

/// A literal that is none, as it is told where this is the first unfit time.
fn told_unfit(alloc: Global, fault: Fault, found: Unfit) -> CheckStop
    ensures { IfRefused result (λ f. f ≡ spec.told_stop fault found.span found.stop) }
{
    match found.stop {
        UnitStop::Inexact => inexact(alloc, fault, found.span),
        UnitStop::Range => CheckStop::Refused(fault),
    }
}

fn told_literal(alloc: Global, fault: Fault, unfit: Option<Unfit>) -> CheckStop
    ensures { IfRefused result (λ f. f ≡ spec.told_literal fault unfit) }
{
    match unfit {
        None => CheckStop::Refused(fault),
        Some(found) => told_unfit(alloc, fault, found),
    }
}

/// How the first fault of the tree of ticks is told, where this is the first unfit time of the tree as it was written: a literal is past
/// the range, or inexact; any other fault is told as it is.
pub fn told_fault(alloc: Global, fault: Fault, unfit: Option<Unfit>) -> CheckStop
    ensures { IfRefused result (λ f. f ≡ spec.told_fault unfit fault) }
{
    if is_literal(fault.kind) {
        told_literal(alloc, fault, unfit)
    } else {
        CheckStop::Refused(fault)
    }
}
