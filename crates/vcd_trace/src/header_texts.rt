//! The header of the trace of a session.
ghost use Rattle.std.specs.Prelude.{◌≡◌, [], IfOk};
ghost use Rattle.laws_runs.specs.SimModel.Configuration.{Config};
ghost use Rattle.laws_runs.specs.SimModel.Trace as spec;
ghost use Rattle.kernel_state.specs.Kernel.{StandsFor};
ghost use Rattle.vcd_trace.specs.Traced.{trace_so_far};

use crate::header;
use kernel_state::Kernel;
use laws_runs::logic_values_api::Text;
use std::alloc::{AllocError, Global};

/// What the trace of a session begins with, by its kernel: the header of the design (IEEE 1364-2005, 18.2). Before the first
/// snapshot it is all of the text (`begins`).
///
/// # Errors
/// Memory was refused.
pub fn header_text(alloc: Global, k: &Kernel) -> Result<Text, AllocError>
    ensures header { IfOk result (λ text. (c : Config) → StandsFor k.now c → text ≡ spec.header c.design) }
    ensures begins { IfOk result (λ text. (c : Config) → StandsFor k.now c → c.trace.snapshots ≡ [] → text ≡ trace_so_far c) }
{
    header(alloc, &k.design)
}
