//! Calls.
ghost use Rattle.std.specs.Prelude.{◌≡◌, map};
ghost use Rattle.flat_design.specs.Code.{argument_term};
ghost use Rattle.exec_data.specs.SimModel.Reading.{here};
ghost use Rattle.exec_data.specs.SimModel.Calls.{do_call};
ghost use Rattle.exec_data.specs.KernelState.Kernel.{IsSound};
ghost use Rattle.exec_data.specs.KernelState.Moves.{Lives, HasStatement};
ghost use Rattle.exec_data.specs.KernelState.Stopping.{DoesOrStops};
ghost use Rattle.exec_data.specs.Entered.{Shows};

use crate::arguments::{argument_values, judge_arguments};
use crate::{EnterStop, enter_ready_call, reserve_call};
use exec_data::kernel_state_api::{Kernel, StatementStop};
use flat_design::{Argument, CodeId, RunFault, StmtId};
use std::alloc::Global;

/// A call of a function: its arguments are evaluated from the left to the right, each cut to its parameter's type, and then its
/// body comes in the place of the statement.
///
/// # Errors
/// The first fault of its arguments; as many calls are open as may be; no memory, where there is no fault. Then nothing changes.
pub fn call(
    k: &mut Kernel,
    alloc: Global,
    p: u32,
    s: StmtId,
    f: CodeId,
    arguments: &[Argument],
) -> Result<(), StatementStop>
    requires sound { IsSound k.old }
    requires lives { Lives k.old p }
    requires statement { HasStatement k.old p }
    requires next { Shows k.old p s }
    ensures does { DoesOrStops k.old k.new result p (λ c q i r. do_call c q r (here c q i r) s f (map argument_term arguments.now)) }
    ensures sound { IsSound k.new }
    ensures made { k.new.made ≡ k.old.made }
{
    let _ = s;
    match judge_arguments(k, p, arguments) {
        Ok(()) => {}
        Err(fault) => return Err(StatementStop::Fault(fault)),
    }
    match reserve_call(k, p, f) {
        Ok(()) => {}
        Err(EnterStop::TooDeep) => return Err(StatementStop::Fault(RunFault::FrameDepth)),
        Err(EnterStop::NoMemory) => return Err(StatementStop::NoMemory),
    }
    match argument_values(k, alloc, p, f, arguments) {
        Ok(values) => {
            enter_ready_call(k, p, f, values, None);
            Ok(())
        }
        Err(_) => Err(StatementStop::NoMemory),
    }
}
