//! Control calls.
ghost use Rattle.std.specs.Prelude.{◌≡◌, ◌≢◌, Err, false};
ghost use Rattle.exec_data.specs.SimModel.Residual.{taken_off};
ghost use Rattle.exec_data.specs.SimModel.Configuration.{with_residual};
ghost use Rattle.exec_data.specs.SimModel.Storing.{passes};
ghost use Rattle.exec_data.specs.SimModel.Reading.{here};
ghost use Rattle.exec_data.specs.SimModel.Control.{control_call, do_control};
ghost use Rattle.exec_data.specs.KernelState.Kernel.{IsSound};
ghost use Rattle.exec_data.specs.KernelState.Moves.{Does, Lives, HasStatement};
ghost use Rattle.exec_data.specs.KernelState.Stopping.{DoesOrStops};
ghost use Rattle.exec_data.specs.Entered.{Shows};
ghost use Rattle.exec_data.specs.KernelState.Ways.{moved_on, HasOwed, MayMoveOn};

use crate::flags::{disable, enable, resume};
use crate::owing::owe;
use crate::suspending::suspend;
use crate::targets::target_at;
use exec_data::kernel_state_api::{Kernel, StatementStop, Way, kill, reset};
use exec_data::model_tree_api::Control;
use flat_design::{Controlled, RunFault, StmtId};
use std::alloc::Global;

/// A control call for the instance of this serial; the caller is past it this way already.
fn control_serial(k: &mut Kernel, p: u32, q: u32, order: Control, way: Way) -> Result<(), RunFault>
    requires sound { IsSound k.old }
    requires lives { Lives k.old p }
    requires may { MayMoveOn way k.old p }
    ensures does { Does k.old k.new result p (λ c s i r. control_call (moved_on way c s r) q order) }
    ensures sound { IsSound k.new }
    ensures made { k.new.made ≡ k.old.made }
{
    match order {
        Control::Suspend => {
            suspend(k, p, q, way);
            Ok(())
        }
        Control::Resume => {
            resume(k, p, q, way);
            Ok(())
        }
        Control::Disable => {
            disable(k, p, q, way);
            Ok(())
        }
        Control::Enable => {
            enable(k, p, q, way);
            Ok(())
        }
        Control::Kill => kill(k, p, q, way),
        Control::Reset => reset(k, p, q, way),
    }
}

/// A control call for the instance of this serial alone, by the statement in place.
///
/// # Errors
/// As `control`, but for an empty handle.
fn control_one(k: &mut Kernel, p: u32, q: u32, order: Control) -> Result<(), StatementStop>
    requires sound { IsSound k.old }
    requires lives { Lives k.old p }
    requires statement { HasStatement k.old p }
    ensures does { DoesOrStops k.old k.new result p (λ c s i r. control_call (passes c s r) q order) }
    ensures alone { result ≢ Err StatementStop.NoMemory }
    ensures sound { IsSound k.new }
    ensures made { k.new.made ≡ k.old.made }
{
    match control_serial(k, p, q, order, Way::Past) {
        Ok(()) => Ok(()),
        Err(fault) => Err(StatementStop::Fault(fault)),
    }
}

/// A control call: suspend, resume, disable, enable, kill or reset of the instance that a name holds, or of itself. Where it
/// reaches the descendants too, nothing happens to them yet: the statement owes the call to all that it reaches. For one alone it
/// takes no memory.
///
/// # Errors
/// An empty handle; a kill or a reset of an instance that is active below the top of the stack; for descendants, no memory for the
/// list. Then nothing changes.
pub fn control(
    k: &mut Kernel,
    alloc: Global,
    p: u32,
    s: StmtId,
    order: Control,
    who: Controlled,
    descendants: bool,
) -> Result<(), StatementStop>
    requires sound { IsSound k.old }
    requires lives { Lives k.old p }
    requires next { Shows k.old p s }
    ensures does { DoesOrStops k.old k.new result p (λ c q i r. do_control c q r (here c q i r) s order who descendants) }
    ensures alone { descendants ≡ false → result ≢ Err StatementStop.NoMemory }
    ensures sound { IsSound k.new }
    ensures made { k.new.made ≡ k.old.made }
{
    match target_at(k, p, who) {
        Ok(q) => {
            if descendants {
                owe(k, alloc, p, s, q)
            } else {
                control_one(k, p, q, order)
            }
        }
        Err(fault) => Err(StatementStop::Fault(fault)),
    }
}

/// The control call that a statement owes to the instance of this serial first. It takes no memory.
///
/// # Errors
/// A kill or a reset of an instance that is active below the top of the stack. Then nothing changes.
pub fn control_owed(k: &mut Kernel, p: u32, q: u32, order: Control) -> Result<(), RunFault>
    requires sound { IsSound k.old }
    requires lives { Lives k.old p }
    requires owes { HasOwed k.old p }
    ensures does { Does k.old k.new result p (λ c s i r. control_call (with_residual c s (taken_off r)) q order) }
    ensures sound { IsSound k.new }
    ensures made { k.new.made ≡ k.old.made }
{
    control_serial(k, p, q, order, Way::TakenOff)
}
