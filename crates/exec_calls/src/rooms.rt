//! Room for calls.
ghost use Rattle.std.specs.Prelude.{◌≡◌, ℕ, OnOk, IsOk};
ghost use Rattle.exec_data.specs.KernelState.Kernel.{IsSound};
ghost use Rattle.exec_data.specs.KernelState.Moves.{Moves, Lives, HasStatement};
ghost use Rattle.exec_data.specs.Entered.{Shows};
ghost use Rattle.exec_calls.specs.Calling.{ReadyFor, HasRoomIn, JudgesDepth, ChangesBody, KeepsLeft};

use exec_data::kernel_bodies_api::{Program, many_locals};
use exec_data::kernel_state_api::Kernel;
use exec_data::logic_values_api::Value;
use exec_data::process_bodies_api::EnterStop;
use flat_design::CodeId;
use std::alloc::AllocError;

/// Makes room in the body of an instance for a call of this code. What is left of the body stays as it is.
///
/// # Errors
/// As many calls are open as may be; memory is refused.
pub fn reserve_call(k: &mut Kernel, p: u32, f: CodeId) -> Result<(), EnterStop>
    requires sound { IsSound k.old }
    requires lives { Lives k.old p }
    ensures stays { Moves k.old k.new (λ c. c) }
    ensures depth { JudgesDepth k.old p result }
    ensures ready { OnOk result (ReadyFor k.new p f) }
    ensures succeeds { ReadyFor k.old p f → IsOk result }
    ensures left { KeepsLeft p k.old k.new }
    ensures shows { (s : ℕ) → Shows k.old p s → Shows k.new p s }
    ensures statement { HasStatement k.old p → HasStatement k.new p }
    ensures others { ChangesBody p k.old k.new }
    ensures lives { Lives k.new p }
    ensures sound { IsSound k.new }
    ensures made { k.new.made ≡ k.old.made }
{
    match k.schedule.table.get_mut(p) {
        Some(x) => x.body.body.body.reserve(k.program, f),
        None => unreachable!(),
    }
}

/// Makes room in the arguments of a call for all local variables of this code. They stay as they are.
///
/// # Errors
/// Memory is refused.
pub fn reserve_locals(
    program: &Program,
    f: CodeId,
    arguments: &mut Vec<Value>,
) -> Result<(), AllocError>
    ensures items { arguments.new.items ≡ arguments.old.items }
    ensures room { OnOk result (HasRoomIn program.now f arguments.new) }
    ensures succeeds { HasRoomIn program.now f arguments.old → IsOk result }
{
    let more = many_locals(program, f, arguments.as_slice()) - arguments.len();
    match arguments.reserve(more) {
        Ok(()) => Ok(()),
        Err(_) => Err(AllocError),
    }
}
