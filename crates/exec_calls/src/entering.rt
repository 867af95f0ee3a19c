//! Calls that are entered.
ghost use Rattle.std.specs.Prelude.{◌≡◌, ℕ, OnOk, OnErr, IsOk};
ghost use Rattle.exec_data.specs.SimModel.Calls.{enters};
ghost use Rattle.exec_data.specs.KernelState.Kernel.{IsSound};
ghost use Rattle.exec_data.specs.KernelState.Moves.{Moves, Steps, Lives, HasStatement};
ghost use Rattle.exec_data.specs.Entered.{Shows};
ghost use Rattle.exec_calls.specs.Calling.{ReadyFor, HasRoomIn, JudgesDepth, ChangesBody, KeepsLeft};

use exec_data::kernel_state_api::Kernel;
use exec_data::logic_values_api::Value;
use exec_data::process_bodies_api::EnterStop;
use exec_data::sim_model_api::Via;
use flat_design::CodeId;

/// The statement in place of an instance calls this code with these arguments. After `reserve_call`, and with arguments that
/// have room for all local variables, it takes no memory.
///
/// # Errors
/// As many calls are open as may be; memory is refused. Then what is left of the body stays as it is.
pub fn enter_call(
    k: &mut Kernel,
    p: u32,
    f: CodeId,
    arguments: Vec<Value>,
    via: Option<Via>,
) -> Result<(), EnterStop>
    requires sound { IsSound k.old }
    requires lives { Lives k.old p }
    requires statement { HasStatement k.old p }
    ensures enters { OnOk result ((s : ℕ) → Shows k.old p s → Steps k.old k.new p (λ c q i r. enters c q r s f arguments.items via)) }
    ensures stays { OnErr result (Moves k.old k.new (λ c. c)) }
    ensures left { OnErr result (KeepsLeft p k.old k.new) }
    ensures depth { JudgesDepth k.old p result }
    ensures succeeds { ReadyFor k.old p f → HasRoomIn k.old.program.now f arguments → IsOk result }
    ensures others { ChangesBody p k.old k.new }
    ensures lives { Lives k.new p }
    ensures sound { IsSound k.new }
    ensures made { k.new.made ≡ k.old.made }
{
    match k.schedule.table.get_mut(p) {
        Some(x) => x.body.body.body.enter(k.program, f, arguments, via),
        None => unreachable!(),
    }
}

/// The same where there is room for it: it cannot fail, and takes no memory.
pub fn enter_ready_call(k: &mut Kernel, p: u32, f: CodeId, arguments: Vec<Value>, via: Option<Via>)
    requires sound { IsSound k.old }
    requires lives { Lives k.old p }
    requires statement { HasStatement k.old p }
    requires ready { ReadyFor k.old p f }
    requires room { HasRoomIn k.old.program.now f arguments }
    ensures enters { (s : ℕ) → Shows k.old p s → Steps k.old k.new p (λ c q i r. enters c q r s f arguments.items via) }
    ensures others { ChangesBody p k.old k.new }
    ensures lives { Lives k.new p }
    ensures sound { IsSound k.new }
    ensures made { k.new.made ≡ k.old.made }
{
    match enter_call(k, p, f, arguments, via) {
        Ok(()) => {}
        Err(_) => unreachable!(),
    }
}
