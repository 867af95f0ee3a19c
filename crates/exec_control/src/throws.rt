//! Exceptions (IEEE 1666-2011, 5.6.6). None takes memory.
ghost use Rattle.std.specs.Prelude.{◌≡◌, Some};
ghost use Rattle.std.specs.FinMap as map;
ghost use Rattle.exec_data.specs.SimModel.Residual as residual;
ghost use Rattle.exec_data.specs.SimModel.Unwinding as unwinding;
ghost use Rattle.exec_data.specs.SimModel.Unwinding.{left_by_raise};
ghost use Rattle.exec_data.specs.SimModel.Configuration.{Config, Instance, instance_at, with_residual, arena};
ghost use Rattle.exec_data.specs.SimModel.Calls.{with_left, thrown};
ghost use Rattle.exec_data.specs.ProcessBodies.Bodies.{left_in};
ghost use Rattle.exec_data.specs.KernelTransactions.Board as board;
ghost use Rattle.exec_data.specs.KernelTransactions.Board.{StaysWithin, SameQuantum, left};
ghost use Rattle.exec_data.specs.KernelState.Kernel.{StandsFor, IsSound};
ghost use Rattle.exec_data.specs.KernelState.Moves.{MovesAt, Steps, Does, Lives};
ghost use Rattle.exec_control.specs.Unwound.{HasNoGoal};
ghost use Rattle.exec_control.specs.Others.{KeepsOthers};

use exec_data::kernel_bodies_api::Program;
use exec_data::kernel_state_api::Kernel;
use exec_data::kernel_transactions_api::{TransactionBoard, left_calls_end};
use exec_data::process_bodies_api::Body;
use exec_data::sim_model_api::Goal;
use flat_design::{NameId, RunFault};

/// Whether some `try` of an instance has a handler for an exception, where its next statement stands.
pub fn catches(k: &Kernel, p: u32, e: NameId) -> bool
    requires { Lives k.now p }
    ensures { (c : Config) (i : Instance) → StandsFor k.now c → instance_at c p ≡ Some i → result ≡ unwinding.catches (residual.settle (arena c) i.residual) e }
{
    match k.schedule.table.get(p) {
        Some(x) => x.body.body.body.catches(k.program, e),
        None => false,
    }
}

/// Finished parts of the body of an instance fall away. It is not being unwound, and is not then.
fn settle(k: &mut Kernel, p: u32)
    requires sound { IsSound k.old }
    requires lives { Lives k.old p }
    requires free { HasNoGoal k.old p }
    ensures steps { Steps k.old k.new p (λ c q i r. with_residual c q r) }
    ensures lives { Lives k.new p }
    ensures free { HasNoGoal k.new p }
    ensures sound { IsSound k.new }
    ensures made { k.new.made ≡ k.old.made }
{
    match k.schedule.table.get_mut(p) {
        Some(x) => x.body.body.body.settle(k.program),
        None => {}
    }
}

/// The transport calls that an exception leaves in a body end their transactions on their hops.
fn leave_calls(transactions: &mut TransactionBoard, program: &Program, body: &Body, e: NameId)
    ensures moves { board.Moves transactions.old transactions.new (λ x. left x (left_by_raise (left_in program.now body.now) e)) }
    ensures within { StaysWithin transactions.old transactions.new }
    ensures quantum { SameQuantum transactions.old transactions.new }
{
    let mut number = 0;
    while let Some(via) = body.left_by_raise(program, e, number) {
        transactions.abandon(via.hop, via.payload);
        number += 1;
    }
}

/// The transport calls that an exception leaves in an instance end their transactions on their hops.
fn leave(k: &mut Kernel, q: u32, e: NameId)
    requires sound { IsSound k.old }
    requires lives { Lives k.old q }
    ensures moves { MovesAt k.old k.new q (λ c i. with_left c (left_by_raise i.residual e)) }
    ensures schedule { k.new.schedule ≡ k.old.schedule }
    ensures program { k.new.program.now ≡ k.old.program.now }
    ensures sound { IsSound k.new }
    ensures made { k.new.made ≡ k.old.made }
{
    left_calls_end();
    match k.schedule.table.get(q) {
        Some(x) => leave_calls(&mut k.transactions, k.program, &x.body.body.body, e),
        None => {}
    }
}

/// An exception is raised in the body of an instance, which is not being unwound. The answer is whether some `try` names it;
/// where none does nothing changes.
fn raise(k: &mut Kernel, q: u32, e: NameId, end: Goal) -> bool
    requires sound { IsSound k.old }
    requires lives { Lives k.old q }
    requires free { HasNoGoal k.old q }
    ensures caught { (c : Config) (i : Instance) → StandsFor k.old c → instance_at c q ≡ Some i → result ≡ unwinding.catches i.residual e }
    ensures moves { MovesAt k.old k.new q (λ c i. with_residual c q (unwinding.raise (arena c) i.residual e end)) }
    ensures others { KeepsOthers q k.old k.new }
    ensures stack { k.new.schedule.stack ≡ k.old.schedule.stack }
    ensures lives { Lives k.new q }
    ensures sound { IsSound k.new }
    ensures made { k.new.made ≡ k.old.made }
{
    match k.schedule.table.get_mut(q) {
        Some(x) => x.body.body.body.raise(k.program, e, end),
        None => false,
    }
}

/// An exception is raised in an instance, which is not being unwound: what is inside the innermost `try` that names it is
/// unwound, before this goal, and then the handler follows; the transport calls that this leaves end their transactions. The
/// answer is whether some `try` names it; where none does nothing changes.
pub fn raise_at(k: &mut Kernel, q: u32, e: NameId, end: Goal) -> bool
    requires sound { IsSound k.old }
    requires lives { Lives k.old q }
    requires free { HasNoGoal k.old q }
    ensures caught { (c : Config) (i : Instance) → StandsFor k.old c → instance_at c q ≡ Some i → result ≡ unwinding.catches i.residual e }
    ensures moves { MovesAt k.old k.new q (λ c i. with_left (with_residual c q (unwinding.raise (arena c) i.residual e end)) (left_by_raise i.residual e)) }
    ensures others { KeepsOthers q k.old k.new }
    ensures stack { k.new.schedule.stack ≡ k.old.schedule.stack }
    ensures lives { Lives k.new q }
    ensures sound { IsSound k.new }
    ensures made { k.new.made ≡ k.old.made }
{
    left_calls_end();
    leave(k, q, e);
    raise(k, q, e, end)
}

/// `throw`: the exception goes to the innermost `try` that names it.
///
/// # Errors
/// Where none names it, and then nothing changes.
pub fn throw(k: &mut Kernel, p: u32, e: NameId) -> Result<(), RunFault>
    requires sound { IsSound k.old }
    requires lives { Lives k.old p }
    requires free { HasNoGoal k.old p }
    ensures does { Does k.old k.new result p (λ c q i r. thrown c q r e) }
    ensures sound { IsSound k.new }
    ensures made { k.new.made ≡ k.old.made }
{
    if !catches(k, p, e) {
        return Err(RunFault::Uncaught { name: e });
    }
    settle(k, p);
    let _ = raise_at(k, p, e, Goal::Thrown);
    Ok(())
}
