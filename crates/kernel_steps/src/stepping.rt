//! The step of an instance.
ghost use Rattle.std.specs.Prelude.{◌≡◌, ◌≤◌, ◌<◌, ◌+◌, ◌-◌, ◌^◌, ℕ, true, All, Ok};
ghost use Rattle.flat_design.specs.declared.faults.RunFault.{RunFault};
ghost use Rattle.flat_design.specs.Code.{arena_of, statement_at};
ghost use Rattle.exec_channels.specs.SimModel.Residual as residual;
ghost use Rattle.exec_channels.specs.SimModel.Residual.{Frame};
ghost use Rattle.exec_channels.specs.SimModel.Control as control;
ghost use Rattle.exec_channels.specs.SimModel.Statements as statements;
ghost use Rattle.exec_channels.specs.SimModel.declared.plain.Goal.{Goal as Aim};
ghost use Rattle.exec_channels.specs.KernelState.Kernel.{IsSound};
ghost use Rattle.exec_channels.specs.KernelState.Moves.{IsOnTop, Lives};
ghost use Rattle.exec_control.specs.ExecData.Entered.{Shows};
ghost use Rattle.exec_control.specs.Unwound.{Reaches, ThrowsFreeIf, ThrowsFreeNext};
ghost use Rattle.exec_transactions.specs.ExecCalls.Calling.{Leaves};
ghost use Rattle.exec_control.specs.Thrown.{OthersHaveNoGoal};
ghost use Rattle.kernel_steps.specs.Owing.{Owes};
ghost use Rattle.kernel_steps.specs.Ready.{Ready};
ghost use Rattle.kernel_steps.specs.Shown.{ComesNext};
ghost use Rattle.kernel_steps.specs.Taking.{takes_memory_if, StepTakes, IsNoThread};
ghost use Rattle.kernel_steps.specs.StepAnswers.{MakesAll, MakesStep, whole_step};

use crate::answers::{StepAnswer, StepBrief, plain};
use crate::carrying::carry_out;
use crate::leaving::leave;
use crate::owing::on_owed;
use exec_channels::kernel_bodies_api::Next;
use exec_channels::kernel_state_api::{Kernel, pass, top_lives};
use exec_channels::sim_model_api::Goal;
use exec_control::{body_ends, reach_goal};
use flat_design::StmtId;
use std::alloc::Global;

/// What comes next in the body of an instance, once finished parts have fallen away.
#[inline(always)]
fn next_at(k: &Kernel, p: u32) -> Next
    requires sound { IsSound k.now }
    requires lives { Lives k.now p }
    ensures statement { (s : ℕ) → result ≡ Next.Statement s → Shows k.now p s }
    ensures goal { (g : Aim) → result ≡ Next.Goal g → Reaches k.now p g }
    ensures shows_statement { (s : ℕ) → result ≡ Next.Statement s → ComesNext k.now p (residual.statement s) }
    ensures shows_goal { (g : Aim) → result ≡ Next.Goal g → ComesNext k.now p (residual.reaches g) }
    ensures shows_done { result ≡ Next.Done → ComesNext k.now p residual.done }
    ensures shows_nothing { result ≡ Next.Nothing → ComesNext k.now p residual.nothing }
    ensures leaves { result ≡ Next.Leave → Leaves k.now p }
    ensures shows_leave { result ≡ Next.Leave → (x : Frame) × ComesNext k.now p (residual.leaves x) }
    ensures owes { (s q : ℕ) → result ≡ Next.Batch s q → Owes k.now p s q }
    ensures shows_owed { (s q : ℕ) → result ≡ Next.Batch s q → ComesNext k.now p (residual.owes s q) }
{
    match k.schedule.table.get(p) {
        Some(x) => x.body.body.body.next(k.program),
        None => Next::Nothing,
    }
}

/// The statement of this number comes next, and is carried out; where there is none it is past. Memory is refused only where it may
/// take any.
#[inline(always)]
fn on_statement(
    k: &mut Kernel,
    alloc: Global,
    p: u32,
    s: StmtId,
    said: &mut StepAnswer,
) -> StepBrief
    requires sound { IsSound k.old }
    requires top { IsOnTop k.old p }
    requires ready { Ready k.old }
    requires room { k.old.made < 2 ^ 31 + 2 }
    requires posts { All (λ v. v < 2 ^ 64 - 1) k.old.channels.semaphores }
    requires others { OthersHaveNoGoal k.old }
    requires next { Shows k.old p s }
    requires free { ThrowsFreeIf k.old p (statement_at (arena_of k.old.program.now.code) s) }
    ensures makes { MakesAll k.old k.new (whole_step result said.new) p (λ c q i r. statements.on_statement c q i r s (statement_at (arena_of k.old.program.now.code) s)) }
    ensures sound { IsSound k.new }
    ensures made { k.new.made ≤ k.old.made + 1 }
    ensures refused { whole_step result said.new ≡ StepAnswer.NoMemory → k.new.made ≡ k.old.made }
    ensures faulted { (f : RunFault) → whole_step result said.new ≡ StepAnswer.Fault f → k.new.made ≡ k.old.made }
    ensures memory { whole_step result said.new ≡ StepAnswer.NoMemory → takes_memory_if (statement_at (arena_of k.old.program.now.code) s) ≡ true }
{
    top_lives(k, p);
    let program = k.program;
    match program.statement(s) {
        Some(x) => carry_out(k, alloc, p, s, x, said),
        None => {
            pass(k, p);
            StepBrief::Went
        }
    }
}

/// The body of the instance on top has ended. A thread takes no memory.
#[inline(always)]
fn end_body(k: &mut Kernel, p: u32, said: &mut StepAnswer) -> StepBrief
    requires sound { IsSound k.old }
    requires top { IsOnTop k.old p }
    ensures makes { MakesAll k.old k.new (whole_step result said.new) p (λ c q i r. Ok (control.done_by c q i i.kind)) }
    ensures memory { whole_step result said.new ≡ StepAnswer.NoMemory → IsNoThread k.old p }
    ensures sound { IsSound k.new }
    ensures made { k.new.made ≡ k.old.made }
{
    match body_ends(k, p) {
        Ok(()) => StepBrief::Went,
        Err(_) => {
            *said = StepAnswer::NoMemory;
            StepBrief::Said
        }
    }
}

/// One step of the instance on top (IEEE 1666-2011, 4.2.1.2): finished parts of its body fall away, and what comes next is
/// carried out. Where more is to be said than that it is made, `said` says it; it is to be looked at in no other case. Memory is refused only
/// to a statement that may take any, and to a method that waits again.
pub fn step_statement(k: &mut Kernel, alloc: Global, p: u32, said: &mut StepAnswer) -> StepBrief
    requires sound { IsSound k.old }
    requires top { IsOnTop k.old p }
    requires ready { Ready k.old }
    requires room { k.old.made < 2 ^ 31 + 2 }
    requires posts { All (λ v. v < 2 ^ 64 - 1) k.old.channels.semaphores }
    requires others { OthersHaveNoGoal k.old }
    requires free { ThrowsFreeNext k.old p }
    ensures makes { MakesStep k.old k.new (whole_step result said.new) p }
    ensures sound { IsSound k.new }
    ensures made { k.new.made ≤ k.old.made + 1 }
    ensures refused { whole_step result said.new ≡ StepAnswer.NoMemory → k.new.made ≡ k.old.made }
    ensures faulted { (f : RunFault) → whole_step result said.new ≡ StepAnswer.Fault f → k.new.made ≡ k.old.made }
    ensures memory { whole_step result said.new ≡ StepAnswer.NoMemory → StepTakes k.old p }
{
    top_lives(k, p);
    match next_at(k, p) {
        Next::Statement(s) => on_statement(k, alloc, p, s, said),
        Next::Batch(s, q) => on_owed(k, p, s, q, said),
        Next::Leave => plain(leave(k, p), said),
        Next::Done => end_body(k, p, said),
        Next::Goal(goal) => {
            reach_goal(k, p, goal);
            StepBrief::Went
        }
        Next::Nothing => end_body(k, p, said),
    }
}
