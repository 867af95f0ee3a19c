//! Statements that wait and that notify, whole.
ghost use Rattle.std.specs.Prelude.{◌≡◌, ◌≢◌};
ghost use Rattle.flat_design.specs.Code as code;
ghost use Rattle.flat_design.specs.Code.{await_term, term_of};
ghost use Rattle.exec_channels.specs.KernelState.Kernel.{IsSound, whole_design};
ghost use Rattle.exec_channels.specs.KernelState.Moves.{HasStatement, IsOnTop};
ghost use Rattle.exec_transactions.specs.ExecEvents.Numbers.{NumbersEvents};
ghost use Rattle.kernel_steps.specs.StepAnswers.{Carries, whole_step};

use crate::answers::{StepAnswer, StepBrief, plain, taking};
use exec_channels::kernel_state_api::{Kernel, top_lives};
use exec_transactions::exec_events_api::{notify_after, trigger_statement, wait_statement};
use flat_design::{Await, Expr, StmtId};
use std::alloc::Global;

/// `notify` after a time.
pub(crate) fn notify_after_step(
    k: &mut Kernel,
    p: u32,
    s: StmtId,
    n: u32,
    e: &Expr,
    said: &mut StepAnswer,
) -> StepBrief
    requires sound { IsSound k.old }
    requires top { IsOnTop k.old p }
    requires statement { HasStatement k.old p }
    ensures carries { Carries k.old k.new (whole_step result said.new) p s (code.notify_after n (term_of e.now)) }
    ensures takes_none { whole_step result said.new ≢ StepAnswer.NoMemory }
    ensures sound { IsSound k.new }
    ensures made { k.new.made ≡ k.old.made }
{
    top_lives(k, p);
    plain(notify_after(k, p, n, e), said)
}

/// `wait`.
pub(crate) fn wait_step(
    k: &mut Kernel,
    alloc: Global,
    p: u32,
    s: StmtId,
    how: &Await,
    said: &mut StepAnswer,
) -> StepBrief
    requires sound { IsSound k.old }
    requires top { IsOnTop k.old p }
    requires statement { HasStatement k.old p }
    requires numbers { NumbersEvents (whole_design k.old) }
    ensures carries { Carries k.old k.new (whole_step result said.new) p s (code.wait (await_term how.now)) }
    ensures sound { IsSound k.new }
    ensures made { k.new.made ≡ k.old.made }
{
    taking(wait_statement(k, alloc, p, how), said)
}

/// `next_trigger`.
pub(crate) fn trigger_step(
    k: &mut Kernel,
    alloc: Global,
    p: u32,
    s: StmtId,
    how: &Await,
    said: &mut StepAnswer,
) -> StepBrief
    requires sound { IsSound k.old }
    requires top { IsOnTop k.old p }
    requires statement { HasStatement k.old p }
    requires numbers { NumbersEvents (whole_design k.old) }
    ensures carries { Carries k.old k.new (whole_step result said.new) p s (code.next_trigger (await_term how.now)) }
    ensures sound { IsSound k.new }
    ensures made { k.new.made ≡ k.old.made }
{
    top_lives(k, p);
    taking(trigger_statement(k, alloc, p, how), said)
}
