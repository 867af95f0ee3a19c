//! A statement of any form, carried out.
ghost use Rattle.std.specs.Prelude.{◌≡◌, ◌≤◌, ◌<◌, ◌+◌, ◌-◌, ◌^◌, true, false, All, Some};
ghost use Rattle.flat_design.specs.declared.faults.RunFault.{RunFault};
ghost use Rattle.flat_design.specs.Code.{arena_of, statement_at, statement_of};
ghost use Rattle.exec_channels.specs.KernelState.Kernel.{IsSound, whole_design};
ghost use Rattle.exec_channels.specs.KernelState.Moves.{HasStatement, IsOnTop};
ghost use Rattle.exec_control.specs.ExecData.Entered.{Shows};
ghost use Rattle.exec_control.specs.ExecData.Written.{NamesFit};
ghost use Rattle.exec_transactions.specs.ExecEvents.Numbers.{NumbersEvents};
ghost use Rattle.exec_control.specs.Thrown.{OthersHaveNoGoal};
ghost use Rattle.exec_control.specs.Unwound.{ThrowsFree};
ghost use Rattle.kernel_steps.specs.Taking.{takes_memory};
ghost use Rattle.kernel_steps.specs.StepAnswers.{CarriesAll, whole_step};
ghost use Rattle.kernel_steps.specs.Usual.{is_usual};

use crate::answers::{StepAnswer, StepBrief, plain, taking};
use crate::data::{assign_step, if_step, print_step, var_step, while_step, write_step};
use crate::events::{notify_after_step, trigger_step, wait_step};
use exec_channels::kernel_state_api::{Kernel, top_lives};
use exec_channels::{lock, nb_read, nb_write, post, read, sem_trywait, sem_wait, trylock, unlock};
use exec_control::exec_data_api::return_value;
use exec_control::{begin_guard, begin_try, control, throw, throw_it};
use exec_transactions::exec_calls_api::{call, spawn};
use exec_transactions::exec_events_api::{cancel_named, notify_delta, notify_named, stop};
use exec_transactions::{
    acquire, b_transport, carry, make, nb_transport, qk_global, qk_inc, qk_reset, qk_set, release,
};
use flat_design::{Statement, StmtId};
use std::alloc::Global;

/// A statement comes next.
fn has_statement(k: &Kernel, p: u32, s: StmtId)
    requires { Shows k.now p s }
    ensures { HasStatement k.now p }
{
    let _ = s;
}

/// Statement s, which comes next in the body of the instance on top, is carried out. Memory is refused only where it may take any.
///
/// The usual forms are calls here that answer in a word; all others are carried out apart, so that the room that they need is not
/// cleared for a usual one.
pub(crate) fn carry_out(
    k: &mut Kernel,
    alloc: Global,
    p: u32,
    s: StmtId,
    statement: &Statement,
    said: &mut StepAnswer,
) -> StepBrief
    requires sound { IsSound k.old }
    requires top { IsOnTop k.old p }
    requires names { NamesFit (whole_design k.old) }
    requires numbers { NumbersEvents (whole_design k.old) }
    requires room { k.old.made < 2 ^ 31 + 2 }
    requires posts { All (λ v. v < 2 ^ 64 - 1) k.old.channels.semaphores }
    requires next { Shows k.old p s }
    requires there { statement_at (arena_of k.old.program.now.code) s ≡ Some (statement_of statement.now) }
    requires free { ThrowsFree k.old p (statement_of statement.now) }
    requires others { OthersHaveNoGoal k.old }
    ensures carries { CarriesAll k.old k.new (whole_step result said.new) p s (statement_of statement.now) }
    ensures sound { IsSound k.new }
    ensures made { k.new.made ≤ k.old.made + 1 }
    ensures refused { whole_step result said.new ≡ StepAnswer.NoMemory → k.new.made ≡ k.old.made }
    ensures faulted { (f : RunFault) → whole_step result said.new ≡ StepAnswer.Fault f → k.new.made ≡ k.old.made }
    ensures memory { whole_step result said.new ≡ StepAnswer.NoMemory → takes_memory (statement_of statement.now) ≡ true }
{
    top_lives(k, p);
    has_statement(k, p, s);
    match statement {
        Statement::Var(n, t, e) => var_step(k, p, s, *n, *t, e, said),
        Statement::Assign(to, e) => assign_step(k, p, s, to, e, said),
        Statement::Write(to, t, e) => write_step(k, p, s, to, *t, e, said),
        Statement::Print(text, e) => print_step(k, p, s, text, e, said),
        Statement::Notify(n) => {
            notify_named(k, p, *n);
            StepBrief::Went
        }
        Statement::NotifyDelta(n) => {
            notify_delta(k, p, *n);
            StepBrief::Went
        }
        Statement::NotifyAfter(n, e) => notify_after_step(k, p, s, *n, e, said),
        Statement::Wait(how) => wait_step(k, alloc, p, s, how, said),
        Statement::NextTrigger(how) => trigger_step(k, alloc, p, s, how, said),
        Statement::If(e, b, other) => if_step(k, p, s, e, *b, *other, said),
        Statement::While(e, b) => while_step(k, p, s, e, *b, said),
        _ => carry_rare(k, alloc, p, s, statement, said),
    }
}

/// The same of a form that is not usual.
#[inline(never)]
fn carry_rare(
    k: &mut Kernel,
    alloc: Global,
    p: u32,
    s: StmtId,
    statement: &Statement,
    said: &mut StepAnswer,
) -> StepBrief
    requires sound { IsSound k.old }
    requires top { IsOnTop k.old p }
    requires names { NamesFit (whole_design k.old) }
    requires numbers { NumbersEvents (whole_design k.old) }
    requires room { k.old.made < 2 ^ 31 + 2 }
    requires posts { All (λ v. v < 2 ^ 64 - 1) k.old.channels.semaphores }
    requires next { Shows k.old p s }
    requires there { statement_at (arena_of k.old.program.now.code) s ≡ Some (statement_of statement.now) }
    requires rare { is_usual (statement_of statement.now) ≡ false }
    requires free { ThrowsFree k.old p (statement_of statement.now) }
    requires others { OthersHaveNoGoal k.old }
    ensures carries { CarriesAll k.old k.new (whole_step result said.new) p s (statement_of statement.now) }
    ensures sound { IsSound k.new }
    ensures made { k.new.made ≤ k.old.made + 1 }
    ensures refused { whole_step result said.new ≡ StepAnswer.NoMemory → k.new.made ≡ k.old.made }
    ensures faulted { (f : RunFault) → whole_step result said.new ≡ StepAnswer.Fault f → k.new.made ≡ k.old.made }
    ensures memory { whole_step result said.new ≡ StepAnswer.NoMemory → takes_memory (statement_of statement.now) ≡ true }
{
    top_lives(k, p);
    has_statement(k, p, s);
    match statement {
        Statement::Call(_, f, arguments) => {
            taking(call(k, alloc, p, s, *f, arguments.as_slice()), said)
        }
        Statement::Read(target, at) => taking(read(k, p, *target, at), said),
        Statement::NbRead(target, at, to) => plain(nb_read(k, p, *target, at, *to), said),
        Statement::NbWrite(target, at, t, e) => plain(nb_write(k, p, *target, at, *t, e), said),
        Statement::Trylock(target, at) => plain(trylock(k, p, *target, at), said),
        Statement::Unlock(target, at) => plain(unlock(k, p, *target, at), said),
        Statement::SemTrywait(target, at) => plain(sem_trywait(k, p, *target, at), said),
        Statement::NbTransport(_, socket, n, phase, d) => {
            taking(nb_transport(k, alloc, p, s, *socket, *n, *phase, *d), said)
        }
        Statement::Cancel(n) => {
            cancel_named(k, p, *n);
            StepBrief::Went
        }
        Statement::Lock(at) => taking(lock(k, p, at), said),
        Statement::SemWait(at) => taking(sem_wait(k, p, at), said),
        Statement::Post(at) => plain(post(k, p, at), said),
        Statement::Make(n, e, more) => taking(make(k, p, *n, e, more), said),
        Statement::Acquire(n) => plain(acquire(k, p, *n), said),
        Statement::Release(n) => plain(release(k, p, *n), said),
        Statement::Carry(n, m) => plain(carry(k, alloc, p, *n, *m), said),
        Statement::BTransport(socket, n, d) => {
            taking(b_transport(k, alloc, p, s, *socket, *n, *d), said)
        }
        Statement::QkGlobal(e) => plain(qk_global(k, p, e), said),
        Statement::QkInc(n, e) => plain(qk_inc(k, p, *n, e), said),
        Statement::QkSet(n, e) => plain(qk_set(k, p, *n, e), said),
        Statement::QkReset(n) => plain(qk_reset(k, p, *n), said),
        Statement::Spawn(form) => taking(spawn(k, alloc, p, form), said),
        Statement::Control(order, who, descendants) => {
            taking(control(k, alloc, p, s, *order, *who, *descendants), said)
        }
        Statement::ThrowIt(who, e, descendants) => {
            taking(throw_it(k, alloc, p, s, *who, *e, *descendants), said)
        }
        Statement::Throw(e) => plain(throw(k, p, *e), said),
        Statement::Return(e) => plain(return_value(k, p, e), said),
        Statement::Stop => {
            stop(k, p);
            StepBrief::Went
        }
        Statement::Guard(b, u) => {
            begin_guard(k, p, s, *b, *u);
            StepBrief::Went
        }
        Statement::Try(b, _) => {
            begin_try(k, p, s, *b);
            StepBrief::Went
        }
        Statement::Var(_, _, _) => unreachable!(),
        Statement::Assign(_, _) => unreachable!(),
        Statement::Write(_, _, _) => unreachable!(),
        Statement::Print(_, _) => unreachable!(),
        Statement::Notify(_) => unreachable!(),
        Statement::NotifyDelta(_) => unreachable!(),
        Statement::NotifyAfter(_, _) => unreachable!(),
        Statement::Wait(_) => unreachable!(),
        Statement::NextTrigger(_) => unreachable!(),
        Statement::If(_, _, _) => unreachable!(),
        Statement::While(_, _) => unreachable!(),
    }
}
