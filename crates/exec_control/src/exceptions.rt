//! Exceptions for other instances, and for itself.
ghost use Rattle.std.specs.Prelude.{◌≡◌, ◌≢◌, Some, Err, false};
ghost use Rattle.exec_data.specs.SimModel.Residual.{taken_off};
ghost use Rattle.exec_data.specs.SimModel.Configuration.{Config, Instance, instance_at, with_residual};
ghost use Rattle.exec_data.specs.SimModel.Reading.{here};
ghost use Rattle.exec_data.specs.SimModel.Storing.{passes};
ghost use Rattle.exec_data.specs.SimModel.Control.{throw_call, do_throw_it};
ghost use Rattle.exec_data.specs.KernelProcesses.InstanceViews.{is_on};
ghost use Rattle.exec_data.specs.KernelState.Kernel.{StandsFor, IsSound};
ghost use Rattle.exec_data.specs.KernelState.Moves.{Steps, Follows, Does, Lives, HasStatement, IsOnTop};
ghost use Rattle.exec_data.specs.KernelState.Stopping.{DoesOrStops};
ghost use Rattle.exec_data.specs.Entered.{Shows};
ghost use Rattle.exec_data.specs.KernelState.Ways.{moved_on, HasOwed, MayMoveOn};
ghost use Rattle.exec_control.specs.Unwound.{HasNoGoal};
ghost use Rattle.exec_control.specs.Others.{KeepsOthers};
ghost use Rattle.exec_control.specs.Thrown.{past, injects, OthersHaveNoGoal};

use crate::owing::owe;
use crate::shown::{has_goal, is_begun_thread, lives};
use crate::targets::target_at;
use crate::{catches, raise_at};
use exec_data::kernel_processes_api::is_active;
use exec_data::kernel_state_api::{Kernel, StatementStop, Way, push, top_lives};
use exec_data::kernel_transactions_api::left_calls_end;
use exec_data::sim_model_api::Goal;
use flat_design::{Controlled, NameId, RunFault, StmtId};
use std::alloc::Global;

/// The statement in place of an instance is past. What is not being unwound is not then.
fn pass(k: &mut Kernel, p: u32)
    requires sound { IsSound k.old }
    requires lives { Lives k.old p }
    requires statement { HasStatement k.old p }
    ensures steps { Steps k.old k.new p (λ c q i r. passes c q r) }
    ensures stack { k.new.schedule.stack ≡ k.old.schedule.stack }
    ensures lives { Lives k.new p }
    ensures free { HasNoGoal k.old p → HasNoGoal k.new p }
    ensures others { KeepsOthers p k.old k.new }
    ensures sound { IsSound k.new }
    ensures made { k.new.made ≡ k.old.made }
{
    match k.schedule.table.get_mut(p) {
        Some(x) => x.body.body.body.past(k.program),
        None => {}
    }
}

/// The call that the statement in place of an instance owes is owed to one less. What is not being unwound is not then.
fn take_off(k: &mut Kernel, p: u32)
    requires sound { IsSound k.old }
    requires lives { Lives k.old p }
    requires owes { HasOwed k.old p }
    ensures steps { Steps k.old k.new p (λ c q i r. with_residual c q (taken_off r)) }
    ensures stack { k.new.schedule.stack ≡ k.old.schedule.stack }
    ensures lives { Lives k.new p }
    ensures free { HasNoGoal k.old p → HasNoGoal k.new p }
    ensures others { KeepsOthers p k.old k.new }
    ensures sound { IsSound k.new }
    ensures made { k.new.made ≡ k.old.made }
{
    match k.schedule.table.get_mut(p) {
        Some(x) => {
            let _ = x.body.body.body.owed(k.program);
        }
        None => {}
    }
}

/// An instance is past its call, this way. What is not being unwound is not then.
fn move_on(k: &mut Kernel, p: u32, way: Way)
    requires sound { IsSound k.old }
    requires lives { Lives k.old p }
    requires may { MayMoveOn way k.old p }
    ensures steps { Steps k.old k.new p (λ c q i r. moved_on way c q r) }
    ensures stack { k.new.schedule.stack ≡ k.old.schedule.stack }
    ensures lives { Lives k.new p }
    ensures free { HasNoGoal k.old p → HasNoGoal k.new p }
    ensures others { KeepsOthers p k.old k.new }
    ensures sound { IsSound k.new }
    ensures made { k.new.made ≡ k.old.made }
{
    match way {
        Way::Past => pass(k, p),
        Way::TakenOff => take_off(k, p),
    }
}

/// An exception that the instance on top throws at itself: where it is not being unwound, it is raised behind its statement.
///
/// # Errors
/// Where no `try` names it, and then nothing changes.
fn throw_at_itself(k: &mut Kernel, p: u32, e: NameId, way: Way) -> Result<(), RunFault>
    requires sound { IsSound k.old }
    requires top { IsOnTop k.old p }
    requires may { MayMoveOn way k.old p }
    ensures does { Does k.old k.new result p (λ c q i r. throw_call (moved_on way c q r) q e) }
    ensures sound { IsSound k.new }
    ensures made { k.new.made ≡ k.old.made }
{
    top_lives(k, p);
    if has_goal(k, p) {
        move_on(k, p, way);
        return Ok(());
    }
    if !catches(k, p, e) {
        return Err(RunFault::Uncaught { name: e });
    }
    move_on(k, p, way);
    let _ = raise_at(k, p, e, Goal::Thrown);
    Ok(())
}

/// An exception is thrown at another instance, which is not active and lives. Where it is a thread that has begun, it is
/// unwound to the `try` that names the exception, and gets on top of the stack.
fn inject(k: &mut Kernel, p: u32, q: u32, e: NameId, way: Way) -> Result<(), RunFault>
    requires sound { IsSound k.old }
    requires lives { Lives k.old p }
    requires may { MayMoveOn way k.old p }
    requires target { Lives k.old q }
    requires apart { q ≢ p }
    requires rests { is_on k.old.schedule.stack.items q ≡ false }
    requires free { HasNoGoal k.old q }
    ensures follows { (c : Config) (i j : Instance) → StandsFor k.old c → instance_at c p ≡ Some i → instance_at c q ≡ Some j → Follows k.new result c (injects (past way c p i) q j e) }
    ensures sound { IsSound k.new }
    ensures made { k.new.made ≡ k.old.made }
{
    left_calls_end();
    if !raise_at(k, q, e, Goal::Injected) {
        return Err(RunFault::Uncaught { name: e });
    }
    move_on(k, p, way);
    push(k, q);
    Ok(())
}

/// An exception that an instance throws at another one, which is not active.
///
/// # Errors
/// Where the other is a thread that has begun, and no `try` of it names the exception; then nothing changes.
fn throw_at_other(k: &mut Kernel, p: u32, q: u32, e: NameId, way: Way) -> Result<(), RunFault>
    requires sound { IsSound k.old }
    requires lives { Lives k.old p }
    requires may { MayMoveOn way k.old p }
    requires apart { q ≢ p }
    requires rests { is_on k.old.schedule.stack.items q ≡ false }
    requires free { HasNoGoal k.old q }
    ensures does { Does k.old k.new result p (λ c s i r. throw_call (moved_on way c s r) q e) }
    ensures sound { IsSound k.new }
    ensures made { k.new.made ≡ k.old.made }
{
    if !lives(k, q) {
        move_on(k, p, way);
        return Ok(());
    }
    if !is_begun_thread(k, q) {
        move_on(k, p, way);
        return Ok(());
    }
    inject(k, p, q, e, way)
}

/// An exception that the instance on top throws at the instance of this serial.
///
/// # Errors
/// Where that is active below the top, or where the exception is raised and no `try` names it; then nothing changes.
fn throw_at(k: &mut Kernel, p: u32, q: u32, e: NameId, way: Way) -> Result<(), RunFault>
    requires sound { IsSound k.old }
    requires top { IsOnTop k.old p }
    requires may { MayMoveOn way k.old p }
    requires free { OthersHaveNoGoal k.old }
    ensures does { Does k.old k.new result p (λ c s i r. throw_call (moved_on way c s r) q e) }
    ensures sound { IsSound k.new }
    ensures made { k.new.made ≡ k.old.made }
{
    top_lives(k, p);
    if q == p {
        return throw_at_itself(k, p, e, way);
    }
    if is_active(k.schedule.stack.as_slice(), q) {
        return Err(RunFault::ControlOnActive { serial: q });
    }
    throw_at_other(k, p, q, e, way)
}

/// An exception for the instance of this serial alone, by a `throw_it` in place.
///
/// # Errors
/// As `throw_it`, but for an empty handle.
fn throw_at_one(k: &mut Kernel, p: u32, q: u32, e: NameId) -> Result<(), StatementStop>
    requires sound { IsSound k.old }
    requires top { IsOnTop k.old p }
    requires statement { HasStatement k.old p }
    requires free { OthersHaveNoGoal k.old }
    ensures does { DoesOrStops k.old k.new result p (λ c s i r. throw_call (passes c s r) q e) }
    ensures alone { result ≢ Err StatementStop.NoMemory }
    ensures sound { IsSound k.new }
    ensures made { k.new.made ≡ k.old.made }
{
    match throw_at(k, p, q, e, Way::Past) {
        Ok(()) => Ok(()),
        Err(fault) => Err(StatementStop::Fault(fault)),
    }
}

/// `throw_it`: an exception for the instance that a name holds, or for itself (IEEE 1666-2011, 5.6.6.4). Where it reaches the
/// descendants too, nothing is thrown yet: the statement owes it to all that it reaches. For one alone it takes no memory.
///
/// # Errors
/// An empty handle; an instance that is active below the top of the stack; an exception that no `try` names, for a thread that
/// has begun and is not being unwound; for descendants, no memory for the list. Then nothing changes.
pub fn throw_it(
    k: &mut Kernel,
    alloc: Global,
    p: u32,
    s: StmtId,
    who: Controlled,
    e: NameId,
    descendants: bool,
) -> Result<(), StatementStop>
    requires sound { IsSound k.old }
    requires top { IsOnTop k.old p }
    requires next { Shows k.old p s }
    requires free { OthersHaveNoGoal k.old }
    ensures does { DoesOrStops k.old k.new result p (λ c q i r. do_throw_it c q r (here c q i r) s who e descendants) }
    ensures alone { descendants ≡ false → result ≢ Err StatementStop.NoMemory }
    ensures sound { IsSound k.new }
    ensures made { k.new.made ≡ k.old.made }
{
    top_lives(k, p);
    match target_at(k, p, who) {
        Ok(q) => {
            if descendants {
                owe(k, alloc, p, s, q)
            } else {
                throw_at_one(k, p, q, e)
            }
        }
        Err(fault) => Err(StatementStop::Fault(fault)),
    }
}

/// The exception of a `throw_it` that its statement owes to the instance of this serial first. It takes no memory.
///
/// # Errors
/// As `throw_it`, but for an empty handle.
pub fn throw_owed(k: &mut Kernel, p: u32, q: u32, e: NameId) -> Result<(), RunFault>
    requires sound { IsSound k.old }
    requires top { IsOnTop k.old p }
    requires owes { HasOwed k.old p }
    requires free { OthersHaveNoGoal k.old }
    ensures does { Does k.old k.new result p (λ c s i r. throw_call (with_residual c s (taken_off r)) q e) }
    ensures sound { IsSound k.new }
    ensures made { k.new.made ≡ k.old.made }
{
    throw_at(k, p, q, e, Way::TakenOff)
}
