//! Bodies that have ended.
ghost use Rattle.std.specs.Prelude.{◌≡◌, ℕ, false, None, Some, option_map, is_some, length, OnOk, OnErr, IsOk, IfSome};
ghost use Rattle.std.specs.FinMap as map;
ghost use Rattle.exec_data.specs.ModelTree.declared.items.ProcessKind.TheVariants as process;
ghost use Rattle.exec_data.specs.SimModel.Configuration.{Config, Instance, instance_at, change_instance};
ghost use Rattle.exec_data.specs.SimModel.Waits.{leaves_stack};
ghost use Rattle.exec_data.specs.SimModel.Control.{is_thread, ended_instance, ends, idles, done_by};
ghost use Rattle.exec_data.specs.KernelProcesses.Moves.{events_of, sensitive_of};
ghost use Rattle.exec_data.specs.KernelProcesses.Moved.{HasRoom, rests_as};
ghost use Rattle.exec_data.specs.KernelState.Kernel.{StandsFor, IsSound, trigger_of};
ghost use Rattle.exec_data.specs.KernelState.Moves.{Moves, MovesAt, Steps, Lives, IsOnTop};
ghost use Rattle.exec_control.specs.Resting.{CanRest, next_kept, rest_count, rests_next, rests_again, ends_thread};

use crate::instances::{clear_body, is_thread_kind};
use exec_data::event_core_api::Ev;
use exec_data::instance_table_api::Deadline;
use exec_data::kernel_processes_api::{Trigger, Wait, count_events, hold, rest_ready};
use exec_data::kernel_state_api::{Kernel, fire, top_lives};
use std::alloc::AllocError;
use std::mem;

/// The instance on top leaves the stack and has ended. Its terminated event is still to fire.
fn leave_for_good(k: &mut Kernel, p: u32)
    requires sound { IsSound k.old }
    requires top { IsOnTop k.old p }
    ensures steps { Steps k.old k.new p (λ c q i r. leaves_stack (change_instance c q ended_instance)) }
    ensures sound { IsSound k.new }
    ensures made { k.new.made ≡ k.old.made }
{
    exec_data::kernel_processes_api::end(&mut k.schedule, p);
}

/// The instance on top ends, and its terminated event fires. It takes no memory.
#[inline(never)]
pub(crate) fn end(k: &mut Kernel, p: u32)
    requires sound { IsSound k.old }
    requires top { IsOnTop k.old p }
    ensures steps { Steps k.old k.new p (λ c q i r. ends c q) }
    ensures sound { IsSound k.new }
    ensures made { k.new.made ≡ k.old.made }
{
    leave_for_good(k, p);
    fire(k, Ev::Terminated(p));
}

/// How many events there are, where they are not too many to be counted.
#[inline(always)]
fn count(events: &[Ev]) -> Option<u32>
    ensures { IfSome result (λ n. n ≡ length events.now) }
{
    u32::try_from(events.len()).ok()
}

/// How many events there are in the wait of an instance by the next trigger that is kept of it, or by its static sensitivity, where
/// they are not too many to be counted.
fn count_rest(k: &Kernel, p: u32) -> Option<u32>
    ensures { IfSome result (λ n. n ≡ rest_count (next_kept (map.get k.now.schedule.table.live p)) (map.get k.now.schedule.table.live p)) }
{
    match k.schedule.table.get(p) {
        Some(x) => match &x.body.body.trigger {
            Some(t) => count_events(&k.schedule, p, &t.wait),
            None => count(x.body.sensitive.as_slice()),
        },
        None => count(&[]),
    }
}

/// Makes room for the wait by which the method on top rests once it has returned, which is for so many events. Nothing else changes.
#[inline(always)]
fn hold_counted(k: &mut Kernel, p: u32, n: u32) -> Result<(), AllocError>
    requires sound { IsSound k.old }
    requires top { IsOnTop k.old p }
    requires counted { n ≡ rest_count (next_kept (map.get k.old.schedule.table.live p)) (map.get k.old.schedule.table.live p) }
    ensures room { OnOk result (CanRest k.new p (next_kept (map.get k.new.schedule.table.live p))) }
    ensures next { next_kept (map.get k.new.schedule.table.live p) ≡ next_kept (map.get k.old.schedule.table.live p) }
    ensures stays { Moves k.old k.new (λ c. c) }
    ensures top { IsOnTop k.new p }
    ensures lives { Lives k.new p }
    ensures sound { IsSound k.new }
    ensures made { k.new.made ≡ k.old.made }
{
    match hold(&mut k.schedule, p, n) {
        Ok(()) => Ok(()),
        Err(_) => Err(AllocError),
    }
}

/// The same, where the events are not too many to be counted.
fn hold_rest(k: &mut Kernel, p: u32) -> Result<(), AllocError>
    requires sound { IsSound k.old }
    requires top { IsOnTop k.old p }
    ensures room { OnOk result (CanRest k.new p (next_kept (map.get k.new.schedule.table.live p))) }
    ensures stays { Moves k.old k.new (λ c. c) }
    ensures top { IsOnTop k.new p }
    ensures lives { Lives k.new p }
    ensures sound { IsSound k.new }
    ensures made { k.new.made ≡ k.old.made }
{
    match count_rest(k, p) {
        Some(n) => hold_counted(k, p, n),
        None => Err(AllocError),
    }
}

/// What stands in a place is taken out of it.
#[inline(always)]
fn take_out(place: &mut Option<Trigger>) -> Option<Trigger>
    ensures value { result ≡ place.old }
    ensures after { place.new ≡ None }
{
    match place {
        Some(_) => mem::replace(place, None),
        None => None,
    }
}

/// The next trigger of an instance is taken from it. Where there was room to rest by it there still is.
fn take_trigger(k: &mut Kernel, p: u32) -> Option<Trigger>
    requires sound { IsSound k.old }
    requires lives { Lives k.old p }
    requires room { CanRest k.old p (next_kept (map.get k.old.schedule.table.live p)) }
    ensures shown { (c : Config) (i : Instance) → StandsFor k.old c → instance_at c p ≡ Some i → i.trigger ≡ option_map trigger_of result }
    ensures moves { Moves k.old k.new (λ c. change_instance c p (λ i. record i { trigger = None })) }
    ensures room { CanRest k.new p result }
    ensures stack { k.new.schedule.stack ≡ k.old.schedule.stack }
    ensures lives { Lives k.new p }
    ensures sound { IsSound k.new }
    ensures made { k.new.made ≡ k.old.made }
{
    match k.schedule.table.get_mut(p) {
        Some(x) => take_out(&mut x.body.body.trigger),
        None => None,
    }
}

/// Whether a next trigger is kept of an instance.
#[inline(always)]
fn has_next(k: &Kernel, p: u32) -> bool
    ensures { result ≡ is_some (next_kept (map.get k.now.schedule.table.live p)) }
{
    match k.schedule.table.get(p) {
        Some(x) => x.body.body.trigger.is_some(),
        None => false,
    }
}

/// The method on top leaves the stack and waits so, and its body has not begun. There is room for the wait.
#[inline(always)]
fn rest(k: &mut Kernel, p: u32, t: &Trigger)
    requires sound { IsSound k.old }
    requires top { IsOnTop k.old p }
    requires room { HasRoom p (length (events_of t.now.wait (sensitive_of (map.get k.old.schedule.table.live p)))) k.old.schedule }
    ensures moves { Moves k.old k.new (λ c. leaves_stack (change_instance c p (rests_as t.now))) }
    ensures lives { Lives k.new p }
    ensures sound { IsSound k.new }
    ensures made { k.new.made ≡ k.old.made }
{
    rest_ready(&mut k.schedule, p, t);
}

/// The method on top waits by its static sensitivity. There is room for the wait.
#[inline(always)]
fn rest_statically(k: &mut Kernel, p: u32)
    requires sound { IsSound k.old }
    requires top { IsOnTop k.old p }
    requires room { CanRest k.old p None }
    ensures moves { Moves k.old k.new (λ c. leaves_stack (change_instance c p (rests_next None))) }
    ensures lives { Lives k.new p }
    ensures sound { IsSound k.new }
    ensures made { k.new.made ≡ k.old.made }
{
    rest(
        k,
        p,
        &Trigger {
            wait: Wait::Static,
            deadline: Deadline::None,
        },
    );
}

/// The method on top waits by a next trigger that it was set, or by its static sensitivity. There is room for the wait.
fn rest_by(k: &mut Kernel, p: u32, t: &Option<Trigger>)
    requires sound { IsSound k.old }
    requires top { IsOnTop k.old p }
    requires room { CanRest k.old p t.now }
    ensures moves { Moves k.old k.new (λ c. leaves_stack (change_instance c p (rests_next t.now))) }
    ensures lives { Lives k.new p }
    ensures sound { IsSound k.new }
    ensures made { k.new.made ≡ k.old.made }
{
    match t {
        Some(t) => rest(k, p, t),
        None => rest_statically(k, p),
    }
}

/// The method on top waits by the next trigger that is kept of it, which is taken from it. There is room for the wait.
#[inline(never)]
fn rest_by_next(k: &mut Kernel, p: u32)
    requires sound { IsSound k.old }
    requires lives { Lives k.old p }
    requires top { IsOnTop k.old p }
    requires room { CanRest k.old p (next_kept (map.get k.old.schedule.table.live p)) }
    ensures moves { MovesAt k.old k.new p (λ c i. rests_again c p i) }
    ensures lives { Lives k.new p }
    ensures sound { IsSound k.new }
    ensures made { k.new.made ≡ k.old.made }
{
    let t = take_trigger(k, p);
    rest_by(k, p, &t);
}

/// The method on top waits by its next trigger, or by its static sensitivity. There is room for the wait.
#[inline(always)]
fn rest_again(k: &mut Kernel, p: u32)
    requires sound { IsSound k.old }
    requires lives { Lives k.old p }
    requires top { IsOnTop k.old p }
    requires room { CanRest k.old p (next_kept (map.get k.old.schedule.table.live p)) }
    ensures moves { MovesAt k.old k.new p (λ c i. rests_again c p i) }
    ensures lives { Lives k.new p }
    ensures sound { IsSound k.new }
    ensures made { k.new.made ≡ k.old.made }
{
    if has_next(k, p) {
        rest_by_next(k, p);
    } else {
        rest_statically(k, p);
    }
}

/// The method on top has returned: it waits by its next trigger, or by its static sensitivity (IEEE 1666-2011, 5.2.10 and
/// 5.2.17). Room is made before anything changes: where memory is refused nothing does.
#[inline(never)]
fn idle(k: &mut Kernel, p: u32) -> Result<(), AllocError>
    requires sound { IsSound k.old }
    requires top { IsOnTop k.old p }
    ensures steps { OnOk result (Steps k.old k.new p (λ c q i r. idles c q i)) }
    ensures stays { OnErr result (Moves k.old k.new (λ c. c)) }
    ensures sound { IsSound k.new }
    ensures made { k.new.made ≡ k.old.made }
{
    match hold_rest(k, p) {
        Ok(()) => {}
        Err(_) => return Err(AllocError),
    }
    rest_again(k, p);
    clear_body(k, p);
    Ok(())
}

/// How the body of an instance ends.
#[derive(Clone, Copy)]
pub(crate) enum Ending {
    /// It is that of a thread.
    Thread,
    /// It is that of a method for which no next trigger is set: it waits for any of so many events.
    Static(u32),
    /// It is that of another method.
    Other,
}

/// How the body of an instance of this kind ends, whose static sensitivity are these events.
#[inline(always)]
fn ending_of(of_thread: bool, has_next: bool, events: &[Ev]) -> Ending
    ensures thread { ends_thread result ≡ of_thread }
    ensures unset { (n : ℕ) → result ≡ Ending.Static n → has_next ≡ false }
    ensures counted { (n : ℕ) → result ≡ Ending.Static n → n ≡ length events.now }
{
    if of_thread {
        return Ending::Thread;
    }
    if has_next {
        return Ending::Other;
    }
    match count(events) {
        Some(n) => Ending::Static(n),
        None => Ending::Other,
    }
}

/// How the body of an instance ends, in one look at it.
#[inline(always)]
fn ending_at(k: &Kernel, p: u32) -> Ending
    requires { Lives k.now p }
    ensures thread { (c : Config) (i : Instance) → StandsFor k.now c → instance_at c p ≡ Some i → ends_thread result ≡ is_thread i.kind }
    ensures unset { (n : ℕ) → result ≡ Ending.Static n → next_kept (map.get k.now.schedule.table.live p) ≡ None }
    ensures counted { (n : ℕ) → result ≡ Ending.Static n → n ≡ rest_count None (map.get k.now.schedule.table.live p) }
{
    match k.schedule.table.get(p) {
        Some(x) => ending_of(
            is_thread_kind(x.kind),
            x.body.body.trigger.is_some(),
            x.body.sensitive.as_slice(),
        ),
        None => Ending::Other,
    }
}

/// The method on top, for which no next trigger is set, waits by its static sensitivity. There is room for the wait.
#[inline(always)]
fn rest_unset(k: &mut Kernel, p: u32)
    requires sound { IsSound k.old }
    requires lives { Lives k.old p }
    requires top { IsOnTop k.old p }
    requires unset { next_kept (map.get k.old.schedule.table.live p) ≡ None }
    requires room { CanRest k.old p None }
    ensures moves { MovesAt k.old k.new p (λ c i. rests_again c p i) }
    ensures lives { Lives k.new p }
    ensures sound { IsSound k.new }
    ensures made { k.new.made ≡ k.old.made }
{
    rest_statically(k, p);
}

/// The method on top has returned, for which no next trigger is set: it waits by its static sensitivity, which has so many events
/// (IEEE 1666-2011, 5.2.10).
#[inline(always)]
fn idle_statically(k: &mut Kernel, p: u32, n: u32) -> Result<(), AllocError>
    requires sound { IsSound k.old }
    requires top { IsOnTop k.old p }
    requires unset { next_kept (map.get k.old.schedule.table.live p) ≡ None }
    requires counted { n ≡ rest_count None (map.get k.old.schedule.table.live p) }
    ensures steps { OnOk result (Steps k.old k.new p (λ c q i r. idles c q i)) }
    ensures stays { OnErr result (Moves k.old k.new (λ c. c)) }
    ensures sound { IsSound k.new }
    ensures made { k.new.made ≡ k.old.made }
{
    match hold_counted(k, p, n) {
        Ok(()) => {}
        Err(_) => return Err(AllocError),
    }
    rest_unset(k, p);
    clear_body(k, p);
    Ok(())
}

/// The body of the instance on top has ended: a thread has ended, and its terminated event fires; a method waits by its next
/// trigger, or by its static sensitivity. A thread takes no memory; where it is refused to a method nothing changes.
pub fn body_ends(k: &mut Kernel, p: u32) -> Result<(), AllocError>
    requires sound { IsSound k.old }
    requires top { IsOnTop k.old p }
    ensures steps { OnOk result (Steps k.old k.new p (λ c q i r. done_by c q i i.kind)) }
    ensures stays { OnErr result (Moves k.old k.new (λ c. c)) }
    ensures thread { (c : Config) (i : Instance) → StandsFor k.old c → instance_at c p ≡ Some i → i.kind ≡ process.Thread → IsOk result }
    ensures sound { IsSound k.new }
    ensures made { k.new.made ≡ k.old.made }
{
    top_lives(k, p);
    match ending_at(k, p) {
        Ending::Thread => {
            end(k, p);
            Ok(())
        }
        Ending::Static(n) => idle_statically(k, p, n),
        Ending::Other => idle(k, p),
    }
}
