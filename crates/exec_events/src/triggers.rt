//! How a wait or a next trigger waits: for which events, and until when.
ghost use Rattle.std.specs.Prelude.{◌≡◌, List, Ok, IfOk, option_map};
ghost use Rattle.flat_design.specs.Code as code;
ghost use Rattle.flat_design.specs.Code.{term_of, event_terms, await_term};
ghost use Rattle.kernel_view.specs.EventCore.declared.event.Ev.{Ev as Happening};
ghost use Rattle.kernel_view.specs.SimModel.Configuration as model;
ghost use Rattle.kernel_view.specs.SimModel.Values as values;
ghost use Rattle.kernel_view.specs.SimModel.Values.{on_ok};
ghost use Rattle.kernel_view.specs.SimModel.Waiting as waiting;
ghost use Rattle.kernel_view.specs.SimModel.Waits as waits;
ghost use Rattle.kernel_view.specs.KernelProcesses.InstanceViews.{deadline_of};
ghost use Rattle.kernel_view.specs.KernelProcesses.Moved.{wait_as};
ghost use Rattle.kernel_view.specs.KernelState.Kernel.{whole_design};
ghost use Rattle.kernel_view.specs.KernelState.Moves.{Lives};
ghost use Rattle.kernel_view.specs.Standings.{Everywhere};
ghost use Rattle.exec_events.specs.Requests as asked;
ghost use Rattle.exec_events.specs.Requests.{waiting_for};
ghost use Rattle.exec_events.specs.Named.{events_named};
ghost use Rattle.exec_events.specs.Numbers.{NumbersEvents};

use crate::gathering::{first_event_fault, gather};
use flat_design::{Await, EventUse, Expr, RunFault};
use kernel_view::event_core_api::Ev;
use kernel_view::expr_eval_api::moment;
use kernel_view::instance_table_api::Deadline;
use kernel_view::kernel_processes_api::Wait;
use kernel_view::kernel_state_api::Kernel;
use kernel_view::logic_values_api::{Items, Value};
use kernel_view::sim_time_api::{Time, add};
use kernel_view::{eval_at, eval_if_at};
use std::alloc::{AllocError, Global};

/// When a wait for a time ends: a time of 0 is the next delta notification phase.
///
/// # Errors
/// A time past 2^64 - 1 ps.
fn deadline_in(now: Time, time: Time) -> Result<Deadline, RunFault>
    ensures { on_ok result (λ d. Ok (deadline_of d)) ≡ waits.deadline_in now.0 time.0 }
{
    if time.0 == 0 {
        return Ok(Deadline::Delta);
    }
    match add(now, time) {
        Some(t) => Ok(Deadline::At(t.0)),
        None => Err(RunFault::TimeOverflow),
    }
}

/// When a wait ends by its time-out, where one is written.
///
/// # Errors
/// A time past 2^64 - 1 ps.
fn deadline_if(now: Time, time: Option<Value>) -> Result<Deadline, RunFault>
    ensures { on_ok result (λ d. Ok (deadline_of d)) ≡ waiting.deadline_if now.0 (option_map values.moment time) }
{
    match time {
        Some(v) => deadline_in(now, moment(v)),
        None => Ok(Deadline::None),
    }
}

/// A wait for any of these events, or for all of them.
fn wait_for(all: bool, events: Items<Ev>) -> Wait
    ensures { wait_as result ≡ waiting_for all events }
{
    if all {
        Wait::All(events)
    } else {
        Wait::Any(events)
    }
}

/// When a wait for events ends by its time-out, where one is written. It takes no memory.
///
/// # Errors
/// The first fault of the places, the time-out, the events and the time, in this order.
fn until(k: &Kernel, p: u32, events: &[EventUse], time: &Option<Expr>) -> Result<Deadline, RunFault>
    requires lives { Lives k.now p }
    requires numbers { NumbersEvents (whole_design k.now) }
    ensures { Everywhere k.now p (λ h. (how : List Happening → model.Wait) → on_ok result (λ d. Ok (deadline_of d)) ≡ asked.ends (waiting.awaits h how (event_terms events.now) (option_map term_of time.now))) }
{
    let fault = match first_event_fault(k, p, events) {
        Ok(fault) => fault,
        Err(first) => return Err(first),
    };
    let time = match eval_if_at(k, p, time) {
        Ok(time) => time,
        Err(first) => return Err(first),
    };
    match fault {
        Some(fault) => Err(fault),
        None => deadline_if(k.cycle.now, time),
    }
}

/// When a wait for a time ends.
///
/// # Errors
/// The first fault of the time; a time past 2^64 - 1 ps.
#[inline(always)]
fn after(k: &Kernel, p: u32, time: &Expr) -> Result<Deadline, RunFault>
    requires { Lives k.now p }
    ensures { Everywhere k.now p (λ h. on_ok result (λ d. Ok (deadline_of d)) ≡ asked.ends (waiting.awaited h (code.for_ (term_of time.now)))) }
{
    let value = eval_at(k, p, time)?;
    deadline_in(k.cycle.now, moment(value))
}

/// When a wait or a next trigger ends by time, where it stands (IEEE 1666-2011, 5.2.17 and 5.2.18). It takes no memory, and finds
/// each fault of the statement.
///
/// # Errors
/// The first fault of what it names; a time past 2^64 - 1 ps.
#[inline(always)]
pub(crate) fn end_of(k: &Kernel, p: u32, how: &Await) -> Result<Deadline, RunFault>
    requires lives { Lives k.now p }
    requires numbers { NumbersEvents (whole_design k.now) }
    ensures { Everywhere k.now p (λ h. on_ok result (λ d. Ok (deadline_of d)) ≡ asked.ends (waiting.awaited h (await_term how.now))) }
{
    match how {
        Await::Static => Ok(Deadline::None),
        Await::Delta => Ok(Deadline::Delta),
        Await::For(time) => after(k, p, time),
        Await::Any(events, time) => until(k, p, events.as_slice(), time),
        Await::All(events, time) => until(k, p, events.as_slice(), time),
    }
}

/// A wait for any or for all of the events that a statement names where it stands, none of which is at fault.
///
/// # Errors
/// Want of memory.
fn for_events(
    k: &Kernel,
    alloc: Global,
    p: u32,
    all: bool,
    events: &[EventUse],
) -> Result<Wait, AllocError>
    requires lives { Lives k.now p }
    requires numbers { NumbersEvents (whole_design k.now) }
    ensures { IfOk result (λ w. Everywhere k.now p (λ h. (xs : List Happening) → events_named h (event_terms events.now) ≡ Ok xs → wait_as w ≡ asked.wait_for all xs)) }
{
    match gather(k, alloc, p, all, events) {
        Ok(found) => Ok(wait_for(all, found)),
        Err(_) => Err(AllocError),
    }
}

/// Which events a wait or a next trigger waits for, where it stands and has no fault (IEEE 1666-2011, 5.2.17 and 5.2.18).
///
/// # Errors
/// Want of memory.
pub(crate) fn wait_of(k: &Kernel, alloc: Global, p: u32, how: &Await) -> Result<Wait, AllocError>
    requires lives { Lives k.now p }
    requires numbers { NumbersEvents (whole_design k.now) }
    ensures { IfOk result (λ w. Everywhere k.now p (λ h. (t : model.Trigger) → waiting.awaited h (await_term how.now) ≡ Ok t → wait_as w ≡ t.wait)) }
{
    match how {
        Await::Static => Ok(Wait::Static),
        Await::Delta => Ok(Wait::Any(Items::new(alloc))),
        Await::For(_) => Ok(Wait::Any(Items::new(alloc))),
        Await::Any(events, _) => for_events(k, alloc, p, false, events.as_slice()),
        Await::All(events, _) => for_events(k, alloc, p, true, events.as_slice()),
    }
}
