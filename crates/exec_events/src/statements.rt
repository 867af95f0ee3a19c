//! The statements `wait` and `next_trigger`.
ghost use Rattle.std.specs.Prelude.{◌≡◌, [], ◌∷◌, None};
ghost use Rattle.flat_design.specs.Code as code;
ghost use Rattle.flat_design.specs.Code.{await_term, event_term};
ghost use Rattle.kernel_view.specs.SimModel.Reading.{here};
ghost use Rattle.kernel_view.specs.SimModel.Waiting as waiting;
ghost use Rattle.kernel_view.specs.KernelState.Kernel.{IsSound, whole_design};
ghost use Rattle.kernel_view.specs.KernelState.Moves.{Lives, HasStatement, IsOnTop};
ghost use Rattle.kernel_view.specs.KernelState.Stopping.{DoesOrStops};
ghost use Rattle.exec_events.specs.Numbers.{NumbersEvents};

use crate::gathering::event_used;
use crate::next_trigger;
use crate::triggers::{end_of, wait_of};
use flat_design::{Await, EventUse};
use kernel_view::kernel_processes_api::Trigger;
use kernel_view::kernel_state_api::{Kernel, StatementStop, top_lives, wait_for_event, wait_so};
use std::alloc::Global;

/// `wait` for one event, without a time-out: the event is evaluated once.
///
/// # Errors
/// The fault of its place; its own; want of memory, where there is no fault. Then nothing changes.
#[inline(never)]
fn wait_for_one(k: &mut Kernel, p: u32, event: &EventUse) -> Result<(), StatementStop>
    requires sound { IsSound k.old }
    requires top { IsOnTop k.old p }
    requires statement { HasStatement k.old p }
    requires numbers { NumbersEvents (whole_design k.old) }
    ensures does { DoesOrStops k.old k.new result p (λ c q i r. waiting.do_wait c q r (here c q i r) (code.any (event_term event.now ∷ []) None)) }
    ensures sound { IsSound k.new }
    ensures made { k.new.made ≡ k.old.made }
{
    top_lives(k, p);
    let e = match event_used(k, p, event) {
        Ok(e) => e,
        Err(fault) => return Err(StatementStop::Fault(fault)),
    };
    match wait_for_event(k, p, e) {
        Ok(()) => Ok(()),
        Err(_) => Err(StatementStop::NoMemory),
    }
}

/// `wait` of any form.
///
/// # Errors
/// The first fault of what it names, or that it would end past 2^64 - 1 ps; want of memory, where there is no fault. Then nothing
/// changes.
#[inline(never)]
fn wait_by(k: &mut Kernel, alloc: Global, p: u32, how: &Await) -> Result<(), StatementStop>
    requires sound { IsSound k.old }
    requires top { IsOnTop k.old p }
    requires statement { HasStatement k.old p }
    requires numbers { NumbersEvents (whole_design k.old) }
    ensures does { DoesOrStops k.old k.new result p (λ c q i r. waiting.do_wait c q r (here c q i r) (await_term how.now)) }
    ensures sound { IsSound k.new }
    ensures made { k.new.made ≡ k.old.made }
{
    top_lives(k, p);
    let deadline = match end_of(k, p, how) {
        Ok(deadline) => deadline,
        Err(fault) => return Err(StatementStop::Fault(fault)),
    };
    let wait = match wait_of(k, alloc, p, how) {
        Ok(wait) => wait,
        Err(_) => return Err(StatementStop::NoMemory),
    };
    match wait_so(k, p, &Trigger { wait, deadline }) {
        Ok(()) => Ok(()),
        Err(_) => Err(StatementStop::NoMemory),
    }
}

/// `wait`: the instance on top waits for its static sensitivity, the next delta, a time, or any or all of some events, with a
/// time-out where one is written (IEEE 1666-2011, 5.2.18).
///
/// # Errors
/// The first fault of what it names, or that it would end past 2^64 - 1 ps; want of memory, where there is no fault. Then nothing
/// changes.
pub fn wait_statement(
    k: &mut Kernel,
    alloc: Global,
    p: u32,
    how: &Await,
) -> Result<(), StatementStop>
    requires sound { IsSound k.old }
    requires top { IsOnTop k.old p }
    requires statement { HasStatement k.old p }
    requires numbers { NumbersEvents (whole_design k.old) }
    ensures does { DoesOrStops k.old k.new result p (λ c q i r. waiting.do_wait c q r (here c q i r) (await_term how.now)) }
    ensures sound { IsSound k.new }
    ensures made { k.new.made ≡ k.old.made }
{
    if let Await::Any(events, time) = how {
        match time {
            None => {
                if events.len() == 1 {
                    return wait_for_one(k, p, &events[0]);
                }
            }
            Some(_) => {}
        }
    }
    wait_by(k, alloc, p, how)
}

/// `next_trigger`: the method will wait so after its return; the last of a turn counts (IEEE 1666-2011, 5.2.17).
///
/// # Errors
/// The first fault of what it names, or that it would end past 2^64 - 1 ps; want of memory, where there is no fault. Then nothing
/// changes.
pub fn trigger_statement(
    k: &mut Kernel,
    alloc: Global,
    p: u32,
    how: &Await,
) -> Result<(), StatementStop>
    requires sound { IsSound k.old }
    requires lives { Lives k.old p }
    requires statement { HasStatement k.old p }
    requires numbers { NumbersEvents (whole_design k.old) }
    ensures does { DoesOrStops k.old k.new result p (λ c q i r. waiting.do_next_trigger c q r (here c q i r) (await_term how.now)) }
    ensures sound { IsSound k.new }
    ensures made { k.new.made ≡ k.old.made }
{
    let deadline = match end_of(k, p, how) {
        Ok(deadline) => deadline,
        Err(fault) => return Err(StatementStop::Fault(fault)),
    };
    match wait_of(k, alloc, p, how) {
        Ok(wait) => {
            next_trigger(k, p, Trigger { wait, deadline });
            Ok(())
        }
        Err(_) => Err(StatementStop::NoMemory),
    }
}
