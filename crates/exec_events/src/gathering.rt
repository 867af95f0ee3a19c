//! The events of a wait or a next trigger, in the order in which they are named.
ghost use Rattle.std.specs.Prelude.{◌≡◌, List, Ok, IfOk, OnOk, option_map};
ghost use Rattle.flat_design.specs.Code.{event_terms, term_of};
ghost use Rattle.kernel_view.specs.EventCore.declared.event.Ev.{Ev as Happening};
ghost use Rattle.kernel_view.specs.SimModel.Reading.{place_in};
ghost use Rattle.kernel_view.specs.SimModel.Values.{on_ok};
ghost use Rattle.kernel_view.specs.SimModel.Waiting.{event_of, events_at, places_in};
ghost use Rattle.kernel_view.specs.SimModel.Waits.{is_among};
ghost use Rattle.kernel_view.specs.KernelState.Kernel.{whole_design};
ghost use Rattle.kernel_view.specs.KernelState.Moves.{Lives};
ghost use Rattle.kernel_view.specs.Standings.{Everywhere};
ghost use Rattle.exec_events.specs.Requests.{wait_for, waiting_for};
ghost use Rattle.exec_events.specs.Named.{with_event, events_named, fault_of, first_fault};
ghost use Rattle.exec_events.specs.Numbers.{NumbersEvents};

use crate::events::event_at;
use flat_design::{EventUse, RunFault};
use kernel_view::eval_place_at;
use kernel_view::event_core_api::{Ev, same_event};
use kernel_view::kernel_state_api::Kernel;
use kernel_view::logic_values_api::Items;
use std::alloc::{AllocError, Global};

/// The first of two faults, where there is one.
fn first_of(fault: Option<RunFault>, e: Result<Ev, RunFault>) -> Option<RunFault>
    ensures { result ≡ first_fault fault (fault_of e) }
{
    match fault {
        Some(_) => fault,
        None => match e {
            Ok(_) => None,
            Err(fault) => Some(fault),
        },
    }
}

/// The first fault of the events that a statement names where it stands, if there is one; all their places are evaluated
/// before them, in order. It takes no memory.
///
/// # Errors
/// The first fault of a place.
pub(crate) fn first_event_fault(
    k: &Kernel,
    p: u32,
    events: &[EventUse],
) -> Result<Option<RunFault>, RunFault>
    requires lives { Lives k.now p }
    requires numbers { NumbersEvents (whole_design k.now) }
    ensures { Everywhere k.now p (λ h. result ≡ on_ok (places_in h (event_terms events.now)) (λ ks. Ok (fault_of (events_at h (event_terms events.now) ks)))) }
{
    let mut fault = None;
    for event in events {
        let place = match eval_place_at(k, p, &event.place) {
            Ok(place) => place,
            Err(first) => return Err(first),
        };
        fault = first_of(fault, event_at(k, p, event.name, place, event.event));
    }
    Ok(fault)
}

/// The event that a statement names where it stands.
///
/// # Errors
/// The fault of its place; its own.
#[inline(always)]
pub(crate) fn event_used(k: &Kernel, p: u32, event: &EventUse) -> Result<Ev, RunFault>
    requires lives { Lives k.now p }
    requires numbers { NumbersEvents (whole_design k.now) }
    ensures { Everywhere k.now p (λ h. result ≡ on_ok (place_in h (option_map term_of event.now.place)) (λ n. event_of h event.now.name n event.now.event)) }
{
    let place = eval_place_at(k, p, &event.place)?;
    event_at(k, p, event.name, place, event.event)
}

/// Whether an event is among these.
fn is_among(events: &[Ev], e: Ev) -> bool
    ensures { result ≡ is_among e events.now }
{
    events.iter().any(|x| same_event(e, *x))
}

/// Adds an event. In a wait for all one that is there counts once.
fn add_event(events: &mut Items<Ev>, all: bool, e: Ev) -> Result<(), AllocError>
    ensures { OnOk result (events.new ≡ with_event all events.old e) }
{
    if all && is_among(events.as_slice(), e) {
        return Ok(());
    }
    match events.push(e) {
        Ok(()) => Ok(()),
        Err(_) => Err(AllocError),
    }
}

/// Adds an event that is not at fault.
fn add_named(events: &mut Items<Ev>, all: bool, e: Result<Ev, RunFault>) -> Result<(), AllocError>
    ensures { OnOk result (IfOk e (λ x. events.new ≡ with_event all events.old x)) }
{
    match e {
        Ok(e) => add_event(events, all, e),
        Err(_) => Ok(()),
    }
}

/// The events that a statement names where it stands, none of which is at fault.
///
/// # Errors
/// Want of memory.
pub(crate) fn gather(
    k: &Kernel,
    alloc: Global,
    p: u32,
    all: bool,
    events: &[EventUse],
) -> Result<Items<Ev>, AllocError>
    requires lives { Lives k.now p }
    requires numbers { NumbersEvents (whole_design k.now) }
    ensures { IfOk result (λ found. Everywhere k.now p (λ h. (xs : List Happening) → events_named h (event_terms events.now) ≡ Ok xs → waiting_for all found ≡ wait_for all xs)) }
{
    let mut found = Items::new(alloc);
    for event in events {
        match add_named(&mut found, all, event_used(k, p, event)) {
            Ok(()) => {}
            Err(_) => return Err(AllocError),
        }
    }
    Ok(found)
}
