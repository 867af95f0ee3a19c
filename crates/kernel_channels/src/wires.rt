// Resolved signals.
ghost use Rattle.std.specs.Prelude.{◌≡◌, Bool, OnOk, OnErr, IfOk, false, true, length, map, replicate, slice_get, slice_set, unwrap_or};
ghost use Rattle.kernel_events.specs.FlatDesign.declared.design.ResolvedPart.{ResolvedPart as Part};
ghost use Rattle.kernel_events.specs.SignalChannel.Drivers.{undriven, driven_by, resettled};
ghost use Rattle.kernel_events.specs.SimModel.Configuration.{change};
ghost use Rattle.kernel_events.specs.SimModel.Phases.{resettled_all, resolved_changes};
ghost use Rattle.kernel_events.specs.SimModel.Reading.{resolved_value};
ghost use Rattle.kernel_channels.specs.Announced.{told_by_resolved};
ghost use Rattle.kernel_channels.specs.UpdateMarks.{wire_change, change_at, items_after, marks_after, events_after};

use crate::announcing::{announce_at, no_change, number_of};
use crate::changes::{Changes, mark_if};
use kernel_events::EventBoard;
use kernel_events::flat_design_api::ResolvedPart;
use kernel_events::logic_values_api::{Digit, Value};
use kernel_events::numbered_slots_api::Marks;
use kernel_events::signal_channel_api::{Changed, Resolved};
use std::alloc::{AllocError, Global};
use std::marker::Model;

// Resolved signals by number.
#[derive(Drop)]
pub(crate) struct WireBank {
    resolved: Vec<Resolved>,
    // Those that were written since the last update.
    asked: Marks,
    // Those that the last update changed.
    changed: Changes,
    // Room for those that an update visits.
    visited: Vec<u32>,
}

impl Model for WireBank {
    ghost use Rattle.kernel_channels.specs.Codes.{Wires, wires_code};

    ghost Value = { Wires };

    ghost coded = { wires_code };

    ghost use Rattle.kernel_channels.specs.UpdateMarks.{IsWires};

    ghost view = { λ b. record {
      resolved = b.resolved.items;
      asked = b.asked;
      changed = b.changed;
    } };

    ghost invariant = { λ b. IsWires b.resolved.items b.asked b.changed b.visited };
}

fn first_resolved(alloc: Global, size: u32) -> Result<Vec<Resolved>, AllocError>
    ensures { IfOk result (λ resolved. resolved.items ≡ replicate size undriven) }
{
    let mut resolved = Vec::with_capacity(alloc, size as usize)?;
    for _ in 0..size {
        resolved.push_reserved(Resolved::new(alloc));
    }
    Ok(resolved)
}

// The first event of a resolved signal.
fn first_event(parts: &[ResolvedPart], n: u32) -> Option<u32>
    ensures { result ≡ slice_get (map (λ (p : Part). p.events) parts.now) n }
{
    match parts.get(n as usize) {
        Some(part) => Some(part.events),
        None => None,
    }
}

// Updates one, and says what that announces.
fn update_one(resolved: &mut [Resolved], n: u32) -> Changed
    ensures left { resolved.new ≡ change resolved.old n resettled }
    ensures announced { result ≡ change_at wire_change (slice_get resolved.old n) }
{
    let at = n as usize;
    if at >= resolved.len() {
        return no_change();
    }
    resolved[at].update()
}

// Updates those of these numbers.
#[inline(always)]
fn update_each(
    resolved: &mut [Resolved],
    changed: &mut Changes,
    numbers: &[u32],
    parts: &[ResolvedPart],
    events: &mut EventBoard,
)
    ensures left { resolved.new ≡ items_after resettled numbers.now resolved.old }
    ensures marked { changed.new ≡ marks_after resettled wire_change numbers.now resolved.old changed.old }
    ensures announced { events.new ≡ events_after resettled wire_change numbers.now (map (λ (p : Part). p.events) parts.now) resolved.old events.old }
{
    for n in numbers {
        let change = update_one(resolved, *n);
        mark_if(changed, change.changed, *n);
        announce_at(events, change, first_event(parts, *n));
    }
}

impl WireBank {
    // As many resolved signals as there are parts, which nobody drives.
    pub(crate) fn new(alloc: Global, parts: &[ResolvedPart]) -> Result<WireBank, AllocError>
        ensures { IfOk result (λ bank. bank ≡ record { resolved = replicate (length parts.now) undriven; asked = replicate (length parts.now) false; changed = replicate (length parts.now) false }) }
    {
        let size = number_of(parts.len())?;
        let resolved = first_resolved(alloc, size)?;
        let asked = Marks::new(alloc, size)?;
        let changed = Changes::new(alloc, size)?;
        let visited = Vec::with_capacity(alloc, parts.len())?;
        Ok(WireBank {
            resolved,
            asked,
            changed,
            visited,
        })
    }

    pub(crate) fn value(&self, n: u32) -> Value
        ensures { result ≡ resolved_value (slice_get self.now.resolved n) }
    {
        match self.resolved.get(n as usize) {
            Some(wire) => Value::Logic(wire.read()),
            None => Value::Bool(false),
        }
    }

    pub(crate) fn has_changed(&self, n: u32) -> bool
        ensures { result ≡ unwrap_or (slice_get self.now.changed n) false }
    {
        self.changed.has(n)
    }

    pub(crate) fn drive(&mut self, n: u32, d: Digit, p: u32) -> Result<(), AllocError>
        ensures ok { OnOk result (self.new ≡ record self.old { resolved = change self.old.resolved n (driven_by p d); asked = slice_set self.old.asked n true }) }
        ensures err { OnErr result (self.new ≡ self.old) }
    {
        let at = n as usize;
        if at >= self.resolved.len() {
            return Ok(());
        }
        match self.resolved[at].write(p, d) {
            Ok(()) => {
                self.asked.set(n);
                Ok(())
            }
            Err(error) => Err(error),
        }
    }

    // Updates those that asked, and announces what that changed.
    #[inline(always)]
    pub(crate) fn update(&mut self, parts: &[ResolvedPart], events: &mut EventBoard)
        ensures left { self.new ≡ record { resolved = resettled_all self.old.resolved self.old.asked; asked = map (λ (b : Bool). false) self.old.asked; changed = resolved_changes self.old.resolved self.old.asked } }
        ensures announced { events.new ≡ told_by_resolved parts.now self.old.resolved self.old.asked events.old }
    {
        if self.asked.is_empty() {
            self.changed.clear_all();
            return;
        }
        self.update_asked(parts, events);
    }

    // The same, where some asked.
    #[inline(never)]
    fn update_asked(&mut self, parts: &[ResolvedPart], events: &mut EventBoard)
        ensures left { self.new ≡ record { resolved = resettled_all self.old.resolved self.old.asked; asked = map (λ (b : Bool). false) self.old.asked; changed = resolved_changes self.old.resolved self.old.asked } }
        ensures announced { events.new ≡ told_by_resolved parts.now self.old.resolved self.old.asked events.old }
    {
        self.changed.clear_all();
        self.asked.take_all(&mut self.visited);
        update_each(
            self.resolved.as_mut_slice(),
            &mut self.changed,
            self.visited.as_slice(),
            parts,
            events,
        );
        self.visited.clear();
    }

    // None is marked as changed any more.
    #[inline(always)]
    pub(crate) fn clear_changed(&mut self)
        ensures { self.new ≡ record self.old { changed = map (λ (b : Bool). false) self.old.changed } }
    {
        self.changed.clear_all();
    }
}
