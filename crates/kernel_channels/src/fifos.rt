// Fifos.
ghost use Rattle.std.specs.Prelude.{◌≡◌, ◌==◌, not, IfOk, length, map, option_map, slice_get};
ghost use Rattle.kernel_events.specs.FlatDesign.declared.design.FifoPart.{FifoPart as Part};
ghost use Rattle.kernel_events.specs.FifoSync.Fifos as spec;
ghost use Rattle.kernel_events.specs.SimModel.Configuration.{change};
ghost use Rattle.kernel_events.specs.SimModel.Reading.{fifo_number};
ghost use Rattle.kernel_channels.specs.Announced.{told_by_fifos};
ghost use Rattle.kernel_channels.specs.UpdateMarks.{fifo_change, change_at, items_after, events_after};

use crate::announcing::{announce_at, no_change, number_of};
use kernel_events::EventBoard;
use kernel_events::fifo_sync_api::Fifo;
use kernel_events::flat_design_api::FifoPart;
use kernel_events::logic_values_api::Value;
use kernel_events::numbered_slots_api::Marks;
use kernel_events::signal_channel_api::Changed;
use std::alloc::{AllocError, Global};
use std::marker::Model;

// Fifos by number.
#[derive(Drop)]
pub(crate) struct FifoBank {
    fifos: Vec<Fifo>,
    // Those that were written or read since the last update.
    asked: Marks,
    // Room for those that an update visits.
    visited: Vec<u32>,
}

impl Model for FifoBank {
    ghost use Rattle.std.specs.Prelude.{List};
    ghost use Rattle.std.specs.Coded.{coded_list};
    ghost use Rattle.kernel_events.specs.FifoSync.Fifos.{Queued, queued_code};

    ghost Value = { List Queued };

    ghost coded = { coded_list queued_code };

    ghost use Rattle.kernel_channels.specs.UpdateMarks.{IsFifos};

    ghost view = { λ b. b.fifos.items };

    ghost invariant = { λ b. IsFifos b.fifos.items b.asked b.visited };
}

fn first_fifos(alloc: Global, parts: &[FifoPart]) -> Result<Vec<Fifo>, AllocError>
    ensures { IfOk result (λ fifos. fifos.items ≡ map (λ (p : Part). spec.nothing_in p.size) parts.now) }
{
    let mut fifos = Vec::with_capacity(alloc, parts.len())?;
    for part in parts {
        fifos.push_reserved(Fifo::new(alloc, part.size)?);
    }
    Ok(fifos)
}

// The first event of a fifo.
fn first_event(parts: &[FifoPart], n: u32) -> Option<u32>
    ensures { result ≡ slice_get (map (λ (p : Part). p.events) parts.now) n }
{
    match parts.get(n as usize) {
        Some(part) => Some(part.events),
        None => None,
    }
}

// Updates one, and says what that announces: data written by the first event, and data read by the second.
fn update_one(fifos: &mut [Fifo], n: u32) -> Changed
    ensures left { fifos.new ≡ change fifos.old n spec.after_update }
    ensures announced { result ≡ change_at fifo_change (slice_get fifos.old n) }
{
    let at = n as usize;
    if at >= fifos.len() {
        return no_change();
    }
    let change = fifos[at].update();
    Changed {
        changed: change.written,
        pos: change.taken,
        neg: false,
    }
}

// Updates those of these numbers.
#[inline(always)]
fn update_each(fifos: &mut [Fifo], numbers: &[u32], parts: &[FifoPart], events: &mut EventBoard)
    ensures left { fifos.new ≡ items_after spec.after_update numbers.now fifos.old }
    ensures announced { events.new ≡ events_after spec.after_update fifo_change numbers.now (map (λ (p : Part). p.events) parts.now) fifos.old events.old }
{
    for n in numbers {
        let change = update_one(fifos, *n);
        announce_at(events, change, first_event(parts, *n));
    }
}

impl FifoBank {
    // The fifos of these parts, with no value.
    pub(crate) fn new(alloc: Global, parts: &[FifoPart]) -> Result<FifoBank, AllocError>
        ensures { IfOk result (λ bank. bank ≡ map (λ (p : Part). spec.nothing_in p.size) parts.now) }
    {
        let size = number_of(parts.len())?;
        let fifos = first_fifos(alloc, parts)?;
        let asked = Marks::new(alloc, size)?;
        let visited = Vec::with_capacity(alloc, parts.len())?;
        Ok(FifoBank {
            fifos,
            asked,
            visited,
        })
    }

    pub(crate) fn available(&self, n: u32) -> u32
        ensures { result ≡ fifo_number spec.available (slice_get self.now n) }
    {
        match self.fifos.get(n as usize) {
            Some(fifo) => fifo.available(),
            None => 0,
        }
    }

    pub(crate) fn free(&self, n: u32) -> u32
        ensures { result ≡ fifo_number spec.free (slice_get self.now n) }
    {
        match self.fifos.get(n as usize) {
            Some(fifo) => fifo.free(),
            None => 0,
        }
    }

    pub(crate) fn read(&mut self, n: u32) -> Option<Option<Value>>
        ensures value { result ≡ option_map spec.readable (slice_get self.old n) }
        ensures left { self.new ≡ change self.old n spec.after_read }
    {
        let at = n as usize;
        if at >= self.fifos.len() {
            return None;
        }
        self.asked.set(n);
        Some(self.fifos[at].try_read())
    }

    pub(crate) fn write(&mut self, n: u32, v: Value) -> Option<bool>
        ensures done { result ≡ option_map (λ q. not (spec.free q == 0)) (slice_get self.old n) }
        ensures left { self.new ≡ change self.old n (λ q. spec.after_write q v) }
    {
        let at = n as usize;
        if at >= self.fifos.len() {
            return None;
        }
        self.asked.set(n);
        Some(self.fifos[at].try_write(v).is_ok())
    }

    // Ends the evaluation phase of those that were written or read in it, and announces that.
    #[inline(always)]
    pub(crate) fn update(&mut self, parts: &[FifoPart], events: &mut EventBoard)
        ensures left { self.new ≡ map spec.after_update self.old }
        ensures announced { events.new ≡ told_by_fifos parts.now self.old events.old }
    {
        if self.asked.is_empty() {
            return;
        }
        self.update_asked(parts, events);
    }

    // The same, where some were.
    #[inline(never)]
    fn update_asked(&mut self, parts: &[FifoPart], events: &mut EventBoard)
        ensures left { self.new ≡ map spec.after_update self.old }
        ensures announced { events.new ≡ told_by_fifos parts.now self.old events.old }
    {
        self.asked.take_all(&mut self.visited);
        update_each(
            self.fifos.as_mut_slice(),
            self.visited.as_slice(),
            parts,
            events,
        );
        self.visited.clear();
    }
}
