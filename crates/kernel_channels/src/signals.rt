// Signals and buffers.
ghost use Rattle.std.specs.Prelude.{◌≡◌, Bool, None, Some, OnOk, IfOk, IfErr, false, length, map, replicate, slice_get, unwrap_or};
ghost use Rattle.kernel_events.specs.FlatDesign.declared.design.SignalPart.{SignalPart as Part};
ghost use Rattle.kernel_events.specs.SignalChannel.Signals.{settled, change_of};
ghost use Rattle.kernel_events.specs.SignalChannel.declared.signal.Signal.{Signal as Kept};
ghost use Rattle.kernel_events.specs.SimModel.Configuration as configuration;
ghost use Rattle.kernel_events.specs.SimModel.Configuration.{change, first_signal};
ghost use Rattle.kernel_events.specs.SimModel.Reading.{signal_value};
ghost use Rattle.kernel_channels.specs.Announced.{told_by_signals};
ghost use Rattle.kernel_channels.specs.UpdateMarks.{change_at, items_after, marks_after, events_after};
ghost use Rattle.kernel_channels.specs.Writers.{conflict_at, written_unless};

use crate::announcing::{announce_at, no_change, number_of};
use crate::asking::{has_asked, list_one, put_in_order};
use crate::changes::{Changes, mark_if};
use kernel_events::EventBoard;
use kernel_events::flat_design_api::SignalPart;
use kernel_events::logic_values_api::Value;
use kernel_events::model_tree_api::SignalKind;
use kernel_events::signal_channel_api::{Changed, Policy, Signal, WriterConflict};
use std::alloc::{AllocError, Global};
use std::marker::Model;

// Signals and buffers by number.
#[derive(Drop)]
pub(crate) struct SignalBank {
    signals: Vec<Signal>,
    // Those that were written since the last update, each once, in any order. There is room for all.
    asked: Vec<u32>,
    // Those that the last update changed.
    changed: Changes,
}

impl Model for SignalBank {
    ghost use Rattle.kernel_channels.specs.Codes.{Values, values_code};

    ghost Value = { Values };

    ghost coded = { values_code };

    ghost use Rattle.kernel_channels.specs.UpdateMarks.{IsSignals};

    ghost view = { λ b. record {
      signals = b.signals.items;
      changed = b.changed;
    } };

    ghost invariant = { λ b. IsSignals b.signals.items b.asked b.changed };
}

fn policy_of(kind: SignalKind, many: bool) -> Policy
    ensures { result ≡ configuration.policy_of kind many }
{
    match (kind, many) {
        (SignalKind::Signal, true) => Policy::Many,
        (SignalKind::Signal, false) => Policy::One,
        (SignalKind::Buffer, true) => Policy::BufferMany,
        (SignalKind::Buffer, false) => Policy::Buffer,
    }
}

fn first_signals(alloc: Global, parts: &[SignalPart]) -> Result<Vec<Signal>, AllocError>
    ensures { IfOk result (λ signals. signals.items ≡ map first_signal parts.now) }
{
    let mut signals = Vec::with_capacity(alloc, parts.len())?;
    for part in parts {
        signals.push_reserved(Signal::new(policy_of(part.kind, part.many), part.initial));
    }
    Ok(signals)
}

// The first event of a signal.
#[inline(always)]
fn first_event(parts: &[SignalPart], n: u32) -> Option<u32>
    ensures { result ≡ slice_get (map (λ (p : Part). p.events) parts.now) n }
{
    match parts.get(n as usize) {
        Some(part) => Some(part.events),
        None => None,
    }
}

// Updates one, and says what that announces.
#[inline(always)]
fn update_one(signals: &mut [Signal], n: u32) -> Changed
    ensures left { signals.new ≡ change signals.old n settled }
    ensures announced { result ≡ change_at change_of (slice_get signals.old n) }
{
    let at = n as usize;
    if at >= signals.len() {
        return no_change();
    }
    signals[at].update()
}

// Updates those of these numbers.
#[inline(always)]
fn update_each(
    signals: &mut [Signal],
    changed: &mut Changes,
    numbers: &[u32],
    parts: &[SignalPart],
    events: &mut EventBoard,
)
    ensures left { signals.new ≡ items_after settled numbers.now signals.old }
    ensures marked { changed.new ≡ marks_after settled change_of numbers.now signals.old changed.old }
    ensures announced { events.new ≡ events_after settled change_of numbers.now (map (λ (p : Part). p.events) parts.now) signals.old events.old }
{
    for n in numbers {
        let change = update_one(signals, *n);
        mark_if(changed, change.changed, *n);
        announce_at(events, change, first_event(parts, *n));
    }
}

impl SignalBank {
    // The signals of these parts, with their first values.
    pub(crate) fn new(alloc: Global, parts: &[SignalPart]) -> Result<SignalBank, AllocError>
        ensures { IfOk result (λ bank. bank ≡ record { signals = map first_signal parts.now; changed = replicate (length parts.now) false }) }
    {
        let size = number_of(parts.len())?;
        let signals = first_signals(alloc, parts)?;
        let changed = Changes::new(alloc, size)?;
        let asked = Vec::with_capacity(alloc, parts.len())?;
        Ok(SignalBank {
            signals,
            asked,
            changed,
        })
    }

    #[inline(always)]
    pub(crate) fn value(&self, n: u32) -> Value
        ensures { result ≡ signal_value (slice_get self.now.signals n) }
    {
        match self.signals.get(n as usize) {
            Some(signal) => signal.read(),
            None => Value::Bool(false),
        }
    }

    #[inline(always)]
    pub(crate) fn has_changed(&self, n: u32) -> bool
        ensures { result ≡ unwrap_or (slice_get self.now.changed n) false }
    {
        self.changed.has(n)
    }

    #[inline(always)]
    pub(crate) fn write(&mut self, n: u32, v: Value, p: Option<u32>) -> Result<(), WriterConflict>
        ensures ok { OnOk result (conflict_at p (slice_get self.old.signals n) ≡ None) }
        ensures refused { IfErr result (λ conflict. conflict_at p (slice_get self.old.signals n) ≡ Some conflict) }
        ensures left { self.new ≡ record self.old { signals = change self.old.signals n (written_unless p v) } }
    {
        let at = n as usize;
        if at >= self.signals.len() {
            return Ok(());
        }
        let had = has_asked(self.signals.as_slice(), n);
        match self.signals[at].write(p, v) {
            Ok(()) => {
                list_one(&mut self.asked, had, n);
                Ok(())
            }
            Err(conflict) => Err(conflict),
        }
    }

    // Updates those that asked, and announces what that changed.
    #[inline(always)]
    pub(crate) fn update(&mut self, parts: &[SignalPart], events: &mut EventBoard)
        ensures left { self.new ≡ record { signals = map settled self.old.signals; changed = map (λ (s : Kept). (change_of s).changed) self.old.signals } }
        ensures announced { events.new ≡ told_by_signals parts.now self.old.signals events.old }
    {
        self.changed.clear_all();
        put_in_order(&mut self.asked);
        update_each(
            self.signals.as_mut_slice(),
            &mut self.changed,
            self.asked.as_slice(),
            parts,
            events,
        );
        self.asked.clear();
    }

    // None is marked as changed any more.
    #[inline(always)]
    pub(crate) fn clear_changed(&mut self)
        ensures { self.new ≡ record self.old { changed = map (λ (b : Bool). false) self.old.changed } }
    {
        self.changed.clear_all();
    }
}
