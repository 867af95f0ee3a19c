// The board of all channels.
ghost use Rattle.std.specs.Prelude.{◌≡◌, ◌==◌, ◌-◌, ◌+◌, ◌^◌, ◌<◌, not, OnOk, OnErr, IfOk, IfErr, None, Some, false, true, is_some, map, option_map, replicate, slice_get, slice_set, unwrap_or};
ghost use Rattle.kernel_events.specs.FlatDesign.declared.design.SemaphorePart.{SemaphorePart as Part};
ghost use Rattle.kernel_events.specs.SignalChannel.Signals.{written};
ghost use Rattle.kernel_events.specs.SignalChannel.Drivers.{driven_by};
ghost use Rattle.kernel_events.specs.FifoSync.Fifos as spec;
ghost use Rattle.kernel_events.specs.FifoSync.Locks.{is_unlocked, is_owner, locked_by, unlocked_by, is_used_up};
ghost use Rattle.kernel_events.specs.SimModel.Channels.{taken_from};
ghost use Rattle.kernel_events.specs.SimModel.Configuration.{change, first_channels};
ghost use Rattle.kernel_events.specs.SimModel.Phases.{channels_updated, unchanged};
ghost use Rattle.kernel_events.specs.SimModel.Reading.{signal_value, resolved_value, fifo_number};
ghost use Rattle.kernel_channels.specs.Announced.{told_by};
ghost use Rattle.kernel_channels.specs.Writers.{conflict_at, written_unless};

use crate::fifos::FifoBank;
use crate::signals::SignalBank;
use crate::wires::WireBank;
use kernel_events::EventBoard;
use kernel_events::fifo_sync_api::{Mutex, Semaphore};
use kernel_events::flat_design_api::{Design, SemaphorePart};
use kernel_events::logic_values_api::{Digit, Value};
use kernel_events::signal_channel_api::WriterConflict;
use std::alloc::{AllocError, Global};
use std::marker::Model;

/// The channels of each kind, by their numbers. A read of one that there is not is false or 0, and a call that changes one
/// that there is not changes nothing.
///
/// Memory is taken by `new` and, for a process that drives a resolved signal for the first time, by `drive`; no other call
/// takes any. `update` takes time in how many channels asked for an update, times a logarithm, and `clear_changed` that of a few
/// tests.
#[derive(Drop)]
pub struct ChannelBoard {
    signals: SignalBank,
    wires: WireBank,
    fifos: FifoBank,
    mutexes: Vec<Mutex>,
    semaphores: Vec<Semaphore>,
}

impl Model for ChannelBoard {
    ghost use Rattle.kernel_events.specs.SimModel.Configuration.{Channels};
    ghost use Rattle.kernel_channels.specs.Codes.{channels_code};

    ghost Value = { Channels };

    ghost coded = { channels_code };

    ghost view = { λ b. record {
      signals = b.signals.signals;
      changed = b.signals.changed;
      resolved = b.wires.resolved;
      resolved_asked = b.wires.asked;
      resolved_changed = b.wires.changed;
      fifos = b.fifos;
      mutexes = b.mutexes.items;
      semaphores = b.semaphores.items;
    } };
}

fn first_mutexes(alloc: Global, size: u32) -> Result<Vec<Mutex>, AllocError>
    ensures { IfOk result (λ mutexes. mutexes.items ≡ replicate size None) }
{
    let mut mutexes = Vec::with_capacity(alloc, size as usize)?;
    for _ in 0..size {
        mutexes.push_reserved(Mutex::new());
    }
    Ok(mutexes)
}

fn first_semaphores(alloc: Global, parts: &[SemaphorePart]) -> Result<Vec<Semaphore>, AllocError>
    ensures { IfOk result (λ semaphores. semaphores.items ≡ map (λ (p : Part). p.start) parts.now) }
{
    let mut semaphores = Vec::with_capacity(alloc, parts.len())?;
    for part in parts {
        semaphores.push_reserved(Semaphore::new(part.start));
    }
    Ok(semaphores)
}

impl ChannelBoard {
    /// The channels of a design with their first values. All memory is taken here but that of the drivers of resolved signals.
    /// It runs out of memory, too, where there are 2^32 channels of a kind or more.
    pub fn new(alloc: Global, design: &Design) -> Result<ChannelBoard, AllocError>
        ensures { IfOk result (λ board. board ≡ first_channels design.now) }
    {
        let signals = SignalBank::new(alloc, design.signals.as_slice())?;
        let wires = WireBank::new(alloc, design.resolved.as_slice())?;
        let fifos = FifoBank::new(alloc, design.fifos.as_slice())?;
        let mutexes = first_mutexes(alloc, design.mutexes)?;
        let semaphores = first_semaphores(alloc, design.semaphores.as_slice())?;
        Ok(ChannelBoard {
            signals,
            wires,
            fifos,
            mutexes,
            semaphores,
        })
    }

    /// The value of a signal, a buffer or a clock.
    #[inline(always)]
    pub fn signal(&self, n: u32) -> Value
        ensures { result ≡ signal_value (slice_get self.now.signals n) }
    {
        self.signals.value(n)
    }

    /// The value of a resolved signal.
    pub fn resolved(&self, n: u32) -> Value
        ensures { result ≡ resolved_value (slice_get self.now.resolved n) }
    {
        self.wires.value(n)
    }

    /// Whether the last update changed a signal, or a buffer was written before it.
    #[inline(always)]
    pub fn signal_changed(&self, n: u32) -> bool
        ensures { result ≡ unwrap_or (slice_get self.now.changed n) false }
    {
        self.signals.has_changed(n)
    }

    /// Whether the last update changed a resolved signal.
    pub fn resolved_changed(&self, n: u32) -> bool
        ensures { result ≡ unwrap_or (slice_get self.now.resolved_changed n) false }
    {
        self.wires.has_changed(n)
    }

    /// How many values of a fifo can be read now.
    pub fn available(&self, n: u32) -> u32
        ensures { result ≡ fifo_number spec.available (slice_get self.now.fifos n) }
    {
        self.fifos.available(n)
    }

    /// How many values of a fifo can be written now.
    pub fn free(&self, n: u32) -> u32
        ensures { result ≡ fifo_number spec.free (slice_get self.now.fifos n) }
    {
        self.fifos.free(n)
    }

    /// The value of a semaphore.
    pub fn semaphore(&self, n: u32) -> u64
        ensures { result ≡ unwrap_or (slice_get self.now.semaphores n) 0 }
    {
        match self.semaphores.get(n as usize) {
            Some(semaphore) => semaphore.value(),
            None => 0,
        }
    }

    /// Writes a signal or a buffer for the process of this serial: it asks for an update. Another writer than the one that
    /// stands is refused, and that changes nothing (IEEE 1666-2011, 6.4.4).
    #[inline(always)]
    pub fn write_signal(&mut self, n: u32, v: Value, p: u32) -> Result<(), WriterConflict>
        ensures ok { OnOk result (conflict_at (Some p) (slice_get self.old.signals n) ≡ None) }
        ensures refused { IfErr result (λ conflict. conflict_at (Some p) (slice_get self.old.signals n) ≡ Some conflict) }
        ensures left { self.new ≡ record self.old { signals = change self.old.signals n (written_unless (Some p) v) } }
    {
        self.signals.write(n, v, Some(p))
    }

    /// Writes a signal or a buffer for the script, which is no writer: it asks for an update, and is never refused.
    pub fn set_signal(&mut self, n: u32, v: Value)
        ensures { self.new ≡ record self.old { signals = change self.old.signals n (written None v) } }
    {
        match self.signals.write(n, v, None) {
            Ok(()) => {}
            Err(_) => {}
        }
    }

    /// Lets the process of this serial drive a digit on a resolved signal, which asks for an update. The first time it takes
    /// memory; where that is refused nothing changes.
    pub fn drive(&mut self, n: u32, d: Digit, p: u32) -> Result<(), AllocError>
        ensures ok { OnOk result (self.new ≡ record self.old { resolved = change self.old.resolved n (driven_by p d); resolved_asked = slice_set self.old.resolved_asked n true }) }
        ensures err { OnErr result (self.new ≡ self.old) }
    {
        self.wires.drive(n, d, p)
    }

    /// Reads the oldest value of a fifo, if one can be read now, and answers `None` where there is no such fifo.
    pub fn read_fifo(&mut self, n: u32) -> Option<Option<Value>>
        ensures value { result ≡ option_map spec.readable (slice_get self.old.fifos n) }
        ensures left { self.new ≡ record self.old { fifos = change self.old.fifos n spec.after_read } }
    {
        self.fifos.read(n)
    }

    /// Writes a value to a fifo, if a place is free now: says whether it did, and answers `None` where there is no such fifo.
    pub fn write_fifo(&mut self, n: u32, v: Value) -> Option<bool>
        ensures done { result ≡ option_map (λ q. not (spec.free q == 0)) (slice_get self.old.fifos n) }
        ensures left { self.new ≡ record self.old { fifos = change self.old.fifos n (λ q. spec.after_write q v) } }
    {
        self.fifos.write(n, v)
    }

    /// Locks a mutex for the process of this serial, if nobody owns it: says whether it did, and answers `None` where there is
    /// no such mutex.
    pub fn lock(&mut self, n: u32, p: u32) -> Option<bool>
        ensures done { result ≡ option_map is_unlocked (slice_get self.old.mutexes n) }
        ensures left { self.new ≡ record self.old { mutexes = change self.old.mutexes n (locked_by p) } }
    {
        let at = n as usize;
        if at >= self.mutexes.len() {
            return None;
        }
        Some(self.mutexes[at].trylock(p) == 0)
    }

    /// Unlocks a mutex, if the process of this serial owns it: says whether it did, and answers `None` where there is no such
    /// mutex.
    pub fn unlock(&mut self, n: u32, p: u32) -> Option<bool>
        ensures done { result ≡ option_map (is_owner p) (slice_get self.old.mutexes n) }
        ensures left { self.new ≡ record self.old { mutexes = change self.old.mutexes n (unlocked_by p) } }
    {
        let at = n as usize;
        if at >= self.mutexes.len() {
            return None;
        }
        Some(self.mutexes[at].unlock(p) == 0)
    }

    /// Takes one of the value of a semaphore, if it is not used up: says whether it did, and answers `None` where there is no
    /// such semaphore.
    pub fn wait_semaphore(&mut self, n: u32) -> Option<bool>
        ensures done { result ≡ option_map (λ v. not (is_used_up v)) (slice_get self.old.semaphores n) }
        ensures left { self.new ≡ record self.old { semaphores = change self.old.semaphores n taken_from } }
    {
        let at = n as usize;
        if at >= self.semaphores.len() {
            return None;
        }
        Some(self.semaphores[at].trywait() == 0)
    }

    /// Adds one to the value of a semaphore: says whether there is such a semaphore.
    pub fn post_semaphore(&mut self, n: u32) -> bool
        requires { unwrap_or (slice_get self.old.semaphores n) 0 < 2 ^ 64 - 1 }
        ensures there { result ≡ is_some (slice_get self.old.semaphores n) }
        ensures left { self.new ≡ record self.old { semaphores = change self.old.semaphores n (λ v. v + 1) } }
    {
        let at = n as usize;
        if at >= self.semaphores.len() {
            return false;
        }
        self.semaphores[at].post();
        true
    }

    /// The update phase: updates each channel that asked for it, exactly once, and announces what that changed by delta
    /// notifications of the channels' events (IEEE 1666-2011, 4.2.1.3).
    #[inline(always)]
    pub fn update(&mut self, design: &Design, events: &mut EventBoard)
        ensures left { self.new ≡ channels_updated self.old }
        ensures announced { events.new ≡ told_by design.now self.old events.old }
    {
        self.signals.update(design.signals.as_slice(), events);
        self.wires.update(design.resolved.as_slice(), events);
        self.fifos.update(design.fifos.as_slice(), events);
    }

    /// Takes back that the last update changed any channel: so it is at another time.
    #[inline(always)]
    pub fn clear_changed(&mut self)
        ensures { self.new ≡ unchanged self.old }
    {
        self.signals.clear_changed();
        self.wires.clear_changed();
    }
}
