//! The live payloads, each under a number that is never given twice.
ghost use Rattle.std.specs.Prelude.{◌≡◌, ◌↔◌, ◌-◌, ◌^◌, ◌<◌, ◌≤◌, ℕ, None, Some, IsErr, IfOk, OnOk, OnErr, replicate};
ghost use Rattle.std.specs.Option.{option_copied, option_copied_mut, ForSome};
ghost use Rattle.std.specs.Borrow.{sem};
ghost use Rattle.std.specs.FinMap as map;
ghost use Rattle.payload_pool.specs.Payloads as spec;

use crate::payload::{IGNORE, INCOMPLETE, Payload};
use logic_values::Bytes;
use numbered_slots::Slots;
use std::alloc::{AllocError, Global};
use std::marker::Model;

/// How many payloads may be live at once.
pub const MAX_LIVE: usize = 16_384;

/// How many bytes, and how many enable bytes, a payload has at most.
pub const MAX_BYTES: u16 = 4_096;

/// Why a new payload was refused.
#[derive(Clone, Copy, PartialEq, Eq, Debug)]
pub enum MakeStop {
    /// There are `MAX_LIVE` live payloads.
    TooMany,
    /// There is no memory.
    NoMemory,
}

/// No payload is live under the number.
#[derive(Clone, Copy, PartialEq, Eq, Debug)]
pub struct Freed;

// A live payload, and how many hold it.
#[derive(Drop)]
pub(crate) struct Counted {
    pub(crate) payload: Payload,
    pub(crate) count: u32,
}

/// The live payloads by number, each with the count of those that hold it, and the number of the next one.
///
/// Numbers are given from 0 and rise by one. A payload is freed when its count comes to 0, and is found no more under its number.
#[derive(Drop)]
pub struct Pool {
    alloc: Global,
    payloads: Slots<Counted>,
}

impl Model for Pool {
    ghost use Rattle.payload_pool.specs.Payloads.{Payloads, payloads_code};

    ghost Value = { Payloads };

    ghost coded = { payloads_code };

    ghost view = { λ p. p.payloads };
}

// So many bytes, each of them this one.
fn filled(alloc: Global, byte: u8, len: u16) -> Result<Bytes, AllocError>
    ensures { IfOk result (λ bytes. bytes ≡ replicate len byte) }
{
    let held = vec![in alloc; byte; len as usize]?;
    Ok(Bytes::from_vec(held))
}

// A payload as `make` gives it.
fn new_payload(alloc: Global, len: u16, enables: u16) -> Result<Payload, AllocError>
    ensures { IfOk result (λ p. p ≡ spec.new_payload len enables) }
{
    let bytes = filled(alloc, 0, len)?;
    let enables = filled(alloc, 0xff, enables)?;
    Ok(Payload {
        command: IGNORE,
        address: 0,
        bytes,
        enables,
        width: len as u32,
        status: INCOMPLETE,
    })
}

impl Pool {
    ghost use Rattle.payload_pool.specs.Lends.{lends_payload};

    /// A pool with no payload, whose first number will be 0. It takes no memory.
    pub fn new(alloc: Global) -> Pool
        ensures empty { result.live ≡ map.empty }
        ensures first { result.next ≡ 0 }
    {
        Pool {
            alloc,
            payloads: Slots::new(alloc),
        }
    }

    /// Makes a payload with so many bytes and so many enable bytes, held once, and answers its number, which no payload had before.
    ///
    /// Its command is `IGNORE`, its address 0, each byte 0, each enable byte `0xff`, its width the number of bytes, its status `INCOMPLETE`.
    pub fn make(&mut self, len: u16, enables: u16) -> Result<u32, MakeStop>
        requires some { 1 ≤ len }
        requires len { len ≤ MAX_BYTES }
        requires enables { enables ≤ MAX_BYTES }
        requires next { self.old.next < 2 ^ 32 - 1 }

        // The number is the next one. No live payload has it or a later one.
        ensures number { IfOk result (λ t. t ≡ self.old.next) }
        ensures fresh { (t : ℕ) → self.old.next ≤ t → map.get self.old.live t ≡ None }
        ensures made { OnOk result (self.new ≡ spec.with_made self.old len enables) }

        ensures too_many { (result ≡ Err MakeStop.TooMany) ↔ (map.len self.old.live ≡ MAX_LIVE) }
        ensures refused { OnErr result (self.new ≡ self.old) }
    {
        let t = self.payloads.next_number();
        if self.payloads.len() == MAX_LIVE {
            return Err(MakeStop::TooMany);
        }
        let payload = match new_payload(self.alloc, len, enables) {
            Ok(payload) => payload,
            Err(_) => return Err(MakeStop::NoMemory),
        };
        match self.payloads.insert(Counted { payload, count: 1 }) {
            Ok(_) => Ok(t),
            Err(_) => Err(MakeStop::NoMemory),
        }
    }

    /// The payload is held once more.
    pub fn acquire(&mut self, t: u32) -> Result<(), Freed>
        requires { ForSome (map.get self.old.live t) (λ c. c.count < 2 ^ 32 - 1) }
        ensures freed { IsErr result ↔ (map.get self.old.live t ≡ None) }
        ensures counted { self.new ≡ spec.with_acquired self.old t }
        ensures refused { OnErr result (self.new ≡ self.old) }
    {
        let Some(counted) = self.payloads.get_mut(t) else {
            return Err(Freed);
        };
        counted.count += 1;
        Ok(())
    }

    /// The live payload of this number.
    pub fn get(&self, t: u32) -> Result<&Payload, Freed>
        ensures freed { IsErr result ↔ (map.get self.now.live t ≡ None) }
        ensures value { IfOk result (λ p. spec.payload_of self.now t ≡ Some p.now) }
    {
        match self.payloads.get(t) {
            Some(counted) => Ok(&counted.payload),
            None => Err(Freed),
        }
    }

    /// The live payload of this number for writing.
    pub fn get_mut(&mut self, t: u32) -> Result<&mut Payload, Freed>
        ensures* writes_back { sem 𝓛 (lends_payload self.entry t result) }
        ensures freed { IsErr result ↔ (map.get self.old.live t ≡ None) }
        ensures value { IfOk result (λ p. spec.payload_of self.old t ≡ Some p.now) }
    {
        match self.payloads.get_mut(t) {
            Some(counted) => Ok(&mut counted.payload),
            None => Err(Freed),
        }
    }

    /// The payload is held once less, and freed where nobody holds it any more.
    pub fn release(&mut self, t: u32) -> Result<(), Freed>
        ensures freed { IsErr result ↔ (map.get self.old.live t ≡ None) }
        ensures counted { self.new ≡ spec.with_released self.old t }
        ensures refused { OnErr result (self.new ≡ self.old) }
    {
        let left = match self.payloads.get_mut(t) {
            Some(counted) => {
                counted.count = counted.count.saturating_sub(1);
                counted.count
            }
            None => return Err(Freed),
        };
        if left == 0 {
            drop(self.payloads.remove(t));
        }
        Ok(())
    }
}
