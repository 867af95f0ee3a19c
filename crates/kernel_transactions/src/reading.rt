// What payloads say, and how they are written.
ghost use Rattle.std.specs.Prelude.{◌≡◌, Some, Ok, OnOk, OnErr, length, slice_set};
ghost use Rattle.sim_model.specs.LogicValues.Integers.{cut_of, number_of};
ghost use Rattle.sim_model.specs.LogicValues.declared.kinds.Sign.TheVariants as sign;
ghost use Rattle.sim_model.specs.LogicValues.declared.kinds.Value.{Value as Values};
ghost use Rattle.sim_model.specs.PayloadPool.declared.payload.Payload.{Payload as Payloads};
ghost use Rattle.sim_model.specs.PayloadPool.Transfer.{memory_after};
ghost use Rattle.sim_model.specs.PayloadPool.Transfer as transfer;
ghost use Rattle.sim_model.specs.Configuration.{Config, Transactions};
ghost use Rattle.sim_model.specs.Payloads.{payload_of};
ghost use Rattle.sim_model.specs.Values.{on_ok, index_within, unsigned};
ghost use Rattle.sim_model.specs.Values as values;
ghost use Rattle.sim_model.specs.Reading.{live_payload, field_value, byte_in, payload_bytes};
ghost use Rattle.sim_model.specs.Storing.{bytes_in, with_field, with_byte};
ghost use Rattle.kernel_transactions.specs.Board.{StandsForTransactions, Writes, SameQuantum, StaysWithin};
ghost use Rattle.kernel_transactions.specs.Answers.{use_of};

use crate::TransactionBoard;
use sim_model::flat_design_api::{PayloadBytes, PayloadField, RunFault};
use sim_model::logic_values_api::Value;
use sim_model::payload_pool_api::{Bytes, Payload};

// A field as a value.
fn field_of(payload: &Payload, field: PayloadField) -> Value
    ensures { result ≡ field_value field payload.now }
{
    match field {
        PayloadField::Command => Value::Int {
            width: 64,
            bits: (payload.command as i64).cast_unsigned(),
        },
        PayloadField::Status => Value::Int {
            width: 64,
            bits: (payload.status as i64).cast_unsigned(),
        },
        PayloadField::Address => Value::Uint {
            width: 64,
            bits: payload.address,
        },
        PayloadField::Width => Value::Uint {
            width: 64,
            bits: payload.width as u64,
        },
    }
}

// The bytes, or the enable bytes.
fn part_of(payload: &Payload, part: PayloadBytes) -> &[u8]
    ensures { result.now ≡ payload_bytes part payload.now }
{
    match part {
        PayloadBytes::Data => payload.bytes.as_slice(),
        PayloadBytes::ByteEnable => payload.enables.as_slice(),
    }
}

// The byte at an index.
fn byte_at(bytes: &[u8], i: u64) -> Result<u8, RunFault>
    ensures { byte_in bytes.now i ≡ on_ok result (λ b. Ok (unsigned b)) }
{
    let size = bytes.len() as u64;
    if i >= size {
        return Err(RunFault::IndexRange { index: i, size });
    }
    Ok(bytes[i as usize])
}

// The lowest 32 bits, read with the sign.
fn signed_32(n: u64) -> i32
    ensures { result ≡ number_of sign.Signed (cut_of sign.Signed 32 n) }
{
    ((n % 4_294_967_296) as u32).cast_signed()
}

// Writes the lowest bits of a number into a field.
fn write_field(payload: &mut Payload, field: PayloadField, n: u64)
    ensures { (v : Values) → values.bits v ≡ n → payload.new ≡ with_field field v payload.old }
{
    match field {
        PayloadField::Command => payload.command = signed_32(n),
        PayloadField::Status => payload.status = signed_32(n),
        PayloadField::Address => payload.address = n,
        PayloadField::Width => payload.width = (n % 4_294_967_296) as u32,
    }
}

// Writes a byte at an index.
fn write_at(bytes: &mut Bytes, i: u64, byte: u8) -> Result<(), RunFault>
    ensures answer { result ≡ on_ok (index_within i (length bytes.old)) (λ k. Ok tt) }
    ensures written { OnOk result (bytes.new ≡ slice_set bytes.old i byte) }
    ensures err { OnErr result (bytes.new ≡ bytes.old) }
{
    let size = bytes.as_slice().len() as u64;
    if i >= size {
        return Err(RunFault::IndexRange { index: i, size });
    }
    bytes.set(i as usize, byte);
    Ok(())
}

// Writes a byte of a payload.
fn write_byte(payload: &mut Payload, part: PayloadBytes, i: u64, byte: u8) -> Result<(), RunFault>
    ensures answer { result ≡ on_ok (index_within i (length (bytes_in part payload.old))) (λ k. Ok tt) }
    ensures written { OnOk result (payload.new ≡ with_byte part i byte payload.old) }
    ensures err { OnErr result (payload.new ≡ payload.old) }
{
    match part {
        PayloadBytes::Data => write_at(&mut payload.bytes, i, byte),
        PayloadBytes::ByteEnable => write_at(&mut payload.enables, i, byte),
    }
}

impl TransactionBoard {
    /// A field of the payload, at 64 bits (IEEE 1666-2011, clause 14).
    pub fn field(&self, t: u32, field: PayloadField) -> Result<Value, RunFault>
        ensures { (c : Config) → StandsForTransactions self.now c.transactions → result ≡ on_ok (live_payload c t) (λ q. Ok (field_value field q)) }
    {
        match self.pool.get(t) {
            Ok(payload) => Ok(field_of(payload, field)),
            Err(_) => Err(RunFault::PayloadFreed { serial: t }),
        }
    }

    /// How many bytes, or enable bytes, the payload has.
    pub fn size(&self, t: u32, part: PayloadBytes) -> Result<u64, RunFault>
        ensures { (c : Config) → StandsForTransactions self.now c.transactions → result ≡ on_ok (live_payload c t) (λ q. Ok (length (payload_bytes part q))) }
    {
        match self.pool.get(t) {
            Ok(payload) => Ok(part_of(payload, part).len() as u64),
            Err(_) => Err(RunFault::PayloadFreed { serial: t }),
        }
    }

    /// The byte of the payload at an index, counted from 0.
    pub fn byte(&self, t: u32, part: PayloadBytes, i: u64) -> Result<u8, RunFault>
        ensures { (c : Config) → StandsForTransactions self.now c.transactions
            → on_ok (live_payload c t) (λ q. byte_in (payload_bytes part q) i) ≡ on_ok result (λ b. Ok (unsigned b)) }
    {
        match self.pool.get(t) {
            Ok(payload) => byte_at(part_of(payload, part), i),
            Err(_) => Err(RunFault::PayloadFreed { serial: t }),
        }
    }

    /// Writes the lowest bits of a number into a field of the payload: 32 of them, and of an address all 64.
    pub fn set_field(&mut self, t: u32, field: PayloadField, n: u64) -> Result<(), RunFault>
        ensures answer { (c : Config) → StandsForTransactions self.old c.transactions → result ≡ use_of c t }
        ensures moves { (v : Values) → values.bits v ≡ n → Writes self.old self.new t (with_field field v) }
        ensures within { StaysWithin self.old self.new }
        ensures quantum { SameQuantum self.old self.new }
        ensures refused { OnErr result (self.new ≡ self.old) }
    {
        match self.pool.get_mut(t) {
            Ok(payload) => {
                write_field(payload, field, n);
                Ok(())
            }
            Err(_) => Err(RunFault::PayloadFreed { serial: t }),
        }
    }

    /// Writes a byte of the payload at an index, counted from 0.
    pub fn set_byte(&mut self, t: u32, part: PayloadBytes, i: u64, byte: u8) -> Result<(), RunFault>
        ensures answer { (c : Config) → StandsForTransactions self.old c.transactions
            → result ≡ on_ok (live_payload c t) (λ q. on_ok (index_within i (length (bytes_in part q))) (λ k. Ok tt)) }
        ensures moves { OnOk result (Writes self.old self.new t (with_byte part i byte)) }
        ensures within { StaysWithin self.old self.new }
        ensures quantum { SameQuantum self.old self.new }
        ensures refused { OnErr result (self.new ≡ self.old) }
    {
        match self.pool.get_mut(t) {
            Ok(payload) => write_byte(payload, part, i, byte),
            Err(_) => Err(RunFault::PayloadFreed { serial: t }),
        }
    }

    /// Carries the payload's bytes to a memory or from it, by its command, and sets its status (IEEE 1666-2011, clause 14).
    /// Where the payload was freed nothing changes.
    pub fn carry(&mut self, t: u32, memory: &mut [u8]) -> Result<(), RunFault>
        ensures answer { (c : Config) → StandsForTransactions self.old c.transactions → result ≡ use_of c t }
        ensures moves { Writes self.old self.new t (λ q. transfer.carried q memory.old) }
        ensures memory { (x : Transactions) (q : Payloads) → StandsForTransactions self.old x → payload_of x.pool t ≡ Some q → memory.new ≡ memory_after q memory.old }
        ensures within { StaysWithin self.old self.new }
        ensures quantum { SameQuantum self.old self.new }
        ensures refused { OnErr result (self.new ≡ self.old) }
        ensures left { OnErr result (memory.new ≡ memory.old) }
    {
        match self.pool.get_mut(t) {
            Ok(payload) => {
                let _status = sim_model::payload_pool_api::carry(payload, memory);
                Ok(())
            }
            Err(_) => Err(RunFault::PayloadFreed { serial: t }),
        }
    }
}
