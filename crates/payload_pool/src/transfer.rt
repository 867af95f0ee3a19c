//! The transfer between a payload and a memory of bytes.
ghost use Rattle.std.specs.Prelude.{◌≡◌, ◌+◌, ◌%◌, ◌^◌, ◌<◌, false, length, map, slice_index, slice_set, if◌then◌else◌};
ghost use Rattle.std.specs.List.{list_any};
ghost use Rattle.payload_pool.specs.Transfer as spec;
ghost use Rattle.payload_pool.specs.Moves.{after_sent, after_fetched};

use crate::payload::{ADDRESS, BURST, BYTE_ENABLE, COMMAND, IGNORE, OK, Payload, READ, WRITE};

// Whether byte i takes part.
fn is_enabled(enables: &[u8], i: usize) -> bool
    ensures { result ≡ spec.is_enabled enables.now i }
{
    enables.is_empty() || enables[i % enables.len()] == 0xff
}

// Whether byte i has no place in a memory of this size.
fn is_outside(p: &Payload, size: usize, i: usize) -> bool
    requires { 0 < p.now.width }
    ensures { result ≡ spec.is_outside size (spec.address_of p.now i) }
{
    match p.address.checked_add((i % p.width as usize) as u64) {
        Some(address) => address >= size as u64,
        None => true,
    }
}

// Whether some byte has no place in a memory of this size.
fn leaves(p: &Payload, size: usize) -> bool
    requires { 0 < p.now.width }
    ensures { result ≡ spec.leaves p.now size }
{
    (0..p.bytes.as_slice().len()).any(|i| is_outside(p, size, i))
}

// Whether some enable byte is neither 0x00 nor 0xff.
fn has_bad_enable(enables: &[u8]) -> bool
    ensures { result ≡ list_any spec.is_bad_enable enables.now }
{
    enables.iter().any(|e| *e != 0x00 && *e != 0xff)
}

// The status of a transfer with a memory of this size.
fn status_of(p: &Payload, size: usize) -> i32
    ensures { result ≡ spec.status_of p.now size }
{
    if p.command != READ && p.command != WRITE && p.command != IGNORE {
        COMMAND
    } else if p.command == IGNORE {
        OK
    } else if p.width == 0 {
        BURST
    } else if has_bad_enable(p.enables.as_slice()) {
        BYTE_ENABLE
    } else if leaves(p, size) {
        ADDRESS
    } else {
        OK
    }
}

// The place of byte i in a memory where each byte has one.
fn place_of(p: &Payload, size: usize, i: usize) -> usize
    requires spread { 0 < p.now.width }
    requires within { i < length p.now.bytes }
    requires fits { spec.leaves p.now size ≡ false }
    ensures place { result ≡ spec.address_of p.now i }
    ensures inside { result < size }
{
    (p.address + (i % p.width as usize) as u64) as usize
}

// Moves byte i into the memory, if it is enabled.
fn send(p: &Payload, i: usize, memory: &mut [u8])
    requires spread { 0 < p.now.width }
    requires within { i < length p.now.bytes }
    requires fits { spec.leaves p.now (length memory.old) ≡ false }
    ensures { memory.new ≡ after_sent p.now i memory.old }
{
    if is_enabled(p.enables.as_slice(), i) {
        let at = place_of(p, memory.len(), i);
        memory[at] = p.bytes.as_slice()[i];
    }
}

// Moves the enabled bytes into the memory, in order.
fn send_all(p: &Payload, memory: &mut [u8])
    requires spread { 0 < p.now.width }
    requires fits { spec.leaves p.now (length memory.old) ≡ false }
    ensures { memory.new ≡ map (spec.written_at p.now memory.old) (spec.places memory.old) }
{
    for i in 0..p.bytes.as_slice().len() {
        send(p, i, memory);
    }
}

// Moves byte i from the memory, if it is enabled.
fn fetch(p: &mut Payload, i: usize, memory: &[u8])
    requires spread { 0 < p.old.width }
    requires within { i < length p.old.bytes }
    requires fits { spec.leaves p.old (length memory.now) ≡ false }
    ensures { p.new ≡ after_fetched p.old i memory.now }
{
    if is_enabled(p.enables.as_slice(), i) {
        let at = place_of(p, memory.len(), i);
        p.bytes.set(i, memory[at]);
    }
}

// Moves the enabled bytes from the memory.
fn fetch_all(p: &mut Payload, memory: &[u8])
    requires spread { 0 < p.old.width }
    requires fits { spec.leaves p.old (length memory.now) ≡ false }
    ensures { p.new ≡ record p.old { bytes = map (spec.read_at p.old memory.now) (spec.places p.old.bytes) } }
{
    for i in 0..p.bytes.as_slice().len() {
        fetch(p, i, memory);
    }
}

/// Carries the payload's bytes to a memory or from it, by its command, and answers the status of the transfer, which it sets too.
///
/// Byte i goes to the address plus the rest of i by the width. The bytes that are enabled are moved in order, where the status is `OK`;
/// where it is another, and for `IGNORE`, none is moved.
/// The status is `COMMAND` for a command that is none of the three, `OK` for `IGNORE`, `BURST` for a width of 0,
/// `BYTE_ENABLE` for an enable byte other than `0x00` and `0xff`, `ADDRESS` where some byte's address is past 64 bits or not in the memory,
/// and `OK` else; of these the first that holds.
pub fn carry(p: &mut Payload, memory: &mut [u8]) -> i32
    ensures answer { result ≡ spec.status_of p.old (length memory.old) }
    ensures payload { p.new ≡ spec.carried p.old memory.old }
    ensures memory { memory.new ≡ spec.memory_after p.old memory.old }
{
    let status = status_of(p, memory.len());
    if status == OK && p.command == WRITE {
        send_all(p, memory);
    }
    if status == OK && p.command == READ {
        fetch_all(p, memory);
    }
    p.status = status;
    status
}
