//! Laws of the transfer: what its definition comes to for each byte.
ghost use Rattle.std.specs.Prelude.{◌≡◌, ◌≢◌, ℕ, ◌<◌, List, length, slice_index, true, false};
ghost use Rattle.payload_pool.specs.Transfer.{address_of, is_enabled, status_of, memory_after, bytes_after};
ghost use Rattle.payload_pool.specs.Carried.{IsDone, GoesTo, IsLastTo, IsOutside};
ghost use Rattle.payload_pool.specs.declared.payload.Payload.{Payload};

use crate::payload::{ADDRESS, IGNORE, OK, READ, WRITE};

/// `IGNORE` is `OK` and moves nothing, whatever else the payload says.
pub fn ignore_moves_nothing()
    ensures status { (p : Payload) (size : ℕ) → p.command ≡ IGNORE → status_of p size ≡ OK }
    ensures memory { (p : Payload) (m : List ℕ) → p.command ≡ IGNORE → memory_after p m ≡ m }
    ensures bytes { (p : Payload) (m : List ℕ) → p.command ≡ IGNORE → bytes_after p m ≡ p.bytes }
{}

/// Where the status is not `OK` nothing moved.
pub fn refused_moves_nothing()
    ensures memory { (p : Payload) (m : List ℕ) → status_of p (length m) ≢ OK → memory_after p m ≡ m }
    ensures bytes { (p : Payload) (m : List ℕ) → status_of p (length m) ≢ OK → bytes_after p m ≡ p.bytes }
{}

/// Where a transfer is done and not ignored, each byte has a place in the memory; and `ADDRESS` comes only where some byte has none.
pub fn each_byte_has_a_place()
    ensures done { (p : Payload) (size i : ℕ) → status_of p size ≡ OK → p.command ≢ IGNORE
        → i < length p.bytes → address_of p i < size }
    ensures cause { (p : Payload) (size : ℕ) → status_of p size ≡ ADDRESS → (i : ℕ) × IsOutside p size i }
{}

/// After a `WRITE` each place of the memory has the last enabled byte that goes there, or is as before where none goes there.
/// The payload's bytes stay.
pub fn write_leaves_the_last_byte()
    ensures last { (p : Payload) (m : List ℕ) (i a : ℕ) → IsDone p (length m) WRITE → IsLastTo p i a
        → slice_index (memory_after p m) a ≡ slice_index p.bytes i }
    ensures others { (p : Payload) (m : List ℕ) (a : ℕ) → IsDone p (length m) WRITE → a < length m
        → ((i : ℕ) → GoesTo p i a → ⊥) → slice_index (memory_after p m) a ≡ slice_index m a }
    ensures size { (p : Payload) (m : List ℕ) → length (memory_after p m) ≡ length m }
    ensures bytes { (p : Payload) (m : List ℕ) → p.command ≡ WRITE → bytes_after p m ≡ p.bytes }
{}

/// After a `READ` each byte that is enabled is the memory's at its address, and each other byte is as before.
/// The memory stays.
pub fn read_takes_the_byte_at_its_address()
    ensures enabled { (p : Payload) (m : List ℕ) (i : ℕ) → IsDone p (length m) READ → i < length p.bytes
        → is_enabled p.enables i ≡ true → slice_index (bytes_after p m) i ≡ slice_index m (address_of p i) }
    ensures others { (p : Payload) (m : List ℕ) (i : ℕ) → IsDone p (length m) READ → i < length p.bytes
        → is_enabled p.enables i ≡ false → slice_index (bytes_after p m) i ≡ slice_index p.bytes i }
    ensures size { (p : Payload) (m : List ℕ) → length (bytes_after p m) ≡ length p.bytes }
    ensures memory { (p : Payload) (m : List ℕ) → p.command ≡ READ → memory_after p m ≡ m }
{}
