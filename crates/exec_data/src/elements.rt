//! Assignments to elements of memories.
ghost use Rattle.std.specs.Prelude.{◌≡◌, [], Ok, Some, length, slice_get, slice_set, unwrap_or};
ghost use Rattle.flat_design.specs.Code as code;
ghost use Rattle.flat_design.specs.Code.{term_of};
ghost use Rattle.kernel_view.specs.SimModel.Configuration.{Config};
ghost use Rattle.kernel_view.specs.SimModel.Reading.{here, memory_at};
ghost use Rattle.kernel_view.specs.SimModel.Storing as storing;
ghost use Rattle.kernel_view.specs.SimModel.Storing.{passes, do_assign, set_memory};
ghost use Rattle.kernel_view.specs.SimModel.Values as values;
ghost use Rattle.kernel_view.specs.SimModel.Values.{on_ok};
ghost use Rattle.kernel_view.specs.KernelState.Kernel.{StandsFor, IsSound};
ghost use Rattle.kernel_view.specs.KernelState.Moves.{Moves, Does, Lives, HasStatement};

use flat_design::{Expr, RunFault};
use kernel_view::expr_eval_api::bits;
use kernel_view::kernel_state_api::{Kernel, pass};
use kernel_view::logic_values_api::{Bytes, Value};
use kernel_view::{denoted_at, eval_at, memory_number};

/// The low 8 bits of a number.
fn low_byte(v: Value) -> u8
    ensures { result ≡ storing.low_byte v }
{
    (bits(v) % 256) as u8
}

/// An index below a size.
///
/// # Errors
/// Any other index.
fn index_within(i: u64, size: usize) -> Result<usize, RunFault>
    ensures { result ≡ values.index_within i size }
{
    if i >= size as u64 {
        return Err(RunFault::IndexRange {
            index: i,
            size: size as u64,
        });
    }
    Ok(i as usize)
}

/// How many bytes a memory has; none where there is no such memory.
fn size_of(k: &Kernel, m: u32) -> usize
    ensures { (c : Config) → StandsFor k.now c → result ≡ length (memory_at c (Some m)) }
{
    match k.memories.get(m as usize) {
        Some(bytes) => bytes.as_slice().len(),
        None => 0,
    }
}

/// Another byte at a place; where there is none nothing changes.
#[tactic(auto, using(std::proofs::lemmas::List::set_past))]
fn set_at(bytes: &mut Bytes, place: usize, byte: u8)
    ensures { bytes.new ≡ slice_set bytes.old place byte }
{
    if place < bytes.as_slice().len() {
        bytes.set(place, byte);
    }
}

/// The same in the bytes of this number.
#[tactic(auto, using(std::proofs::lemmas::List::set_past))]
fn set_in(memories: &mut Vec<Bytes>, m: usize, place: usize, byte: u8)
    ensures { memories.new.items ≡ slice_set memories.old.items m (slice_set (unwrap_or (slice_get memories.old.items m) []) place byte) }
{
    if m < memories.len() {
        set_at(&mut memories[m], place, byte);
    }
}

/// Another byte at a place of a memory; where there is none nothing changes.
fn set_byte(k: &mut Kernel, m: u32, place: usize, byte: u8)
    requires { IsSound k.old }
    ensures moves { Moves k.old k.new (λ c. set_memory c (Some m) (slice_set (memory_at c (Some m)) place byte)) }
    ensures sound { IsSound k.new }
    ensures made { k.new.made ≡ k.old.made }
{
    set_in(&mut k.memories, m as usize, place, byte);
}

/// A byte is stored at an index of a memory.
///
/// # Errors
/// An index past the last byte, and then nothing changes.
fn store_byte(k: &mut Kernel, p: u32, m: u32, i: u64, byte: u8) -> Result<(), RunFault>
    requires sound { IsSound k.old }
    requires lives { Lives k.old p }
    requires statement { HasStatement k.old p }
    ensures does { Does k.old k.new result p (λ c q j r. on_ok (values.index_within i (length (memory_at c (Some m)))) (λ n. Ok (set_memory (passes c q r) (Some m) (slice_set (memory_at c (Some m)) n byte)))) }
    ensures sound { IsSound k.new }
    ensures made { k.new.made ≡ k.old.made }
{
    let place = index_within(i, size_of(k, m))?;
    pass(k, p);
    set_byte(k, m, place, byte);
    Ok(())
}

/// The same of the memory that a name stands for: one that stands for none has no bytes.
///
/// # Errors
/// An index past the last byte, and then nothing changes.
fn store_in(k: &mut Kernel, p: u32, memory: Option<u32>, i: u64, byte: u8) -> Result<(), RunFault>
    requires sound { IsSound k.old }
    requires lives { Lives k.old p }
    requires statement { HasStatement k.old p }
    ensures does { Does k.old k.new result p (λ c q j r. on_ok (values.index_within i (length (memory_at c memory))) (λ n. Ok (set_memory (passes c q r) memory (slice_set (memory_at c memory) n byte)))) }
    ensures sound { IsSound k.new }
    ensures made { k.new.made ≡ k.old.made }
{
    match memory {
        Some(m) => store_byte(k, p, m, i, byte),
        None => Err(RunFault::IndexRange { index: i, size: 0 }),
    }
}

/// An assignment to an element of a memory, of the low 8 bits. It takes no memory.
///
/// # Errors
/// The fault of its index, and then that of its expression; an index past the last byte. Then nothing changes.
#[inline(never)]
pub(crate) fn assign_element(
    k: &mut Kernel,
    p: u32,
    n: u32,
    index: &Expr,
    e: &Expr,
) -> Result<(), RunFault>
    requires sound { IsSound k.old }
    requires lives { Lives k.old p }
    requires statement { HasStatement k.old p }
    ensures does { Does k.old k.new result p (λ c q i r. do_assign c q r (here c q i r) (code.to_element n (term_of index.now)) (term_of e.now)) }
    ensures sound { IsSound k.new }
    ensures made { k.new.made ≡ k.old.made }
{
    let i = eval_at(k, p, index)?;
    let value = eval_at(k, p, e)?;
    let memory = memory_number(denoted_at(k, p, n));
    store_in(k, p, memory, bits(i), low_byte(value))
}
