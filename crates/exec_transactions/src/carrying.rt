//! Bytes between payloads and memories (IEEE 1666-2011, clause 14).
ghost use Rattle.std.specs.Prelude.{◌≡◌, [], Ok, Some, OnErr, slice_get, slice_set, unwrap_or};
ghost use Rattle.exec_calls.specs.PayloadPool.Transfer as transfer;
ghost use Rattle.exec_calls.specs.PayloadPool.Transfer.{memory_after};
ghost use Rattle.exec_calls.specs.PayloadPool.declared.payload.Payload.{Payload as Carried};
ghost use Rattle.exec_calls.specs.SimModel.Configuration.{Config, Transactions};
ghost use Rattle.exec_calls.specs.SimModel.Payloads.{payload_of};
ghost use Rattle.exec_calls.specs.SimModel.Values.{on_ok};
ghost use Rattle.exec_calls.specs.SimModel.Reading.{here, live_payload, memory_at};
ghost use Rattle.exec_calls.specs.SimModel.Storing.{passes, set_memory, set_payload};
ghost use Rattle.exec_calls.specs.SimModel.Transport.{do_carry};
ghost use Rattle.exec_calls.specs.KernelTransactions.Answers.{use_of};
ghost use Rattle.exec_calls.specs.KernelTransactions.Board.{StandsForTransactions, SameQuantum, StaysWithin, Writes};
ghost use Rattle.exec_calls.specs.KernelState.Kernel.{IsSound};
ghost use Rattle.exec_calls.specs.KernelState.Moves.{Does, Lives, HasStatement};
ghost use Rattle.exec_transactions.specs.Carried.{bytes_of, with_bytes};

use exec_calls::kernel_state_api::{Kernel, pass};
use exec_calls::kernel_transactions_api::{TransactionBoard, live_payloads_are_used};
use exec_calls::kernel_view_api::{denoted_at, memory_number, payload_at};
use exec_calls::logic_values_api::{Bytes, Items};
use flat_design::{NameUse, RunFault};
use std::alloc::Global;
use std::mem;

/// The bytes at a place are taken out, and none are left there.
#[tactic(auto, using(std::proofs::lemmas::List::set_past))]
fn take_at(memories: &mut Vec<Bytes>, alloc: Global, m: usize) -> Vec<u8>
    ensures taken { result.items ≡ unwrap_or (slice_get memories.old.items m) [] }
    ensures left { memories.new.items ≡ slice_set memories.old.items m [] }
{
    if m >= memories.len() {
        return Vec::new(alloc);
    }
    mem::replace(&mut memories[m], Items::new(alloc)).into_vec()
}

/// The bytes of a memory are taken out, and none are left there. It takes no memory.
fn take(memories: &mut Vec<Bytes>, alloc: Global, m: Option<u32>) -> Vec<u8>
    ensures taken { result.items ≡ bytes_of memories.old.items m }
    ensures left { memories.new.items ≡ with_bytes memories.old.items m [] }
{
    match m {
        Some(n) => take_at(memories, alloc, n as usize),
        None => Vec::new(alloc),
    }
}

/// Bytes are put at a place, where there is one.
#[tactic(auto, using(std::proofs::lemmas::List::set_past))]
fn put_at(memories: &mut Vec<Bytes>, m: usize, bytes: Bytes)
    ensures { memories.new.items ≡ slice_set memories.old.items m bytes }
{
    if m < memories.len() {
        memories[m] = bytes;
    }
}

/// Bytes are put into a memory, where there is one.
fn put(memories: &mut Vec<Bytes>, m: Option<u32>, bytes: Bytes)
    ensures { memories.new.items ≡ with_bytes memories.old.items m bytes }
{
    match m {
        Some(n) => put_at(memories, n as usize, bytes),
        None => {}
    }
}

/// A payload carries its bytes to these or from them.
///
/// # Errors
/// A payload that was freed, and then nothing changes.
fn carry_bytes(board: &mut TransactionBoard, bytes: &mut Vec<u8>, t: u32) -> Result<(), RunFault>
    ensures answer { (c : Config) → StandsForTransactions board.old c.transactions → result ≡ use_of c t }
    ensures moves { Writes board.old board.new t (λ q. transfer.carried q bytes.old.items) }
    ensures memory { (x : Transactions) (q : Carried) → StandsForTransactions board.old x → payload_of x.pool t ≡ Some q → bytes.new.items ≡ memory_after q bytes.old.items }
    ensures within { StaysWithin board.old board.new }
    ensures quantum { SameQuantum board.old board.new }
    ensures refused { OnErr result (board.new ≡ board.old) }
    ensures left { OnErr result (bytes.new.items ≡ bytes.old.items) }
{
    board.carry(t, bytes.as_mut_slice())
}

/// A payload carries its bytes to a memory or from it. It takes no memory.
///
/// # Errors
/// A payload that was freed, and then nothing changes.
fn carry_to(
    board: &mut TransactionBoard,
    memories: &mut Vec<Bytes>,
    alloc: Global,
    t: u32,
    m: Option<u32>,
) -> Result<(), RunFault>
    ensures answer { (c : Config) → StandsForTransactions board.old c.transactions → result ≡ use_of c t }
    ensures moves { Writes board.old board.new t (λ q. transfer.carried q (bytes_of memories.old.items m)) }
    ensures memory { (x : Transactions) (q : Carried) → StandsForTransactions board.old x → payload_of x.pool t ≡ Some q
        → memories.new.items ≡ with_bytes memories.old.items m (memory_after q (bytes_of memories.old.items m)) }
    ensures within { StaysWithin board.old board.new }
    ensures quantum { SameQuantum board.old board.new }
    ensures refused { OnErr result (board.new ≡ board.old) }
    ensures left { OnErr result (memories.new.items ≡ memories.old.items) }
{
    let mut bytes = take(memories, alloc, m);
    let answer = carry_bytes(board, &mut bytes, t);
    put(memories, m, Items::from_vec(bytes));
    answer
}

/// The same of a kernel, and the statement is past.
///
/// # Errors
/// A payload that was freed, and then nothing changes.
fn carry_known(
    k: &mut Kernel,
    alloc: Global,
    p: u32,
    t: u32,
    m: Option<u32>,
) -> Result<(), RunFault>
    requires sound { IsSound k.old }
    requires lives { Lives k.old p }
    requires statement { HasStatement k.old p }
    ensures does { Does k.old k.new result p (λ c q i r. on_ok (live_payload c t) (λ x. Ok (set_payload (set_memory (passes c q r) m (memory_after x (memory_at c m))) t (transfer.carried x (memory_at c m))))) }
    ensures sound { IsSound k.new }
    ensures made { k.new.made ≡ k.old.made }
{
    live_payloads_are_used();
    match carry_to(&mut k.transactions, &mut k.memories, alloc, t, m) {
        Ok(()) => {
            pass(k, p);
            Ok(())
        }
        Err(fault) => Err(fault),
    }
}

/// `carry`: the payload that a name holds carries its bytes to a memory or from it, by its command, and its status says how that
/// went (IEEE 1666-2011, clause 14). It takes no memory: `alloc` is what the empty bytes come from that stand in the memory
/// meanwhile.
///
/// # Errors
/// An empty handle; a payload that was freed. Then nothing changes.
pub fn carry(k: &mut Kernel, alloc: Global, p: u32, n: NameUse, m: u32) -> Result<(), RunFault>
    requires sound { IsSound k.old }
    requires lives { Lives k.old p }
    requires statement { HasStatement k.old p }
    ensures does { Does k.old k.new result p (λ c q i r. do_carry c q r (here c q i r) n m) }
    ensures sound { IsSound k.new }
    ensures made { k.new.made ≡ k.old.made }
{
    match payload_at(k, p, n) {
        Ok(t) => {
            let memory = memory_number(denoted_at(k, p, m));
            carry_known(k, alloc, p, t, memory)
        }
        Err(fault) => Err(fault),
    }
}
