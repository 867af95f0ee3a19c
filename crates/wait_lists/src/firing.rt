//! An event goes along its list.
ghost use Rattle.std.specs.Prelude.{◌≡◌, ◌≢◌, ℕ, ◌+◌, ◌<◌, ◌≤◌, ◌++◌, ◌∷◌, [], ◌==◌, true, false, ◌||◌, not, Some, List, length, drop, slice_get, vec_len, vec_capacity, if◌then◌else◌};
ghost use Rattle.std.specs.List.Sorted.{IsStrictlyIncreasing, IsPermutation, IsSorted};
ghost use Rattle.std.specs.Ordering.{nat_cmp};
ghost use Rattle.std.specs.FinMap as map;
ghost use Rattle.wait_lists.specs.Waits.{waits_naming, wait_after, is_met_by, AddsEach};
ghost use Rattle.wait_lists.specs.Shown.{Shown, passed_by};
ghost use Rattle.wait_lists.specs.Chains.{none, next_of};
ghost use Rattle.wait_lists.specs.Nodes.{by_event, code_of, first_in};
ghost use Rattle.wait_lists.specs.Layout.{IsSound, IsUsed, IsOf, IsNodes, IsShorter, IsCutAt, IsOver, last_in, first_from, shown_by, waits_by};

use crate::layout::{Kept, drop_node, end_at, event_code, first_node};
use crate::nodes::NONE;
use crate::waiter::Waiter;
use event_core::Ev;

// The place of the waiter in whose list the node stands.
#[inline(always)]
fn owner(kept: &Kept, i: u32) -> u32
    requires { i < length kept.now.nodes.items }
    ensures { IsOf kept.now result i }
{
    kept.nodes[i as usize].waiter
}

#[inline(always)]
fn waiter_at(kept: &Kept, at: u32) -> Waiter
    requires { at < length kept.now.waiters.items }
    ensures { slice_get kept.now.waiters.items at ≡ Some result }
{
    kept.waiters[at as usize]
}

// Whether events pass the waiter by: it is muted, or its wait is over.
#[inline(always)]
fn is_passed(waiter: Waiter) -> bool
    ensures { result ≡ (waiter.is_muted || waiter.is_over) }
{
    waiter.is_muted | waiter.is_over
}

// Takes the node from the wait for all of the waiter at this place, and adds the serial if it was the last.
#[inline(never)]
fn strike_one(kept: &mut Kept, i: u32, at: u32, serial: u32, out: &mut Vec<u32>)
    requires sound { IsSound kept.old }
    requires used { IsUsed kept.old i }
    requires of { IsOf kept.old at i }
    requires inside { at < length kept.old.waiters.items }
    requires room { vec_len out.old < vec_capacity out.old }
    ensures sound { IsSound kept.new }
    ensures places { kept.new.places ≡ kept.old.places }
    ensures shorter { (s : Shown) → slice_get (shown_by kept.old) at ≡ Some s → IsShorter kept.old kept.new at i s }
    ensures cut { IsCutAt kept.old kept.new at }
    ensures told { (t : Shown) → slice_get (shown_by kept.new) at ≡ Some t → out.new.items ≡ out.old.items ++ (if length t.events == 0 then serial ∷ [] else []) }
    ensures capacity { vec_capacity out.new ≡ vec_capacity out.old }
{
    drop_node(kept, i);
    if first_node(kept, at) == NONE {
        out.push_reserved(serial);
    }
}

// Ends the wait for any of the waiter at this place, and adds the serial.
#[inline(always)]
fn strike_any(kept: &mut Kept, at: u32, serial: u32, out: &mut Vec<u32>)
    requires sound { IsSound kept.old }
    requires inside { at < length kept.old.waiters.items }
    requires room { vec_len out.old < vec_capacity out.old }
    ensures sound { IsSound kept.new }
    ensures places { kept.new.places ≡ kept.old.places }
    ensures over { (s : Shown) → slice_get (shown_by kept.old) at ≡ Some s → IsOver kept.old kept.new at s }
    ensures told { out.new.items ≡ out.old.items ++ serial ∷ [] }
    ensures capacity { vec_capacity out.new ≡ vec_capacity out.old }
{
    end_at(kept, at);
    out.push_reserved(serial);
}

// Takes from the wait in which the node stands what its event strikes, and adds the serial if that was all. It answers whether
// the node stays: it goes where its waiter waits for all.
#[inline(always)]
fn strike(kept: &mut Kept, i: u32, out: &mut Vec<u32>) -> bool
    requires sound { IsSound kept.old }
    requires used { IsUsed kept.old i }
    requires room { (at : ℕ) (s : Shown) → IsOf kept.old at i → slice_get (shown_by kept.old) at ≡ Some s → passed_by s ≡ false → vec_len out.old < vec_capacity out.old }
    ensures sound { IsSound kept.new }
    ensures places { kept.new.places ≡ kept.old.places }
    ensures stays { (at : ℕ) (s : Shown) → IsOf kept.old at i → slice_get (shown_by kept.old) at ≡ Some s → result ≡ (passed_by s || not s.for_all) }
    ensures whole { result ≡ true → length kept.new.nodes.items ≡ length kept.old.nodes.items }
    ensures passed { (at : ℕ) (s : Shown) → IsOf kept.old at i → slice_get (shown_by kept.old) at ≡ Some s → passed_by s ≡ true → (kept.new ≡ kept.old) × (out.new.items ≡ out.old.items) }
    ensures over { (at : ℕ) (s : Shown) → IsOf kept.old at i → slice_get (shown_by kept.old) at ≡ Some s → passed_by s ≡ false → s.for_all ≡ false → IsOver kept.old kept.new at s × (out.new.items ≡ out.old.items ++ s.serial ∷ []) }
    ensures shorter { (at : ℕ) (s : Shown) → IsOf kept.old at i → slice_get (shown_by kept.old) at ≡ Some s → result ≡ false → IsShorter kept.old kept.new at i s × IsCutAt kept.old kept.new at }
    ensures told { (at : ℕ) (s t : Shown) → IsOf kept.old at i → slice_get (shown_by kept.old) at ≡ Some s → result ≡ false → slice_get (shown_by kept.new) at ≡ Some t → out.new.items ≡ out.old.items ++ (if length t.events == 0 then s.serial ∷ [] else []) }
    ensures capacity { vec_capacity out.new ≡ vec_capacity out.old }
{
    let at = owner(kept, i);
    let waiter = waiter_at(kept, at);
    if is_passed(waiter) {
        return true;
    }
    if waiter.for_all {
        strike_one(kept, i, at, waiter.serial, out);
        return false;
    }
    strike_any(kept, at, waiter.serial, out);
    true
}

// The node behind one of this code that stays, or the first one where none stays yet.
#[inline(always)]
fn next_behind(kept: &Kept, stays: u32, code: u64) -> u32
    requires sound { IsSound kept.now }
    requires inside { stays ≢ none → stays < length kept.now.nodes.items }
    ensures { (xs ys : List ℕ) → IsNodes kept.now code (xs ++ ys) → last_in none xs ≡ stays → result ≡ first_from ys }
{
    if stays == NONE {
        return kept.heads.first(code);
    }
    kept.nodes[stays as usize].next
}

// The node behind this one in the list of its event.
#[inline(always)]
fn next_node(kept: &Kept, i: u32) -> u32
    requires { i < length kept.now.nodes.items }
    ensures { result ≡ next_of (by_event kept.now.nodes.items i) }
{
    kept.nodes[i as usize].next
}

// Whether the node is the last of its list and stands in a wait for any.
#[inline(always)]
fn is_last_of_any(kept: &Kept, i: u32) -> bool
    requires sound { IsSound kept.now }
    requires used { IsUsed kept.now i }
    ensures last { result ≡ true → next_of (by_event kept.now.nodes.items i) ≡ none }
    ensures any { result ≡ true → (at : ℕ) (s : Shown) → IsOf kept.now at i → slice_get (shown_by kept.now) at ≡ Some s → s.for_all ≡ false }
{
    let at = owner(kept, i);
    let whose = waiter_at(kept, at);
    if whose.for_all {
        return false;
    }
    next_node(kept, i) == NONE
}

// Strikes the event, whose list begins with this node, from each wait, and adds the serials of those that are met.
#[inline(always)]
fn strike_each(kept: &mut Kept, e: Ev, head: u32, out: &mut Vec<u32>)
    requires sound { IsSound kept.old }
    requires begins { head ≡ first_in kept.old.heads.events kept.old.heads.free (code_of e) }
    requires room { vec_len out.old + map.len (waits_naming (waits_by kept.old) e) ≤ vec_capacity out.old }
    ensures sound { IsSound kept.new }
    ensures struck { (p : ℕ) → map.get (waits_by kept.new).waits p ≡ wait_after (waits_by kept.old) p e }
    ensures kept { waits_by kept.new ≡ record (waits_by kept.old) { waits = (waits_by kept.new).waits } }
    ensures met { AddsEach out.old.items out.new.items (λ p. is_met_by (waits_by kept.old) p e) }
    ensures capacity { vec_capacity out.new ≡ vec_capacity out.old }
{
    let code = event_code(e);
    let mut stays = NONE;
    let mut i = head;
    while i != NONE {
        if strike(kept, i, out) {
            stays = i;
        }
        i = next_behind(kept, stays, code);
    }
}

// Sorts the numbers from this place on.
#[inline(always)]
fn sort_from(list: &mut [u32], from: usize)
    requires { from ≤ length list.old }
    ensures { (front back : List ℕ) → list.old ≡ front ++ back → length front ≡ from → (more : List ℕ) × (list.new ≡ front ++ more) × IsPermutation back more × IsSorted nat_cmp more }
{
    if 1 < list.len() - from {
        list[from..].sort_unstable();
    }
}

// Strikes the event, whose list begins with this node, from each wait, and adds the serials of those that are met, by rising
// serials.
#[inline(never)]
fn strike_listed(kept: &mut Kept, e: Ev, head: u32, out: &mut Vec<u32>)
    requires sound { IsSound kept.old }
    requires begins { head ≡ first_in kept.old.heads.events kept.old.heads.free (code_of e) }
    requires room { vec_len out.old + map.len (waits_naming (waits_by kept.old) e) ≤ vec_capacity out.old }
    ensures sound { IsSound kept.new }
    ensures struck { (p : ℕ) → map.get (waits_by kept.new).waits p ≡ wait_after (waits_by kept.old) p e }
    ensures kept { waits_by kept.new ≡ record (waits_by kept.old) { waits = (waits_by kept.new).waits } }
    ensures met { AddsEach out.old.items out.new.items (λ p. is_met_by (waits_by kept.old) p e) }
    ensures rising { IsStrictlyIncreasing (drop (vec_len out.old) out.new.items) }
    ensures capacity { vec_capacity out.new ≡ vec_capacity out.old }
{
    let old = out.len();
    strike_each(kept, e, head, out);
    sort_from(out.as_mut_slice(), old);
}

// Strikes the event from each wait, and adds the serials of those that are met, by rising serials. Where no node stands for the event,
// or one alone in a wait for any, no list is gone along.
#[inline(always)]
pub(crate) fn strike_all(kept: &mut Kept, e: Ev, out: &mut Vec<u32>)
    requires sound { IsSound kept.old }
    requires room { vec_len out.old + map.len (waits_naming (waits_by kept.old) e) ≤ vec_capacity out.old }
    ensures sound { IsSound kept.new }
    ensures struck { (p : ℕ) → map.get (waits_by kept.new).waits p ≡ wait_after (waits_by kept.old) p e }
    ensures kept { waits_by kept.new ≡ record (waits_by kept.old) { waits = (waits_by kept.new).waits } }
    ensures met { AddsEach out.old.items out.new.items (λ p. is_met_by (waits_by kept.old) p e) }
    ensures rising { IsStrictlyIncreasing (drop (vec_len out.old) out.new.items) }
    ensures capacity { vec_capacity out.new ≡ vec_capacity out.old }
{
    let code = event_code(e);
    let head = kept.heads.first(code);
    if head == NONE {
        return;
    }
    if is_last_of_any(kept, head) {
        strike(kept, head, out);
        return;
    }
    strike_listed(kept, e, head, out);
}
