//! The two lists in which a node stands, changed in place.
ghost use Rattle.std.specs.Prelude.{◌≡◌, ◌≢◌, ℕ, ◌+◌, ◌<◌, ◌≤◌, ◌==◌, Some, if◌then◌else◌, length, slice_get, vec_capacity};
ghost use Rattle.wait_lists.specs.Chains.{none, loose, free, Link, cut, put, first_after};
ghost use Rattle.wait_lists.specs.declared.waiter.Waiter.{Waiter};
ghost use Rattle.wait_lists.specs.Nodes.{by_event, by_wait, first_in, IsHeads, HasLists, refirst, first_at};

use crate::heads::Heads;
use crate::nodes::{
    LOOSE, NONE, Node, enlist, enlist_wait, set_after, set_before, set_next, set_prev,
};
use crate::waiter::Waiter;

// Cuts the node out of the list of its code.
#[inline(always)]
pub(crate) fn cut_event(nodes: &mut Vec<Node>, heads: &mut Heads, i: u32)
    requires inside { i < length nodes.old.items }
    requires few { length nodes.old.items ≤ none }
    requires listed { (l : Link) → by_event nodes.old.items i ≡ Some l → 0 < l.tag }
    requires lists { HasLists (by_event nodes.old.items) heads.old.events heads.old.free }
    requires heads { IsHeads heads.old.events }
    ensures events { (l : Link) → by_event nodes.old.items i ≡ Some l → (j : ℕ) → by_event nodes.new.items j ≡ cut loose i l (by_event nodes.old.items) j }
    ensures waits { (j : ℕ) → by_wait nodes.new.items j ≡ by_wait nodes.old.items j }
    ensures firsts { (l : Link) → by_event nodes.old.items i ≡ Some l → (c : ℕ) → first_in heads.new.events heads.new.free c ≡ first_after c l (first_in heads.old.events heads.old.free c) }
    ensures heads { IsHeads heads.new.events }
    ensures places { length heads.new.events.far.entries + heads.new.events.far.spare ≡ length heads.old.events.far.entries + heads.old.events.far.spare }
    ensures len { length nodes.new.items ≡ length nodes.old.items }
    ensures capacity { vec_capacity nodes.new ≡ vec_capacity nodes.old }
{
    let node = nodes[i as usize];
    if node.prev == NONE {
        heads.set_first(node.code, node.next);
    }
    set_next(nodes, node.prev, node.next);
    set_prev(nodes, node.next, node.prev);
    enlist(nodes, i, LOOSE, NONE);
}

// Puts a node that stands in no such list at the front of the list of this code.
#[inline(always)]
pub(crate) fn put_event(nodes: &mut Vec<Node>, heads: &mut Heads, i: u32, code: u64)
    requires code { 0 < code }
    requires heads { IsHeads heads.old.events }
    requires room { code ≢ free → i ≢ none → first_in heads.old.events heads.old.free code ≡ none → 0 < heads.old.events.far.spare }
    ensures events { (j : ℕ) → by_event nodes.new.items j ≡ put code i (first_in heads.old.events heads.old.free code) (by_event nodes.old.items) j }
    ensures waits { (j : ℕ) → by_wait nodes.new.items j ≡ by_wait nodes.old.items j }
    ensures firsts { (c : ℕ) → first_in heads.new.events heads.new.free c ≡ (if c == code then i else first_in heads.old.events heads.old.free c) }
    ensures heads { IsHeads heads.new.events }
    ensures places { length heads.new.events.far.entries + heads.new.events.far.spare ≡ length heads.old.events.far.entries + heads.old.events.far.spare }
    ensures len { length nodes.new.items ≡ length nodes.old.items }
    ensures capacity { vec_capacity nodes.new ≡ vec_capacity nodes.old }
{
    let first = heads.first(code);
    heads.set_first(code, i);
    set_prev(nodes, first, i);
    enlist(nodes, i, code, first);
}

// Lets the list of the waiter at this place begin with this node.
#[inline(always)]
fn set_first(waiters: &mut Vec<Waiter>, at: u32, first: u32)
    requires { at < length waiters.old.items }
    ensures firsts { (k : ℕ) → slice_get waiters.new.items k ≡ refirst (first_at at first k) (slice_get waiters.old.items k) }
    ensures len { length waiters.new.items ≡ length waiters.old.items }
    ensures capacity { vec_capacity waiters.new ≡ vec_capacity waiters.old }
{
    waiters[at as usize].first = first;
}

// Cuts the node out of the list of its waiter.
#[inline(always)]
pub(crate) fn cut_wait(nodes: &mut Vec<Node>, waiters: &mut Vec<Waiter>, i: u32)
    requires inside { i < length nodes.old.items }
    requires home { (l : Link) → by_wait nodes.old.items i ≡ Some l → l.tag < length waiters.old.items }
    ensures waits { (l : Link) → by_wait nodes.old.items i ≡ Some l → (j : ℕ) → by_wait nodes.new.items j ≡ cut none i l (by_wait nodes.old.items) j }
    ensures events { (j : ℕ) → by_event nodes.new.items j ≡ by_event nodes.old.items j }
    ensures firsts { (l : Link) → by_wait nodes.old.items i ≡ Some l → (k : ℕ) → slice_get waiters.new.items k ≡ refirst (first_after k l) (slice_get waiters.old.items k) }
    ensures len { length nodes.new.items ≡ length nodes.old.items }
    ensures capacity { vec_capacity nodes.new ≡ vec_capacity nodes.old }
    ensures waiters_len { length waiters.new.items ≡ length waiters.old.items }
    ensures waiters_capacity { vec_capacity waiters.new ≡ vec_capacity waiters.old }
{
    let node = nodes[i as usize];
    if node.before == NONE {
        set_first(waiters, node.waiter, node.after);
    }
    set_after(nodes, node.before, node.after);
    set_before(nodes, node.after, node.before);
    enlist_wait(nodes, i, NONE, NONE);
}

// Puts a node that stands in no such list at the front of the list of the waiter at this place.
#[inline(always)]
pub(crate) fn put_wait(nodes: &mut Vec<Node>, waiters: &mut Vec<Waiter>, i: u32, at: u32)
    requires { at < length waiters.old.items }
    ensures waits { (w : Waiter) → slice_get waiters.old.items at ≡ Some w → (j : ℕ) → by_wait nodes.new.items j ≡ put at i w.first (by_wait nodes.old.items) j }
    ensures events { (j : ℕ) → by_event nodes.new.items j ≡ by_event nodes.old.items j }
    ensures firsts { (k : ℕ) → slice_get waiters.new.items k ≡ refirst (first_at at i k) (slice_get waiters.old.items k) }
    ensures len { length nodes.new.items ≡ length nodes.old.items }
    ensures capacity { vec_capacity nodes.new ≡ vec_capacity nodes.old }
    ensures waiters_len { length waiters.new.items ≡ length waiters.old.items }
    ensures waiters_capacity { vec_capacity waiters.new ≡ vec_capacity waiters.old }
{
    let first = waiters[at as usize].first;
    set_first(waiters, at, i);
    set_before(nodes, first, i);
    enlist_wait(nodes, i, at, first);
}
