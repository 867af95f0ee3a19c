//! The nodes of the lists. Each stands in the list of its event, or in that of the free nodes, and in the list of its waiter:
//! it knows by number which node is behind it and which one before it in both.
ghost use Rattle.std.specs.Prelude.{◌≡◌, ℕ, ◌∷◌, [], ◌++◌, Some, vec_len, vec_capacity};
ghost use Rattle.wait_lists.specs.Chains.{none, loose, with_next, with_prev, at_front, upd};
ghost use Rattle.wait_lists.specs.Nodes.{by_event, by_wait, event_link, wait_link};

// The number of no node.
pub(crate) const NONE: u32 = u32::MAX;

// The code of a node that stands in no list of an event, and not in that of the free nodes.
pub(crate) const LOOSE: u64 = 0;

// The code of the free nodes.
pub(crate) const FREE: u64 = 1;

#[derive(Clone, Copy)]
pub(crate) struct Node {
    // The list of an event, by its code.
    pub(crate) code: u64,
    pub(crate) next: u32,
    pub(crate) prev: u32,
    // The list of a waiter, by its place.
    pub(crate) waiter: u32,
    pub(crate) after: u32,
    pub(crate) before: u32,
}

// A node that stands in no list.
pub(crate) fn loose_node() -> Node
    ensures event { event_link (Some result) ≡ Some (record { tag = loose; next = none; prev = none }) }
    ensures wait { wait_link (Some result) ≡ Some (record { tag = none; next = none; prev = none }) }
{
    Node {
        code: LOOSE,
        next: NONE,
        prev: NONE,
        waiter: NONE,
        after: NONE,
        before: NONE,
    }
}

#[inline(always)]
pub(crate) fn set_next(nodes: &mut Vec<Node>, i: u32, next: u32)
    ensures events { (j : ℕ) → by_event nodes.new.items j ≡ upd i (with_next next) (by_event nodes.old.items) j }
    ensures waits { (j : ℕ) → by_wait nodes.new.items j ≡ by_wait nodes.old.items j }
    ensures len { vec_len nodes.new ≡ vec_len nodes.old }
    ensures capacity { vec_capacity nodes.new ≡ vec_capacity nodes.old }
{
    if (i as usize) < nodes.len() {
        nodes[i as usize].next = next;
    }
}

#[inline(always)]
pub(crate) fn set_prev(nodes: &mut Vec<Node>, i: u32, prev: u32)
    ensures events { (j : ℕ) → by_event nodes.new.items j ≡ upd i (with_prev prev) (by_event nodes.old.items) j }
    ensures waits { (j : ℕ) → by_wait nodes.new.items j ≡ by_wait nodes.old.items j }
    ensures len { vec_len nodes.new ≡ vec_len nodes.old }
    ensures capacity { vec_capacity nodes.new ≡ vec_capacity nodes.old }
{
    if (i as usize) < nodes.len() {
        nodes[i as usize].prev = prev;
    }
}

#[inline(always)]
pub(crate) fn set_after(nodes: &mut Vec<Node>, i: u32, after: u32)
    ensures waits { (j : ℕ) → by_wait nodes.new.items j ≡ upd i (with_next after) (by_wait nodes.old.items) j }
    ensures events { (j : ℕ) → by_event nodes.new.items j ≡ by_event nodes.old.items j }
    ensures len { vec_len nodes.new ≡ vec_len nodes.old }
    ensures capacity { vec_capacity nodes.new ≡ vec_capacity nodes.old }
{
    if (i as usize) < nodes.len() {
        nodes[i as usize].after = after;
    }
}

#[inline(always)]
pub(crate) fn set_before(nodes: &mut Vec<Node>, i: u32, before: u32)
    ensures waits { (j : ℕ) → by_wait nodes.new.items j ≡ upd i (with_prev before) (by_wait nodes.old.items) j }
    ensures events { (j : ℕ) → by_event nodes.new.items j ≡ by_event nodes.old.items j }
    ensures len { vec_len nodes.new ≡ vec_len nodes.old }
    ensures capacity { vec_capacity nodes.new ≡ vec_capacity nodes.old }
{
    if (i as usize) < nodes.len() {
        nodes[i as usize].before = before;
    }
}

// Lets the node stand before the others of this code, of which `first` was the first.
#[inline(always)]
pub(crate) fn enlist(nodes: &mut Vec<Node>, i: u32, code: u64, first: u32)
    ensures events { (j : ℕ) → by_event nodes.new.items j ≡ upd i (at_front code first) (by_event nodes.old.items) j }
    ensures waits { (j : ℕ) → by_wait nodes.new.items j ≡ by_wait nodes.old.items j }
    ensures len { vec_len nodes.new ≡ vec_len nodes.old }
    ensures capacity { vec_capacity nodes.new ≡ vec_capacity nodes.old }
{
    if (i as usize) < nodes.len() {
        let node = nodes[i as usize];
        nodes[i as usize] = Node {
            code,
            next: first,
            prev: NONE,
            ..node
        };
    }
}

// Lets the node stand before the others of the waiter at this place, of which `first` was the first.
#[inline(always)]
pub(crate) fn enlist_wait(nodes: &mut Vec<Node>, i: u32, waiter: u32, first: u32)
    ensures waits { (j : ℕ) → by_wait nodes.new.items j ≡ upd i (at_front waiter first) (by_wait nodes.old.items) j }
    ensures events { (j : ℕ) → by_event nodes.new.items j ≡ by_event nodes.old.items j }
    ensures len { vec_len nodes.new ≡ vec_len nodes.old }
    ensures capacity { vec_capacity nodes.new ≡ vec_capacity nodes.old }
{
    if (i as usize) < nodes.len() {
        let node = nodes[i as usize];
        nodes[i as usize] = Node {
            waiter,
            after: first,
            before: NONE,
            ..node
        };
    }
}
