//! Nodes of one vector, linked by their numbers into rings.
ghost use Rattle.std.specs.Prelude.{◌≡◌, ℕ, ◌<◌, length};
ghost use Rattle.timed_queue.specs.Nodes.{name_of, time_of, place_of, next_of, before_of, with_place, with_next, with_before, with_entry, unlinked, linked, standing};

// How many places there are. The first nodes are the heads of their rings.
pub(crate) const PLACES: u32 = 704;

// In place of a place: the node holds no entry.
pub(crate) const FREE: u32 = 704;

// In place of a place: the node stands in no ring.
pub(crate) const LOOSE: u32 = 705;

// A node of the ring of a place, in which the head of the place comes before the first entry and behind the last.
// Of a free node, `next` is the one that was free before it.
#[derive(Clone, Copy)]
pub(crate) struct Node {
    pub(crate) name: u32,
    pub(crate) time: u64,
    pub(crate) place: u32,
    pub(crate) next: u32,
    pub(crate) before: u32,
}

// The head of a ring with no entry.
pub(crate) fn lone_head(place: u32) -> Node
    ensures { result ≡ record { name = 0; time = 0; place = place; next = place; before = place } }
{
    Node {
        name: 0,
        time: 0,
        place,
        next: place,
        before: place,
    }
}

// A node that holds no entry, in front of another one.
pub(crate) fn free_node(next: u32) -> Node
    ensures { result ≡ record { name = 0; time = 0; place = 704; next = next; before = 0 } }
{
    Node {
        name: 0,
        time: 0,
        place: FREE,
        next,
        before: 0,
    }
}

pub(crate) fn set_place(nodes: &mut Vec<Node>, i: u32, place: u32)
    requires { i < length nodes.old.items }
    ensures { nodes.new.items ≡ with_place nodes.old.items i place }
{
    nodes[i as usize].place = place;
}

pub(crate) fn set_next(nodes: &mut Vec<Node>, i: u32, next: u32)
    requires { i < length nodes.old.items }
    ensures { nodes.new.items ≡ with_next nodes.old.items i next }
{
    nodes[i as usize].next = next;
}

fn set_before(nodes: &mut Vec<Node>, i: u32, before: u32)
    requires { i < length nodes.old.items }
    ensures { nodes.new.items ≡ with_before nodes.old.items i before }
{
    nodes[i as usize].before = before;
}

pub(crate) fn set_entry(nodes: &mut Vec<Node>, i: u32, name: u32, time: u64)
    requires { i < length nodes.old.items }
    ensures { nodes.new.items ≡ with_entry nodes.old.items i name time }
{
    let node = &mut nodes[i as usize];
    node.name = name;
    node.time = time;
}

pub(crate) fn next_of(nodes: &Vec<Node>, i: u32) -> u32
    requires { i < length nodes.now.items }
    ensures { result ≡ next_of nodes.now.items i }
{
    nodes[i as usize].next
}

fn before_of(nodes: &Vec<Node>, i: u32) -> u32
    requires { i < length nodes.now.items }
    ensures { result ≡ before_of nodes.now.items i }
{
    nodes[i as usize].before
}

pub(crate) fn place_of(nodes: &Vec<Node>, i: u32) -> u32
    requires { i < length nodes.now.items }
    ensures { result ≡ place_of nodes.now.items i }
{
    nodes[i as usize].place
}

pub(crate) fn time_of(nodes: &Vec<Node>, i: u32) -> u64
    requires { i < length nodes.now.items }
    ensures { result ≡ time_of nodes.now.items i }
{
    nodes[i as usize].time
}

pub(crate) fn name_of(nodes: &Vec<Node>, i: u32) -> u32
    requires { i < length nodes.now.items }
    ensures { result ≡ name_of nodes.now.items i }
{
    nodes[i as usize].name
}

// Takes the node out of its ring.
pub(crate) fn unlink(nodes: &mut Vec<Node>, i: u32)
    requires within { i < length nodes.old.items }
    requires next_in { next_of nodes.old.items i < length nodes.old.items }
    requires before_in { before_of nodes.old.items i < length nodes.old.items }
    ensures { nodes.new.items ≡ unlinked nodes.old.items i }
{
    let before = before_of(nodes, i);
    let next = next_of(nodes, i);
    set_next(nodes, before, next);
    set_before(nodes, next, before);
    set_place(nodes, i, LOOSE);
}

// Puts a node that is in no ring behind the last of the place.
pub(crate) fn link(nodes: &mut Vec<Node>, i: u32, place: u32)
    requires within { i < length nodes.old.items }
    requires place_in { place < length nodes.old.items }
    requires last_in { before_of nodes.old.items place < length nodes.old.items }
    ensures { nodes.new.items ≡ linked nodes.old.items i place }
{
    let last = before_of(nodes, place);
    set_next(nodes, last, i);
    set_before(nodes, place, i);
    stand(nodes, i, place, last);
}

// The node is the last of the place, behind this one.
fn stand(nodes: &mut Vec<Node>, i: u32, place: u32, before: u32)
    requires { i < length nodes.old.items }
    ensures { nodes.new.items ≡ standing nodes.old.items i place before }
{
    set_place(nodes, i, place);
    set_next(nodes, i, place);
    set_before(nodes, i, before);
}
