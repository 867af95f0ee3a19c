//! The nodes, which stand in one vector and name each other by their places.
ghost use Rattle.std.specs.Prelude.{◌≡◌, ◌+◌, ◌<◌, ◌^◌, Some, length, slice_get};
ghost use Rattle.room_map.specs.Shape.{Shape, Bare, Fork, is_at, entries, height};
ghost use Rattle.room_map.specs.Nodes.{raised, Under, Changed, AreSides};

// The link that leads to no node.
pub(crate) const NONE: u32 = u32::MAX;

// An entry over two sides, with how many entries there are and how many nodes stand on the longest way down, with it.
#[derive(Clone, Copy)]
pub(crate) struct Node<K: Copy, V: Copy> {
    pub(crate) left: u32,
    pub(crate) right: u32,
    pub(crate) count: u32,
    pub(crate) height: u32,
    pub(crate) key: K,
    pub(crate) value: V,
}

// A place, and the entry that its node is to hold.
#[derive(Clone, Copy)]
pub(crate) struct Spot<K: Copy, V: Copy> {
    pub(crate) place: u32,
    pub(crate) key: K,
    pub(crate) value: V,
}

impl<K: Copy + Default, V: Copy + Default> Node<K, V> {
    // A node that holds no entry yet.
    pub(crate) fn empty() -> Node<K, V> {
        Node {
            left: NONE,
            right: NONE,
            count: 0,
            height: 0,
            key: K::default(),
            value: V::default(),
        }
    }
}

// The node that the link leads to.
#[inline(always)]
pub(crate) fn node_at<K: Copy, V: Copy>(nodes: &[Node<K, V>], at: u32) -> Option<Node<K, V>>
    ensures { result ≡ slice_get nodes.now at }
{
    nodes.get(at as usize).copied()
}

// Puts the node at the place.
#[inline(always)]
pub(crate) fn put<K: Copy, V: Copy>(nodes: &mut [Node<K, V>], at: u32, node: Node<K, V>)
    requires { at < length nodes.old }
    ensures there { slice_get nodes.new at ≡ Some node }
    ensures changed { Changed (is_at at) nodes.old nodes.new }
{
    nodes[at as usize] = node;
}

// Counts an entry more in the node at the place.
#[inline(always)]
pub(crate) fn raise_count<K: Copy, V: Copy>(nodes: &mut [Node<K, V>], at: u32)
    requires within { at < length nodes.old }
    requires small { (n : Node K V) → slice_get nodes.old at ≡ Some n → n.count + 1 < 2 ^ 32 }
    ensures there { (n : Node K V) → slice_get nodes.old at ≡ Some n → slice_get nodes.new at ≡ Some (raised n) }
    ensures changed { Changed (is_at at) nodes.old nodes.new }
{
    nodes[at as usize].count += 1;
}

// How many entries hang from the link.
#[inline(always)]
pub(crate) fn len<K: Copy, V: Copy>(nodes: &[Node<K, V>], at: u32) -> u32
    ensures { (t : Shape K V) → Under nodes.now at t → result ≡ length (entries t) }
{
    match node_at(nodes, at) {
        None => 0,
        Some(node) => node.count,
    }
}

// How many nodes stand on the longest way down from the link.
#[inline(always)]
pub(crate) fn height<K: Copy, V: Copy>(nodes: &[Node<K, V>], at: u32) -> u32
    ensures { (t : Shape K V) → Under nodes.now at t → result ≡ height t }
{
    match node_at(nodes, at) {
        None => 0,
        Some(node) => node.height,
    }
}

// Puts the entry at its place, over these two sides, and gives the place.
#[inline(always)]
pub(crate) fn close<K: Copy, V: Copy>(
    nodes: &mut [Node<K, V>],
    left: u32,
    spot: Spot<K, V>,
    right: u32,
) -> u32
    requires { (l : Shape K V) × (r : Shape K V) × AreSides nodes.old left l spot.place right r }
    ensures place { result ≡ spot.place }
    ensures under { (l r : Shape K V) → AreSides nodes.old left l spot.place right r → Under nodes.new result (Fork spot.place l spot.key spot.value r) }
    ensures changed { Changed (is_at spot.place) nodes.old nodes.new }
{
    let count = len(nodes, left) + 1 + len(nodes, right);
    let height = height(nodes, left).max(height(nodes, right)) + 1;
    let node = Node {
        left,
        right,
        count,
        height,
        key: spot.key,
        value: spot.value,
    };
    put(nodes, spot.place, node);
    spot.place
}

// Puts the entry at its place, over no sides, and gives the place.
#[inline(always)]
pub(crate) fn close_alone<K: Copy, V: Copy>(nodes: &mut [Node<K, V>], spot: Spot<K, V>) -> u32
    requires there { spot.place < length nodes.old }
    requires few { length nodes.old < 2 ^ 32 }
    ensures place { result ≡ spot.place }
    ensures under { Under nodes.new result (Fork spot.place Bare spot.key spot.value Bare) }
    ensures changed { Changed (is_at spot.place) nodes.old nodes.new }
{
    let node = Node {
        left: NONE,
        right: NONE,
        count: 1,
        height: 1,
        key: spot.key,
        value: spot.value,
    };
    put(nodes, spot.place, node);
    spot.place
}
