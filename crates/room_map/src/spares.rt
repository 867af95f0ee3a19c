//! Nodes that hold no entry: each leads to the next one.
ghost use Rattle.std.specs.Prelude.{◌≡◌, ℕ, ◌-◌, ◌<◌, ◌≤◌, List, length, slice_get};
ghost use Rattle.room_map.specs.Shape.{is_at};
ghost use Rattle.room_map.specs.Nodes.{Changed};
ghost use Rattle.room_map.specs.Layout.{among, falling, next_at, IsChain};

use crate::nodes::{NONE, Node, node_at, put};

// The free node behind this one.
pub(crate) fn next<K: Copy, V: Copy>(nodes: &[Node<K, V>], at: u32) -> u32
    ensures { result ≡ next_at nodes.now at }
{
    match node_at(nodes, at) {
        None => NONE,
        Some(node) => node.right,
    }
}

// Frees the node, before the others that are free.
pub(crate) fn free_node<K: Copy, V: Copy>(nodes: &mut [Node<K, V>], at: u32, others: u32)
    requires { at < length nodes.old }
    ensures next { next_at nodes.new at ≡ others }
    ensures changed { Changed (is_at at) nodes.old nodes.new }
{
    match node_at(nodes, at) {
        None => unreachable!(),
        Some(node) => put(
            nodes,
            at,
            Node {
                left: NONE,
                right: others,
                count: 0,
                height: 0,
                key: node.key,
                value: node.value,
            },
        ),
    }
}

// Frees the nodes from this place on, before the others that are free. The result is the first of all.
pub(crate) fn free_all<K: Copy, V: Copy>(
    nodes: &mut [Node<K, V>],
    from: u32,
    to: u32,
    others: u32,
) -> u32
    requires { (from ≤ to) × (to ≤ length nodes.old) }
    ensures long { length nodes.new ≡ length nodes.old }
    ensures before { (q : ℕ) → q < from → slice_get nodes.new q ≡ slice_get nodes.old q }
    ensures chain { (is : List ℕ) → IsChain nodes.old others is → ((q : ℕ) → from ≤ q → among q is ≡ 0) → IsChain nodes.new result (falling from (to - from) is) }
{
    let mut first = others;
    for i in from..to {
        free_node(nodes, i, first);
        first = i;
    }
    first
}
