//! Looking in a tree.
ghost use Rattle.std.specs.Prelude.{◌≡◌, slice_get};
ghost use Rattle.room_map.specs.Shape.{Shape, entries};
ghost use Rattle.room_map.specs.Nodes.{Under};
ghost use Rattle.std.specs.FinMap as map;
ghost use Rattle.room_map.specs.Entries.{IsRising, first_not_below};

use crate::nodes::{Node, len, node_at};
use std::cmp::Ordering;

// The entry at place k of the order of those under the link, counted from 0.
pub(crate) fn kth<K: Copy, V: Copy>(nodes: &[Node<K, V>], at: u32, k: u32) -> Option<(K, V)>
    requires { (t : Shape K V) × Under nodes.now at t }
    ensures { (t : Shape K V) → Under nodes.now at t → result ≡ slice_get (entries t) k }
{
    match node_at(nodes, at) {
        None => None,
        Some(node) => {
            let before = len(nodes, node.left);
            if k < before {
                kth(nodes, node.left, k)
            } else if k > before {
                kth(nodes, node.right, k - before - 1)
            } else {
                Some((node.key, node.value))
            }
        }
    }
}

// The value at the key.
pub(crate) fn get<K: Ord + Copy, V: Copy>(nodes: &[Node<K, V>], at: u32, key: K) -> Option<V>
    requires { (t : Shape K V) × Under nodes.now at t }
    ensures { (t : Shape K V) → Under nodes.now at t → IsRising K.cmp (entries t) → result ≡ map.find K.cmp key (entries t) }
{
    let mut link = at;
    'descending: while let Some(node) = node_at(nodes, link) {
        match key.cmp(&node.key) {
            Ordering::Less => link = node.left,
            Ordering::Equal => return Some(node.value),
            Ordering::Greater => link = node.right,
        }
    }
    None
}

// The first entry whose key is not below this one.
pub(crate) fn first_not_below<K: Ord + Copy, V: Copy>(
    nodes: &[Node<K, V>],
    at: u32,
    key: K,
) -> Option<(K, V)>
    requires { (t : Shape K V) × Under nodes.now at t }
    ensures { (t : Shape K V) → Under nodes.now at t → IsRising K.cmp (entries t) → result ≡ first_not_below K.cmp key (entries t) }
{
    match node_at(nodes, at) {
        None => None,
        Some(node) => match node.key.cmp(&key) {
            Ordering::Less => first_not_below(nodes, node.right, key),
            _ => match first_not_below(nodes, node.left, key) {
                Some(entry) => Some(entry),
                None => Some((node.key, node.value)),
            },
        },
    }
}
