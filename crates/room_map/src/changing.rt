//! Changing the tree that hangs from a link.
ghost use Rattle.std.specs.Prelude.{◌≡◌, ◌+◌};
ghost use Rattle.room_map.specs.Shape.{Shape, is_at, times};
ghost use Rattle.room_map.specs.Nodes.{Under, Changed, CanSplit, IsSplit, CanJoin, IsJoined, CanEnter, HasEntered, HasKey, HasValue, CanLeave, HasLeft};

use crate::nodes::{NONE, Node, Spot, close_alone, height, len, node_at, put, raise_count};
use crate::turns::balance;
use std::cmp::Ordering;

// The first entry of a tree with its place, and the link to the others.
#[derive(Clone, Copy)]
pub(crate) struct First<K: Copy, V: Copy> {
    spot: Spot<K, V>,
    rest: u32,
}

// The link to a tree without an entry, and the place that the entry left.
#[derive(Clone, Copy)]
pub(crate) struct Unlinked {
    pub(crate) root: u32,
    pub(crate) freed: u32,
}

// The first of the entries under the link, at which this node stands, and the others.
fn split_first<K: Copy, V: Copy>(nodes: &mut [Node<K, V>], at: u32, node: Node<K, V>) -> First<K, V>
    requires { (t : Shape K V) × CanSplit nodes.old at node t }
    ensures { (t : Shape K V) → CanSplit nodes.old at node t → (u : Shape K V) × Under nodes.new result.rest u × IsSplit t result.spot.place result.spot.key result.spot.value u × Changed (λ q. times q t) nodes.old nodes.new }
{
    let here = Spot {
        place: at,
        key: node.key,
        value: node.value,
    };
    match node_at(nodes, node.left) {
        None => First {
            spot: here,
            rest: node.right,
        },
        Some(below) => {
            let first = split_first(nodes, node.left, below);
            let rest = balance(nodes, first.rest, here, node.right);
            First {
                spot: first.spot,
                rest,
            }
        }
    }
}

// The entries of the left side, then those of the right one. The result is the link to the tree of all.
fn join<K: Copy, V: Copy>(nodes: &mut [Node<K, V>], left: u32, right: u32) -> u32
    requires { (l : Shape K V) × (r : Shape K V) × CanJoin nodes.old left l right r }
    ensures { (l r : Shape K V) → CanJoin nodes.old left l right r → (u : Shape K V) × Under nodes.new result u × IsJoined l r u × Changed (λ q. times q l + times q r) nodes.old nodes.new }
{
    match node_at(nodes, right) {
        None => left,
        Some(node) => {
            let first = split_first(nodes, right, node);
            balance(nodes, left, first.spot, first.rest)
        }
    }
}

// The tree with an entry more, in the node at its place. The result is the link to it.
#[inline(always)]
pub(crate) fn with_entry<K: Ord + Copy, V: Copy>(
    nodes: &mut [Node<K, V>],
    at: u32,
    spot: Spot<K, V>,
) -> u32
    requires { (t : Shape K V) × CanEnter K.cmp nodes.old at spot.key spot.place t }
    ensures { (t : Shape K V) → CanEnter K.cmp nodes.old at spot.key spot.place t → (u : Shape K V) × Under nodes.new result u × HasEntered K.cmp t spot.place spot.key spot.value u × Changed (λ q. times q t + is_at spot.place q) nodes.old nodes.new }
{
    if at == NONE {
        return close_alone(nodes, spot);
    }
    with_entry_below(nodes, at, spot)
}

// The same, by the way down to where the key goes. A node over a side that stays under its link, and no higher than the node allows,
// counts an entry more, and nothing else of it changes.
fn with_entry_below<K: Ord + Copy, V: Copy>(
    nodes: &mut [Node<K, V>],
    at: u32,
    spot: Spot<K, V>,
) -> u32
    requires { (t : Shape K V) × CanEnter K.cmp nodes.old at spot.key spot.place t }
    ensures { (t : Shape K V) → CanEnter K.cmp nodes.old at spot.key spot.place t → (u : Shape K V) × Under nodes.new result u × HasEntered K.cmp t spot.place spot.key spot.value u × Changed (λ q. times q t + is_at spot.place q) nodes.old nodes.new }
{
    match node_at(nodes, at) {
        None => close_alone(nodes, spot),
        Some(node) => {
            let here = Spot {
                place: at,
                key: node.key,
                value: node.value,
            };
            match spot.key.cmp(&node.key) {
                Ordering::Less => {
                    let left = with_entry_below(nodes, node.left, spot);
                    if left == node.left && height(nodes, left) < node.height {
                        raise_count(nodes, at);
                        at
                    } else {
                        balance(nodes, left, here, node.right)
                    }
                }
                _ => {
                    let right = with_entry_below(nodes, node.right, spot);
                    if right == node.right && height(nodes, right) < node.height {
                        raise_count(nodes, at);
                        at
                    } else {
                        balance(nodes, node.left, here, right)
                    }
                }
            }
        }
    }
}

// Puts this value at a key that is there.
pub(crate) fn set_value<K: Ord + Copy, V: Copy>(nodes: &mut [Node<K, V>], at: u32, key: K, value: V)
    requires { (t : Shape K V) × HasKey K.cmp nodes.old at key t }
    ensures { (t : Shape K V) → HasKey K.cmp nodes.old at key t → (u : Shape K V) × Under nodes.new at u × HasValue K.cmp t key value u × Changed (λ q. times q t) nodes.old nodes.new }
{
    match node_at(nodes, at) {
        None => unreachable!(),
        Some(node) => match key.cmp(&node.key) {
            Ordering::Less => set_value(nodes, node.left, key, value),
            Ordering::Equal => put(
                nodes,
                at,
                Node {
                    left: node.left,
                    right: node.right,
                    count: node.count,
                    height: node.height,
                    key: node.key,
                    value,
                },
            ),
            Ordering::Greater => set_value(nodes, node.right, key, value),
        },
    }
}

// The tree without the entry of a key that it has, and the place that the entry left. Where it is the only one, no other node is
// looked at.
#[inline(always)]
pub(crate) fn unlink<K: Ord + Copy, V: Copy>(nodes: &mut [Node<K, V>], at: u32, key: K) -> Unlinked
    requires { (t : Shape K V) × CanLeave K.cmp nodes.old at key t }
    ensures { (t : Shape K V) → CanLeave K.cmp nodes.old at key t → (u : Shape K V) × Under nodes.new result.root u × HasLeft K.cmp t key result.freed u × Changed (λ q. times q t) nodes.old nodes.new }
{
    let count = len(nodes, at);
    if count == 1 {
        return Unlinked {
            root: NONE,
            freed: at,
        };
    }
    unlink_below(nodes, at, key)
}

// The same, by the way down to the key.
fn unlink_below<K: Ord + Copy, V: Copy>(nodes: &mut [Node<K, V>], at: u32, key: K) -> Unlinked
    requires { (t : Shape K V) × CanLeave K.cmp nodes.old at key t }
    ensures { (t : Shape K V) → CanLeave K.cmp nodes.old at key t → (u : Shape K V) × Under nodes.new result.root u × HasLeft K.cmp t key result.freed u × Changed (λ q. times q t) nodes.old nodes.new }
{
    match node_at(nodes, at) {
        None => unreachable!(),
        Some(node) => {
            let here = Spot {
                place: at,
                key: node.key,
                value: node.value,
            };
            match key.cmp(&node.key) {
                Ordering::Less => {
                    let side = unlink_below(nodes, node.left, key);
                    let root = balance(nodes, side.root, here, node.right);
                    Unlinked {
                        root,
                        freed: side.freed,
                    }
                }
                Ordering::Equal => {
                    let root = join(nodes, node.left, node.right);
                    Unlinked { root, freed: at }
                }
                Ordering::Greater => {
                    let side = unlink_below(nodes, node.right, key);
                    let root = balance(nodes, node.left, here, side.root);
                    Unlinked {
                        root,
                        freed: side.freed,
                    }
                }
            }
        }
    }
}
