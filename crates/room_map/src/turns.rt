//! Entries put over their sides so that no side is much higher than the other.
ghost use Rattle.std.specs.Prelude.{◌≡◌, ◌+◌};
ghost use Rattle.room_map.specs.Shape.{Shape, Fork, is_at, height, times};
ghost use Rattle.room_map.specs.Nodes.{Under, Changed, AreThree, AreNear, IsEven};

use crate::nodes::{Node, Spot, close, height, node_at};

// Two entries over three sides: the second stands above the first.
#[inline(always)]
pub(crate) fn stack_left<K: Copy, V: Copy>(
    nodes: &mut [Node<K, V>],
    a: u32,
    x: Spot<K, V>,
    b: u32,
    y: Spot<K, V>,
    c: u32,
) -> u32
    requires { (p : Shape K V) × (q : Shape K V) × (r : Shape K V) × AreThree nodes.old a p x.place b q y.place c r }
    ensures under { (p q r : Shape K V) → AreThree nodes.old a p x.place b q y.place c r → Under nodes.new result (Fork y.place (Fork x.place p x.key x.value q) y.key y.value r) }
    ensures changed { Changed (λ k. is_at x.place k + is_at y.place k) nodes.old nodes.new }
{
    let left = close(nodes, a, x, b);
    close(nodes, left, y, c)
}

// Two entries over three sides: the first stands above the second.
#[inline(always)]
pub(crate) fn stack_right<K: Copy, V: Copy>(
    nodes: &mut [Node<K, V>],
    a: u32,
    x: Spot<K, V>,
    b: u32,
    y: Spot<K, V>,
    c: u32,
) -> u32
    requires { (p : Shape K V) × (q : Shape K V) × (r : Shape K V) × AreThree nodes.old a p x.place b q y.place c r }
    ensures under { (p q r : Shape K V) → AreThree nodes.old a p x.place b q y.place c r → Under nodes.new result (Fork x.place p x.key x.value (Fork y.place q y.key y.value r)) }
    ensures changed { Changed (λ k. is_at x.place k + is_at y.place k) nodes.old nodes.new }
{
    let right = close(nodes, b, y, c);
    close(nodes, a, x, right)
}

// Two entries over three sides: the uppermost entry of the middle side stands above both.
#[inline(always)]
pub(crate) fn spread<K: Copy, V: Copy>(
    nodes: &mut [Node<K, V>],
    a: u32,
    x: Spot<K, V>,
    b: u32,
    y: Spot<K, V>,
    c: u32,
) -> u32
    requires { (p : Shape K V) × (l : Shape K V) × (k : K) × (v : V) × (r : Shape K V) × (q : Shape K V) × AreThree nodes.old a p x.place b (Fork b l k v r) y.place c q }
    ensures under { (p l r q : Shape K V) (k : K) (v : V) → AreThree nodes.old a p x.place b (Fork b l k v r) y.place c q → Under nodes.new result (Fork b (Fork x.place p x.key x.value l) k v (Fork y.place r y.key y.value q)) }
    ensures changed { Changed (λ k. is_at x.place k + is_at b k + is_at y.place k) nodes.old nodes.new }
{
    match node_at(nodes, b) {
        None => unreachable!(),
        Some(node) => {
            let middle = Spot {
                place: b,
                key: node.key,
                value: node.value,
            };
            let left = close(nodes, a, x, node.left);
            let right = close(nodes, node.right, y, c);
            close(nodes, left, middle, right)
        }
    }
}

// The entry over two sides, of which the left one is higher by two.
#[cold]
#[inline(never)]
fn lower_left<K: Copy, V: Copy>(
    nodes: &mut [Node<K, V>],
    left: u32,
    spot: Spot<K, V>,
    right: u32,
) -> u32
    requires { (l : Shape K V) × (r : Shape K V) × AreNear nodes.old left l spot.place right r × (height l ≡ height r + 2) }
    ensures { (l r : Shape K V) → AreNear nodes.old left l spot.place right r → height l ≡ height r + 2 → (u : Shape K V) × Under nodes.new result u × IsEven l spot.place spot.key spot.value r u × Changed (λ q. times q l + is_at spot.place q + times q r) nodes.old nodes.new }
{
    match node_at(nodes, left) {
        None => unreachable!(),
        Some(node) => {
            let upper = Spot {
                place: left,
                key: node.key,
                value: node.value,
            };
            if height(nodes, node.left) < height(nodes, node.right) {
                spread(nodes, node.left, upper, node.right, spot, right)
            } else {
                stack_right(nodes, node.left, upper, node.right, spot, right)
            }
        }
    }
}

// The entry over two sides, of which the right one is higher by two.
#[cold]
#[inline(never)]
fn lower_right<K: Copy, V: Copy>(
    nodes: &mut [Node<K, V>],
    left: u32,
    spot: Spot<K, V>,
    right: u32,
) -> u32
    requires { (l : Shape K V) × (r : Shape K V) × AreNear nodes.old left l spot.place right r × (height r ≡ height l + 2) }
    ensures { (l r : Shape K V) → AreNear nodes.old left l spot.place right r → height r ≡ height l + 2 → (u : Shape K V) × Under nodes.new result u × IsEven l spot.place spot.key spot.value r u × Changed (λ q. times q l + is_at spot.place q + times q r) nodes.old nodes.new }
{
    match node_at(nodes, right) {
        None => unreachable!(),
        Some(node) => {
            let upper = Spot {
                place: right,
                key: node.key,
                value: node.value,
            };
            if height(nodes, node.right) < height(nodes, node.left) {
                spread(nodes, left, spot, node.left, upper, node.right)
            } else {
                stack_left(nodes, left, spot, node.left, upper, node.right)
            }
        }
    }
}

// The entry over two sides that differ by at most two in height. The result is the link to the tree of all.
#[inline(always)]
pub(crate) fn balance<K: Copy, V: Copy>(
    nodes: &mut [Node<K, V>],
    left: u32,
    spot: Spot<K, V>,
    right: u32,
) -> u32
    requires { (l : Shape K V) × (r : Shape K V) × AreNear nodes.old left l spot.place right r }
    ensures { (l r : Shape K V) → AreNear nodes.old left l spot.place right r → (u : Shape K V) × Under nodes.new result u × IsEven l spot.place spot.key spot.value r u × Changed (λ q. times q l + is_at spot.place q + times q r) nodes.old nodes.new }
{
    let l = height(nodes, left);
    let r = height(nodes, right);
    if l > r + 1 {
        lower_left(nodes, left, spot, right)
    } else if r > l + 1 {
        lower_right(nodes, left, spot, right)
    } else {
        close(nodes, left, spot, right)
    }
}
