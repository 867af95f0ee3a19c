//! Places in the order of the ranks that stand at them.
ghost use Rattle.std.specs.Prelude.{◌≡◌, ℕ, ◌<◌, ◌≤◌, ◌∷◌, OnErr, OnOk, length, slice_index};
ghost use Rattle.std.specs.List.Sorted.{IsPermutation};
ghost use Rattle.dmi_map.specs.Ranks as spec;

use std::alloc::AllocError;

/// What a place is ordered by: the first number, and at equal ones the second.
#[derive(Clone, Copy)]
pub struct Rank {
    /// What decides first.
    pub first: u64,
    /// What decides where the first is equal.
    pub second: u64,
}

fn rank_at(ranks: &[Rank], k: u32) -> Rank
    ensures { result ≡ spec.rank_at ranks.now k }
{
    match ranks.get(k as usize) {
        Some(rank) => *rank,
        None => Rank {
            first: 0,
            second: 0,
        },
    }
}

// Whether place j comes before place k.
fn is_before(ranks: &[Rank], j: u32, k: u32) -> bool
    ensures { result ≡ spec.is_before (spec.rank_at ranks.now j) j (spec.rank_at ranks.now k) k }
{
    let one = rank_at(ranks, j);
    let other = rank_at(ranks, k);
    one.first < other.first
        || one.first == other.first
            && (one.second < other.second || one.second == other.second && j < k)
}

// How many of the places that are in order stand before k.
fn count_before(order: &[u32], ranks: &[Rank], k: u32) -> usize
    requires sorted { spec.AreInOrder (spec.rank_at ranks.now) order.now }
    requires fresh { (i : ℕ) → i < length order.now → slice_index order.now i < k }
    ensures within { result ≤ length order.now }
    ensures before { (i : ℕ) → i < result → spec.ComesBefore (spec.rank_at ranks.now) (slice_index order.now i) k }
    ensures behind { (i : ℕ) → result ≤ i → i < length order.now → spec.ComesBefore (spec.rank_at ranks.now) k (slice_index order.now i) }
{
    let mut at = order.len();
    'places: while at > 0 && is_before(ranks, k, order[at - 1]) {
        at -= 1;
    }
    at
}

/// Puts a place among lesser ones that are in order, so that all are. Where memory is refused they stay as they were.
pub fn put_in_order(order: &mut Vec<u32>, ranks: &[Rank], k: u32) -> Result<(), AllocError>
    requires sorted { spec.AreInOrder (spec.rank_at ranks.now) order.old.items }
    requires fresh { (i : ℕ) → i < length order.old.items → slice_index order.old.items i < k }
    ensures sorted { OnOk result (spec.AreInOrder (spec.rank_at ranks.now) order.new.items) }
    ensures same { OnOk result (IsPermutation (k ∷ order.old.items) order.new.items) }
    ensures kept { OnErr result (order.new.items ≡ order.old.items) }
{
    let at = count_before(order.as_slice(), ranks, k);
    order.insert(at, k)?;
    Ok(())
}
