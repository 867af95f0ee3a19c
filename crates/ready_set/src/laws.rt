ghost use Rattle.std.specs.Prelude.{◌≡◌, ℕ, Some, None, slice_get};
ghost use Rattle.std.specs.Ordering.{nat_cmp};
ghost use Rattle.std.specs.FinSet as set;
ghost use Rattle.ready_set.specs.Ready.{rising, IsLeast};

/// The first number of the rising order of a set is its least member, and only a set with no member has none.
pub fn least_of_a_set()
    ensures least { (s : set.FinSet nat_cmp) (p : ℕ) → slice_get (rising s) 0 ≡ Some p → IsLeast s p }
    ensures none { (s : set.FinSet nat_cmp) → slice_get (rising s) 0 ≡ None → s ≡ set.empty }
{}
