ghost use Rattle.std.specs.Prelude.{◌≡◌, ℕ, ◌≤◌, Bool, false, ◌==◌, List, length, slice_get, count_by};
ghost use Rattle.std.specs.List.{list_any};
ghost use Rattle.std.specs.List.Sorted.{IsStrictlyIncreasing};
ghost use Rattle.std.specs.Option.{unwrap_or};
ghost use Rattle.numbered_slots.specs.Places.{marked_places};

/// A number is a marked place exactly where its mark is true; the places rise, there are as many as true marks, and no more than marks.
pub fn marked_places_are_those_of_the_marks()
    ensures member { (marks : List Bool) (n : ℕ) → list_any (λ place. place == n) (marked_places marks) ≡ unwrap_or (slice_get marks n) false }
    ensures rising { (marks : List Bool) → IsStrictlyIncreasing (marked_places marks) }
    ensures count { (marks : List Bool) → length (marked_places marks) ≡ count_by (λ mark. mark) marks }
    ensures at_most { (marks : List Bool) → count_by (λ mark. mark) marks ≤ length marks }
{}

/// No other list has these members and rises.
pub fn only_marked_places_rise()
    ensures { (marks : List Bool) (places : List ℕ) → IsStrictlyIncreasing places → ((n : ℕ) → list_any (λ place. place == n) places ≡ unwrap_or (slice_get marks n) false) → places ≡ marked_places marks }
{}
