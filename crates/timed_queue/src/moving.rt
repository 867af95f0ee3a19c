//! Moving the origin of a wheel, and what its marks tell.
ghost use Rattle.std.specs.Prelude.{◌≡◌, ◌≢◌, ℕ, ◌+◌, ◌^◌, ◌<◌, ◌≤◌, length, IfNone, IfSome, false};
ghost use Rattle.timed_queue.specs.Nodes.{IsEntry, Same, Others, Holds, place_of, time_of};
ghost use Rattle.timed_queue.specs.Placing.{place_at};
ghost use Rattle.timed_queue.specs.Sound.{IsWheel, IsSettled, ArePlaced, ArePlacedBelow, AreFrom, IsLeastTime, IsBound, IsDueNode};

use crate::chains::{PLACES, next_of, place_of as stands_at, time_of};
use crate::placing::{place_of, start_of};
use crate::wheel::Wheel;

impl Wheel {
    // A time that no entry is before, as far as the marks tell it.
    pub(crate) fn bound(&self) -> Option<u64>
        requires sound { IsWheel self.now }
        requires settled { IsSettled self.now }
        ensures none { IfNone result ((i : ℕ) → IsEntry self.now.nodes.items i → ⊥) }
        ensures some { IfSome result (IsBound self.now.nodes.items) }
    {
        match self.marks.first() {
            Some(place) => Some(start_of(place, self.origin)),
            None => None,
        }
    }

    // The least time of an entry.
    #[inline(always)]
    pub(crate) fn least(&self) -> Option<u64>
        requires sound { IsWheel self.now }
        requires settled { IsSettled self.now }
        ensures none { IfNone result ((i : ℕ) → IsEntry self.now.nodes.items i → ⊥) }
        ensures some { IfSome result (IsLeastTime self.now.nodes.items) }
    {
        match self.marks.first() {
            Some(place) => match self.least_from(place, 0) {
                Some(i) => Some(time_of(&self.nodes, i)),
                None => None,
            },
            None => None,
        }
    }

    // A node with this very time.
    pub(crate) fn due_node(&self, t: u64) -> Option<u32>
        requires sound { IsWheel self.now }
        requires settled { IsSettled self.now }
        ensures none { IfNone result ((i : ℕ) → IsEntry self.now.nodes.items i → time_of self.now.nodes.items i ≢ t) }
        ensures some { IfSome result (IsDueNode self.now.nodes.items t) }
    {
        if t < self.origin {
            return None;
        }
        if self.nodes.is_empty() {
            return None;
        }
        match self.least_from(place_of(t, self.origin), t) {
            Some(i) => {
                if time_of(&self.nodes, i) == t {
                    Some(i)
                } else {
                    None
                }
            }
            None => None,
        }
    }

    // Whether an entry is before t, which stands in this place.
    fn holds_before(&self, place: u32, t: u64) -> bool
        requires sound { IsWheel self.now }
        requires settled { IsSettled self.now }
        requires late { self.now.origin ≤ t }
        requires is_place { place ≡ place_at 10 t self.now.origin }
        ensures { result ≡ false → AreFrom self.now.nodes.items t }
    {
        match self.marks.first() {
            Some(first) => {
                if place < first {
                    return false;
                }
                self.is_before(t)
            }
            None => false,
        }
    }

    // The same, where some entry may be.
    fn is_before(&self, t: u64) -> bool
        requires sound { IsWheel self.now }
        requires settled { IsSettled self.now }
        ensures { result ≡ false → AreFrom self.now.nodes.items t }
    {
        match self.least() {
            Some(least) => least < t,
            None => false,
        }
    }

    // Takes each node of the place to where it stands as seen from t.
    fn spread(&mut self, place: u32, t: u64)
        requires sound { IsWheel self.old }
        requires low { place < 704 }
        requires high { 64 ≤ place }
        requires within { place < length self.old.nodes.items }
        requires late { self.old.origin ≤ t }
        requires is_place { place ≡ place_at 10 t self.old.origin }
        requires settled { IsSettled self.old }
        requires from { AreFrom self.old.nodes.items t }
        ensures sound { IsWheel self.new }
        ensures same { Same self.old.nodes.items self.new.nodes.items }
        ensures placed { ArePlaced self.new.nodes.items t }
        ensures room { self.new.room ≡ self.old.room }
    {
        'spreading: while next_of(&self.nodes, place) != place {
            let i = next_of(&self.nodes, place);
            let to = place_of(time_of(&self.nodes, i), t);
            self.transfer(i, to);
        }
    }

    // Moves the origin up to t, where no entry is before that.
    pub(crate) fn follow(&mut self, t: u64)
        requires sound { IsWheel self.old }
        requires settled { IsSettled self.old }
        ensures sound { IsWheel self.new }
        ensures settled { IsSettled self.new }
        ensures same { Same self.old.nodes.items self.new.nodes.items }
        ensures room { self.new.room ≡ self.old.room }
    {
        if t <= self.origin {
            return;
        }
        if self.nodes.is_empty() {
            return;
        }
        let place = place_of(t, self.origin);
        if self.holds_before(place, t) {
            return;
        }
        if place >= 64 {
            self.spread(place, t);
        }
        self.origin = t;
    }

    // Begins anew at t, where there is no entry.
    #[inline(always)]
    pub(crate) fn begin_at(&mut self, t: u64)
        requires sound { IsWheel self.old }
        requires none { (i : ℕ) → IsEntry self.old.nodes.items i → ⊥ }
        ensures sound { IsWheel self.new }
        ensures settled { IsSettled self.new }
        ensures same { Same self.old.nodes.items self.new.nodes.items }
        ensures room { self.new.room ≡ self.old.room }
    {
        self.origin = t;
    }

    // Moves the origin down to t, where it is past that.
    pub(crate) fn lower(&mut self, t: u64)
        requires sound { IsWheel self.old }
        requires settled { IsSettled self.old }
        ensures sound { IsWheel self.new }
        ensures settled { IsSettled self.new }
        ensures same { Same self.old.nodes.items self.new.nodes.items }
        ensures room { self.new.room ≡ self.old.room }
        ensures below { self.new.origin ≤ t }
    {
        if t < self.origin {
            self.place_anew(t);
            self.origin = t;
        }
    }

    // Takes each node to where it stands as seen from t.
    fn place_anew(&mut self, t: u64)
        requires sound { IsWheel self.old }
        requires settled { IsSettled self.old }
        requires below { t ≤ self.old.origin }
        ensures sound { IsWheel self.new }
        ensures placed { ArePlaced self.new.nodes.items t }
        ensures same { Same self.old.nodes.items self.new.nodes.items }
        ensures room { self.new.room ≡ self.old.room }
    {
        'placing: for i in PLACES..self.nodes.len() as u32 {
            self.place_one(i, t);
        }
    }

    // Takes the node, if it holds an entry, to where it stands as seen from t.
    fn place_one(&mut self, i: u32, t: u64)
        requires sound { IsWheel self.old }
        requires within { i < length self.old.nodes.items }
        requires entry { 704 ≤ i }
        requires placed { ArePlacedBelow self.old.nodes.items t i }
        ensures sound { IsWheel self.new }
        ensures same { Same self.old.nodes.items self.new.nodes.items }
        ensures placed { ArePlacedBelow self.new.nodes.items t (i + 1) }
        ensures room { self.new.room ≡ self.old.room }
    {
        if stands_at(&self.nodes, i) < PLACES {
            let to = place_of(time_of(&self.nodes, i), t);
            self.transfer(i, to);
        }
    }
}
