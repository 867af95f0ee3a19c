ghost use Rattle.std.specs.Prelude.{◌≡◌, false, map, IsTrue};
ghost use Rattle.model_tree.specs.Languages.{is_femtoseconds, keeps_language};
ghost use Rattle.model_tree.specs.Limits.{is_sound};
ghost use Rattle.model_tree.specs.SimTime.Times.{ticks_of};
ghost use Rattle.model_tree.specs.SimTime.declared.moments.Resolution.{Resolution};
ghost use Rattle.tick_trees.specs.Ticks.{ticks, ticks_span};
ghost use Rattle.tick_trees.specs.Times.{times_of};
ghost use Rattle.model_tree.specs.Tree as tree;
ghost use Rattle.model_tree.specs.declared.items.Head.{Head};
ghost use Rattle.model_tree.specs.declared.types.Span.{Span};
ghost use Rattle.tick_trees.specs.Laws.{retimed_timed, seen, whole};

/// The tree of ticks keeps the limits of the language, and the words and units of its version.
pub fn ticks_are_trees()
    ensures limits { (r : Resolution) (m : tree.Model) → IsTrue (is_sound m) → IsTrue (is_sound (ticks r m)) }
    ensures language { (r : Resolution) (h : Head) (m : tree.Model) → IsTrue (keeps_language h m) → IsTrue (keeps_language h (ticks r m)) }
{}

/// In the tree of ticks the same constructs have times, on the same lines and in the same order, and each of these times is the
/// number of resolutions of the one that was written.
pub fn ticks_stand_where_times_stood()
    ensures { (r : Resolution) (m : tree.Model) → times_of (ticks r m) ≡ map (retimed_timed (ticks_span r)) (times_of m) }
{}

/// What rules, code and designs see in a time of the tree of ticks is its number of resolutions, and no time exactly where there
/// is no such number below 2^64. Where the resolution is a picosecond it is what they see in the time as it is written, unless
/// that has femtoseconds, and ticks once more change nothing.
pub fn ticks_are_seen()
    ensures whole { (r : Resolution) (s : Span) → seen (ticks_span r s) ≡ whole (ticks_of s.count s.unit r) }
    ensures picosecond { (r : Resolution) (s : Span) → r.power ≡ 3 → is_femtoseconds s.unit ≡ false → seen (ticks_span r s) ≡ seen s }
    ensures again { (r q : Resolution) (s : Span) → r.power ≡ 3 → ticks_span r (ticks_span q s) ≡ ticks_span q s }
{}
