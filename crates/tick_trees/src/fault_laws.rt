ghost use Rattle.std.specs.Prelude.{◌≡◌, ◌<◌, ◌*◌, ◌^◌, ℕ, Err, option_map};
ghost use Rattle.std.specs.List.{find};
ghost use Rattle.model_tree.specs.SimTime.Times.{femtoseconds_in, femtoseconds_of, ticks_of};
ghost use Rattle.model_tree.specs.SimTime.declared.moments.Resolution.{Resolution};
ghost use Rattle.model_tree.specs.SimTime.declared.moments.Unit.{Unit as TimeUnit};
ghost use Rattle.model_tree.specs.SimTime.declared.moments.UnitStop.TheVariants.{Inexact};
ghost use Rattle.model_tree.specs.Tree as tree;
ghost use Rattle.tick_trees.specs.Ticks.{ticks};
ghost use Rattle.tick_trees.specs.Times.{Timed, times_of};
ghost use Rattle.tick_trees.specs.Unfit.{first_unfit, is_past};
ghost use Rattle.tick_trees.specs.declared.found.Unfit.{Unfit};

/// No time that is written is past the range and inexact: one that is no whole number of resolutions is below 2^64 of them.
pub fn inexact_times_are_in_range()
    ensures { (r : Resolution) (n : ℕ) (u : TimeUnit) → n < 2 ^ 64 → ticks_of n u r ≡ Err Inexact → n * femtoseconds_in u < 2 ^ 64 * femtoseconds_of r }
{}

/// The first construct of the tree of ticks with a time that the rules do not take for one is where the first unfit time was
/// written: there is none where no time is unfit, and else it stands on the same line.
pub fn unfit_times_are_past()
    ensures { (r : Resolution) (m : tree.Model) → option_map (λ (t : Timed). t.line) (find is_past (times_of (ticks r m))) ≡ option_map (λ (u : Unfit). u.line) (first_unfit r m) }
{}
