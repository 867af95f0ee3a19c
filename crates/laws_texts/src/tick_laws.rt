ghost use Rattle.std.specs.Prelude.{◌≡◌, Some, map, option_map, IsTrue};
ghost use Rattle.model_tree.specs.Languages.{keeps_language};
ghost use Rattle.model_tree.specs.SimTime.declared.moments.Resolution.{Resolution};
ghost use Rattle.model_tree.specs.Tree as tree;
ghost use Rattle.model_tree.specs.declared.items.Head.TheVariants as head;
ghost use Rattle.model_tree.specs.declared.faults.Fault.{Fault};
ghost use Rattle.model_tree.specs.declared.faults.Kind.TheVariants as kind;
ghost use Rattle.tick_trees.specs.Ticks.{ticks};
ghost use Rattle.tick_trees.specs.Times.{times_of};
ghost use Rattle.tick_trees.specs.Unfit.{first_unfit};
ghost use Rattle.tick_trees.specs.declared.found.Unfit.{Unfit};
ghost use Rattle.model_rules.specs.Passes.{first_fault};
ghost use Rattle.laws_texts.specs.RuleTimes.{seen_at};

use tick_trees::unfit_times_are_past;

/// A tree of language 1, whose resolution is a picosecond, differs from its tree of ticks in the spelling of times alone: the rules
/// see the same times at the same constructs on the same lines.
pub fn language_1_has_its_times()
    ensures { (r : Resolution) (m : tree.Model) → r.power ≡ 3 → IsTrue (keeps_language head.First m) → map seen_at (times_of (ticks r m)) ≡ map seen_at (times_of m) }
{}

/// Where the first fault of a tree of ticks is a literal past the range, the tree has an unfit time as it was written, and the fault
/// stands on the line of the first one.
pub fn late_literals_are_unfit_times()
    ensures { (r : Resolution) (m : tree.Model) (f : Fault) → first_fault (ticks r m) ≡ Some f → f.kind ≡ kind.LiteralRange → option_map (λ (u : Unfit). u.line) (first_unfit r m) ≡ Some f.line }
{
    unfit_times_are_past();
}
