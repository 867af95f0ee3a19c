//! Laws of the objects of a model.
ghost use Rattle.std.specs.Prelude.{◌≡◌, ℕ, List, true};
ghost use Rattle.code_rules.specs.ModelTree.Tree as tree;
ghost use Rattle.design_rules.specs.ObjectFaults.{Has, has_within};

/// A module that another has within so many instances, one in the other, is had by it through a path of instances.
pub fn modules_are_had_by_a_path()
    ensures { (ms : List tree.Module) (n inner outer : ℕ) → has_within n ms inner outer ≡ true → Has ms outer inner }
{}
