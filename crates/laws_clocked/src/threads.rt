//! A clocked thread of a tree becomes one of the code.
ghost use Rattle.std.specs.Prelude.{◌≡◌, ℕ, List, slice_get, Some};
ghost use Rattle.code_rules.specs.ModelTree.Tree as tree;
ghost use Rattle.code_rules.specs.SimTime.declared.moments.Resolution.{Resolution};
ghost use Rattle.code_rules.specs.FlatDesign.declared.code.Code.{Code};
ghost use Rattle.code_rules.specs.Bodies.{IsCodeOf};
ghost use Rattle.expanded_text.specs.Clocked.{Tick, IsClocked};
ghost use Rattle.tick_trees.specs.Retimed as retimed;
ghost use Rattle.tick_trees.specs.Ticks.{ticks, ticks_span};
ghost use Rattle.laws_clocked.specs.Coded.{HasThread};

/// A clocked thread stays one in the tree of ticks, where its times are numbers of resolutions, with the same list of ticks.
pub fn clocked_threads_stay_such_in_the_tree_of_ticks()
    ensures { (r : Resolution) (p : tree.ProcessItem) (block : tree.Block) (ts : List Tick) → IsClocked p block ts → IsClocked (retimed.process (ticks_span r) p) (retimed.block (ticks_span r) block) ts }
{}

/// In code that reads back as the bodies of a model each clocked thread of a module of the model has its body, its loop and its try around
/// its own statements, and in these each of its ticks, with the same number and the same tests (`written`). So has each clocked thread of
/// a model in the code of its tree of ticks (`ticked`), which is the code of a text.
pub fn clocked_threads_become_such_of_the_code()
    ensures written { (m : tree.Model) (c : Code) → IsCodeOf m c
        → (place : ℕ) (x : tree.Module) → slice_get m.modules place ≡ Some x
        → (n line : ℕ) (p : tree.ProcessItem) → slice_get x.items n ≡ Some (tree.process line p)
        → (block : tree.Block) (ts : List Tick) → IsClocked p block ts
        → HasThread m x.items place n p block ts c }
    ensures ticked { (r : Resolution) (m : tree.Model) (c : Code) → IsCodeOf (ticks r m) c
        → (place : ℕ) (x : tree.Module) → slice_get m.modules place ≡ Some x
        → (n line : ℕ) (p : tree.ProcessItem) → slice_get x.items n ≡ Some (tree.process line p)
        → (block : tree.Block) (ts : List Tick) → IsClocked p block ts
        → HasThread (ticks r m) (retimed.module_ (ticks_span r) x).items place n (retimed.process (ticks_span r) p) (retimed.block (ticks_span r) block) ts c }
{}
