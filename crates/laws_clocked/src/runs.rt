//! The ticks of a clocked thread of a text in the runs of its design.
ghost use Rattle.std.specs.Prelude.{◌≡◌, ℕ, List, slice_get, Some};
ghost use Rattle.std.specs.List.{AllZip};
ghost use Rattle.code_rules.specs.ModelTree.Tree as tree;
ghost use Rattle.code_rules.specs.SimTime.declared.moments.Resolution.{Resolution};
ghost use Rattle.code_rules.specs.Bodies.{IsCodeOf};
ghost use Rattle.expanded_text.specs.Clocked.{Tick, IsClocked};
ghost use Rattle.tick_trees.specs.Retimed as retimed;
ghost use Rattle.tick_trees.specs.Ticks.{ticks, ticks_span};
ghost use Rattle.laws_runs.specs.FlatDesign.Sound.{SoundDesign};
ghost use Rattle.laws_runs.specs.FlatDesign.declared.design.Design.{Design};
ghost use Rattle.laws_runs.specs.SimModel.declared.plain.Command.{Command};
ghost use Rattle.laws_code.specs.OwnBlocks.{HaveOwnBlocks};
ghost use Rattle.laws_clocked.specs.Coded.{HasThread};
ghost use Rattle.laws_clocked.specs.Runs.{KeepsTick};

/// In every run of a sound design whose code has a clocked thread of a tree, and no block inside two bodies, whatever is chosen, whatever
/// other processes do, and whatever the unwind blocks do, each tick of the thread takes its takings, and begins its block again where it
/// is to (`coded`). So it is with each clocked thread of a model where the code of the design is that of the model's tree of ticks, as
/// that of a text is (`ticked`).
pub fn ticks_of_a_text_run_as_written()
    ensures coded { (design : Design) (script : List Command) → SoundDesign design → HaveOwnBlocks design.code
        → (m : tree.Model) (items : List tree.Item) (place n : ℕ) (p : tree.ProcessItem) (block : tree.Block) (ts : List Tick) (h : HasThread m items place n p block ts design.code)
        → AllZip (KeepsTick design script h.around h.function) ts h.coded_ticks }
    ensures ticked { (design : Design) (script : List Command) → SoundDesign design → HaveOwnBlocks design.code
        → (r : Resolution) (m : tree.Model) → IsCodeOf (ticks r m) design.code
        → (place : ℕ) (x : tree.Module) → slice_get m.modules place ≡ Some x
        → (n line : ℕ) (p : tree.ProcessItem) → slice_get x.items n ≡ Some (tree.process line p)
        → (block : tree.Block) (ts : List Tick) → IsClocked p block ts
        → (h : HasThread (ticks r m) (retimed.module_ (ticks_span r) x).items place n (retimed.process (ticks_span r) p) (retimed.block (ticks_span r) block) ts design.code)
        × AllZip (KeepsTick design script h.around h.function) ts h.coded_ticks }
{}
