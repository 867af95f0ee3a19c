//! Laws of the first fault of a whole text.
ghost use Rattle.std.specs.Prelude.{◌≡◌, None};
ghost use Rattle.model_tree.specs.Tree as tree;
ghost use Rattle.model_rules.specs.Passes.{first_fault};
ghost use Rattle.tick_rules.specs.Sources.{source_fault, ticked};

/// A text without a first fault has a tree of ticks that breaks none of the rules.
pub fn faultless_texts_have_faultless_ticks()
    ensures { (s : tree.Source) → source_fault s ≡ None → first_fault (ticked s) ≡ None }
{}
