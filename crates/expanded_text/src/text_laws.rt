ghost use Rattle.std.specs.Prelude.{ℕ, List};
ghost use Rattle.model_tree.specs.Tree as tree;
ghost use Rattle.model_lexer.specs.Reads.{Reads};
ghost use Rattle.expanded_text.specs.Becomes.{Becomes};

/// Texts that one text becomes read as the same trees.
pub fn one_reading()
    ensures { (text one other : List ℕ) (m : tree.Source) → Becomes text one → Becomes text other → Reads one m → Reads other m }
{}

/// A text that becomes another one reads as no tree as it stands.
pub fn none_as_it_stands()
    ensures { (text out : List ℕ) (m : tree.Source) → Becomes text out → Reads text m → ⊥ }
{}
