ghost use Rattle.std.specs.Prelude.{ℕ, List};
ghost use Rattle.model_rules.specs.ModelTree.Tree as tree;
ghost use Rattle.model_rules.specs.Sites.{sites};
ghost use Rattle.model_lexer.specs.Reads.{Reads};
ghost use Rattle.laws_texts.specs.Order.{LinesNeverFall};
ghost use Rattle.laws_texts.specs.Productions.{in_model, AreSitesOf};

/// The list of sites at which first faults are judged has each production of the tree once, with its line, and an outer one
/// before those that stand in it.
pub fn sites_are_productions()
    ensures { (m : tree.Model) → AreSitesOf (in_model m) (sites m) }
{}

/// Along the sites of a tree that was read lines never fall.
pub fn lines_never_fall()
    ensures { (text : List ℕ) (x : tree.Source) → Reads text x → LinesNeverFall (sites x.model) }
{}
