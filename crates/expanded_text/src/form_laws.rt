ghost use Rattle.std.specs.Prelude.{◌≡◌, List};
ghost use Rattle.model_tree.specs.Tree as tree;
ghost use Rattle.expanded_text.specs.Clocked.{Tick, IsClocked};

/// A thread is clocked with one block, at most, and that has one list of ticks.
pub fn one_form()
    ensures block { (p : tree.ProcessItem) (b c : tree.Block) (us vs : List Tick) → IsClocked p b us → IsClocked p c vs → b ≡ c }
    ensures ticks { (p : tree.ProcessItem) (b : tree.Block) (us vs : List Tick) → IsClocked p b us → IsClocked p b vs → us ≡ vs }
{}
