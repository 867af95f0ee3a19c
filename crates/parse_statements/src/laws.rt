ghost use Rattle.std.specs.Prelude.{◌≡◌, ◌↔◌, ℕ, suc, ◌≤◌, Some};
ghost use Rattle.model_tree.specs.Tree as tree;
ghost use Rattle.parse_actions.specs.ModelLexer.Tokens.{Tokens};
ghost use Rattle.parse_actions.specs.ModelLexer.Statements.{DerivesBlock};
ghost use Rattle.parse_actions.specs.ModelLexer.Brackets.{in_block};
ghost use Rattle.parse_statements.specs.Parse.{block};

/// A block is read up to a token exactly where the grammar derives it up to there with no more brackets open than
/// may be, its own among them. So it is refused exactly where none is derived.
pub fn block_exactly()
    ensures { (depth : ℕ) (body : tree.Block) (ts rest : Tokens) → DerivesBlock body ts rest × (suc (in_block body) ≤ depth) ↔ (block depth ts ≡ Some (body, rest)) }
{}
