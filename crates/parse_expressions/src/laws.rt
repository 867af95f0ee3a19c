ghost use Rattle.std.specs.Prelude.{◌≡◌, ◌↔◌, ℕ, Some};
ghost use Rattle.model_tree.specs.Tree as tree;
ghost use Rattle.model_lexer.specs.Tokens.{Tokens};
ghost use Rattle.model_lexer.specs.Expressions.{BeginsWith};
ghost use Rattle.parse_expressions.specs.Parse.{expression};

/// No tokens begin with two expressions, nor with one in two ways.
pub fn one_expression()
    ensures { (brackets : ℕ) (e f : tree.Expression) (ts rest left : Tokens) → BeginsWith brackets e ts rest → BeginsWith brackets f ts left → (e ≡ f) × (rest ≡ left) }
{}

/// An expression is read up to a token exactly where the tokens begin with it up to there. So it is refused
/// exactly where they begin with none.
pub fn expression_exactly()
    ensures { (depth : ℕ) (e : tree.Expression) (ts rest : Tokens) → BeginsWith depth e ts rest ↔ (expression depth ts ≡ Some (e, rest)) }
{}
