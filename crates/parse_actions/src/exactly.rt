ghost use Rattle.std.specs.Prelude.{◌≡◌, ◌↔◌, ℕ, ◌≤◌, true, Some};
ghost use Rattle.model_tree.specs.Tree as tree;
ghost use Rattle.model_tree.specs.declared.vocabulary.Symbol.TheVariants as s;
ghost use Rattle.parse_expressions.specs.ModelLexer.Tokens.{Tokens};
ghost use Rattle.parse_expressions.specs.ModelLexer.Expressions.{is_the_symbol, sees};
ghost use Rattle.parse_expressions.specs.ModelLexer.Statements.{DerivesOperation, DerivesAction};
ghost use Rattle.parse_expressions.specs.ModelLexer.Brackets.{in_operation, in_action};
ghost use Rattle.parse_actions.specs.Parse as spec;

/// An operation is read up to a semicolon exactly where the grammar derives it up to there with no more brackets
/// open than may be. What is read up to another token is not spoken of.
pub fn operation_exactly()
    ensures { (depth line : ℕ) (o : tree.Operation) (ts rest : Tokens) → sees (is_the_symbol s.Semicolon) rest ≡ true → DerivesOperation line o ts rest × (in_operation o ≤ depth) ↔ (spec.operation depth ts ≡ Some ((line, o), rest)) }
{}

/// The same of an action.
pub fn action_exactly()
    ensures { (depth line : ℕ) (a : tree.Action) (ts rest : Tokens) → sees (is_the_symbol s.Semicolon) rest ≡ true → DerivesAction line a ts rest × (in_action a ≤ depth) ↔ (spec.action depth ts ≡ Some ((line, a), rest)) }
{}
