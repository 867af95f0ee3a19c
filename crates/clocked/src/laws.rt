ghost use Rattle.std.specs.Prelude.{◌≡◌};
ghost use Rattle.model_lexer.specs.Tokens.{Tokens};
ghost use Rattle.clocked.specs.Expanded.{Expands};

/// A token list expands to one token list, at most.
pub fn one_expansion()
    ensures { (ts one other : Tokens) → Expands ts one → Expands ts other → one ≡ other }
{}
