//! The grammar of the model language: which tokens derive which tree, and how many brackets are open in it.
ghost use Rattle.std.specs.Prelude.{◌≡◌, ◌≤◌, [], true};
ghost use Rattle.model_tree.specs.Tree as tree;
ghost use Rattle.model_tree.specs.Languages.{keeps_language};
ghost use Rattle.model_tree.specs.Limits.{is_sound, bracket_limit};
ghost use Rattle.model_lexer.specs.Tokens.{Tokens, are_limited, each_is};
ghost use Rattle.model_lexer.specs.Languages.{in_language};
ghost use Rattle.model_lexer.specs.Versions.{is_plain};
ghost use Rattle.model_lexer.specs.Items.{DerivesModel, DerivesSource};
ghost use Rattle.model_lexer.specs.Brackets.{brackets};

/// A tree that tokens within their limits derive, with no more brackets open than may be, keeps the limits and
/// the levels of the language.
pub fn sound_tree()
    ensures { (m : tree.Model) (ts : Tokens) → DerivesModel m ts [] → are_limited ts ≡ true → brackets m ≤ bracket_limit → is_sound m ≡ true }
{}

/// What tokens derive, as the version of their language has them, keeps to that version. (No text is cut into the words that
/// language 2 has besides.)
pub fn keeps_to_language()
    ensures { (x : tree.Source) (ts : Tokens) → DerivesSource x (in_language ts) [] → each_is is_plain ts ≡ true → keeps_language x.head x.model ≡ true }
{}
