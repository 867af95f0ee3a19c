ghost use Rattle.std.specs.Prelude.{◌≡◌, ℕ, ◌≤◌, List, length, count_by, take, drop, Some, true};
ghost use Rattle.model_tree.specs.Languages.{keeps_language};
ghost use Rattle.model_tree.specs.Tree as tree;
ghost use Rattle.model_lexer.specs.Tokens.{are_limited, each_is};
ghost use Rattle.model_lexer.specs.Versions.{is_plain};
ghost use Rattle.model_lexer.specs.declared.forms.Form.{Form};
ghost use Rattle.model_lexer.specs.Forms.{form_of, tests};
ghost use Rattle.model_lexer.specs.Cut.{IsPiece, Lexeme, Cut, CutFrom};
ghost use Rattle.model_lexer.specs.Laws.{with_lines, AreInOrder, HasPiece, IsPastLimit};
ghost use Rattle.model_lexer.specs.Reads.{Reads};

/// No text has two token lists.
pub fn one_cut()
    ensures { (text : List ℕ) (ts us : List Lexeme) → Cut text ts → Cut text us → ts ≡ us }
{}

/// No bytes have two forms.
pub fn one_form()
    ensures { (bytes : List ℕ) → count_by (λ test. test bytes) tests ≤ 1 }
{}

/// Bytes have at most one piece at their front.
pub fn one_piece()
    ensures { (bytes : List ℕ) (f g : Form) (n m : ℕ) → IsPiece bytes f n → IsPiece bytes g m → (f ≡ g) × (n ≡ m) }
{}

/// Bytes some front of which has a form have a piece, which is no shorter.
pub fn longest_piece()
    ensures { (bytes : List ℕ) (f : Form) (m : ℕ) → m ≤ length bytes → form_of (take m bytes) ≡ Some f → HasPiece bytes m }
{}

/// Each token keeps the limits of its form.
pub fn limited_tokens()
    ensures { (text : List ℕ) (ts : List Lexeme) → Cut text ts → are_limited (with_lines ts) ≡ true }
{}

/// No token is a word that language 2 has besides.
pub fn plain_tokens()
    ensures { (text : List ℕ) (ts : List Lexeme) → Cut text ts → each_is is_plain (with_lines ts) ≡ true }
{}

/// What a text reads as keeps to its language.
pub fn reads_a_language()
    ensures { (text : List ℕ) (x : tree.Source) → Reads text x → keeps_language x.head x.model ≡ true }
{}

/// The tokens' places are in order and within the text, and no two overlap.
pub fn ordered_tokens()
    ensures { (text : List ℕ) (ts : List Lexeme) → Cut text ts → AreInOrder 0 (length text) ts }
{}

/// A token past its limit is refused, and never cut in two: from there on the text has no token list.
pub fn past_limit_refused()
    ensures { (text : List ℕ) (at n : ℕ) (f : Form) → IsPastLimit (drop at text) f n → (ts : List Lexeme) → CutFrom text at ts → ⊥ }
{}
