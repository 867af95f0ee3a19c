ghost use Rattle.std.specs.Prelude.{◌≡◌, ◌⊎◌, ℕ, List};
ghost use Rattle.model_tree.specs.Tree.{Source};
ghost use Rattle.run_input.specs.Acceptance.{AcceptsModel, BreaksRule, BreaksWhole, HasNoTree, IsBrokenModel, IsRead};

use expanded_text::{none_as_it_stands, one_reading};
use model_parser::one_tree;

/// No model reads as two trees, as it stands or by what it becomes.
pub fn one_source()
    ensures { (model : List ℕ) (m n : Source) → IsRead model m → IsRead model n → m ≡ n }
{
    one_tree();
    one_reading();
    none_as_it_stands();
}

/// A text that reads is accepted, or breaks a rule on its modules, or is at fault as a whole; and of these, and of
/// reading as no tree, no two are so of one text.
pub fn one_cause()
    ensures some { (text : List ℕ) (m : Source) → IsRead text m → AcceptsModel text m ⊎ (BreaksRule text ⊎ BreaksWhole text) }
    ensures accepted { (text : List ℕ) (m : Source) → AcceptsModel text m → IsBrokenModel text → ⊥ }
    ensures unread { (text : List ℕ) → HasNoTree text → BreaksRule text ⊎ BreaksWhole text → ⊥ }
    ensures ruled { (text : List ℕ) → BreaksRule text → BreaksWhole text → ⊥ }
{
    one_source();
}
