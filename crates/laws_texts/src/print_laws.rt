ghost use Rattle.std.specs.Prelude.{◌≡◌, ℕ, ◌*◌, ◌^◌, ◌<◌, ◌≤◌, true, List, length};
ghost use Rattle.model_print.specs.ModelTree.Languages.{keeps_language};
ghost use Rattle.model_print.specs.ModelTree.Limits.{fits_head, is_sound};
ghost use Rattle.model_print.specs.ModelTree.WholeTree.{source_of};
ghost use Rattle.model_print.specs.ModelTree.Tree as tree;
ghost use Rattle.model_print.specs.ModelTree.declared.whole.Tree.{Tree};
ghost use Rattle.model_print.specs.Printed.{printed_text};
ghost use Rattle.model_lexer.specs.Reads.{Reads};
ghost use Rattle.laws_texts.specs.Bounds.{bytes_for_each, model_limit};
ghost use Rattle.laws_texts.specs.PrintsAgain.{PrintsAgain};
ghost use Rattle.laws_texts.specs.ReadsBack.{ReadsBack};
ghost use Rattle.laws_texts.specs.Unlined.{SameButLines};

/// The printed text of a tree within the limits reads as the same tree but for line numbers.
pub fn print_reads_back()
    ensures { (x : tree.Source) → fits_head x.head ≡ true → keeps_language x.head x.model ≡ true → is_sound x.model ≡ true → ReadsBack (printed_text x) x }
{}

/// So does that of each tree in memory, which is within the limits.
pub fn print_of_a_tree_reads_back()
    ensures { (t : Tree) → ReadsBack (printed_text (source_of t)) (source_of t) }
{}

/// Two trees that are the same but for line numbers have one printed text.
pub fn lines_are_not_printed()
    ensures { (x y : tree.Source) → SameButLines x y → printed_text x ≡ printed_text y }
{}

/// The printed text of a tree within the limits is printed again, byte for byte, of the tree that it reads as.
pub fn print_prints_again()
    ensures { (x : tree.Source) → fits_head x.head ≡ true → keeps_language x.head x.model ≡ true → is_sound x.model ≡ true → PrintsAgain (printed_text x) x }
{}

/// The printed text of a tree that was read is at most so many times as long as the text it was read of: indentation grows
/// with the depth, which has a limit.
pub fn print_is_bounded()
    ensures { (text : List ℕ) (x : tree.Source) → Reads text x → length (printed_text x) ≤ bytes_for_each x.model * length text }
{}

/// Where that text is within the limit of a model's text, the printed one is shorter than 2^32 bytes. It may be past that limit.
pub fn print_is_short()
    ensures { (text : List ℕ) (x : tree.Source) → Reads text x → length text ≤ model_limit → length (printed_text x) < 2 ^ 32 }
{}
