//! Texts written by hand, and what they become.
ghost use Rattle.model_lexer.specs.Tokens.{Tokens};
ghost use Rattle.clocked.specs.Expanded.{Expands};
ghost use Rattle.worked_models.specs.Texts as texts;

/// A tick counts from its number, or from 1, down to 0 with a wait before each step. Kept tokens keep their lines, and what
/// is put in is on the line of the kept token before it, or of the first token of its form.
pub fn ticks_wait()
    ensures one { Expands texts.one_tick texts.one_tick_expanded }
    ensures lines { Expands texts.ticks_on_lines texts.ticks_on_lines_expanded }
    ensures most { (out : Tokens) × Expands texts.most_edges out }
{}

/// Behind each wait of a tick the resets are tested in the order written; one at once has a method besides.
pub fn resets_are_tested()
    ensures at_an_edge { Expands texts.at_an_edge texts.at_an_edge_expanded }
    ensures at_once { Expands texts.at_once texts.at_once_expanded }
    ensures both { Expands texts.both texts.both_expanded }
    ensures longest { (out : Tokens) × Expands texts.long_name out }
{}

/// Several threads, with places of their channels; a text between quotes that says tick is no tick.
pub fn several_expand()
    ensures { Expands texts.several texts.several_expanded }
{}

/// New words that stand in no form, whatever they would name there.
pub fn words_are_reserved()
    ensures put_in { (out : Tokens) → Expands texts.a_word_that_is_put_in out → ⊥ }
    ensures unit { (out : Tokens) → Expands texts.new_word_as_a_unit out → ⊥ }
    ensures thread { (out : Tokens) → Expands texts.new_word_as_a_thread out → ⊥ }
    ensures channel { (out : Tokens) → Expands texts.new_word_as_a_channel out → ⊥ }
    ensures place { (out : Tokens) → Expands texts.new_word_in_a_place out → ⊥ }
    ensures reset { (out : Tokens) → Expands texts.new_word_as_a_reset out → ⊥ }
    ensures function { (out : Tokens) → Expands texts.tick_in_a_function out → ⊥ }
    ensures name { (out : Tokens) → Expands texts.new_word_as_a_name out → ⊥ }
    ensures member { (out : Tokens) → Expands texts.new_word_behind_a_dot out → ⊥ }
{}

/// Forms that are not closed, and what else becomes nothing.
pub fn others_become_nothing()
    ensures no_edge { (out : Tokens) → Expands texts.no_edge out → ⊥ }
    ensures too_many { (out : Tokens) → Expands texts.too_many_edges out → ⊥ }
    ensures outside { (out : Tokens) → Expands texts.tick_in_a_thread out → ⊥ }
    ensures nested { (out : Tokens) → Expands texts.thread_in_a_thread out → ⊥ }
    ensures unclosed { (out : Tokens) → Expands texts.not_closed out → ⊥ }
    ensures end { (out : Tokens) → Expands texts.tick_without_its_end out → ⊥ }
    ensures sum { (out : Tokens) → Expands texts.tick_of_a_sum out → ⊥ }
    ensures twice { (out : Tokens) → Expands texts.two_resets_at_once out → ⊥ }
    ensures order { (out : Tokens) → Expands texts.resets_in_the_other_order out → ⊥ }
    ensures events { (out : Tokens) → Expands texts.two_events out → ⊥ }
    ensures edge { (out : Tokens) → Expands texts.no_edge_of_a_clock out → ⊥ }
    ensures other_language { (out : Tokens) → Expands texts.of_another_language out → ⊥ }
    ensures long { (out : Tokens) → Expands texts.too_long_name out → ⊥ }
{}
