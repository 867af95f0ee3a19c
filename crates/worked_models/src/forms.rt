//! The trees of the whole models that the texts become: each has its clocked thread, with these ticks.
ghost use Rattle.std.specs.Prelude.{[], ◌∷◌, drop};
ghost use Rattle.model_lexer.specs.Items.{DerivesModel};
ghost use Rattle.expanded_text.specs.Clocked.{IsClocked};
ghost use Rattle.worked_models.specs.Models as models;
ghost use Rattle.worked_models.specs.ClockedTrees as trees;

/// What stands behind the line of the language derives the tree, whose thread is clocked, with a tick of two edges and one of
/// one edge, of which each tests the reset.
pub fn the_thread_with_a_reset_at_an_edge()
    ensures derives { DerivesModel trees.at_an_edge_model (drop 3 models.at_an_edge_expanded) [] }
    ensures clocked { IsClocked trees.at_an_edge_thread trees.at_an_edge_block (trees.two_edges ∷ trees.one_edge ∷ []) }
{}

/// A thread that is reset at once: a tick of five edges in a guard, which tests the reset.
pub fn the_thread_with_a_reset_at_once()
    ensures derives { DerivesModel trees.at_once_model (drop 3 models.at_once_expanded) [] }
    ensures clocked { IsClocked trees.at_once_thread trees.at_once_block (trees.five_edges ∷ []) }
{}

/// A thread without resets: a tick of three edges, and one of one edge in a loop.
pub fn the_thread_without_resets()
    ensures derives { DerivesModel trees.without_model (drop 3 models.without_expanded) [] }
    ensures clocked { IsClocked trees.without_thread trees.without_block (trees.three_alone ∷ trees.one_alone ∷ []) }
{}
