//! Whole models with one clocked thread, written by hand, and what they become.
ghost use Rattle.clocked.specs.Expanded.{Expands};
ghost use Rattle.worked_models.specs.Models as models;

/// Two ticks of a thread that is reset at an edge, between prints.
pub fn a_model_with_a_reset_at_an_edge()
    ensures { Expands models.at_an_edge models.at_an_edge_expanded }
{}

/// A tick in a guard of a thread that is reset at once.
pub fn a_model_with_a_reset_at_once()
    ensures { Expands models.at_once models.at_once_expanded }
{}

/// Two ticks of a thread without resets.
pub fn a_model_without_resets()
    ensures { Expands models.without models.without_expanded }
{}
