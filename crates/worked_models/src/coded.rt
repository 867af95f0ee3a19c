//! The code of a model that a text becomes: it has the ticks of its clocked thread.
ghost use Rattle.code_rules.specs.SimTime.declared.moments.Resolution.{Resolution};
ghost use Rattle.code_rules.specs.FlatDesign.Code.{arena_of};
ghost use Rattle.code_rules.specs.FlatDesign.declared.code.Code.{Code};
ghost use Rattle.code_rules.specs.Bodies.{IsCodeOf};
ghost use Rattle.tick_trees.specs.Ticks.{ticks};
ghost use Rattle.worked_models.specs.ClockedCoded.{HasTickWith};
ghost use Rattle.worked_models.specs.ClockedTrees as trees;

use crate::the_thread_with_a_reset_at_an_edge;
use laws_clocked::clocked_threads_become_such_of_the_code;

/// At each resolution the code of the model whose thread is reset at an edge has a tick of two edges and one of one edge, and each of
/// them tests whether what the module declares behind its clock, the signal of the reset, is true.
pub fn the_code_with_a_reset_at_an_edge()
    ensures two { (r : Resolution) (c : Code) → IsCodeOf (ticks r trees.at_an_edge_model) c → HasTickWith (arena_of c) 2 1 }
    ensures one { (r : Resolution) (c : Code) → IsCodeOf (ticks r trees.at_an_edge_model) c → HasTickWith (arena_of c) 1 1 }
{
    the_thread_with_a_reset_at_an_edge();
    clocked_threads_become_such_of_the_code();
}
