//! Whole trees.
ghost use Rattle.std.specs.Prelude.{◌≡◌};
ghost use Rattle.model_tree.specs.WholeTree.{model_of};
ghost use Rattle.tick_trees.specs.Ticks.{ticks};

use crate::items::retime_modules;
use model_tree::Tree;
use model_tree::sim_time_api::Resolution;
use tick_trees::ticks_are_trees;

/// The tree of ticks at a resolution: each time is written as its number of resolutions, with the unit ps (IEEE 1666-2011, 5.11.3).
/// A time that has none is written as 2^64 - 1 seconds, which is past the range of times.
pub fn with_ticks(tree: Tree, r: Resolution) -> Tree
    ensures model { model_of result ≡ ticks r (model_of tree) }
    ensures head { result.head ≡ tree.head }
{
    ticks_are_trees();
    let Tree {
        head,
        mut modules,
        top,
    } = tree;
    retime_modules(&mut modules, r);
    Tree { head, modules, top }
}
