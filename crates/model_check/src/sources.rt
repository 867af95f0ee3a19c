ghost use Rattle.std.specs.Prelude.{◌≡◌, IfErr, IfOk, None, OnOk, Some};
ghost use Rattle.model_tree.specs.WholeTree.{model_of, source_of};
ghost use Rattle.model_tree.specs.Stops.{IfRefused};
ghost use Rattle.code_rules.specs.ModelRules.Passes.{first_fault};
ghost use Rattle.tick_rules.specs.TickTrees.Ticks.{ticks};
ghost use Rattle.tick_rules.specs.Sources.{modules_fault, source_fault, ticked};

use crate::judge_rules;
use model_tree::sim_time_api::Resolution;
use model_tree::{CheckStop, Tree};
use std::alloc::Global;
use tick_rules::tick_trees_api::first_unfit;
use tick_rules::{judge_resolution, resolution_of, told_fault, with_ticks};

/// The tree of ticks at a resolution of a tree that breaks no rule.
fn judge_ticks(alloc: Global, tree: Tree, resolution: Resolution) -> Result<Tree, CheckStop>
    ensures ticks { IfOk result (λ t. model_of t ≡ ticks resolution (model_of tree)) }
    ensures head { IfOk result (λ t. t.head ≡ tree.head) }
    ensures accepted { OnOk result (first_fault (ticks resolution (model_of tree)) ≡ None) }
    ensures refused { IfErr result (λ stop. IfRefused stop (λ fault. modules_fault resolution (model_of tree) ≡ Some fault)) }
{
    let unfit = first_unfit(&tree, resolution);
    let judged = with_ticks(tree, resolution);
    match judge_rules(alloc, &judged) {
        Ok(()) => Ok(judged),
        Err(CheckStop::Refused(fault)) => Err(told_fault(alloc, fault, unfit)),
        Err(CheckStop::NoMemory) => Err(CheckStop::NoMemory),
    }
}

/// Judges a tree, of either language, by its resolution and by all rules on its modules. The tree of ticks is made here, before every
/// rule: what is answered is that tree.
///
/// # Errors
/// Refused has the first broken rule: the resolution (BadResolution); else that of the first pass that has one (double names; the rules
/// on single constructs; the rules on what is reached), there at the first construct in text order, and there the lowest kind. A time
/// that is none is past the range (LiteralRange) or no whole number of resolutions (InexactTime). Out of memory is also answered for
/// more locals in one body than 32 bits count.
pub fn judge_source(alloc: Global, tree: Tree) -> Result<Tree, CheckStop>
    ensures ticks { IfOk result (λ t. model_of t ≡ ticked (source_of tree)) }
    ensures head { IfOk result (λ t. t.head ≡ tree.head) }
    ensures accepted { OnOk result (source_fault (source_of tree) ≡ None) }
    ensures rules { IfOk result (λ t. first_fault (model_of t) ≡ None) }
    ensures refused { IfErr result (λ stop. IfRefused stop (λ fault. source_fault (source_of tree) ≡ Some fault)) }
{
    judge_resolution(alloc, tree.head)?;
    let resolution = resolution_of(tree.head);
    judge_ticks(alloc, tree, resolution)
}
