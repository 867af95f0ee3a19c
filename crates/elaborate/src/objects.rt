//! The objects of a tree, with its bindings between them.
ghost use Rattle.std.specs.Prelude.{◌≡◌, Some, None, IfOk, OnOk, IfErr};
ghost use Rattle.model_tree.specs.WholeTree.{model_of};
ghost use Rattle.model_tree.specs.Stops.{IfRefused};
ghost use Rattle.binding.specs.DesignRules.Listing.{objects_of};
ghost use Rattle.binding.specs.DesignRules.ObjectFaults.{instances_fault};

use elaborate_design::elaborate_objects_api::{judge_cycles, list_objects};
use elaborate_design::list_binds;
use flat_design::Objects;
use model_tree::{CheckStop, Tree};
use std::alloc::Global;

/// The objects of a tree in object order, and its bindings between them.
///
/// Refused is a tree in which a module has itself among its instances, at any depth (ModuleCycle), and else one with too
/// many objects or bytes of memories (TooManyObjects). Nothing is asked of the tree.
///
/// Out of memory is also answered where a number of the tree does not fit its bits: a tree that breaks no rule has none such.
pub(crate) fn objects_of_tree(alloc: Global, tree: &Tree) -> Result<Objects, CheckStop>
    ensures accepted { OnOk result (instances_fault (model_of tree.now) ≡ None) }
    ensures objects { IfOk result (λ objects. objects ≡ objects_of (model_of tree.now)) }
    ensures refused { IfErr result (λ stop. IfRefused stop (λ fault. instances_fault (model_of tree.now) ≡ Some fault)) }
{
    match judge_cycles(alloc, tree) {
        Ok(()) => {}
        Err(stop) => return Err(stop),
    }
    let list = match list_objects(alloc, tree) {
        Ok(list) => list,
        Err(stop) => return Err(stop),
    };
    match list_binds(alloc, tree, list.as_slice()) {
        Ok(binds) => Ok(Objects { list, binds }),
        Err(_) => Err(CheckStop::NoMemory),
    }
}
