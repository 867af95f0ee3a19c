//! The objects of a tree, and what their bindings give.
ghost use Rattle.std.specs.Prelude.{◌≡◌, Some, None, IfOk, OnOk, IfErr};
ghost use Rattle.model_tree.specs.WholeTree.{model_of};
ghost use Rattle.model_tree.specs.Stops.{IfRefused};
ghost use Rattle.model_check.specs.ModelRules.Passes.{first_fault};
ghost use Rattle.binding.specs.DesignRules.Listing.{objects_of};
ghost use Rattle.binding.specs.DesignRules.Bound.{bound};
ghost use Rattle.elaborate.specs.Elaborated.{elaboration_fault};

use super::objects::objects_of_tree;
use binding::bind;
use binding::design_rules_api::Bindings;
use flat_design::Objects;
use laws_design::models_are_formed;
use model_tree::{CheckStop, Tree};
use std::alloc::Global;

/// The objects of a tree, and what their bindings give.
#[derive(Drop)]
pub struct BoundObjects {
    /// The objects in object order, and the bindings between them.
    pub objects: Objects,
    /// The channels of each port, and what each hop joins.
    pub bindings: Bindings,
}

/// The objects of a tree that breaks no rule on single modules, and what their bindings give.
///
/// Refused is exactly the first fault of the whole: a module that has itself among its instances, at any depth
/// (ModuleCycle); else too many objects or bytes of memories (TooManyObjects); else the first fault of a binding
/// (KindDiffers), and else that of a port, an export or a socket (DoubleBound, TooMany, Unbound).
pub fn bound_objects(alloc: Global, tree: &Tree) -> Result<BoundObjects, CheckStop>
    requires rules { first_fault (model_of tree.now) ≡ None }
    ensures accepted { OnOk result (elaboration_fault (model_of tree.now) ≡ None) }
    ensures objects { IfOk result (λ found. found.objects ≡ objects_of (model_of tree.now)) }
    ensures bindings { IfOk result (λ found. found.bindings ≡ bound (objects_of (model_of tree.now))) }
    ensures refused { IfErr result (λ stop. IfRefused stop (λ fault. elaboration_fault (model_of tree.now) ≡ Some fault)) }
{
    let objects = match objects_of_tree(alloc, tree) {
        Ok(objects) => objects,
        Err(stop) => return Err(stop),
    };
    models_are_formed();
    match bind(alloc, &objects) {
        Ok(bindings) => Ok(BoundObjects { objects, bindings }),
        Err(stop) => Err(stop),
    }
}
