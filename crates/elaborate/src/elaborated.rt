//! The flat design of a tree.
ghost use Rattle.std.specs.Prelude.{◌≡◌, Some, None, IfOk, OnOk, IfErr};
ghost use Rattle.model_tree.specs.WholeTree.{model_of};
ghost use Rattle.model_tree.specs.Stops.{IfRefused};
ghost use Rattle.model_check.specs.ModelRules.Passes.{first_fault};
ghost use Rattle.model_check.specs.CodeRules.Bodies.{IsCodeOf};
ghost use Rattle.binding.specs.DesignRules.Designs.{IsDesignOf};
ghost use Rattle.binding.specs.DesignRules.Listing.{objects_of};
ghost use Rattle.binding.specs.DesignRules.Bound.{bound};
ghost use Rattle.elaborate.specs.Elaborated.{elaboration_fault};

use super::bound::{BoundObjects, bound_objects};
use super::exceptions::exceptions;
use elaborate_design::design_of;
use flat_design::{Code, Design};
use model_tree::{CheckStop, Tree};
use std::alloc::{AllocError, Global};

/// The design of a tree from its objects, what their bindings give, and its code.
fn design(alloc: Global, tree: &Tree, found: BoundObjects, code: Code) -> Result<Design, AllocError>
    requires objects { found.objects ≡ objects_of (model_of tree.now) }
    requires bindings { found.bindings ≡ bound found.objects }
    requires code { IsCodeOf (model_of tree.now) code }
    ensures design { IfOk result (λ design. IsDesignOf (model_of tree.now) design) }
    ensures code { IfOk result (λ design. design.code ≡ code) }
    ensures resolution { IfOk result (λ design. design.resolution.power ≡ 3) }
{
    let BoundObjects { objects, bindings } = found;
    let exceptions = exceptions(alloc, tree)?;
    design_of(alloc, tree, objects, bindings, exceptions, code)
}

/// The flat design of a tree that breaks no rule on single modules, with this code, which is taken as it is: it reads back as
/// the bodies of the tree.
///
/// Refused is exactly the first fault of the whole: a module that has itself among its instances, at any depth
/// (ModuleCycle); else too many objects or bytes of memories (TooManyObjects); else the first fault of a binding
/// (KindDiffers), and else that of a port, an export or a socket (DoubleBound, TooMany, Unbound).
///
/// Its resolution is a picosecond, whatever the text asks for. Out of memory is also answered where a number of the design does not fit 32 bits.
pub fn elaborate(alloc: Global, tree: &Tree, code: Code) -> Result<Design, CheckStop>
    requires rules { first_fault (model_of tree.now) ≡ None }
    requires code { IsCodeOf (model_of tree.now) code }
    ensures accepted { OnOk result (elaboration_fault (model_of tree.now) ≡ None) }
    ensures design { IfOk result (λ design. IsDesignOf (model_of tree.now) design) }
    ensures code { IfOk result (λ design. design.code ≡ code) }
    ensures resolution { IfOk result (λ design. design.resolution.power ≡ 3) }
    ensures refused { IfErr result (λ stop. IfRefused stop (λ fault. elaboration_fault (model_of tree.now) ≡ Some fault)) }
{
    let found = match bound_objects(alloc, tree) {
        Ok(found) => found,
        Err(stop) => return Err(stop),
    };
    match design(alloc, tree, found, code) {
        Ok(design) => Ok(design),
        Err(_) => Err(CheckStop::NoMemory),
    }
}
