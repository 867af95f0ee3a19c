//! The first fault of the bindings and the objects of a design.
ghost use Rattle.std.specs.Prelude.{◌≡◌, Some, None, OnOk, IfErr};
ghost use Rattle.design_rules.specs.ModelTree.Stops.{IfRefused};
ghost use Rattle.design_rules.specs.Objects.{object_at};
ghost use Rattle.design_rules.specs.Formed.{AreFormed};
ghost use Rattle.design_rules.specs.BindingFaults.{object_fault, objects_fault, bindings_fault};
ghost use Rattle.binding.specs.Known.{IsKnown};

use super::fits::kind_differs;
use super::kinds::kind_at;
use super::known::Known;
use super::paths::refused;
use design_rules::flat_design_api::{Object, Objects};
use design_rules::model_tree_api::{CheckStop, Kind};
use std::alloc::Global;

/// Judges each binding, in object order.
pub(crate) fn judge_bindings(alloc: Global, objects: &Objects) -> Result<(), CheckStop>
    requires { AreFormed objects.now }
    ensures ok { OnOk result (bindings_fault objects.now objects.now.binds ≡ None) }
    ensures refused { IfErr result (λ stop. IfRefused stop (λ fault. bindings_fault objects.now objects.now.binds ≡ Some fault)) }
{
    for b in objects.binds.as_slice() {
        if kind_differs(objects, *b) {
            return Err(refused(alloc, objects, b.line, b.left, Kind::KindDiffers));
        }
    }
    Ok(())
}

/// Judges an object.
fn judge_object(
    alloc: Global,
    objects: &Objects,
    known: &Known,
    i: u32,
    object: &Object,
) -> Result<(), CheckStop>
    requires formed { AreFormed objects.now }
    requires known { IsKnown objects.now known.now }
    requires there { object_at objects.now i ≡ Some object.now }
    ensures ok { OnOk result (object_fault objects.now i object.now ≡ None) }
    ensures refused { IfErr result (λ stop. IfRefused stop (λ fault. object_fault objects.now i object.now ≡ Some fault)) }
{
    match kind_at(alloc, objects, known, i, object.form) {
        Ok(None) => Ok(()),
        Ok(Some(kind)) => Err(refused(alloc, objects, object.line, i, kind)),
        Err(_) => Err(CheckStop::NoMemory),
    }
}

/// Judges each object, in object order.
pub(crate) fn judge_objects(
    alloc: Global,
    objects: &Objects,
    known: &Known,
) -> Result<(), CheckStop>
    requires formed { AreFormed objects.now }
    requires known { IsKnown objects.now known.now }
    ensures ok { OnOk result (objects_fault objects.now 0 objects.now.list ≡ None) }
    ensures refused { IfErr result (λ stop. IfRefused stop (λ fault. objects_fault objects.now 0 objects.now.list ≡ Some fault)) }
{
    for (i, object) in objects.list.as_slice().iter().enumerate() {
        match judge_object(alloc, objects, known, i as u32, object) {
            Ok(()) => {}
            Err(stop) => return Err(stop),
        }
    }
    Ok(())
}
