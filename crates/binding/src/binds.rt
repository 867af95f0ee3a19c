ghost use Rattle.std.specs.Prelude.{◌≡◌, ◌++◌, Some, None, IfOk, IfErr, OnOk};
ghost use Rattle.design_rules.specs.ModelTree.Stops.{IfRefused};
ghost use Rattle.design_rules.specs.Formed.{AreFormed};
ghost use Rattle.design_rules.specs.Paths.{begins_path};
ghost use Rattle.design_rules.specs.Bound.{is_port, ports_from, hop_if, hops_from, bound};
ghost use Rattle.design_rules.specs.BindingFaults.{first_fault, objects_fault};
ghost use Rattle.binding.specs.Known.{IsKnown};

use super::forms::{begins_path, is_port};
use super::judge::{judge_bindings, judge_objects};
use super::known::{Known, find_out};
use design_rules::flat_design_api::{ObjectForm, Objects};
use design_rules::logic_values_api::Items;
use design_rules::model_tree_api::CheckStop;
use design_rules::{Bindings, BoundPort, Joined};
use std::alloc::{AllocError, Global};

/// A port with these channels.
fn bound_port(alloc: Global, i: u32, channels: &[u32]) -> Result<BoundPort, AllocError>
    ensures { IfOk result (λ port. port ≡ record { object = i; channels = channels.now }) }
{
    Ok(BoundPort {
        object: i,
        channels: Items::from_vec(Vec::from_slice(alloc, channels)?),
    })
}

/// Each port with its channels, where no object has a fault.
fn ports(alloc: Global, objects: &Objects, known: &Known) -> Result<Items<BoundPort>, AllocError>
    requires formed { AreFormed objects.now }
    requires known { IsKnown objects.now known.now }
    requires judged { objects_fault objects.now 0 objects.now.list ≡ None }
    ensures { IfOk result (λ ports. ports ≡ ports_from objects.now 0 objects.now.list) }
{
    let mut ports = Items::new(alloc);
    for (i, object) in objects.list.as_slice().iter().enumerate() {
        if is_port(object.form) {
            ports.push(bound_port(alloc, i as u32, known.ends.row(i as u32))?)?;
        }
    }
    Ok(ports)
}

/// Adds what an object that leads to targets joins.
fn add_hop(
    objects: &Objects,
    known: &Known,
    i: u32,
    form: ObjectForm,
    hops: &mut Items<Joined>,
) -> Result<(), AllocError>
    requires { IsKnown objects.now known.now }
    ensures { OnOk result (hops.new ≡ hops.old ++ hop_if objects.now i (begins_path form)) }
{
    if !begins_path(form) {
        return Ok(());
    }
    if let Some(target) = known.ends.row(i).first() {
        hops.push(Joined {
            initiator: i,
            target: *target,
        })?;
    }
    Ok(())
}

/// What each hop joins.
fn hops(alloc: Global, objects: &Objects, known: &Known) -> Result<Items<Joined>, AllocError>
    requires formed { AreFormed objects.now }
    requires known { IsKnown objects.now known.now }
    ensures { IfOk result (λ hops. hops ≡ hops_from objects.now 0 objects.now.list) }
{
    let mut hops = Items::new(alloc);
    for (i, object) in objects.list.as_slice().iter().enumerate() {
        add_hop(objects, known, i as u32, object.form, &mut hops)?;
    }
    Ok(hops)
}

/// What the bindings give, where no object has a fault.
fn bound(alloc: Global, objects: &Objects, known: &Known) -> Result<Bindings, AllocError>
    requires formed { AreFormed objects.now }
    requires known { IsKnown objects.now known.now }
    requires judged { objects_fault objects.now 0 objects.now.list ≡ None }
    ensures { IfOk result (λ bindings. bindings ≡ bound objects.now) }
{
    let ports = ports(alloc, objects, known)?;
    let hops = hops(alloc, objects, known)?;
    Ok(Bindings { ports, hops })
}

/// The channels of each port, and what each hop joins.
///
/// The objects are those of a tree that breaks none of the rules on its modules.
///
/// Refused has the first fault. First each binding is judged, in object order: KindDiffers, where the right end does not
/// fit the left one, at the line of the binding and with the path of its left end. Then each port, export and socket is
/// judged, in object order, at the line of its declaration and with its path: DoubleBound, where an export, an initiator
/// or a target with `pass` has two bindings, two initiators lead to a target, or a port has a channel twice; else TooMany,
/// where a port has more channels than its size; and else Unbound, where a port has no channel and is not marked `zero`,
/// or fewer than its size and is marked `all_bound`, where an export, an initiator or a target with `pass` has no
/// binding, or no initiator leads to another target.
///
/// It takes no longer for ports that share their channels: those of each object are found once, from what it is bound to.
pub fn bind(alloc: Global, objects: &Objects) -> Result<Bindings, CheckStop>
    requires { AreFormed objects.now }
    ensures accepted { IfOk result (λ _. first_fault objects.now ≡ None) }
    ensures bound { IfOk result (λ bindings. bindings ≡ bound objects.now) }
    ensures refused { IfErr result (λ stop. IfRefused stop (λ fault. first_fault objects.now ≡ Some fault)) }
{
    match judge_bindings(alloc, objects) {
        Ok(()) => {}
        Err(stop) => return Err(stop),
    }
    let Ok(known) = find_out(alloc, objects) else {
        return Err(CheckStop::NoMemory);
    };
    match judge_objects(alloc, objects, &known) {
        Ok(()) => {}
        Err(stop) => return Err(stop),
    }
    match bound(alloc, objects, &known) {
        Ok(bindings) => Ok(bindings),
        Err(_) => Err(CheckStop::NoMemory),
    }
}
