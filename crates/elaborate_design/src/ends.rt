//! The ends of bindings, by their numbers among the objects.
ghost use Rattle.std.specs.Prelude.{◌≡◌, ◌<◌, drop, length, IfOk};
ghost use Rattle.elaborate_objects.specs.DesignRules.Listing as spec;
ghost use Rattle.elaborate_objects.specs.Parents.{AreInside};
ghost use Rattle.elaborate_design.specs.Children.{child_in};
ghost use Rattle.elaborate_design.specs.Listed.{AreListed};

use crate::Children;
use elaborate_objects::flat_design_api::Binding;
use elaborate_objects::model_tree_api::End;
use std::alloc::AllocError;

/// A number in 32 bits. Out of memory is answered where it does not fit.
fn number(i: usize) -> Result<u32, AllocError>
    ensures { IfOk result (λ n. n ≡ i) }
{
    match u32::try_from(i) {
        Ok(n) => Ok(n),
        Err(_) => Err(AllocError),
    }
}

/// The number of the first object of this name in the instance of this number.
fn found(children: &Children<'_>, instance: u32, name: &[u8]) -> Option<usize>
    requires { AreInside children.now }
    ensures { result ≡ child_in children.now instance name.now }
{
    if (instance as usize) < children.len() {
        children.find(instance, name)
    } else {
        None
    }
}

/// The same; the number of objects where there is none.
pub(crate) fn child(children: &Children<'_>, instance: u32, name: &[u8]) -> Result<u32, AllocError>
    requires { AreListed children.now }
    ensures { IfOk result (λ n. n ≡ spec.child (drop 1 children.now) instance name.now) }
{
    match found(children, instance, name) {
        Some(i) => number(i),
        None => number(children.len()),
    }
}

/// What an end names in the instance of this number.
fn end_of(children: &Children<'_>, instance: u32, end: &End) -> Result<u32, AllocError>
    requires { AreListed children.now }
    ensures { IfOk result (λ n. n ≡ spec.end_of (drop 1 children.now) instance end.now) }
{
    let own = child(children, instance, end.name.bytes())?;
    match &end.member {
        None => Ok(own),
        Some(member) => child(children, own, member.bytes()),
    }
}

/// A binding in the instance of this number.
pub(crate) fn binding(
    children: &Children<'_>,
    instance: u32,
    line: u32,
    left: &End,
    right: &End,
) -> Result<Binding, AllocError>
    requires { AreListed children.now }
    ensures { IfOk result (λ b. b ≡ record { line = line; instance = instance; left = spec.end_of (drop 1 children.now) instance left.now; right = spec.end_of (drop 1 children.now) instance right.now }) }
{
    let left = end_of(children, instance, left)?;
    let right = end_of(children, instance, right)?;
    Ok(Binding {
        line,
        instance,
        left,
        right,
    })
}
