//! What is found out of all objects before they are judged.
ghost use Rattle.std.specs.Prelude.{IfOk};
ghost use Rattle.design_rules.specs.Formed.{AreFormed};
ghost use Rattle.binding.specs.Known.{IsKnown};

use super::ends::all_ends;
use super::leading::{Leading, all_leading};
use super::links::{by_left, by_right};
use super::order::order_of;
use super::rows::Rows;
use design_rules::flat_design_api::{Binding, Objects};
use std::alloc::{AllocError, Global};

/// What is found out of all objects before they are judged.
#[derive(Drop)]
pub(crate) struct Known {
    /// The bindings of each object, as their left end.
    pub from: Rows<Binding>,
    /// The objects in an order in which what an object is bound to stands before it.
    pub order: Vec<u32>,
    /// Where each object leads, as far as it is kept.
    pub ends: Rows<u32>,
    /// How many initiators lead to each object.
    pub leading: Vec<Leading>,
}

pub(crate) fn find_out(alloc: Global, objects: &Objects) -> Result<Known, AllocError>
    requires { AreFormed objects.now }
    ensures { IfOk result (λ known. IsKnown objects.now known) }
{
    let from = by_left(alloc, objects)?;
    let to = by_right(alloc, objects)?;
    let order = order_of(alloc, objects)?;
    let ends = all_ends(alloc, objects, &from, order.as_slice())?;
    let leading = all_leading(alloc, objects, &to, order.as_slice())?;
    Ok(Known {
        from,
        order,
        ends,
        leading,
    })
}
