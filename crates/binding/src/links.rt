//! The bindings of each left end, and those of each right end.
ghost use Rattle.std.specs.Prelude.{IfOk};
ghost use Rattle.design_rules.specs.Objects.{bindings_of, bindings_to};
ghost use Rattle.design_rules.specs.Formed.{AreFormed};
ghost use Rattle.binding.specs.Rows.{AreRows};

use super::rows::Rows;
use design_rules::flat_design_api::{Binding, Objects};
use std::alloc::{AllocError, Global};

/// The bindings of each left end, in text order.
pub(crate) fn by_left(alloc: Global, objects: &Objects) -> Result<Rows<Binding>, AllocError>
    requires { AreFormed objects.now }
    ensures { IfOk result (λ rows. AreRows (bindings_of objects.now) rows) }
{
    let mut rows = Rows::empty(alloc, objects.list.as_slice().len())?;
    for b in objects.binds.as_slice() {
        rows.add(b.left, *b)?;
    }
    Ok(rows)
}

/// The bindings to each right end, in text order.
pub(crate) fn by_right(alloc: Global, objects: &Objects) -> Result<Rows<Binding>, AllocError>
    requires { AreFormed objects.now }
    ensures { IfOk result (λ rows. AreRows (bindings_to objects.now) rows) }
{
    let mut rows = Rows::empty(alloc, objects.list.as_slice().len())?;
    for b in objects.binds.as_slice() {
        rows.add(b.right, *b)?;
    }
    Ok(rows)
}
