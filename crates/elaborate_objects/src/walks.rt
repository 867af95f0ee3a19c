//! A walk along the instances of a design.
ghost use Rattle.std.specs.Prelude.{◌≡◌, IfOk};
ghost use Rattle.elaborate_objects.specs.Rows.{row_of};
ghost use Rattle.elaborate_objects.specs.Left.{object_of};

use super::frames::Frame;
use crate::ObjectRow;
use check_names::flat_design_api::Object;
use check_names::logic_values_api::{Items, Text};
use std::alloc::{AllocError, Global};

/// A walk along the instances of a design: the objects so far, and the instances that it stands in, the innermost last.
#[derive(Drop)]
pub(crate) struct Walk {
    /// The objects so far.
    pub objects: Items<Object>,
    /// The bytes of their memories together.
    pub bytes: u64,
    /// What is left of the instances.
    pub frames: Vec<Frame>,
}

/// The object that a row gives an instance.
pub(crate) fn object(alloc: Global, parent: u32, row: &ObjectRow<'_>) -> Result<Object, AllocError>
    ensures { IfOk result (λ o. o ≡ object_of parent (row_of row.now)) }
{
    let name = Vec::from_slice(alloc, row.name)?;
    Ok(Object {
        name: Text::from_vec(name),
        line: row.line,
        parent,
        form: row.form,
    })
}
