//! A table for each object: under each name the number of the first object of that name in it.
ghost use Rattle.std.specs.Prelude.{◌≡◌, ◌<◌, [], length, replicate, slice_set, IfOk, OnOk};
ghost use Rattle.elaborate_objects.specs.CheckNames.Tables.{with_first};
ghost use Rattle.elaborate_design.specs.Children.{AreNamed, table_at, with_child};

use elaborate_objects::check_names_api::NameTable;
use elaborate_objects::flat_design_api::Object;
use std::alloc::{AllocError, Global};

/// So many tables without names.
fn no_names<'a>(alloc: Global, count: usize) -> Result<Vec<NameTable<'a>>, AllocError>
    ensures { IfOk result (λ tables. tables.items ≡ replicate count []) }
{
    let mut tables = Vec::new(alloc);
    for _ in 0..count {
        tables.push(NameTable::new(alloc))?;
    }
    Ok(tables)
}

/// Puts the number of an object into the table of its instance, under its name.
fn declare_at<'a>(
    tables: &mut Vec<NameTable<'a>>,
    instance: u32,
    name: &'a [u8],
    i: usize,
) -> Result<(), AllocError>
    requires { instance < length tables.old.items }
    ensures { OnOk result (tables.new.items ≡ slice_set tables.old.items instance (with_first (table_at tables.old.items instance) name.now i)) }
{
    match tables[instance as usize].declare(name, i) {
        Ok(()) => Ok(()),
        Err(_) => Err(AllocError),
    }
}

/// The same, where the instance has a table.
fn add_child<'a>(
    tables: &mut Vec<NameTable<'a>>,
    instance: u32,
    name: &'a [u8],
    i: usize,
) -> Result<(), AllocError>
    ensures { OnOk result (tables.new.items ≡ with_child tables.old.items instance name.now i) }
{
    if (instance as usize) < tables.len() {
        declare_at(tables, instance, name, i)
    } else {
        Ok(())
    }
}

/// The objects of each instance, by their names.
pub(crate) fn tables_of<'a>(
    alloc: Global,
    objects: &'a [Object],
) -> Result<Vec<NameTable<'a>>, AllocError>
    ensures { IfOk result (λ tables. AreNamed objects.now tables.items) }
{
    let mut tables = no_names(alloc, objects.len())?;
    for i in 1..objects.len() {
        let object = &objects[i];
        add_child(&mut tables, object.parent, object.name.as_slice(), i)?;
    }
    Ok(tables)
}
