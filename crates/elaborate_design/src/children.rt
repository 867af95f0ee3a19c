//! Objects with those of each instance by their names.
ghost use Rattle.std.specs.Prelude.{◌≡◌, ◌<◌, length, IfOk};
ghost use Rattle.elaborate_design.specs.Children.{child_in};

use super::tables::tables_of;
use elaborate_objects::check_names_api::NameTable;
use elaborate_objects::flat_design_api::Object;
use std::alloc::{AllocError, Global};
use std::marker::Model;

/// The objects of a design, with those of each instance by their names. Contracts see the list of the objects.
#[derive(Drop)]
pub struct Children<'a> {
    objects: &'a [Object],
    tables: Vec<NameTable<'a>>,
}

impl<'a> Model for Children<'a> {
    ghost use Rattle.std.specs.Prelude.{List};
    ghost use Rattle.elaborate_objects.specs.FlatDesign.declared.objects.Object.{Object};
    ghost use Rattle.elaborate_design.specs.Children.{AreNamed};

    ghost Value = { List Object };

    ghost view = { λ c. c.objects.now };

    ghost invariant = { λ c. AreNamed c.objects.now c.tables.items };
}

impl<'a> Children<'a> {
    /// These objects: the top instance, and then those below it, numbered from 1 on.
    pub fn new(alloc: Global, objects: &'a [Object]) -> Result<Children<'a>, AllocError>
        ensures { IfOk result (λ children. children ≡ objects.now) }
    {
        let tables = tables_of(alloc, objects)?;
        Ok(Children { objects, tables })
    }

    /// How many objects there are.
    pub fn len(&self) -> usize
        ensures { result ≡ length self.now }
    {
        let _tables = &self.tables;
        self.objects.len()
    }

    /// The number of the first object of this name in the instance of this number.
    pub fn find(&self, instance: u32, name: &[u8]) -> Option<usize>
        requires { instance < length self.now }
        ensures { result ≡ child_in self.now instance name.now }
    {
        self.tables[instance as usize].find(name)
    }
}
