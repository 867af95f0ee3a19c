ghost use Rattle.std.specs.Prelude.{◌≡◌, option_map, find, length, OnOk, OnErr, Option};
ghost use Rattle.model_rules.specs.Scopes.{is_local};
ghost use Rattle.check_names.specs.LocalNames.{no_locals, with_name, left_at, local_of};

use super::lists::item_at;
use super::name_table::NameTable;
use super::types::variable_type;
use model_rules::flat_design_api::ValueType;
use model_rules::model_tree_api::VarType;
use std::alloc::{AllocError, Global};
use std::marker::Model;

/// A parameter or a local variable that is visible.
#[derive(Clone, Copy)]
pub struct Visible<'a> {
    /// Its name.
    pub name: &'a [u8],
    /// Its number in its body.
    pub number: u32,
    /// The type of its values; none where its width is out of range.
    pub value_type: Option<ValueType>,
    /// How many different names were visible before it.
    named: usize,
}

/// The parameters and local variables that are visible at a place of a body. A look-up takes the same time however many
/// there are; a block's own are left behind it.
#[derive(Drop)]
pub struct Locals<'a> {
    visible: Vec<Visible<'a>>,
    table: NameTable<'a>,
    count: u32,
}

impl<'a> Model for Locals<'a> {
    ghost use Rattle.check_names.specs.LocalNames.{LocalNames, AreKept, local_of};
    ghost use Rattle.std.specs.Prelude.{map};

    ghost Value = { LocalNames };

    ghost view = { λ l. record { visible = map local_of l.visible.items; count = l.count } };

    ghost invariant = { λ l. AreKept l.visible.items l.table };
}

impl<'a> Locals<'a> {
    /// None are visible.
    pub fn new(alloc: Global) -> Locals<'a>
        ensures { result ≡ no_locals }
    {
        Locals {
            visible: Vec::new(alloc),
            table: NameTable::new(alloc),
            count: 0,
        }
    }

    /// The first that is visible under a name.
    pub fn find(&self, name: &[u8]) -> Option<Visible<'a>>
        ensures { option_map local_of result ≡ find (is_local name.now) self.now.visible }
    {
        match self.table.find(name) {
            None => None,
            Some(number) => item_at(self.visible.as_slice(), number),
        }
    }

    /// How many are visible.
    pub fn mark(&self) -> usize
        ensures { result ≡ length self.now.visible }
    {
        self.visible.len()
    }

    /// How many were declared.
    pub fn count(&self) -> u32
        ensures { result ≡ self.now.count }
    {
        self.count
    }

    /// Declares one more. More than 32 bits can count are answered as out of memory, and nothing has changed then.
    pub fn declare(&mut self, name: &'a [u8], var_type: VarType) -> Result<(), AllocError>
        ensures declared { OnOk result (self.new ≡ with_name self.old name.now var_type) }
        ensures err { OnErr result (self.new ≡ self.old) }
    {
        let number = self.count;
        let next = match number.checked_add(1) {
            Some(next) => next,
            None => return Err(AllocError),
        };
        let named = self.table.len();
        let at = self.visible.len();
        self.visible.push(Visible {
            name,
            number,
            value_type: variable_type(var_type),
            named,
        })?;
        match self.table.declare(name, at) {
            Ok(()) => {
                self.count = next;
                Ok(())
            }
            Err(refused) => {
                self.visible.truncate(at);
                Err(refused)
            }
        }
    }

    /// Only the first so many stay visible.
    pub fn leave(&mut self, mark: usize)
        ensures { self.new ≡ left_at mark self.old }
    {
        if mark < self.visible.len() {
            let named = self.visible[mark].named;
            self.table.truncate(named);
            self.visible.truncate(mark);
        }
    }
}
