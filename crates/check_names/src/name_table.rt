ghost use Rattle.std.specs.Prelude.{◌≡◌, ℕ, List, [], map, take, length, OnOk, OnErr};
ghost use Rattle.model_rules.specs.Members.{entry};
ghost use Rattle.check_names.specs.Tables as spec;

use indexmap::IndexMap;
use std::alloc::{AllocError, Global};
use std::marker::Model;

/// Numbers under names. The first number that a name was given stays. A look-up takes the same time however many names
/// there are.
#[derive(Drop)]
pub struct NameTable<'a> {
    numbers: IndexMap<&'a [u8], usize>,
}

impl<'a> Model for NameTable<'a> {
    ghost use Rattle.std.specs.Prelude.{List, ℕ, map};

    ghost Value = { List (List ℕ × ℕ) };

    ghost view = { λ t. map (λ e. (e.0.now, e.1)) t.numbers.entries };
}

impl<'a> NameTable<'a> {
    /// A table without names.
    pub fn new(alloc: Global) -> NameTable<'a>
        ensures { result ≡ [] }
    {
        NameTable {
            numbers: IndexMap::new(alloc),
        }
    }

    /// The number under a name.
    pub fn find(&self, name: &[u8]) -> Option<usize>
        ensures { result ≡ entry name.now self.now }
    {
        self.numbers.get(name).copied()
    }

    /// How many names have a number.
    pub fn len(&self) -> usize
        ensures { result ≡ length self.now }
    {
        self.numbers.len()
    }

    /// Puts a number under a name, where it has none yet.
    pub fn declare(&mut self, name: &'a [u8], number: usize) -> Result<(), AllocError>
        ensures declared { OnOk result (self.new ≡ spec.with_first self.old name.now number) }
        ensures err { OnErr result (self.new ≡ self.old) }
    {
        if self.numbers.contains_key(name) {
            return Ok(());
        }
        self.numbers.insert(name, number)?;
        Ok(())
    }

    /// Takes out all names but the first so many.
    pub fn truncate(&mut self, count: usize)
        ensures { self.new ≡ take count self.old }
    {
        self.numbers.truncate(count);
    }
}
