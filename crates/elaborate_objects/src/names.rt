//! Names in order.
ghost use Rattle.std.specs.Prelude.{◌≡◌, ◌++◌, ◌∷◌, [], length, OnOk};
ghost use Rattle.check_names.specs.Tables.{place_in};

use check_names::NameTable;
use std::alloc::{AllocError, Global};
use std::marker::Model;

/// Names in order, with their places. Contracts see the list of them.
#[derive(Drop)]
pub struct NamePlaces<'a> {
    names: Vec<&'a [u8]>,
    table: NameTable<'a>,
}

impl<'a> Model for NamePlaces<'a> {
    ghost use Rattle.std.specs.Prelude.{List, ℕ, map};
    ghost use Rattle.elaborate_objects.specs.Places.{ArePlaces};

    ghost Value = { List (List ℕ) };

    ghost view = { λ p. map (λ n. n.now) p.names.items };

    ghost invariant = { λ p. ArePlaces (map (λ n. n.now) p.names.items) p.table };
}

impl<'a> NamePlaces<'a> {
    /// No names.
    pub fn new(alloc: Global) -> NamePlaces<'a>
        ensures { result ≡ [] }
    {
        NamePlaces {
            names: Vec::new(alloc),
            table: NameTable::new(alloc),
        }
    }

    /// How many names there are.
    pub fn len(&self) -> usize
        ensures { result ≡ length self.now }
    {
        self.names.len()
    }

    /// The place of the first name that is equal to this one, counted from 0.
    pub fn find(&self, name: &[u8]) -> Option<usize>
        ensures { result ≡ place_in self.now name.now }
    {
        self.table.find(name)
    }

    /// Puts a name behind the others.
    pub fn push(&mut self, name: &'a [u8]) -> Result<(), AllocError>
        ensures { OnOk result (self.new ≡ self.old ++ name.now ∷ []) }
    {
        let at = self.names.len();
        self.names.push(name)?;
        match self.table.declare(name, at) {
            Ok(()) => Ok(()),
            Err(refused) => {
                self.names.truncate(at);
                Err(refused)
            }
        }
    }
}
