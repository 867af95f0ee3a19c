ghost use Rattle.std.specs.Prelude.{◌≡◌, ◌++◌, ◌∷◌, [], OnOk, length, map};
ghost use Rattle.code_terms.specs.Names as spec;

use check_expressions::check_names_api::NameTable;
use std::alloc::{AllocError, Global};
use std::marker::Model;

/// Names in order. A name is found at its first place, in the same time however many there are.
#[derive(Drop)]
pub struct NameList<'a> {
    names: Vec<&'a [u8]>,
    places: NameTable<'a>,
}

impl<'a> Model for NameList<'a> {
    ghost use Rattle.std.specs.Prelude.{List, ℕ, map};
    ghost use Rattle.code_terms.specs.Names.{ArePlaced};

    ghost Value = { List (List ℕ) };

    ghost view = { λ l. map (λ n. n.now) l.names.items };

    ghost invariant = { λ l. ArePlaced (map (λ n. n.now) l.names.items) l.places };
}

impl<'a> NameList<'a> {
    /// No names.
    pub fn new(alloc: Global) -> NameList<'a>
        ensures { result ≡ [] }
    {
        NameList {
            names: Vec::new(alloc),
            places: NameTable::new(alloc),
        }
    }

    /// The first place of a name.
    pub fn find(&self, name: &[u8]) -> Option<usize>
        ensures { result ≡ spec.place_of self.now name.now }
    {
        self.places.find(name)
    }

    /// The names, in order.
    pub fn as_slice(&self) -> &[&'a [u8]]
        ensures { map (λ name. name.now) result.now ≡ self.now }
    {
        self.names.as_slice()
    }

    /// How many names there are.
    pub fn len(&self) -> usize
        ensures { result ≡ length self.now }
    {
        self.names.len()
    }

    /// Puts a name behind the others.
    pub fn push(&mut self, name: &'a [u8]) -> Result<(), AllocError>
        ensures { OnOk result (self.new ≡ self.old ++ name.now ∷ []) }
    {
        let at = self.names.len();
        self.names.push(name)?;
        match self.places.declare(name, at) {
            Ok(()) => Ok(()),
            Err(refused) => {
                self.names.truncate(at);
                Err(refused)
            }
        }
    }

    /// Puts a name behind the others, where it is not among them.
    pub fn push_once(&mut self, name: &'a [u8]) -> Result<(), AllocError>
        ensures { OnOk result (self.new ≡ spec.with_once self.old name.now) }
    {
        if self.find(name).is_some() {
            return Ok(());
        }
        self.push(name)
    }
}
