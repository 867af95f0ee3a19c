//! Lists under numbers.
ghost use Rattle.std.specs.Prelude.{◌≡◌, ◌<◌, ◌++◌, ◌∷◌, [], List, length, replicate, slice_set, IfOk, OnOk};
ghost use Rattle.binding.specs.Rows.{row_at};

use design_rules::logic_values_api::Items;
use std::alloc::{AllocError, Global};
use std::marker::Model;

/// Lists under the numbers from 0 on. Contracts see the list of them.
#[derive(Drop)]
pub(crate) struct Rows<T> {
    rows: Vec<Items<T>>,
}

impl<T> Model for Rows<T> {
    ghost Value = { List (List T) };

    ghost view = { λ r. r.rows.items };
}

impl<T: Copy> Rows<T> {
    /// So many empty lists.
    pub fn empty(alloc: Global, count: usize) -> Result<Self, AllocError>
        ensures { IfOk result (λ r. r ≡ replicate count []) }
    {
        let mut rows = Vec::new(alloc);
        for _ in 0..count {
            rows.push(Items::new(alloc))?;
        }
        Ok(Rows { rows })
    }

    /// The list under a number.
    pub fn row(&self, i: u32) -> &[T]
        ensures { result.now ≡ row_at self.now i }
    {
        match self.rows.get(i as usize) {
            Some(row) => row.as_slice(),
            None => &[],
        }
    }

    /// Adds a value at the end of the list under a number.
    pub fn add(&mut self, i: u32, value: T) -> Result<(), AllocError>
        requires { i < length self.old }
        ensures { OnOk result (self.new ≡ slice_set self.old i (row_at self.old i ++ value ∷ [])) }
    {
        match self.rows[i as usize].push(value) {
            Ok(()) => Ok(()),
            Err(_) => Err(AllocError),
        }
    }

    /// Puts a list under a number in place of the one there.
    pub fn put(&mut self, i: u32, row: Items<T>)
        requires { i < length self.old }
        ensures { self.new ≡ slice_set self.old i row }
    {
        self.rows[i as usize] = row;
    }
}
