//! Values in order, in memory of their own: the one list type behind texts, bytes, lines and choices.
ghost use Rattle.std.specs.Prelude.{◌≡◌, ◌<◌, ℕ, List, [], ◌∷◌, ◌++◌, OnOk, OnErr, IfErr, length, slice_set};

use std::alloc::{AllocError, AllocFailed, Global};
use std::marker::Model;

/// Values in order, in memory of their own. Contracts see the list of them.
#[derive(Drop)]
pub struct Items<T> {
    items: Vec<T>,
}

/// Bytes in order.
pub type Bytes = Items<u8>;

impl<T> Model for Items<T> {
    ghost Value = { List T };

    ghost view = { λ a. a.items.items };
}

impl<T> Items<T> {
    /// No values yet. It takes no memory.
    pub fn new(alloc: Global) -> Self
        ensures { result ≡ [] }
    {
        Items {
            items: Vec::new(alloc),
        }
    }

    /// These values, in the memory that they stand in.
    pub fn from_vec(items: Vec<T>) -> Self
        ensures { result ≡ items.items }
    {
        Items { items }
    }

    /// Adds a value at the end. Where memory is refused nothing changes and the value is handed back.
    pub fn push(&mut self, value: T) -> Result<(), AllocFailed<T>>
        ensures ok { OnOk result (self.new ≡ self.old ++ value ∷ []) }
        ensures err { OnErr result (self.new ≡ self.old) }
        ensures back { IfErr result (λ e. e.value ≡ value) }
    {
        self.items.push(value)
    }

    /// The values.
    pub fn as_slice(&self) -> &[T]
        ensures { result.now ≡ self.now }
    {
        self.items.as_slice()
    }

    /// The values, with the memory that they stand in.
    pub fn into_vec(self) -> Vec<T>
        ensures { result.items ≡ self }
    {
        let Items { items } = self;
        items
    }
}

impl<T: Copy> Items<T> {
    /// Another value at place `i`, counted from 0.
    pub fn set(&mut self, i: usize, value: T)
        requires { i < length self.old }
        ensures { self.new ≡ slice_set self.old i value }
    {
        self.items[i] = value;
    }
}

impl Clone for Items<u8> {
    ghost is_clone = { λ s t. t ≡ s };

    fn clone(&self) -> Result<Items<u8>, AllocError> {
        let items = self.items.clone()?;
        Ok(Items { items })
    }
}
