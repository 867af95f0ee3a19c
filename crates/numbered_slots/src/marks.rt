//! A mark for each number below a size, with the marked ones listed, so that who takes them looks at no others.
//!
//! The phases of a scheduler ask so for the channels with an update request and the events with a pending delta notification
//! (IEEE 1666-2011, 4.2.1.3 and 4.2.1.4).
ghost use Rattle.std.specs.Prelude.{◌≡◌, ◌+◌, ◌≤◌, ◌↔◌, ◌++◌, true, false, IsTrue, IfOk, length, replicate, count_by, slice_get, slice_set, vec_len, vec_capacity};
ghost use Rattle.std.specs.List.{list_any};
ghost use Rattle.std.specs.Option.{unwrap_or};

use crate::flags::{Flag, flag_of, free_listed, is_marked_at, move_marked, put_in_order};
use std::alloc::{AllocError, Global};
use std::marker::Model;

/// A mark for each number below a size. Contracts see, for each number, whether it is marked.
///
/// All memory is taken by `new`. `clear_all` takes time in how many numbers were marked since all marks were last taken or
/// cleared, `take_all` that times its logarithm, and any other call the same short time.
#[derive(Drop)]
pub struct Marks {
    flags: Vec<Flag>,
    // The numbers whose flag is not free, each once, in any order.
    listed: Vec<u32>,
    // How many are marked.
    marked: u32,
}

impl Model for Marks {
    ghost use Rattle.std.specs.Prelude.{Bool, List, vec_capacity};

    ghost Value = { List Bool };

    ghost use Rattle.numbered_slots.specs.MarkLayout.{marks_of, IsSound};

    ghost view = { λ m. marks_of m.flags.items };

    ghost invariant = { λ m. IsSound m.flags.items m.listed.items (vec_capacity m.listed) m.marked };
}

impl Marks {
    ghost use Rattle.numbered_slots.specs.Places.{marked_places};

    /// Marks for the numbers below `size`, none of which is marked. All memory is taken here.
    pub fn new(alloc: Global, size: u32) -> Result<Marks, AllocError>
        ensures { IfOk result (λ marks. marks ≡ replicate size false) }
    {
        let flags = vec![in alloc; Flag::Free; size as usize]?;
        let listed = Vec::with_capacity(alloc, size as usize)?;
        Ok(Marks {
            flags,
            listed,
            marked: 0,
        })
    }

    /// Whether the number is marked. One from the size on is not.
    pub fn has(&self, n: u32) -> bool
        ensures { result ≡ unwrap_or (slice_get self.now n) false }
    {
        is_marked_at(self.flags.as_slice(), n)
    }

    /// How many numbers are marked.
    pub fn len(&self) -> u32
        ensures { result ≡ count_by (λ mark. mark) self.now }
    {
        self.marked
    }

    /// Whether no number is marked.
    #[inline(always)]
    pub fn is_empty(&self) -> bool
        ensures { IsTrue result ↔ (list_any (λ mark. mark) self.now ≡ false) }
    {
        self.marked == 0
    }

    /// Marks the number. At one from the size on nothing changes.
    pub fn set(&mut self, n: u32)
        ensures { self.new ≡ slice_set self.old n true }
    {
        match flag_of(self.flags.as_slice(), n) {
            Some(Flag::Free) => {
                self.flags[n as usize] = Flag::Marked;
                self.listed.push_reserved(n);
                self.marked += 1;
            }
            Some(Flag::Struck) => {
                self.flags[n as usize] = Flag::Marked;
                self.marked += 1;
            }
            Some(Flag::Marked) => {}
            None => {}
        }
    }

    /// Takes the mark of the number back, if it has one.
    pub fn clear(&mut self, n: u32)
        ensures { self.new ≡ slice_set self.old n false }
    {
        if self.has(n) {
            self.flags[n as usize] = Flag::Struck;
            self.marked -= 1;
        }
    }

    /// Takes all marks back.
    #[inline(always)]
    pub fn clear_all(&mut self)
        ensures { self.new ≡ replicate (length self.old) false }
    {
        if self.listed.is_empty() {
            return;
        }
        self.clear_listed();
    }

    // Takes the marks of all that are listed back.
    fn clear_listed(&mut self)
        ensures { self.new ≡ replicate (length self.old) false }
    {
        free_listed(self.flags.as_mut_slice(), self.listed.as_slice());
        self.listed.clear();
        self.marked = 0;
    }

    /// Adds the marked numbers to `out`, in rising order, and takes their marks back. It takes no memory.
    #[inline(always)]
    pub fn take_all(&mut self, out: &mut Vec<u32>)
        requires { vec_len out.old + count_by (λ mark. mark) self.old ≤ vec_capacity out.old }
        ensures taken { out.new.items ≡ out.old.items ++ marked_places self.old }
        ensures capacity { vec_capacity out.new ≡ vec_capacity out.old }
        ensures left { self.new ≡ replicate (length self.old) false }
    {
        if self.listed.is_empty() {
            return;
        }
        self.take_listed(out);
    }

    // The same, of those that are listed.
    fn take_listed(&mut self, out: &mut Vec<u32>)
        requires { vec_len out.old + count_by (λ mark. mark) self.old ≤ vec_capacity out.old }
        ensures taken { out.new.items ≡ out.old.items ++ marked_places self.old }
        ensures capacity { vec_capacity out.new ≡ vec_capacity out.old }
        ensures left { self.new ≡ replicate (length self.old) false }
    {
        put_in_order(&mut self.listed);
        move_marked(self.flags.as_mut_slice(), self.listed.as_slice(), out);
        self.listed.clear();
        self.marked = 0;
    }
}
