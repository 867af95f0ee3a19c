//! Room of a wheel for more entries.
ghost use Rattle.std.specs.Prelude.{◌≡◌, ℕ, ◌+◌, ◌^◌, ◌<◌, ◌≤◌, max, length, OnOk, OnErr, vec_len, vec_capacity};
ghost use Rattle.timed_queue.specs.Nodes.{Grown};
ghost use Rattle.timed_queue.specs.Sound.{IsWheel};

use crate::chains::{Node, PLACES, free_node, lone_head};
use crate::marks::Words;
use crate::wheel::Wheel;
use std::alloc::{AllocError, Global};

impl Wheel {
    // A wheel with no node. It takes no memory.
    pub(crate) fn new(alloc: Global) -> Wheel
        ensures sound { IsWheel result }
        ensures none { length result.nodes.items ≡ 0 }
        ensures room { result.room ≡ 0 }
    {
        Wheel {
            nodes: Vec::new(alloc),
            marks: Words::new(),
            origin: 0,
            free: 0,
            room: 0,
        }
    }

    // Makes room for at least n entries more.
    pub(crate) fn reserve(&mut self, n: u32) -> Result<(), AllocError>
        requires { IsWheel self.old }
        ensures sound { IsWheel self.new }
        ensures grown { Grown self.old.nodes.items self.new.nodes.items }
        ensures origin { self.new.origin ≡ self.old.origin }
        ensures ok { OnOk result (self.new.room ≡ max self.old.room n) }
        ensures err { OnErr result (self.new.room ≡ self.old.room) }
    {
        let more = n.saturating_sub(self.room);
        let heads = self.missing_heads();
        let nodes = self.nodes.len() as u64 + u64::from(heads) + u64::from(more);
        if nodes > u64::from(u32::MAX) {
            return Err(AllocError);
        }
        match self.nodes.reserve((heads + more) as usize) {
            Ok(()) => {
                self.grow(heads, more);
                Ok(())
            }
            Err(error) => Err(error),
        }
    }

    // The heads that are lacking, and so many free nodes more.
    fn grow(&mut self, heads: u32, more: u32)
        requires sound { IsWheel self.old }
        requires lacking { 0 < heads → (heads ≡ 704) × (length self.old.nodes.items ≡ 0) }
        requires having { heads ≡ 0 → 704 ≤ length self.old.nodes.items }
        requires few { length self.old.nodes.items + heads + more < 2 ^ 32 }
        requires fits { self.old.room + more < 2 ^ 32 }
        requires room { length self.old.nodes.items + heads + more ≤ vec_capacity self.old.nodes }
        ensures sound { IsWheel self.new }
        ensures grown { Grown self.old.nodes.items self.new.nodes.items }
        ensures origin { self.new.origin ≡ self.old.origin }
        ensures room { self.new.room ≡ self.old.room + more }
    {
        if heads == 0 {
            self.add_free(more);
            return;
        }
        self.add_heads();
        self.add_free(more);
    }

    // How many heads the places lack: all, or none.
    fn missing_heads(&self) -> u32
        requires { IsWheel self.now }
        ensures most { result ≤ 704 }
        ensures all { 0 < result → (result ≡ 704) × (length self.now.nodes.items ≡ 0) }
        ensures some { result ≡ 0 → 704 ≤ length self.now.nodes.items }
    {
        if self.nodes.is_empty() { PLACES } else { 0 }
    }

    // The heads of the rings, which hold nothing yet.
    fn add_heads(&mut self)
        requires sound { IsWheel self.old }
        requires none { length self.old.nodes.items ≡ 0 }
        requires room { 704 ≤ vec_capacity self.old.nodes }
        ensures sound { IsWheel self.new }
        ensures heads { length self.new.nodes.items ≡ 704 }
        ensures grown { Grown self.old.nodes.items self.new.nodes.items }
        ensures origin { self.new.origin ≡ self.old.origin }
        ensures room { self.new.room ≡ self.old.room }
        ensures capacity { vec_capacity self.new.nodes ≡ vec_capacity self.old.nodes }
    {
        'heads: for place in 0..PLACES {
            self.nodes.push_reserved(lone_head(place));
        }
    }

    // So many free nodes more.
    fn add_free(&mut self, more: u32)
        requires sound { IsWheel self.old }
        requires heads { 704 ≤ length self.old.nodes.items }
        requires few { length self.old.nodes.items + more < 2 ^ 32 }
        requires fits { self.old.room + more < 2 ^ 32 }
        requires room { length self.old.nodes.items + more ≤ vec_capacity self.old.nodes }
        ensures sound { IsWheel self.new }
        ensures grown { Grown self.old.nodes.items self.new.nodes.items }
        ensures origin { self.new.origin ≡ self.old.origin }
        ensures room { self.new.room ≡ self.old.room + more }
    {
        'nodes: for node in 0..more {
            self.push_free();
        }
    }

    // A free node more.
    fn push_free(&mut self)
        requires sound { IsWheel self.old }
        requires heads { 704 ≤ length self.old.nodes.items }
        requires few { length self.old.nodes.items + 1 < 2 ^ 32 }
        requires fits { self.old.room + 1 < 2 ^ 32 }
        requires room { length self.old.nodes.items < vec_capacity self.old.nodes }
        ensures sound { IsWheel self.new }
        ensures longer { length self.new.nodes.items ≡ length self.old.nodes.items + 1 }
        ensures grown { Grown self.old.nodes.items self.new.nodes.items }
        ensures origin { self.new.origin ≡ self.old.origin }
        ensures room { self.new.room ≡ self.old.room + 1 }
        ensures capacity { vec_capacity self.new.nodes ≡ vec_capacity self.old.nodes }
    {
        let i = self.nodes.len() as u32;
        self.nodes.push_reserved(free_node(self.free));
        self.free = i;
        self.room += 1;
    }
}
