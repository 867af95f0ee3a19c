//! The nodes, the rings of the places, and which of them hold something.
ghost use Rattle.std.specs.Prelude.{◌≡◌, ◌+◌, ◌^◌, ◌<◌, ◌≤◌, length};
ghost use Rattle.timed_queue.specs.Nodes.{place_of, Moved, Filled};
ghost use Rattle.timed_queue.specs.Sound.{IsWheel};

use crate::chains::{
    FREE, LOOSE, Node, link, next_of, place_of, set_entry, set_next, set_place, unlink,
};
use crate::marks::Words;

#[derive(Drop)]
pub(crate) struct Wheel {
    pub(crate) nodes: Vec<Node>,
    pub(crate) marks: Words,
    // The time from which the places are counted; no entry is before it.
    pub(crate) origin: u64,
    // The node that became free last, and how many are free.
    pub(crate) free: u32,
    pub(crate) room: u32,
}

impl Wheel {
    // Takes the node out of the ring of its place.
    pub(crate) fn leave(&mut self, i: u32)
        requires sound { IsWheel self.old }
        requires within { i < length self.old.nodes.items }
        requires entry { 704 ≤ i }
        requires live { place_of self.old.nodes.items i < 704 }
        ensures sound { IsWheel self.new }
        ensures moved { Moved self.old.nodes.items self.new.nodes.items i 705 }
        ensures origin { self.new.origin ≡ self.old.origin }
        ensures room { self.new.room ≡ self.old.room }
    {
        let place = place_of(&self.nodes, i);
        unlink(&mut self.nodes, i);
        if next_of(&self.nodes, place) == place {
            self.marks.unmark(place);
        }
    }

    // Puts a node that is in no ring into that of the place.
    pub(crate) fn enter(&mut self, i: u32, place: u32)
        requires sound { IsWheel self.old }
        requires within { i < length self.old.nodes.items }
        requires entry { 704 ≤ i }
        requires loose { place_of self.old.nodes.items i ≡ 705 }
        requires low { place < 704 }
        ensures sound { IsWheel self.new }
        ensures moved { Moved self.old.nodes.items self.new.nodes.items i place }
        ensures origin { self.new.origin ≡ self.old.origin }
        ensures room { self.new.room ≡ self.old.room }
    {
        link(&mut self.nodes, i, place);
        self.marks.mark(place);
    }

    // Takes the node from its place to another.
    pub(crate) fn transfer(&mut self, i: u32, place: u32)
        requires sound { IsWheel self.old }
        requires within { i < length self.old.nodes.items }
        requires entry { 704 ≤ i }
        requires live { place_of self.old.nodes.items i < 704 }
        requires low { place < 704 }
        ensures sound { IsWheel self.new }
        ensures moved { Moved self.old.nodes.items self.new.nodes.items i place }
        ensures origin { self.new.origin ≡ self.old.origin }
        ensures room { self.new.room ≡ self.old.room }
    {
        self.leave(i);
        self.enter(i, place);
    }

    // Takes a free node.
    pub(crate) fn take_free(&mut self) -> u32
        requires sound { IsWheel self.old }
        requires some { 0 < self.old.room }
        ensures sound { IsWheel self.new }
        ensures within { result < length self.old.nodes.items }
        ensures entry { 704 ≤ result }
        ensures was { place_of self.old.nodes.items result ≡ 704 }
        ensures moved { Moved self.old.nodes.items self.new.nodes.items result 705 }
        ensures origin { self.new.origin ≡ self.old.origin }
        ensures room { self.new.room + 1 ≡ self.old.room }
    {
        let i = self.free;
        let next = next_of(&self.nodes, i);
        set_place(&mut self.nodes, i, LOOSE);
        self.free = next;
        self.room -= 1;
        i
    }

    // Makes a node that is in no ring a free one.
    pub(crate) fn give_free(&mut self, i: u32)
        requires sound { IsWheel self.old }
        requires within { i < length self.old.nodes.items }
        requires entry { 704 ≤ i }
        requires loose { place_of self.old.nodes.items i ≡ 705 }
        requires fits { self.old.room + 1 < 2 ^ 32 }
        ensures sound { IsWheel self.new }
        ensures moved { Moved self.old.nodes.items self.new.nodes.items i 704 }
        ensures origin { self.new.origin ≡ self.old.origin }
        ensures room { self.new.room ≡ self.old.room + 1 }
    {
        set_place(&mut self.nodes, i, FREE);
        set_next(&mut self.nodes, i, self.free);
        self.free = i;
        self.room += 1;
    }

    // Gives a node another name and time.
    pub(crate) fn fill(&mut self, i: u32, name: u32, time: u64)
        requires sound { IsWheel self.old }
        requires within { i < length self.old.nodes.items }
        ensures sound { IsWheel self.new }
        ensures filled { Filled self.old.nodes.items self.new.nodes.items i name time }
        ensures origin { self.new.origin ≡ self.old.origin }
        ensures room { self.new.room ≡ self.old.room }
    {
        set_entry(&mut self.nodes, i, name, time);
    }
}
