//! The first node of the list of each event, and of the list of the free nodes.
ghost use Rattle.std.specs.Prelude.{◌≡◌, ◌≢◌, ℕ, ◌+◌, ◌<◌, ◌≤◌, ◌==◌, [], OnOk, if◌then◌else◌, length};
ghost use Rattle.wait_lists.specs.Chains.{none, free};
ghost use Rattle.wait_lists.specs.Nodes.{at_tag, first_of, first_in, IsHeads};

use crate::nodes::{FREE, NONE};
use room_map::RoomMap;
use std::alloc::{AllocError, Global};

// For how many codes there is a place, for each node: the numbered events of a model have small codes.
const CODES_PER_NODE: usize = 16;

// The first node of the list of each event.
#[derive(Drop)]
pub(crate) struct Firsts {
    // By its code, where that is small. `NONE` where the list is empty or begins in the map, as it does if it was begun while
    // there was no place for its code.
    pub(crate) near: Vec<u32>,
    // By the code of an event that some node stands for.
    pub(crate) far: RoomMap<u64, u32>,
}

#[derive(Drop)]
pub(crate) struct Heads {
    pub(crate) events: Firsts,
    pub(crate) free: u32,
}

// What stands at the place of this code.
#[inline(always)]
fn at_code(near: &[u32], code: u64) -> u32
    ensures { result ≡ at_tag near.now code }
{
    if code < near.len() as u64 {
        return near[code as usize];
    }
    NONE
}

// Makes places for as many codes as this.
fn lengthen(near: &mut Vec<u32>, codes: usize) -> Result<(), AllocError>
    ensures { (c : ℕ) → at_tag near.new.items c ≡ at_tag near.old.items c }
{
    near.reserve(codes.saturating_sub(near.len()))?;
    while near.len() < codes {
        near.push_reserved(NONE);
    }
    Ok(())
}

impl Heads {
    pub(crate) fn new(alloc: Global) -> Heads
        ensures near { result.events.near.items ≡ [] }
        ensures far { result.events.far.entries ≡ [] }
        ensures free { result.free ≡ none }
        ensures heads { IsHeads result.events }
    {
        Heads {
            events: Firsts {
                near: Vec::new(alloc),
                far: RoomMap::new(alloc),
            },
            free: NONE,
        }
    }

    // The first node of the list of this code.
    #[inline(always)]
    pub(crate) fn first(&self, code: u64) -> u32
        ensures { result ≡ first_in self.now.events self.now.free code }
    {
        if code == FREE {
            return self.free;
        }
        let first = at_code(self.events.near.as_slice(), code);
        if first != NONE {
            return first;
        }
        match self.events.far.get(code) {
            Some(first) => first,
            None => NONE,
        }
    }

    // Lets the list of an event begin with this node, or ends it.
    #[inline(always)]
    fn set_event(&mut self, code: u64, first: u32)
        requires heads { IsHeads self.old.events }
        requires event { 1 < code }
        requires room { first ≢ none → first_of self.old.events code ≡ none → 0 < self.old.events.far.spare }
        ensures firsts { (c : ℕ) → first_of self.new.events c ≡ (if c == code then first else first_of self.old.events c) }
        ensures heads { IsHeads self.new.events }
        ensures places { length self.new.events.far.entries + self.new.events.far.spare ≡ length self.old.events.far.entries + self.old.events.far.spare }
        ensures free { self.new.free ≡ self.old.free }
    {
        if code < self.events.near.len() as u64 {
            self.events.near[code as usize] = first;
            self.events.far.remove(code);
        } else if first == NONE {
            self.events.far.remove(code);
        } else if self.events.far.contains(code) {
            self.events.far.replace(code, first);
        } else {
            self.events.far.insert(code, first);
        }
    }

    // Lets the list of this code begin with this node.
    #[inline(always)]
    pub(crate) fn set_first(&mut self, code: u64, first: u32)
        requires heads { IsHeads self.old.events }
        requires code { 0 < code }
        requires room { code ≢ free → first ≢ none → first_in self.old.events self.old.free code ≡ none → 0 < self.old.events.far.spare }
        ensures firsts { (c : ℕ) → first_in self.new.events self.new.free c ≡ (if c == code then first else first_in self.old.events self.old.free c) }
        ensures heads { IsHeads self.new.events }
        ensures places { length self.new.events.far.entries + self.new.events.far.spare ≡ length self.old.events.far.entries + self.old.events.far.spare }
    {
        if code == FREE {
            self.free = first;
        } else {
            self.set_event(code, first);
        }
    }

    // Makes room for as many lists as there are nodes.
    pub(crate) fn reserve(&mut self, nodes: u32) -> Result<(), AllocError>
        ensures ok { OnOk result (nodes ≤ length self.new.events.far.entries + self.new.events.far.spare) }
        ensures grows { self.old.events.far.spare ≤ self.new.events.far.spare }
        ensures kept { self.new.events.far.entries ≡ self.old.events.far.entries }
        ensures near { (c : ℕ) → at_tag self.new.events.near.items c ≡ at_tag self.old.events.near.items c }
        ensures free { self.new.free ≡ self.old.free }
    {
        lengthen(&mut self.events.near, CODES_PER_NODE * nodes as usize)?;
        self.events
            .far
            .reserve(nodes.saturating_sub(self.events.far.len()))
    }
}
