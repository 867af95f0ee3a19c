//! A map in the order of its keys into which inserting takes no memory, since room was made before.
//!
//! It is a tree over one vector of nodes, whose sides are kept about equally high: a call takes time in the logarithm of the
//! number of entries, but for `reserve`, which takes time in the room that it makes.
#![tactic(auto)]

ghost use Rattle.std.specs.Prelude.{◌≡◌, ◌+◌, ◌-◌, ◌^◌, ◌<◌, ◌≤◌, [], None, is_some, IsSome, OnOk, OnErr, if◌then◌else◌, length, max, slice_get, ◌==◌};
ghost use Rattle.std.specs.FinMap as map;

mod changing;
mod finding;
mod nodes;
mod spares;
mod turns;

use changing::{set_value, unlink, with_entry};
use nodes::{NONE, Node, Spot};
use spares::{free_all, free_node, next};
use std::alloc::{AllocError, Global};
use std::marker::Model;

/// A map from keys to values, with room for some entries more.
///
/// A clause sees its `entries` in rising order of their keys, by `spare` for how many more there is room, and by `depth`
/// how many nodes a call may go down. There are less than 2^32 entries and places.
#[derive(Drop)]
pub struct RoomMap<K: Ord + Copy, V: Copy> {
    nodes: Vec<Node<K, V>>,
    root: u32,
    free: u32,
    spare: u32,
}

impl<K: Ord + Copy, V: Copy> Model for RoomMap<K, V> {
    ghost use Rattle.room_map.specs.Room.{Room};
    ghost use Rattle.room_map.specs.Shape.{entries, height};
    ghost use Rattle.room_map.specs.Layout.{tree, IsKept};

    ghost Value = { Room K V };

    ghost view = { λ m. record { entries = entries (tree m.nodes.items m.root); spare = m.spare; depth = height (tree m.nodes.items m.root) } };

    ghost invariant = { λ m. IsKept K.cmp m.nodes.items m.root m.free m.spare (tree m.nodes.items m.root) };
}

impl<K: Ord + Copy, V: Copy> RoomMap<K, V> {
    ghost use Rattle.room_map.specs.Entries.{IsRising, without, first_not_below, as_map};

    /// A map with no entry and no room. It takes no memory.
    pub fn new(alloc: Global) -> RoomMap<K, V>
        ensures empty { result.entries ≡ [] }
        ensures spare { result.spare ≡ 0 }
    {
        RoomMap {
            nodes: Vec::new(alloc),
            root: NONE,
            free: NONE,
            spare: 0,
        }
    }

    /// How many entries there are.
    #[inline(always)]
    pub fn len(&self) -> u32
        ensures len { result ≡ length self.now.entries }
        ensures rising { IsRising K.cmp self.now.entries }
        ensures few { length self.now.entries + self.now.spare < 2 ^ 32 }
        ensures shallow { 2 ^ self.now.depth ≤ (length self.now.entries + 1) ^ 2 }
    {
        nodes::len(self.nodes.as_slice(), self.root)
    }

    /// Whether there is no entry.
    #[inline(always)]
    pub fn is_empty(&self) -> bool
        ensures { result ≡ (length self.now.entries == 0) }
    {
        self.root == NONE
    }

    /// For how many entries more there is room.
    pub fn spare(&self) -> u32
        ensures { result ≡ self.now.spare }
    {
        self.spare
    }

    /// The value at the key, or `None` where there is none.
    #[inline(always)]
    pub fn get(&self, key: K) -> Option<V>
        ensures value { result ≡ map.find K.cmp key self.now.entries }
        ensures in_map { result ≡ map.get (as_map K.cmp self.now.entries) key }
    {
        if self.is_empty() {
            return None;
        }
        finding::get(self.nodes.as_slice(), self.root, key)
    }

    /// Whether there is a value at the key.
    #[inline(always)]
    pub fn contains(&self, key: K) -> bool
        ensures found { result ≡ is_some (map.find K.cmp key self.now.entries) }
        ensures in_map { result ≡ map.contains_key (as_map K.cmp self.now.entries) key }
    {
        self.get(key).is_some()
    }

    /// The entry at place `k` of the rising order, counted from 0, or `None` where there are at most `k`.
    #[inline(always)]
    pub fn kth(&self, k: u32) -> Option<(K, V)>
        ensures { result ≡ slice_get self.now.entries k }
    {
        if self.is_empty() {
            return None;
        }
        finding::kth(self.nodes.as_slice(), self.root, k)
    }

    /// The entry of the least key, or `None` where there is none.
    #[inline(always)]
    pub fn least(&self) -> Option<(K, V)>
        ensures { result ≡ slice_get self.now.entries 0 }
    {
        self.kth(0)
    }

    /// The entry of the greatest key, or `None` where there is none.
    pub fn greatest(&self) -> Option<(K, V)>
        ensures { result ≡ slice_get self.now.entries (length self.now.entries - 1) }
    {
        match self.len() {
            0 => None,
            len => self.kth(len - 1),
        }
    }

    /// The entry of the least key that is not below this one, or `None` where all keys are below it.
    pub fn first_not_below(&self, key: K) -> Option<(K, V)>
        ensures { result ≡ first_not_below K.cmp key self.now.entries }
    {
        finding::first_not_below(self.nodes.as_slice(), self.root, key)
    }

    /// Puts an entry in, at a key that has none, for which there is room. It takes no memory.
    pub fn insert(&mut self, key: K, value: V)
        requires absent { map.find K.cmp key self.old.entries ≡ None }
        requires room { 0 < self.old.spare }
        ensures entries { self.new.entries ≡ map.put K.cmp key value self.old.entries }
        ensures in_map { as_map K.cmp self.new.entries ≡ map.insert (as_map K.cmp self.old.entries) key value }
        ensures takes_one { self.new.spare + 1 ≡ self.old.spare }
        ensures one_more { length self.new.entries ≡ length self.old.entries + 1 }
        ensures rising { IsRising K.cmp self.new.entries }
    {
        let root = self.root;
        let place = self.free;
        let behind = next(self.nodes.as_slice(), place);
        let spot = Spot { place, key, value };
        self.root = with_entry(self.nodes.as_mut_slice(), root, spot);
        self.free = behind;
        self.spare -= 1;
    }

    /// Puts this value at a key that has one. It takes no memory.
    pub fn replace(&mut self, key: K, value: V)
        requires { IsSome (map.find K.cmp key self.old.entries) }
        ensures entries { self.new.entries ≡ map.put K.cmp key value self.old.entries }
        ensures in_map { as_map K.cmp self.new.entries ≡ map.insert (as_map K.cmp self.old.entries) key value }
        ensures spare { self.new.spare ≡ self.old.spare }
        ensures as_many { length self.new.entries ≡ length self.old.entries }
        ensures rising { IsRising K.cmp self.new.entries }
    {
        let root = self.root;
        set_value(self.nodes.as_mut_slice(), root, key, value);
    }

    // Takes the entry of the key out, if there is one: its place is spare again. The result is its value.
    #[inline(never)]
    fn take_out(&mut self, key: K) -> Option<V>
        ensures value { result ≡ map.find K.cmp key self.old.entries }
        ensures entries { self.new.entries ≡ without K.cmp key self.old.entries }
        ensures in_map { map.IsAntisymmetric K.cmp → as_map K.cmp self.new.entries ≡ map.remove (as_map K.cmp self.old.entries) key }
        ensures gives_one { self.new.spare ≡ (if is_some result then self.old.spare + 1 else self.old.spare) }
        ensures same_places { length self.new.entries + self.new.spare ≡ length self.old.entries + self.old.spare }
        ensures rising { IsRising K.cmp self.new.entries }
    {
        let found = self.get(key);
        if found.is_some() {
            let root = self.root;
            let others = self.free;
            let left = unlink(self.nodes.as_mut_slice(), root, key);
            free_node(self.nodes.as_mut_slice(), left.freed, others);
            self.root = left.root;
            self.free = left.freed;
            self.spare += 1;
        }
        found
    }

    /// Takes the entry of the key out, if there is one: its place is spare again. The result is its value.
    #[inline(always)]
    pub fn remove(&mut self, key: K) -> Option<V>
        ensures value { result ≡ map.find K.cmp key self.old.entries }
        ensures entries { self.new.entries ≡ without K.cmp key self.old.entries }
        ensures in_map { map.IsAntisymmetric K.cmp → as_map K.cmp self.new.entries ≡ map.remove (as_map K.cmp self.old.entries) key }
        ensures gives_one { self.new.spare ≡ (if is_some result then self.old.spare + 1 else self.old.spare) }
        ensures same_places { length self.new.entries + self.new.spare ≡ length self.old.entries + self.old.spare }
        ensures rising { IsRising K.cmp self.new.entries }
    {
        if self.is_empty() {
            return None;
        }
        self.take_out(key)
    }
}

impl<K: Ord + Copy + Default, V: Copy + Default> RoomMap<K, V> {
    // Makes room where there is less than for `n` entries more.
    #[inline(never)]
    fn make_room(&mut self, n: u32) -> Result<(), AllocError>
        ensures ok { OnOk result (n ≤ self.new.spare) }
        ensures exact { OnOk result (self.new.spare ≡ max self.old.spare n) }
        ensures grows { self.old.spare ≤ self.new.spare }
        ensures kept { self.new.entries ≡ self.old.entries }
        ensures err { OnErr result (self.new ≡ self.old) }
    {
        let more = n.saturating_sub(self.spare);
        let had = self.len() + self.spare;
        match had.checked_add(more) {
            None => Err(AllocError),
            Some(places) => match self.nodes.resize(places as usize, Node::empty()) {
                Err(_) => Err(AllocError),
                Ok(()) => {
                    let others = self.free;
                    self.free = free_all(self.nodes.as_mut_slice(), had, places, others);
                    self.spare += more;
                    Ok(())
                }
            },
        }
    }

    /// Makes room for at least `n` entries more, or runs out of memory, as it also does where there would be 2^32 places or more.
    #[inline(always)]
    pub fn reserve(&mut self, n: u32) -> Result<(), AllocError>
        ensures ok { OnOk result (n ≤ self.new.spare) }
        ensures exact { OnOk result (self.new.spare ≡ max self.old.spare n) }
        ensures grows { self.old.spare ≤ self.new.spare }
        ensures kept { self.new.entries ≡ self.old.entries }
        ensures err { OnErr result (self.new ≡ self.old) }
    {
        if n <= self.spare {
            return Ok(());
        }
        self.make_room(n)
    }
}
