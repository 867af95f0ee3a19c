//! Values under numbers that rise by one and are never given twice.
ghost use Rattle.std.specs.Prelude.{◌≡◌, ◌⊎◌, ◌+◌, ◌-◌, ◌^◌, ◌<◌, ◌≤◌, ◌++◌, ◌==◌, [], ◌∷◌, ℕ, false, None, IsSome, IfNone, OnOk, OnErr, IfOk, IfErr, length, option_copied, if◌then◌else◌, slice_set, vec_len, vec_capacity};
ghost use Rattle.std.specs.Option.{option_copied_mut};
ghost use Rattle.std.specs.Borrow.{sem};
ghost use Rattle.std.specs.FinMap as map;
ghost use Rattle.std.specs.BTreeMap as tree;
ghost use Rattle.std.specs.Ordering.{nat_cmp};
ghost use Rattle.numbered_slots.specs.Layout.{TellsHomes, AreHome};

use slab::Slab;
use std::alloc::{AllocFailed, Global};
use std::collections::BTreeMap;
use std::marker::Model;

/// The live values by number, and the number of the next one.
///
/// Numbers are given from 0 and rise by one. What was taken out is found no more under its number, and a later value may take its place
/// in memory, so that no more memory is kept than for the most values that were ever live at once.
/// A value that was inserted before a first one was taken out is found at once by its number, and any other in the logarithm of how many
/// are live.
#[derive(Drop)]
pub struct Slots<T> {
    // The values, each in a slot that is used again once the value was taken out.
    slots: Slab<T>,
    // The slot of each live number.
    keys: BTreeMap<u32, usize>,
    // Each number below this one is live, and its value stands in its own slot.
    homes: u32,
    // For each slot, whether it holds the value of its own number.
    at_home: Vec<bool>,
    next: u32,
}

impl<T> Model for Slots<T> {
    ghost use Rattle.numbered_slots.specs.Numbered.{Numbered, numbered_code};

    ghost Value = { Numbered T };

    ghost coded = { numbered_code T.code };

    ghost use Rattle.numbered_slots.specs.Layout.{shown, IsSound, TellsHomes, AreHome};

    ghost view = { λ s. shown s.slots.slots s.keys.entries s.next };

    ghost invariant = { λ s. IsSound s.slots s.keys s.next × TellsHomes s.at_home.items s.keys × AreHome s.homes s.keys };
}

// The slot of a live number whose value stands in no slot of its own, by a search.
#[inline(never)]
fn searched_slot(keys: &BTreeMap<u32, usize>, number: u32) -> Option<usize>
    ensures { result ≡ tree.get nat_cmp keys.now number }
{
    keys.get(&number).copied()
}

// The slot of a live number, with no search where the value stands in the number's own slot.
#[inline(always)]
fn slot_of(keys: &BTreeMap<u32, usize>, at_home: &[bool], homes: u32, number: u32) -> Option<usize>
    requires told { TellsHomes at_home.now keys.now }
    requires below { AreHome homes keys.now }
    ensures { result ≡ tree.get nat_cmp keys.now number }
{
    if number < homes {
        return Some(number as usize);
    }
    match at_home.get(number as usize).copied() {
        Some(true) => Some(number as usize),
        Some(false) | None => searched_slot(keys, number),
    }
}

// Notes of a slot that is used for the first time whether this number is its own. A slot that is used again gets a number that is not:
// its own was given before.
fn note_first(at_home: &mut Vec<bool>, key: usize, number: u32)
    requires { vec_len at_home.old < vec_capacity at_home.old }
    ensures { at_home.new.items ≡ (if key == length at_home.old.items then at_home.old.items ++ (key == number) ∷ [] else at_home.old.items) }
{
    if key == at_home.len() {
        at_home.push_reserved(key == number as usize);
    }
}

// Notes that no slot holds the value of this number.
fn leave_home(at_home: &mut Vec<bool>, number: u32)
    ensures { at_home.new.items ≡ slice_set at_home.old.items number false }
{
    if (number as usize) < at_home.len() {
        at_home[number as usize] = false;
    }
}

// The number below which each stands at home, once this one was inserted into this slot.
fn homes_with(homes: u32, key: usize, number: u32) -> u32
    requires { number < 2 ^ 32 - 1 }
    ensures { (result ≡ homes) ⊎ ((result ≡ number + 1) × (homes ≡ number) × (key ≡ number)) }
{
    if homes == number {
        if key == number as usize {
            return number + 1;
        }
    }
    homes
}

// The same, once this one was taken out.
fn homes_without(homes: u32, number: u32) -> u32
    ensures less { result ≤ homes }
    ensures low { result ≤ number }
{
    if number < homes { number } else { homes }
}

impl<T> Slots<T> {
    ghost use Rattle.numbered_slots.specs.Numbered.{HasFreshNext, with_inserted, without};
    ghost use Rattle.numbered_slots.specs.Lends.{lends_value};

    /// No values, and 0 as the first number. It takes no memory.
    pub fn new(alloc: Global) -> Slots<T>
        ensures empty { result.live ≡ map.empty }
        ensures first { result.next ≡ 0 }
    {
        Slots {
            slots: Slab::new(alloc),
            keys: BTreeMap::new(alloc),
            homes: 0,
            at_home: Vec::new(alloc),
            next: 0,
        }
    }

    /// The number that the next value gets. No value is live under it, or under a later one.
    pub fn next_number(&self) -> u32
        ensures value { result ≡ self.now.next }
        ensures fresh { HasFreshNext self.now }
    {
        self.next
    }

    /// How many values are live.
    pub fn len(&self) -> usize
        ensures { result ≡ map.len self.now.live }
    {
        self.keys.len()
    }

    /// The live value of this number, if there is one. The number was given before: each one from the next on finds nothing.
    #[inline(always)]
    pub fn get(&self, number: u32) -> Option<&T>
        ensures value { option_copied result ≡ map.get self.now.live number }
        ensures given { IsSome result → number < self.now.next }
    {
        match slot_of(&self.keys, self.at_home.as_slice(), self.homes, number) {
            Some(key) => Some(&self.slots[key]),
            None => None,
        }
    }

    /// The live value of this number for writing, if there is one.
    #[inline(always)]
    pub fn get_mut(&mut self, number: u32) -> Option<&mut T>
        ensures* writes_back { sem 𝓛 (lends_value T.row self.entry number result) }
        ensures value { option_copied_mut result ≡ map.get self.old.live number }
    {
        let key = slot_of(&self.keys, self.at_home.as_slice(), self.homes, number)?;
        Some(&mut self.slots[key])
    }

    /// Adds a value under the next number, and answers that number. Where memory is refused nothing changes and the value is handed back.
    pub fn insert(&mut self, value: T) -> Result<u32, AllocFailed<T>>
        requires { self.old.next < 2 ^ 32 - 1 }

        // The number is the next one. No live value has it or a later one.
        ensures number { IfOk result (λ number. number ≡ self.old.next) }
        ensures fresh { HasFreshNext self.old }
        ensures inserted { OnOk result (self.new ≡ with_inserted self.old value) }

        ensures refused { OnErr result (self.new ≡ self.old) }
        ensures back { IfErr result (λ failed. failed.value ≡ value) }
    {
        match self.slots.reserve(1) {
            Ok(()) => {}
            Err(_) => return Err(AllocFailed { value }),
        }
        match self.at_home.reserve(1) {
            Ok(()) => {}
            Err(_) => return Err(AllocFailed { value }),
        }
        let number = self.next;
        let key = self.slots.vacant_key();
        match self.keys.insert(number, key) {
            Ok(_) => {}
            Err(_) => return Err(AllocFailed { value }),
        }
        self.slots.insert_reserved(value);
        note_first(&mut self.at_home, key, number);
        let homes = homes_with(self.homes, key, number);
        self.homes = homes;
        self.next = number + 1;
        Ok(number)
    }

    /// Takes out the value of this number, if it is live.
    pub fn remove(&mut self, number: u32) -> Option<T>
        ensures value { result ≡ map.get self.old.live number }
        ensures removed { self.new ≡ without self.old number }
        ensures absent { IfNone result (self.new ≡ self.old) }
    {
        match self.keys.remove(&number) {
            Some(key) => {
                leave_home(&mut self.at_home, number);
                let homes = homes_without(self.homes, number);
                self.homes = homes;
                Some(self.slots.remove(key))
            }
            None => None,
        }
    }
}
