//! The live instances of a simulation, each under a serial number that is never given twice.
//!
//! An instance is one process of the model: a thread or a method, with whatever body the caller keeps for it.
#![tactic(auto)]

ghost use Rattle.std.specs.Prelude.{◌≡◌, ◌↔◌, ◌-◌, ◌^◌, ◌<◌, ◌≤◌, ℕ, None, IsSome, OnOk, OnErr, IfOk, option_copied};
ghost use Rattle.std.specs.Option.{option_copied_mut};
ghost use Rattle.std.specs.Bool.{OnFalse};
ghost use Rattle.std.specs.Borrow.{sem};
ghost use Rattle.std.specs.FinMap as map;

mod instances;

pub use instances::{Deadline, Instance, ProcessKind, Waiting};
use numbered_slots::Slots;
use std::alloc::Global;
use std::marker::Model;

/// How many instances may be live at once.
pub const MAX_LIVE: usize = 65_536;

/// Why a new instance was refused.
#[derive(Clone, Copy, PartialEq, Eq, Debug)]
pub enum SpawnStop {
    /// There are `MAX_LIVE` live instances.
    TooMany,
    /// There is no memory.
    NoMemory,
}

/// The live instances by serial, and the serial of the next one.
///
/// Serials are given from 0 and rise by one. What has ended is found no more under its serial, and a later instance may take its place in memory.
#[derive(Drop)]
pub struct Table<B> {
    instances: Slots<Instance<B>>,
}

impl<B> Model for Table<B> {
    ghost use Rattle.instance_table.specs.Instances.{Instances, instances_code};

    ghost Value = { Instances B };

    ghost coded = { instances_code B.code };

    ghost view = { λ t. t.instances };
}

impl<B> Table<B> {
    ghost use Rattle.instance_table.specs.Lends.{lends_instance};

    /// A table with no instance, whose first serial will be 0. It takes no memory.
    pub fn new(alloc: Global) -> Table<B>
        ensures empty { result.live ≡ map.empty }
        ensures first { result.next ≡ 0 }
    {
        Table {
            instances: Slots::new(alloc),
        }
    }

    /// The serial that the next instance gets. No live instance has it, or a later one.
    pub fn next_serial(&self) -> u32
        ensures value { result ≡ self.now.next }
        ensures fresh { (serial : ℕ) → self.now.next ≤ serial → map.get self.now.live serial ≡ None }
    {
        self.instances.next_number()
    }

    /// The live instance of this serial, if there is one. It was given before: each serial from the next one on finds nothing.
    pub fn get(&self, serial: u32) -> Option<&Instance<B>>
        ensures value { option_copied result ≡ map.get self.now.live serial }
        ensures given { IsSome result → serial < self.now.next }
    {
        self.instances.get(serial)
    }

    /// The live instance of this serial for writing, if there is one.
    pub fn get_mut(&mut self, serial: u32) -> Option<&mut Instance<B>>
        ensures* writes_back { sem 𝓛 (lends_instance B.row self.entry serial result) }
        ensures value { option_copied_mut result ≡ map.get self.old.live serial }
    {
        self.instances.get_mut(serial)
    }
}

impl<B: Drop> Table<B> {
    ghost use Rattle.numbered_slots.specs.Numbered.{without};
    ghost use Rattle.instance_table.specs.Instances.{with_spawned};

    /// Adds an instance of this kind and body, and answers its serial, which is the one that `next_serial` told and no instance had before.
    ///
    /// The new instance has not started, waits for nothing and has no mark. Where the answer is an error the body is dropped.
    pub fn spawn(&mut self, kind: ProcessKind, body: B) -> Result<u32, SpawnStop>
        requires { self.old.next < 2 ^ 32 - 1 }

        // The serial is the next one. No live instance has it or a later one.
        ensures next { IfOk result (λ serial. serial ≡ self.old.next) }
        ensures fresh { (serial : ℕ) → self.old.next ≤ serial → map.get self.old.live serial ≡ None }
        ensures spawned { OnOk result (self.new ≡ with_spawned self.old kind body) }

        ensures too_many { (result ≡ Err SpawnStop.TooMany) ↔ (map.len self.old.live ≡ MAX_LIVE) }
        ensures refused { OnErr result (self.new ≡ self.old) }
    {
        let serial = self.next_serial();
        if self.instances.len() == MAX_LIVE {
            return Err(SpawnStop::TooMany);
        }
        match self.instances.insert(Instance::new(kind, body)) {
            Ok(_) => Ok(serial),
            Err(_) => Err(SpawnStop::NoMemory),
        }
    }

    /// Drops the instance of this serial, and answers whether there was a live one.
    pub fn end(&mut self, serial: u32) -> bool
        ensures found { result ≡ map.contains_key self.old.live serial }
        ensures ended { self.new ≡ without self.old serial }
        ensures absent { OnFalse result (self.new ≡ self.old) }
    {
        self.instances.remove(serial).is_some()
    }
}
