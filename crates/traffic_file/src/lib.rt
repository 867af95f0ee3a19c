//! Traffic through a router: the targets and initiators that there are, their accesses in order, and what takes grants away.
#![tactic(auto)]

mod judging;
mod reading;
mod stops;

use dmi_map::AddressMap;
use model_tree::logic_values_api::{Items, Text};
pub use reading::read_bus;
pub use stops::{BusKind, BusStop};
use text_lines::BusAction;

/// What is passed on of dmi_map.
pub mod dmi_map_api {
    pub use dmi_map::{Grants, Rank, TargetRange, direct, put_in_order};
}

/// What is passed on of payload_pool.
pub mod payload_pool_api {
    pub use dmi_map::payload_pool_api::{
        ADDRESS, Bytes, INCOMPLETE, OK, Payload, Pool, READ, WRITE,
    };
}

/// What is passed on of text_lines.
pub mod text_lines_api {
    pub use text_lines::BusAction;
}

/// What is passed on of logic_values.
pub mod logic_values_api {
    pub use model_tree::logic_values_api::Items;
}

/// A memory of `size` bytes that takes `latency` for each access. Where it begins stands in the map alone.
#[derive(Drop)]
pub struct BusTarget {
    /// Its name.
    pub name: Text,
    /// How many bytes it has.
    pub size: u64,
    /// How long an access takes there.
    pub latency: u64,
}

/// Who makes accesses.
#[derive(Drop)]
pub struct BusInitiator {
    /// Its name.
    pub name: Text,
    /// Whether it keeps grants to reach a memory directly.
    pub dmi: bool,
}

/// One access.
#[derive(Drop)]
pub struct BusLine {
    /// The number of its line in the file, counted from 1.
    pub line: u32,
    /// When it may begin at the earliest.
    pub time: u64,
    /// The place of its initiator, counted from 0.
    pub initiator: u32,
    /// The address of its first byte.
    pub address: u64,
    /// What it does.
    pub action: BusAction,
}

/// At a time, an end to each grant that shares an address with those from `low` to `high`.
#[derive(Clone, Copy)]
pub struct Invalidate {
    /// The time.
    pub time: u64,
    /// The first address.
    pub low: u64,
    /// The last address.
    pub high: u64,
}

/// Targets in the order of the file.
pub type BusTargets = Items<BusTarget>;

/// Initiators in the order of the file.
pub type BusInitiators = Items<BusInitiator>;

/// Accesses in the order of the file.
pub type BusLines = Items<BusLine>;

/// Invalidations in the order of the file.
pub type Invalidates = Items<Invalidate>;

/// A router with its traffic. Times are whole picoseconds.
#[derive(Drop)]
pub struct Bus {
    /// How long each way over a hop takes.
    pub delay: u64,
    /// The targets.
    pub targets: BusTargets,
    /// The initiators.
    pub initiators: BusInitiators,
    /// The accesses.
    pub lines: BusLines,
    /// The invalidations.
    pub invalidates: Invalidates,
    /// Which target has which addresses. Targets go by their places, counted from 0.
    pub map: AddressMap,
}
