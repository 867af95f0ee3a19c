//! The regions that initiators were granted.
ghost use Rattle.std.specs.Prelude.{◌≡◌, ◌+◌, ◌-◌, ◌^◌, ◌<◌, ◌≤◌, [], nat_lt, length, count_by, OnOk, OnErr};
ghost use Rattle.std.specs.List.{list_any};
ghost use Rattle.dmi_map.specs.Regions.{region_of, same, has_all, reaches, left_by, covering, with_region};

use std::alloc::{AllocError, Global};
use std::marker::Model;

/// The addresses of a target that an initiator may reach directly: `size` of them, from `low` on.
#[derive(Clone, Copy)]
pub struct Region {
    /// The number of the initiator.
    pub initiator: u32,
    /// The number of the target.
    pub target: u32,
    /// The first address.
    pub low: u64,
    /// How many addresses there are.
    pub size: u64,
}

/// The regions that are granted, in the order in which they were. None is empty, and none passes the last of 2^64 addresses.
#[derive(Drop)]
pub struct Grants {
    regions: Vec<Region>,
}

impl Model for Grants {
    ghost use Rattle.std.specs.Prelude.{List};
    ghost use Rattle.dmi_map.specs.declared.grants.Region.{Region};
    ghost use Rattle.dmi_map.specs.Regions.{AreRegions};

    ghost Value = { List Region };

    ghost view = { λ g. g.regions.items };

    ghost invariant = { λ g. AreRegions g.regions.items };
}

// Whether the address is below the end of `size` addresses from `low` on. That end may be 2^64.
fn is_below_end(address: u64, low: u64, size: u64) -> bool
    ensures { result ≡ nat_lt address (low + size) }
{
    address < low || address - low < size
}

impl Region {
    fn is_same(&self, other: &Region) -> bool
        ensures { result ≡ same self.now other.now }
    {
        self.initiator == other.initiator
            && self.target == other.target
            && self.low == other.low
            && self.size == other.size
    }

    // Whether it is the initiator's, and has `len` addresses from this one on.
    fn has_all(&self, i: u32, address: u64, len: u16) -> bool
        ensures { result ≡ has_all i address len self.now }
    {
        self.initiator == i
            && self.low <= address
            && address - self.low <= self.size
            && u64::from(len) <= self.size - (address - self.low)
    }

    // Whether it shares an address with those from `low` to `high`.
    fn is_reached(&self, low: u64, high: u64) -> bool
        ensures { result ≡ reaches low high self.now }
    {
        is_below_end(low, self.low, self.size) && self.low <= high
    }
}

// Takes away each region that shares an address with those from `low` to `high`.
fn strike_out(regions: &mut Vec<Region>, low: u64, high: u64)
    ensures left { regions.new.items ≡ left_by low high regions.old.items }
    ensures taken { length regions.new.items + count_by (reaches low high) regions.old.items ≡ length regions.old.items }
{
    regions.retain(|region| !region.is_reached(low, high));
}

impl Grants {
    /// No region. It takes no memory.
    pub fn new(alloc: Global) -> Grants
        ensures { result ≡ [] }
    {
        Grants {
            regions: Vec::new(alloc),
        }
    }

    /// Grants an initiator `size` addresses of a target, from `low` on. A region that is there already is kept once.
    pub fn grant(&mut self, i: u32, target: u32, low: u64, size: u64) -> Result<(), AllocError>
        requires some { 1 ≤ size }
        requires within { low + size ≤ 2 ^ 64 }
        requires few { length self.old < 2 ^ 32 - 1 }
        ensures granted { OnOk result (self.new ≡ with_region self.old (region_of i target low size)) }
        ensures kept { OnErr result (self.new ≡ self.old) }
    {
        let region = Region {
            initiator: i,
            target,
            low,
            size,
        };
        if self.has(&region) {
            return Ok(());
        }
        self.regions.push(region)?;
        Ok(())
    }

    // Whether the region is there.
    fn has(&self, region: &Region) -> bool
        ensures { result ≡ list_any (same region.now) self.now }
    {
        self.regions.iter().any(|other| region.is_same(other))
    }

    /// The target of the first region of the initiator that has `len` addresses from this one on; `None` where none has them all.
    pub fn covers(&self, i: u32, address: u64, len: u16) -> Option<u32>
        requires { 1 ≤ len }
        ensures { result ≡ covering i address len self.now }
    {
        match self
            .regions
            .iter()
            .find(|region| region.has_all(i, address, len))
        {
            Some(region) => Some(region.target),
            None => None,
        }
    }

    /// Takes away each region that shares an address with those from `low` to `high`, and answers how many these were.
    pub fn invalidate(&mut self, low: u64, high: u64) -> u32
        requires { low ≤ high }
        ensures left { self.new ≡ left_by low high self.old }
        ensures taken { result ≡ count_by (reaches low high) self.old }
    {
        let before = self.regions.len();
        strike_out(&mut self.regions, low, high);
        (before - self.regions.len()) as u32
    }
}
