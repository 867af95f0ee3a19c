//! Which target has which addresses: ranges that share none, and the look-up of an address.
ghost use Rattle.std.specs.Prelude.{◌≡◌, ◌+◌, [], ◌∷◌, ◌++◌, nat_lt, OnOk, OnErr, IfNone, IfSome, IsOkUnless};
ghost use Rattle.std.specs.Option.{option_copied};

use std::alloc::Global;
use std::marker::Model;

/// The addresses of a target: `size` of them, from `low` on.
#[derive(Clone, Copy, PartialEq, Eq)]
pub struct TargetRange {
    /// The first address.
    pub low: u64,
    /// How many addresses there are.
    pub size: u64,
    /// The number of the target.
    pub target: u32,
}

/// Why a range was refused.
#[derive(Clone, Copy, PartialEq, Eq, Debug)]
pub enum MapStop {
    /// The range is empty, or passes the last of the 2^64 addresses.
    Range,
    /// It shares an address with the range of this target; of several such ranges, the one that was added first.
    Overlap {
        /// The number of that target.
        other: u32,
    },
    /// There is no memory.
    NoMemory,
}

/// The ranges of targets, in the order in which they were added. None is empty, and no address is in two of them.
#[derive(Drop)]
pub struct AddressMap {
    ranges: Vec<TargetRange>,
}

impl Model for AddressMap {
    ghost use Rattle.std.specs.Prelude.{List};
    ghost use Rattle.dmi_map.specs.declared.ranges.TargetRange.{TargetRange};
    ghost use Rattle.dmi_map.specs.Ranges.{AreApart};

    ghost Value = { List TargetRange };

    ghost view = { λ m. m.ranges.items };

    ghost invariant = { λ m. AreApart m.ranges.items };
}

// Whether the address is below the end of `size` addresses from `low` on. That end may be 2^64.
fn is_below_end(address: u64, low: u64, size: u64) -> bool
    ensures { result ≡ nat_lt address (low + size) }
{
    address < low || address - low < size
}

impl TargetRange {
    ghost use Rattle.dmi_map.specs.Ranges.{has, shares};

    // Whether the address is one of the range.
    fn has(&self, address: u64) -> bool
        ensures { result ≡ has address self.now }
    {
        self.low <= address && is_below_end(address, self.low, self.size)
    }

    // Whether `size` addresses from `low` on share one with the range.
    fn shares(&self, low: u64, size: u64) -> bool
        ensures { result ≡ shares low size self.now }
    {
        is_below_end(low, self.low, self.size) && is_below_end(self.low, low, size)
    }
}

impl AddressMap {
    ghost use Rattle.dmi_map.specs.Ranges.{range_of, range_with, overlapped, refusal, found_at, AreApart};

    /// A map with no range. It takes no memory.
    pub fn new(alloc: Global) -> AddressMap
        ensures { result ≡ [] }
    {
        AddressMap {
            ranges: Vec::new(alloc),
        }
    }

    /// Gives a target `size` addresses from `low` on.
    pub fn add(&mut self, low: u64, size: u64, target: u32) -> Result<(), MapStop>
        ensures refused { IfSome (refusal self.old low size) (λ stop. result ≡ Err stop) }
        ensures accepted { IfNone (refusal self.old low size) (IsOkUnless result MapStop.NoMemory) }
        ensures added { OnOk result (self.new ≡ self.old ++ range_of low size target ∷ []) }
        ensures kept { OnErr result (self.new ≡ self.old) }
    {
        if size == 0 || u64::MAX - low < size - 1 {
            return Err(MapStop::Range);
        }
        if let Some(other) = self.overlapped(low, size) {
            return Err(MapStop::Overlap { other });
        }
        match self.ranges.push(TargetRange { low, size, target }) {
            Ok(()) => Ok(()),
            Err(_) => Err(MapStop::NoMemory),
        }
    }

    // The target of the first range that shares an address with `size` addresses from `low` on.
    fn overlapped(&self, low: u64, size: u64) -> Option<u32>
        ensures { result ≡ overlapped self.now low size }
    {
        match self.ranges.iter().find(|range| range.shares(low, size)) {
            Some(range) => Some(range.target),
            None => None,
        }
    }

    /// The range that has the address; `None` where none has it.
    pub fn range_with(&self, address: u64) -> Option<&TargetRange>
        ensures { option_copied result ≡ range_with address self.now }
    {
        self.ranges.iter().find(|range| range.has(address))
    }

    /// The target whose range has the address, and how far the address is from that range's first; `None` where no range has it.
    pub fn find(&self, address: u64) -> Option<(u32, u64)>
        ensures { result ≡ found_at self.now address }
    {
        match self.ranges.iter().find(|range| range.has(address)) {
            Some(range) => Some((range.target, address - range.low)),
            None => None,
        }
    }

    /// No range is empty or passes the last address, and no address is in two of them.
    pub fn ranges_are_apart(&self)
        ensures { AreApart self.now }
    {
        let _ = &self.ranges;
    }
}
