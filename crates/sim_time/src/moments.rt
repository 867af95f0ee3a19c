ghost use Rattle.std.specs.Prelude.{◌≡◌, ◌≤◌};

/// A moment or a span of simulated time, as a number of resolutions (IEEE 1666-2011, 5.11.3).
#[derive(Clone, Copy, Debug, PartialEq, Eq, PartialOrd, Ord)]
pub struct Time(pub u64);

/// The resolution of simulated time: 10 to this power of femtoseconds (IEEE 1666-2011, 5.11.3).
#[derive(Clone, Copy, Debug, PartialEq, Eq)]
pub struct Resolution {
    /// The power of ten, from 0 (a femtosecond) to 15 (a second).
    pub power: u8,
    ghost small: { power ≤ 15 },
}

impl Resolution {
    /// A picosecond, which is the resolution where a model says none.
    pub fn picosecond() -> Resolution
        ensures { result.power ≡ 3 }
    {
        Resolution { power: 3 }
    }
}

/// A unit in which a model writes a time (IEEE 1666-2011, 5.11, `sc_time_unit`).
#[derive(Clone, Copy, Debug, PartialEq, Eq)]
pub enum Unit {
    /// Femtoseconds.
    Fs,
    /// Picoseconds.
    Ps,
    /// Nanoseconds.
    Ns,
    /// Microseconds.
    Us,
    /// Milliseconds.
    Ms,
    /// Seconds.
    S,
}

/// Why a number of units is no time of a resolution.
#[derive(Clone, Copy, Debug, PartialEq, Eq)]
pub enum UnitStop {
    /// It is no whole number of resolutions.
    Inexact,
    /// It is 2^64 resolutions or more.
    Range,
}

impl Unit {
    ghost use Rattle.sim_time.specs.Times.{femtoseconds_in, picoseconds_in};

    /// How many femtoseconds the unit has.
    pub(crate) fn femtoseconds(self) -> u64
        ensures { result ≡ femtoseconds_in self }
    {
        match self {
            Unit::Fs => 1,
            Unit::Ps => 1_000,
            Unit::Ns => 1_000_000,
            Unit::Us => 1_000_000_000,
            Unit::Ms => 1_000_000_000_000,
            Unit::S => 1_000_000_000_000_000,
        }
    }

    /// How many whole picoseconds the unit has.
    pub(crate) fn picoseconds(self) -> u64
        ensures { result ≡ picoseconds_in self }
    {
        match self {
            Unit::Fs => 0,
            Unit::Ps => 1,
            Unit::Ns => 1_000,
            Unit::Us => 1_000_000,
            Unit::Ms => 1_000_000_000,
            Unit::S => 1_000_000_000_000,
        }
    }
}
