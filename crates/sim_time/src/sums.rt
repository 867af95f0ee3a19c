ghost use Rattle.std.specs.Prelude.{◌≡◌, ◌+◌, ◌*◌, ◌^◌, ◌<◌, ◌≤◌, ◌↔◌, IsNone, IfSome};
ghost use Rattle.sim_time.specs.Times.{time_of, ticks_of, femtoseconds_of, picoseconds_in};

use super::moments::{Resolution, Time, Unit, UnitStop};

/// The sum of two times, or `None` exactly where it passes 2^64 - 1 resolutions.
pub fn add(a: Time, b: Time) -> Option<Time>
    ensures { result ≡ time_of (a.0 + b.0) }
{
    a.0.checked_add(b.0).map(Time)
}

/// A time taken `n` times, or `None` exactly where that passes 2^64 - 1 resolutions.
pub fn times(a: Time, n: u64) -> Option<Time>
    ensures { result ≡ time_of (a.0 * n) }
{
    a.0.checked_mul(n).map(Time)
}

/// How many femtoseconds a resolution has.
fn femtoseconds(r: Resolution) -> u128
    ensures value { result ≡ femtoseconds_of r }
    ensures some { 0 < result }
{
    10_u128.pow(u32::from(r.power))
}

/// The time of `n` units at a resolution (IEEE 1666-2011, 5.11.3).
///
/// `Inexact` exactly where that is no whole number of resolutions, and else `Range` exactly where it is 2^64 of them or more.
pub fn of_unit(n: u64, unit: Unit, r: Resolution) -> Result<Time, UnitStop>
    ensures { result ≡ ticks_of n unit r }
{
    let span = u128::from(n) * u128::from(unit.femtoseconds());
    let resolution = femtoseconds(r);
    if span % resolution != 0 {
        return Err(UnitStop::Inexact);
    }
    match u64::try_from(span / resolution) {
        Ok(ticks) => Ok(Time(ticks)),
        Err(_) => Err(UnitStop::Range),
    }
}

/// The time of `n` units where the resolution is a picosecond, or `None` exactly where it passes 2^64 - 1 picoseconds. A unit
/// counts with its whole picoseconds: a femtosecond has none.
pub fn picoseconds_of(n: u64, unit: Unit) -> Option<Time>
    ensures { result ≡ time_of (n * picoseconds_in unit) }
{
    times(Time(unit.picoseconds()), n)
}

/// How far `a` is past `b`, or `None` exactly where `b` is the greater one.
pub fn sub(a: Time, b: Time) -> Option<Time>
    ensures difference { IfSome result (λ t. b.0 + t.0 ≡ a.0) }
    ensures none { IsNone result ↔ (a.0 < b.0) }
{
    a.0.checked_sub(b.0).map(Time)
}
