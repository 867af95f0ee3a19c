//! The resolution that a text asks for.
ghost use Rattle.std.specs.Prelude.{◌≡◌, None, Some, OnOk, IfErr, option_map};
ghost use Rattle.model_tree.specs.SimTime.declared.moments.Resolution.{Resolution};
ghost use Rattle.model_tree.specs.Stops.{IfRefused};
ghost use Rattle.tick_rules.specs.Sources as spec;

use model_tree::logic_values_api::Text;
use model_tree::sim_time_api::{Resolution, Unit};
use model_tree::{CheckStop, Fault, Head, Kind, ResolutionLine};
use std::alloc::Global;

/// One of a unit.
fn one_of(unit: Unit) -> Resolution
    ensures { option_map (λ (r : Resolution). r.power) (Some result) ≡ option_map (λ (r : Resolution). r.power) (spec.one_of unit) }
{
    match unit {
        Unit::Fs => Resolution { power: 0 },
        Unit::Ps => Resolution { power: 3 },
        Unit::Ns => Resolution { power: 6 },
        Unit::Us => Resolution { power: 9 },
        Unit::Ms => Resolution { power: 12 },
        Unit::S => Resolution { power: 15 },
    }
}

/// Ten of a unit, where that is no longer than a second.
fn ten_of(unit: Unit) -> Option<Resolution>
    ensures { option_map (λ (r : Resolution). r.power) result ≡ option_map (λ (r : Resolution). r.power) (spec.ten_of unit) }
{
    match unit {
        Unit::Fs => Some(Resolution { power: 1 }),
        Unit::Ps => Some(Resolution { power: 4 }),
        Unit::Ns => Some(Resolution { power: 7 }),
        Unit::Us => Some(Resolution { power: 10 }),
        Unit::Ms => Some(Resolution { power: 13 }),
        Unit::S => None,
    }
}

/// A hundred of a unit, where that is no longer than a second.
fn hundred_of(unit: Unit) -> Option<Resolution>
    ensures { option_map (λ (r : Resolution). r.power) result ≡ option_map (λ (r : Resolution). r.power) (spec.hundred_of unit) }
{
    match unit {
        Unit::Fs => Some(Resolution { power: 2 }),
        Unit::Ps => Some(Resolution { power: 5 }),
        Unit::Ns => Some(Resolution { power: 8 }),
        Unit::Us => Some(Resolution { power: 11 }),
        Unit::Ms => Some(Resolution { power: 14 }),
        Unit::S => None,
    }
}

/// The resolution that so many units are, if they are one.
fn resolution_in(count: u64, unit: Unit) -> Option<Resolution>
    ensures { option_map (λ (r : Resolution). r.power) result ≡ option_map (λ (r : Resolution). r.power) (spec.resolution_in count unit) }
{
    if count == 1 {
        return Some(one_of(unit));
    }
    if count == 10 {
        return ten_of(unit);
    }
    if count == 100 {
        return hundred_of(unit);
    }
    None
}

/// What a text with this head asks for.
fn asked_in(head: Head) -> Option<Resolution>
    ensures { option_map (λ (r : Resolution). r.power) result ≡ option_map (λ (r : Resolution). r.power) (spec.asked_in head) }
{
    match head {
        Head::First => Some(Resolution::picosecond()),
        Head::Second(None) => Some(Resolution::picosecond()),
        Head::Second(Some(asked)) => resolution_in(asked.span.count, asked.span.unit),
    }
}

/// The resolution of a text with this head (IEEE 1666-2011, 5.11.3): the one that it asks for, and a picosecond where it asks for
/// none, or for what is no resolution.
pub fn resolution_of(head: Head) -> Resolution
    ensures { result.power ≡ (spec.resolution_of head).power }
{
    match asked_in(head) {
        Some(resolution) => resolution,
        None => Resolution::picosecond(),
    }
}

fn bad_resolution(alloc: Global, line: u32) -> CheckStop
    ensures { IfRefused result (λ fault. fault ≡ spec.bad_resolution line) }
{
    match Vec::from_slice(alloc, b"resolution") {
        Ok(name) => CheckStop::Refused(Fault {
            kind: Kind::BadResolution,
            line,
            name: Text::from_vec(name),
        }),
        Err(_) => CheckStop::NoMemory,
    }
}

/// Judges what a text asks for as its resolution.
fn judge_asked(alloc: Global, asked: ResolutionLine) -> Result<(), CheckStop>
    ensures accepted { OnOk result (spec.fault_unless (spec.resolution_in asked.span.count asked.span.unit) asked.line ≡ None) }
    ensures refused { IfErr result (λ stop. IfRefused stop (λ fault. spec.fault_unless (spec.resolution_in asked.span.count asked.span.unit) asked.line ≡ Some fault)) }
{
    match resolution_in(asked.span.count, asked.span.unit) {
        Some(_) => Ok(()),
        None => Err(bad_resolution(alloc, asked.line)),
    }
}

/// Judges the resolution that a text asks for: 1, 10 or 100 of fs, ps, ns, us or ms, or 1 s.
///
/// # Errors
/// Refused is exactly what is no resolution, with the line and the name of the word `resolution`.
pub fn judge_resolution(alloc: Global, head: Head) -> Result<(), CheckStop>
    ensures accepted { OnOk result (spec.resolution_fault head ≡ None) }
    ensures refused { IfErr result (λ stop. IfRefused stop (λ fault. spec.resolution_fault head ≡ Some fault)) }
{
    match head {
        Head::First => Ok(()),
        Head::Second(None) => Ok(()),
        Head::Second(Some(asked)) => judge_asked(alloc, asked),
    }
}
