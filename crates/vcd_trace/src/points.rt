//! The points of a trace.
ghost use Rattle.std.specs.Prelude.{◌≡◌, ◌++◌, OnOk, IfOk, slice_get, option_map};
ghost use Rattle.laws_runs.specs.SimModel.Trace as spec;
ghost use Rattle.vcd_trace.specs.Points.{IsPoint, change_line, snapshot_of};

use crate::values::push_line;
use laws_runs::logic_values_api::{Text, Value, is_same};
use laws_runs::sim_time_api::Time;
use std::alloc::{AllocError, Global};

/// Adds the line of a time.
fn push_time(alloc: Global, text: &mut Vec<u8>, time: u64) -> Result<(), AllocError>
    ensures { OnOk result (text.new.items ≡ text.old.items ++ spec.time_line time) }
{
    let digits = format!(in alloc; "#{time}\n")?;
    text.extend_from_slice(digits.as_bytes())
}

/// Adds the lines of all values.
fn push_values(text: &mut Vec<u8>, values: &[Value]) -> Result<(), AllocError>
    ensures { OnOk result (text.new.items ≡ text.old.items ++ spec.value_lines 0 values.now) }
{
    for number in 0..values.len() {
        push_line(text, number, values[number])?;
    }
    Ok(())
}

/// Adds the line of a value, unless the variable had it before.
fn push_change(
    text: &mut Vec<u8>,
    old: &[Value],
    number: usize,
    value: Value,
) -> Result<(), AllocError>
    ensures { OnOk result (text.new.items ≡ text.old.items ++ change_line number (slice_get old.now number) value) }
{
    match old.get(number) {
        Some(before) if is_same(*before, value) => Ok(()),
        _ => push_line(text, number, value),
    }
}

/// Adds the lines of the values that differ from those before.
fn push_changes(text: &mut Vec<u8>, old: &[Value], values: &[Value]) -> Result<(), AllocError>
    ensures { OnOk result (text.new.items ≡ text.old.items ++ spec.changed_lines 0 old.now values.now) }
{
    for number in 0..values.len() {
        push_change(text, old, number, values[number])?;
    }
    Ok(())
}

/// The point of the first snapshot: all values.
fn first_point(alloc: Global, values: &[Value], time: u64) -> Result<Text, AllocError>
    ensures { IfOk result (λ text. text ≡ spec.first_values (snapshot_of time values.now)) }
{
    let mut text = Vec::new(alloc);
    push_time(alloc, &mut text, time)?;
    text.extend_from_slice(b"$dumpvars\n")?;
    push_values(&mut text, values)?;
    text.extend_from_slice(b"$end\n")?;
    Ok(Text::from_vec(text))
}

/// The point of a later snapshot: the values that differ from those before.
fn later_point(
    alloc: Global,
    old: &[Value],
    values: &[Value],
    time: u64,
) -> Result<Text, AllocError>
    ensures { IfOk result (λ text. text ≡ spec.with_time time (spec.changed_lines 0 old.now values.now)) }
{
    let mut text = Vec::new(alloc);
    push_time(alloc, &mut text, time)?;
    let start = text.len();
    push_changes(&mut text, old, values)?;
    if text.len() == start {
        return Ok(Text::new(alloc));
    }
    Ok(Text::from_vec(text))
}

/// The text of one snapshot of the objects that have values to be seen: `next` are their values at this time, in object order,
/// and `last` those of the snapshot before, or `None` for the first. The first has its time, and all values between `$dumpvars`
/// and `$end`; a later one has its time and the values that differ from those before, and nothing at all where none does
/// (IEEE 1364-2005, 18.2; IEEE 1666-2011, 8.1).
///
/// A value with no place in `last` is taken as one that differs. A handle is no value of a signal: its line has only the id.
///
/// # Errors
/// Memory was refused.
pub fn point(
    alloc: Global,
    last: Option<&[Value]>,
    next: &[Value],
    time: Time,
) -> Result<Text, AllocError>
    ensures { IfOk result (λ text. IsPoint (option_map (λ old. old.now) last.entry) (snapshot_of time.0 next.now) text) }
{
    match last {
        None => first_point(alloc, next, time.0),
        Some(old) => later_point(alloc, old, next, time.0),
    }
}
