//! The lines of a header.
ghost use Rattle.std.specs.Prelude.{◌≡◌, ◌≤◌, ◌++◌, ◌/◌, ◌%◌, ◌^◌, [], OnOk, codes, slice_get, unwrap_or};
ghost use Rattle.std.specs.Fmt.{decimal};
ghost use Rattle.laws_runs.specs.SimModel.Trace as spec;
ghost use Rattle.vcd_trace.specs.Walks.{var_at};

use crate::ids::push_id;
use flat_design::sim_time_api::Resolution;
use flat_design::{Design, ValueType, VisibleId};
use std::alloc::{AllocError, Global};

/// How many bits a value of a type has; a handle has none.
fn width_of(value_type: ValueType) -> u8
    ensures { result ≡ spec.width_of value_type }
{
    match value_type {
        ValueType::Bool | ValueType::Logic => 1,
        ValueType::Int(width) | ValueType::Uint(width) | ValueType::Vector(width) => width,
        ValueType::Time => 64,
        ValueType::Process | ValueType::Payload => 0,
    }
}

/// How many bits the values have that are seen of an object.
fn visible_width(design: &Design, id: VisibleId) -> u8
    ensures { result ≡ spec.visible_width design.now id }
{
    match id {
        VisibleId::Signal(number) => match design.signals.as_slice().get(number as usize) {
            Some(signal) => width_of(signal.value_type),
            None => 0,
        },
        VisibleId::Resolved(_) => 1,
    }
}

/// How many of its unit a resolution is, and a space.
fn scale_number(power: u8) -> &'static [u8]
    ensures { result.now ≡ decimal (10 ^ (power % 3)) ++ codes " " }
{
    match power % 3 {
        0 => b"1 ",
        1 => b"10 ",
        _ => b"100 ",
    }
}

/// The unit of a resolution.
fn scale_unit(power: u8) -> &'static [u8]
    requires { power ≤ 15 }
    ensures { result.now ≡ unwrap_or (slice_get spec.units (power / 3)) [] }
{
    match power / 3 {
        0 => b"fs",
        1 => b"ps",
        2 => b"ns",
        3 => b"us",
        4 => b"ms",
        _ => b"s",
    }
}

/// Adds the line of the time scale.
pub(crate) fn push_scale(text: &mut Vec<u8>, resolution: Resolution) -> Result<(), AllocError>
    ensures { OnOk result (text.new.items ≡ text.old.items ++ spec.scale_line resolution) }
{
    text.extend_from_slice(b"$timescale ")?;
    text.extend_from_slice(scale_number(resolution.power))?;
    text.extend_from_slice(scale_unit(resolution.power))?;
    text.extend_from_slice(b" $end\n")?;
    Ok(())
}

/// Adds the line that opens the scope of an instance.
pub(crate) fn open_scope(text: &mut Vec<u8>, name: &[u8]) -> Result<(), AllocError>
    ensures { OnOk result (text.new.items ≡ text.old.items ++ spec.scope_line name.now) }
{
    text.extend_from_slice(b"$scope module ")?;
    text.extend_from_slice(name)?;
    text.extend_from_slice(b" $end\n")?;
    Ok(())
}

/// Adds the line that closes a scope.
pub(crate) fn close_scope(text: &mut Vec<u8>) -> Result<(), AllocError>
    ensures { OnOk result (text.new.items ≡ text.old.items ++ spec.upscope_line) }
{
    text.extend_from_slice(b"$upscope $end\n")
}

/// Adds the line of a variable.
fn push_var(
    alloc: Global,
    text: &mut Vec<u8>,
    width: u8,
    number: usize,
    name: &[u8],
) -> Result<(), AllocError>
    ensures { OnOk result (text.new.items ≡ text.old.items ++ spec.var_line width number name.now) }
{
    let kind = format!(in alloc; "$var wire {width} ")?;
    text.extend_from_slice(kind.as_bytes())?;
    push_id(text, number)?;
    text.extend_from_slice(b" ")?;
    text.extend_from_slice(name)?;
    text.extend_from_slice(b" $end\n")
}

/// Adds the line of the variable of this number, where there is one.
pub(crate) fn push_variable(
    alloc: Global,
    text: &mut Vec<u8>,
    design: &Design,
    name: &[u8],
    variable: Option<usize>,
) -> Result<(), AllocError>
    ensures { OnOk result (text.new.items ≡ text.old.items ++ var_at design.now name.now variable) }
{
    match variable {
        Some(number) => match design.visible.as_slice().get(number) {
            Some(visible) => {
                let width = visible_width(design, visible.id);
                push_var(alloc, text, width, number, name)
            }
            None => Ok(()),
        },
        None => Ok(()),
    }
}
