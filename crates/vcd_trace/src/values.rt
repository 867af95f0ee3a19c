//! The lines of values.
ghost use Rattle.std.specs.Prelude.{◌≡◌, ◌++◌, ◌∷◌, [], ◌/◌, ◌%◌, ◌^◌, OnOk, map, reverse};
ghost use Rattle.laws_runs.specs.LogicValues.Digits.{digits};
ghost use Rattle.laws_runs.specs.SimModel.Trace as spec;

use crate::ids::push_id;
use laws_runs::logic_values_api::{Digit, Lv, Value, digit};
use std::alloc::AllocError;

/// The character of a logic digit.
fn digit_letter(digit: Digit) -> u8
    ensures { result ≡ spec.digit_letter digit }
{
    match digit {
        Digit::Zero => b'0',
        Digit::One => b'1',
        Digit::Z => b'z',
        Digit::X => b'x',
    }
}

/// The bit of a number at a place, that at place 0 the lowest.
fn bit_at(bits: u64, place: u8) -> u8
    ensures { result ≡ bits / 2 ^ place % 2 }
{
    if place < 64 {
        ((bits >> place) % 2) as u8
    } else {
        0
    }
}

/// Adds so many bits of a number, the highest first.
fn push_bits(text: &mut Vec<u8>, width: u8, bits: u64) -> Result<(), AllocError>
    ensures { OnOk result (text.new.items ≡ text.old.items ++ spec.bit_letters width bits) }
{
    for place in (0..width).rev() {
        text.push(b'0' + bit_at(bits, place))?;
    }
    Ok(())
}

/// Adds the digits of a vector, the highest first.
fn push_digits(text: &mut Vec<u8>, vector: Lv) -> Result<(), AllocError>
    ensures { OnOk result (text.new.items ≡ text.old.items ++ map spec.digit_letter (reverse (digits vector))) }
{
    for place in (0..vector.width).rev() {
        text.push(digit_letter(digit(vector, place)))?;
    }
    Ok(())
}

/// Adds so many bits of a number between the base and a space.
fn push_binary(text: &mut Vec<u8>, width: u8, bits: u64) -> Result<(), AllocError>
    ensures { OnOk result (text.new.items ≡ text.old.items ++ spec.with_base (spec.bit_letters width bits)) }
{
    text.extend_from_slice(b"b")?;
    push_bits(text, width, bits)?;
    text.extend_from_slice(b" ")
}

/// Adds the digits of a vector between the base and a space.
fn push_vector(text: &mut Vec<u8>, vector: Lv) -> Result<(), AllocError>
    ensures { OnOk result (text.new.items ≡ text.old.items ++ spec.with_base (map spec.digit_letter (reverse (digits vector)))) }
{
    text.extend_from_slice(b"b")?;
    push_digits(text, vector)?;
    text.extend_from_slice(b" ")
}

fn push_letter(text: &mut Vec<u8>, letter: u8) -> Result<(), AllocError>
    ensures { OnOk result (text.new.items ≡ text.old.items ++ letter ∷ []) }
{
    text.push(letter)?;
    Ok(())
}

/// Adds a value; a handle is none of a signal and adds nothing.
fn push_value(text: &mut Vec<u8>, value: Value) -> Result<(), AllocError>
    ensures { OnOk result (text.new.items ≡ text.old.items ++ spec.value_letters value) }
{
    match value {
        Value::Bool(true) => push_letter(text, b'1'),
        Value::Bool(false) => push_letter(text, b'0'),
        Value::Int { width, bits } | Value::Uint { width, bits } => push_binary(text, width, bits),
        Value::Logic(digit) => push_letter(text, digit_letter(digit)),
        Value::Vector(vector) => push_vector(text, vector),
        Value::Moment(picoseconds) => push_binary(text, 64, picoseconds),
        Value::Handle(_) | Value::Pay(_) => Ok(()),
    }
}

/// Adds the line of a value of the variable of this number.
pub(crate) fn push_line(text: &mut Vec<u8>, number: usize, value: Value) -> Result<(), AllocError>
    ensures { OnOk result (text.new.items ≡ text.old.items ++ spec.value_line number value) }
{
    push_value(text, value)?;
    push_id(text, number)?;
    text.extend_from_slice(b"\n")
}
