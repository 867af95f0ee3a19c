//! Conversions of values.
ghost use Rattle.std.specs.Prelude.{◌≡◌};
ghost use Rattle.sim_model.specs.LogicValues.Planes.{lv_of};
ghost use Rattle.sim_model.specs.LogicValues.Vectors.{binary_digits, resized, value_of};
ghost use Rattle.sim_model.specs.Values as spec;
ghost use Rattle.expr_eval.specs.Vectors.{listed};

use crate::values::{bits, digits_of, first_digit, signed, truth, unsigned, vector};
use flat_design::ValueType;
use sim_model::logic_values_api::{Digit, Lv, Value, vector_of_digits};

/// A conversion to the first type from the second.
pub(crate) fn converted(to: ValueType, from: ValueType, v: Value) -> Value
    ensures { result ≡ spec.converted to from v }
{
    match to {
        ValueType::Bool => Value::Bool(truth_from(from, v)),
        ValueType::Int(_) => signed(number_from(from, v)),
        ValueType::Uint(_) => unsigned(number_from(from, v)),
        ValueType::Logic => Value::Logic(digit_of_truth(truth(v))),
        ValueType::Vector(width) => Value::Vector(vector_from(width, from, v)),
        ValueType::Time | ValueType::Process | ValueType::Payload => v,
    }
}

fn truth_from(from: ValueType, v: Value) -> bool
    ensures { result ≡ spec.truth_from from v }
{
    match from {
        ValueType::Bool => truth(v),
        ValueType::Int(_) | ValueType::Uint(_) => bits(v) != 0,
        ValueType::Logic => is_one_digit(first_digit(v)),
        ValueType::Vector(_) | ValueType::Time | ValueType::Process | ValueType::Payload => false,
    }
}

fn is_one_digit(d: Digit) -> bool
    ensures { result ≡ spec.is_one_digit d }
{
    match d {
        Digit::One => true,
        Digit::Zero | Digit::Z | Digit::X => false,
    }
}

fn digit_of_truth(b: bool) -> Digit
    ensures { result ≡ spec.digit_of_truth b }
{
    if b { Digit::One } else { Digit::Zero }
}

fn number_from(from: ValueType, v: Value) -> u64
    ensures { result ≡ spec.number_from from v }
{
    match from {
        ValueType::Bool => u64::from(truth(v)),
        ValueType::Int(_) | ValueType::Uint(_) => bits(v),
        ValueType::Logic | ValueType::Vector(_) => number_of_digits(digits_of(v)),
        ValueType::Time | ValueType::Process | ValueType::Payload => 0,
    }
}

// The number that digits stand for in base 2, where each but 1 counts as 0.
fn number_of_digits(digits: Option<Lv>) -> u64
    ensures { result ≡ value_of (listed digits) }
{
    match digits {
        Some(v) => v.number(),
        None => 0,
    }
}

fn vector_from(width: u8, from: ValueType, v: Value) -> Lv
    ensures { result ≡ lv_of (spec.digits_from width from v) }
{
    match from {
        ValueType::Int(_) | ValueType::Uint(_) => vector_of_bits(width, bits(v)),
        ValueType::Logic | ValueType::Vector(_) => resized(width, digits_of(v)),
        ValueType::Bool | ValueType::Time | ValueType::Process | ValueType::Payload => vector(None),
    }
}

// The lowest bits of a number as digits, at any width.
fn vector_of_bits(width: u8, n: u64) -> Lv
    ensures { result ≡ lv_of (binary_digits width n) }
{
    vector_of_digits();
    if width == 0 {
        return vector(None);
    }
    Lv::of_bits(width.min(64), n)
}

// Digits at any other width: cut above, or filled with 0 there.
fn resized(width: u8, digits: Option<Lv>) -> Lv
    ensures { result ≡ lv_of (resized width (listed digits)) }
{
    vector_of_digits();
    if width == 0 {
        return vector(None);
    }
    match digits {
        Some(v) => v.resize(width.min(64)),
        None => Lv::filled(width.min(64), Digit::Zero),
    }
}
