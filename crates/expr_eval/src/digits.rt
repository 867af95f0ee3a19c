//! Digits and bits of a value, by their places.
ghost use Rattle.std.specs.Prelude.{◌≡◌, ◌+◌, ◌-◌, ◌++◌, Ok, drop, take, slice_get};
ghost use Rattle.sim_model.specs.LogicValues.declared.kinds.Value.TheVariants as value;
ghost use Rattle.sim_model.specs.LogicValues.Digits.{digits};
ghost use Rattle.sim_model.specs.LogicValues.Planes.{lv_of};
ghost use Rattle.sim_model.specs.Values as spec;
ghost use Rattle.expr_eval.specs.Vectors.{listed};

use crate::values::{bits, digits_of, unsigned, vector};
use flat_design::{RunFault, ValueType};
use sim_model::logic_values_api::{
    Digit, Lv, Sign, Value, concat, cut, digit, shr, slice, vector_of_digits,
};

/// The digit, or the bit, of a place.
pub(crate) fn digit_at(t: ValueType, v: Value, i: u64) -> Result<Value, RunFault>
    ensures { result ≡ spec.digit_at t v i }
{
    match t {
        ValueType::Int(_) | ValueType::Uint(_) => bit_at(bits(v), i),
        ValueType::Vector(width) => vector_digit(width, digits_of(v), i),
        ValueType::Bool
        | ValueType::Logic
        | ValueType::Time
        | ValueType::Process
        | ValueType::Payload => Ok(v),
    }
}

// The bit of a place of a number.
fn bit_at(n: u64, i: u64) -> Result<Value, RunFault>
    ensures { result ≡ spec.on_ok (spec.index_within i 64) (λ k. Ok (spec.bool_value (spec.bit_at n k))) }
{
    if i < 64 {
        Ok(Value::Bool((n >> i) & 1 == 1))
    } else {
        Err(RunFault::IndexRange { index: i, size: 64 })
    }
}

// The digit of a place below the width.
fn vector_digit(width: u8, digits: Option<Lv>, i: u64) -> Result<Value, RunFault>
    ensures { result ≡ spec.on_ok (spec.index_within i width) (λ k. Ok (spec.digit_or_x (slice_get (listed digits) k))) }
{
    if i >= u64::from(width) {
        return Err(RunFault::IndexRange {
            index: i,
            size: u64::from(width),
        });
    }
    Ok(Value::Logic(digit_or_x(digits, i)))
}

// The digit of a place; X where the digits end before it.
#[tactic(auto, using(crate::proofs::DigitLaws::no_digit_past))]
fn digit_or_x(digits: Option<Lv>, i: u64) -> Digit
    ensures { value.Logic result ≡ spec.digit_or_x (slice_get (listed digits) i) }
{
    match digits {
        Some(v) => {
            if i < u64::from(v.width) {
                digit(v, i as u8)
            } else {
                Digit::X
            }
        }
        None => Digit::X,
    }
}

/// The bits, or the digits, from the first place down to the second.
pub(crate) fn digits_between(t: ValueType, v: Value, high: u8, low: u8) -> Value
    ensures { result ≡ spec.digits_between t v high low }
{
    match t {
        ValueType::Int(_) | ValueType::Uint(_) => unsigned(bits_between(bits(v), high, low)),
        ValueType::Vector(_) => Value::Vector(vector(part(digits_of(v), high, low))),
        ValueType::Bool
        | ValueType::Logic
        | ValueType::Time
        | ValueType::Process
        | ValueType::Payload => v,
    }
}

fn bits_between(n: u64, high: u8, low: u8) -> u64
    ensures { result ≡ spec.bits_between n high low }
{
    if high < low {
        return 0;
    }
    let width = (high - low).min(63) + 1;
    cut(
        Sign::Unsigned,
        width,
        shr(Sign::Unsigned, n, u64::from(low)),
    )
}

// The digits from the first place down to the second, as far as there are any.
#[tactic(auto, using(crate::proofs::DigitLaws::no_part_between, crate::proofs::DigitLaws::no_part_past, crate::proofs::DigitLaws::part_is))]
fn part(digits: Option<Lv>, high: u8, low: u8) -> Option<Lv>
    ensures { listed result ≡ take (high + 1 - low) (drop low (listed digits)) }
{
    if high < low {
        return None;
    }
    match digits {
        Some(v) => {
            if low < v.width {
                Some(slice(v, high.min(v.width - 1), low))
            } else {
                None
            }
        }
        None => None,
    }
}

/// Two vectors as one, the first above the second.
pub(crate) fn joined_digits(upper: Value, lower: Value) -> Value
    ensures { result ≡ spec.joined_digits upper lower }
{
    match (digits_of(upper), digits_of(lower)) {
        (Some(a), Some(b)) => Value::Vector(joined(a, b)),
        (Some(a), None) => Value::Vector(vector(Some(a))),
        (None, b) => Value::Vector(vector(b)),
    }
}

// Two vectors as one, as far as there are places.
fn joined(upper: Lv, lower: Lv) -> Lv
    ensures { result ≡ lv_of (digits lower ++ digits upper) }
{
    vector_of_digits();
    let room = 64 - lower.width;
    if room == 0 {
        return lower;
    }
    concat(upper.resize(upper.width.min(room)), lower)
}
