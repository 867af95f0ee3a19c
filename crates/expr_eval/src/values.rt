//! A value as what an operation takes it for: a truth value, a number, digits, a time or a handle.
ghost use Rattle.std.specs.Prelude.{◌≡◌, IfSome};
ghost use Rattle.sim_model.specs.LogicValues.Integers.{cut_of};
ghost use Rattle.sim_model.specs.LogicValues.Planes.{lv_of};
ghost use Rattle.sim_model.specs.Values as spec;
ghost use Rattle.expr_eval.specs.Vectors.{listed};

use flat_design::ValueType;
use sim_model::logic_values_api::{Digit, Lv, Sign, Value, cut, digit, vector_of_digits};
use sim_model::sim_time_api::Time;

/// A truth value; any other counts as false.
#[inline(always)]
pub fn truth(value: Value) -> bool
    ensures { result ≡ spec.truth value }
{
    match value {
        Value::Bool(b) => b,
        _ => false,
    }
}

/// The 64 bits of a number; any other value counts as 0.
#[inline(always)]
pub fn bits(value: Value) -> u64
    ensures { result ≡ spec.bits value }
{
    match value {
        Value::Int { bits, .. } | Value::Uint { bits, .. } => bits,
        _ => 0,
    }
}

/// A time; any other value counts as time 0.
pub fn moment(value: Value) -> Time
    ensures { result.0 ≡ spec.moment value }
{
    match value {
        Value::Moment(picoseconds) => Time(picoseconds),
        _ => Time(0),
    }
}

/// The handle of a process; any other value counts as an empty one.
pub fn process_handle(value: Value) -> Option<u32>
    ensures { result ≡ spec.process_handle value }
{
    match value {
        Value::Handle(serial) => serial,
        _ => None,
    }
}

/// The handle of a payload; any other value counts as an empty one.
pub fn payload_handle(value: Value) -> Option<u32>
    ensures { result ≡ spec.payload_handle value }
{
    match value {
        Value::Pay(number) => number,
        _ => None,
    }
}

/// The value in an expression: a number has 64 bits there.
#[inline(always)]
pub fn widened(value: Value) -> Value
    ensures { result ≡ spec.widened value }
{
    match value {
        Value::Int { bits, .. } => Value::Int { width: 64, bits },
        Value::Uint { bits, .. } => Value::Uint { width: 64, bits },
        other => other,
    }
}

/// The value as a target of this type keeps it: a number is cut to the target's width, and extended by its sign.
#[inline(always)]
pub fn cut_to(target: ValueType, value: Value) -> Value
    ensures { result ≡ spec.cut_to target value }
{
    match target {
        ValueType::Int(width) => Value::Int {
            width,
            bits: cut_bits(Sign::Signed, width, bits(value)),
        },
        ValueType::Uint(width) => Value::Uint {
            width,
            bits: cut_bits(Sign::Unsigned, width, bits(value)),
        },
        ValueType::Bool
        | ValueType::Logic
        | ValueType::Vector(_)
        | ValueType::Time
        | ValueType::Process
        | ValueType::Payload => value,
    }
}

// The number of the lowest bits, at any width.
#[inline(always)]
fn cut_bits(s: Sign, width: u8, n: u64) -> u64
    ensures { result ≡ cut_of s width n }
{
    if width == 0 {
        0
    } else if width > 64 {
        n
    } else {
        cut(s, width, n)
    }
}

/// Whether values of this type are numbers.
#[inline(always)]
pub(crate) fn is_number(value_type: ValueType) -> bool {
    matches!(value_type, ValueType::Int(_) | ValueType::Uint(_))
}

/// How the bits of a number of this type are read.
#[inline(always)]
pub(crate) fn sign_of(value_type: ValueType) -> Sign
    ensures { result ≡ spec.sign_of value_type }
{
    match value_type {
        ValueType::Int(_) => Sign::Signed,
        ValueType::Uint(_)
        | ValueType::Bool
        | ValueType::Logic
        | ValueType::Vector(_)
        | ValueType::Time
        | ValueType::Process
        | ValueType::Payload => Sign::Unsigned,
    }
}

/// A signed number of 64 bits.
#[inline(always)]
pub(crate) fn signed(bits: u64) -> Value
    ensures { result ≡ spec.signed bits }
{
    Value::Int { width: 64, bits }
}

/// An unsigned number of 64 bits.
#[inline(always)]
pub(crate) fn unsigned(bits: u64) -> Value
    ensures { result ≡ spec.unsigned bits }
{
    Value::Uint { width: 64, bits }
}

/// A number of 64 bits with this sign.
#[inline(always)]
pub(crate) fn signed_as(s: Sign, bits: u64) -> Value
    ensures { result ≡ spec.signed_as s bits }
{
    match s {
        Sign::Signed => signed(bits),
        Sign::Unsigned => unsigned(bits),
    }
}

/// The bits of a number of 64 bits with this sign; any other value has none.
#[inline(always)]
pub(crate) fn number_of(s: Sign, value: Value) -> Option<u64>
    ensures { IfSome result (λ n. value ≡ spec.signed_as s n) }
{
    match (s, value) {
        (Sign::Signed, Value::Int { width: 64, bits }) => Some(bits),
        (Sign::Unsigned, Value::Uint { width: 64, bits }) => Some(bits),
        _ => None,
    }
}

/// The digits of a value, where it has any.
pub(crate) fn digits_of(value: Value) -> Option<Lv>
    ensures { listed result ≡ spec.digit_list value }
{
    match value {
        Value::Logic(d) => Some(Lv::single(d)),
        Value::Vector(v) => Some(v),
        _ => None,
    }
}

/// The digit of place 0; X where there is none.
pub(crate) fn first_digit(value: Value) -> Digit
    ensures { result ≡ spec.one_digit (spec.digit_list value) }
{
    match value {
        Value::Logic(d) => d,
        Value::Vector(v) => digit(v, 0),
        _ => Digit::X,
    }
}

/// The vector of these digits: that of none is one X.
pub(crate) fn vector(digits: Option<Lv>) -> Lv
    ensures { result ≡ lv_of (listed digits) }
{
    vector_of_digits();
    match digits {
        Some(v) => v,
        None => Lv::single(Digit::X),
    }
}
