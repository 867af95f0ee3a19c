ghost use Rattle.std.specs.Prelude.{◌≡◌, ◌↔◌, IsTrue};
ghost use Rattle.logic_values.specs.SameValue as spec;

use super::kinds::{Digit, Value};

fn digit_number(digit: Digit) -> u8
    ensures { result ≡ spec.digit_number digit }
{
    match digit {
        Digit::Zero => 0,
        Digit::One => 1,
        Digit::Z => 2,
        Digit::X => 3,
    }
}

fn is_same_handle(a: Option<u32>, b: Option<u32>) -> bool
    ensures { result ≡ spec.is_same_handle a b }
{
    match (a, b) {
        (None, None) => true,
        (Some(a), Some(b)) => a == b,
        _ => false,
    }
}

/// Whether two values are the same: of one kind, and equal in every part.
#[inline(always)]
pub fn is_same(a: Value, b: Value) -> bool
    ensures { result ≡ spec.is_same a b }
{
    match (a, b) {
        (Value::Bool(a), Value::Bool(b)) => a == b,
        (Value::Int { width: v, bits: a }, Value::Int { width: w, bits: b }) => v == w && a == b,
        (Value::Uint { width: v, bits: a }, Value::Uint { width: w, bits: b }) => v == w && a == b,
        (Value::Logic(a), Value::Logic(b)) => digit_number(a) == digit_number(b),
        (Value::Vector(a), Value::Vector(b)) => {
            a.width == b.width && a.ones == b.ones && a.unknown == b.unknown
        }
        (Value::Moment(a), Value::Moment(b)) => a == b,
        (Value::Handle(a), Value::Handle(b)) => is_same_handle(a, b),
        (Value::Pay(a), Value::Pay(b)) => is_same_handle(a, b),
        _ => false,
    }
}
