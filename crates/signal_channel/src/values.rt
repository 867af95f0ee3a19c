ghost use Rattle.std.specs.Prelude.{◌≡◌};
ghost use Rattle.signal_channel.specs.Edges as spec;

use logic_values::{Digit, Value};

// Whether the value is a 1, as an edge knows it.
#[inline(always)]
pub(crate) fn is_one(value: Value) -> bool
    ensures { result ≡ spec.is_one value }
{
    match value {
        Value::Bool(b) => b,
        Value::Logic(Digit::One) => true,
        _ => false,
    }
}

// Whether the value is a 0, as an edge knows it.
#[inline(always)]
pub(crate) fn is_zero(value: Value) -> bool
    ensures { result ≡ spec.is_zero value }
{
    match value {
        Value::Bool(b) => !b,
        Value::Logic(Digit::Zero) => true,
        _ => false,
    }
}
