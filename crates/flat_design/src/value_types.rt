ghost use Rattle.std.specs.Prelude.{◌≡◌};
ghost use Rattle.flat_design.specs.ValueTypes as spec;

use model_tree::logic_values_api::{Digit, Lv, Value, vector_of_digits};

/// A type of values. Widths are from 1 to 64.
#[derive(Clone, Copy, Debug, PartialEq, Eq)]
pub enum ValueType {
    /// `bool`
    Bool,
    /// `int<W>`
    Int(u8),
    /// `uint<W>`
    Uint(u8),
    /// `logic`
    Logic,
    /// `lv<W>`
    Vector(u8),
    /// `time`
    Time,
    /// `process`
    Process,
    /// `payload`
    Payload,
}

/// The vector of so many digits that are all unknown.
fn unknown_digits(width: u8) -> Lv
    ensures { result ≡ spec.unknown_digits width }
{
    vector_of_digits();
    if width == 0 {
        Lv::filled(1, Digit::X)
    } else if width > 64 {
        Lv::filled(64, Digit::X)
    } else {
        Lv::filled(width, Digit::X)
    }
}

/// The value that a variable or a signal of this type has where none is given: false, 0, X, all X, time 0, or
/// an empty handle.
pub fn default_value(value_type: ValueType) -> Value
    ensures { result ≡ spec.default_value value_type }
{
    match value_type {
        ValueType::Bool => Value::Bool(false),
        ValueType::Int(width) => Value::Int { width, bits: 0 },
        ValueType::Uint(width) => Value::Uint { width, bits: 0 },
        ValueType::Logic => Value::Logic(Digit::X),
        ValueType::Vector(width) => Value::Vector(unknown_digits(width)),
        ValueType::Time => Value::Moment(0),
        ValueType::Process => Value::Handle(None),
        ValueType::Payload => Value::Pay(None),
    }
}
