ghost use Rattle.std.specs.Prelude.{◌≡◌, option_map};
ghost use Rattle.check_names.specs.LogicValues.Digits.{digits};
ghost use Rattle.check_names.specs.ModelRules.Types as spec;
ghost use Rattle.check_names.specs.ModelRules.Operators.{seen_as as spec_seen_as};

use super::operators::{digit_type, is_integer, seen_as};
use check_names::logic_values_api::Lv;
use check_names::model_rules_api::{ExpressionType, Meaning, Seen, ValueMember};
use check_names::sim_time_api::{Unit, picoseconds_of};
use check_names::{member_type, row_of, value_member};
use flat_design::ValueType;

/// The type that a value of this type has in an expression, where it is known.
fn seen_if(value_type: Option<ValueType>) -> Option<ExpressionType>
    ensures { result ≡ option_map spec_seen_as value_type }
{
    match value_type {
        None => None,
        Some(value_type) => Some(seen_as(value_type)),
    }
}

/// The type of what is read by a name: a variable, a signal or a port of one, and a process.
fn value_of(meaning: Meaning) -> Option<ExpressionType>
    ensures { result ≡ spec.value_of meaning }
{
    match meaning {
        Meaning::Signal(t) | Meaning::Variable(t) | Meaning::In(t, _) | Meaning::Out(t, _) => {
            seen_if(t)
        }
        Meaning::Resolved => Some(ExpressionType::Logic),
        Meaning::Clock => Some(ExpressionType::Bool),
        Meaning::Process => Some(ExpressionType::Process),
        _ => None,
    }
}

/// The type of what an expression stands for, where that is a value.
pub fn type_seen(seen: Seen) -> Option<ExpressionType>
    ensures { result ≡ spec.type_seen seen }
{
    match seen {
        Seen::Nothing | Seen::Bytes(_) => None,
        Seen::Object(meaning) => value_of(meaning),
        Seen::Value(e) => Some(e),
    }
}

/// A value, where its type is known.
pub fn value_if(e: Option<ExpressionType>) -> Seen
    ensures { result ≡ spec.value_if e }
{
    match e {
        None => Seen::Nothing,
        Some(e) => Seen::Value(e),
    }
}

/// An object, where it is known.
pub fn object_if(meaning: Option<Meaning>) -> Seen
    ensures { result ≡ spec.object_if meaning }
{
    match meaning {
        None => Seen::Nothing,
        Some(meaning) => Seen::Object(meaning),
    }
}

/// How many places a port has; nothing else has any.
pub fn places(meaning: Meaning) -> Option<u64>
    ensures { result ≡ spec.places meaning }
{
    match meaning {
        Meaning::In(_, size)
        | Meaning::Out(_, size)
        | Meaning::FifoIn(_, size)
        | Meaning::FifoOut(_, size)
        | Meaning::MutexPort(size)
        | Meaning::SemaphorePort(size) => Some(size),
        _ => None,
    }
}

/// Whether a name stands for a port.
pub fn is_port(meaning: Meaning) -> bool
    ensures { result ≡ spec.is_port meaning }
{
    places(meaning).is_some()
}

/// Whether a place that is written is below the size.
pub fn is_below(n: u64, size: Option<u64>) -> bool
    ensures { result ≡ spec.is_below n size }
{
    match size {
        None => false,
        Some(size) => n < size,
    }
}

/// Whether a time literal is below 2^64 picoseconds.
pub fn is_time_literal(n: u64, unit: Unit) -> bool
    ensures { result ≡ spec.is_time_literal n unit }
{
    picoseconds_of(n, unit).is_some()
}

/// The type of a logic literal.
pub fn logic_type(v: Lv) -> ExpressionType
    ensures { result ≡ spec.logic_type (digits v) }
{
    if v.width == 1 {
        ExpressionType::Logic
    } else {
        ExpressionType::Vector(v.width)
    }
}

/// What a member stands for, where it is a value or bytes.
fn seen_member(member: Option<ValueMember>) -> Seen
    ensures { result ≡ spec.seen_member member }
{
    match member {
        None => Seen::Nothing,
        Some(ValueMember::One(member)) => Seen::Value(member_type(member)),
        Some(ValueMember::Many(bytes)) => Seen::Bytes(bytes),
    }
}

/// What a member of an object stands for by the table.
pub fn member_seen(seen: Seen, name: &[u8]) -> Seen
    ensures { result ≡ spec.member_seen seen name.now }
{
    match seen {
        Seen::Object(meaning) => match row_of(meaning) {
            None => Seen::Nothing,
            Some(row) => seen_member(value_member(row, name)),
        },
        Seen::Nothing | Seen::Bytes(_) | Seen::Value(_) => Seen::Nothing,
    }
}

/// Whether an index reaches a byte: of a memory, or of a payload.
pub fn is_array(seen: Seen) -> bool
    ensures { result ≡ spec.is_array seen }
{
    matches!(seen, Seen::Object(Meaning::Memory) | Seen::Bytes(_))
}

/// The type of an element: of a memory or of a payload an unsigned byte, of a value a digit.
fn element_type(of: Seen) -> Option<ExpressionType>
    ensures { result ≡ spec.element_type of }
{
    if is_array(of) {
        return Some(ExpressionType::Unsigned);
    }
    match type_seen(of) {
        None => None,
        Some(e) => digit_type(e),
    }
}

/// Whether it is an integer, where its type is known.
pub fn is_integer_type(e: Option<ExpressionType>) -> bool
    ensures { result ≡ spec.is_integer_type e }
{
    match e {
        None => false,
        Some(e) => is_integer(e),
    }
}

/// What an element stands for.
pub fn element_seen(of: Seen, index: Option<ExpressionType>) -> Seen
    ensures { result ≡ spec.element_seen of index }
{
    if is_integer_type(index) {
        value_if(element_type(of))
    } else {
        Seen::Nothing
    }
}
