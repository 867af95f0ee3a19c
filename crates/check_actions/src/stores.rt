ghost use Rattle.std.specs.Prelude.{◌≡◌, option_and_then};
ghost use Rattle.check_expressions.specs.ModelRules.Targets as spec;
ghost use Rattle.check_expressions.specs.CheckNames.Places.{scope_of};

use check_expressions::check_names_api::Place;
use check_expressions::model_rules_api::{ExpressionType, Meaning};
use check_expressions::{
    is_bool, is_integer, is_logic, is_payload, is_process, is_time, is_vector_of, seen_as,
};
use flat_design::ValueType;

/// Whether a target of this type takes such a value: an integer any integer, any other exactly its type.
fn takes(target: ValueType, e: ExpressionType) -> bool
    ensures { result ≡ spec.takes target e }
{
    match target {
        ValueType::Bool => is_bool(e),
        ValueType::Int(_) | ValueType::Uint(_) => is_integer(e),
        ValueType::Logic => is_logic(e),
        ValueType::Vector(width) => is_vector_of(width, e),
        ValueType::Time => is_time(e),
        ValueType::Process => is_process(e),
        ValueType::Payload => is_payload(e),
    }
}

/// Whether a value does not go into its target, where the types of both are known.
pub fn misfits(target: Option<ValueType>, e: Option<ExpressionType>) -> bool
    ensures { result ≡ spec.misfits target e }
{
    match (target, e) {
        (Some(target), Some(e)) => !takes(target, e),
        _ => false,
    }
}

fn same_type(one: ValueType, other: ValueType) -> bool
    ensures { result ≡ spec.same_type one other }
{
    match (one, other) {
        (ValueType::Int(width), ValueType::Int(other))
        | (ValueType::Uint(width), ValueType::Uint(other)) => width == other,
        (ValueType::Int(_) | ValueType::Uint(_), _) => false,
        (one, other) => takes(one, seen_as(other)),
    }
}

/// Whether two types differ, where both are known.
pub fn types_differ(one: Option<ValueType>, other: Option<ValueType>) -> bool
    ensures { result ≡ spec.differ one other }
{
    match (one, other) {
        (Some(one), Some(other)) => !same_type(one, other),
        _ => false,
    }
}

/// The type of what is written to a signal, a fifo, or a port of one.
fn written_type(meaning: Meaning) -> Option<ValueType>
    ensures { result ≡ spec.written_type meaning }
{
    match meaning {
        Meaning::Signal(t) | Meaning::Fifo(t) | Meaning::Out(t, _) | Meaning::FifoOut(t, _) => t,
        Meaning::Resolved => Some(ValueType::Logic),
        _ => None,
    }
}

/// The type of what is taken from a fifo, or a port of one.
fn taken_type(meaning: Meaning) -> Option<ValueType>
    ensures { result ≡ spec.taken_type meaning }
{
    match meaning {
        Meaning::Fifo(t) | Meaning::FifoIn(t, _) => t,
        _ => None,
    }
}

/// The type of what is put into a fifo, or a port of one.
fn put_type(meaning: Meaning) -> Option<ValueType>
    ensures { result ≡ spec.put_type meaning }
{
    match meaning {
        Meaning::Fifo(t) | Meaning::FifoOut(t, _) => t,
        _ => None,
    }
}

/// The type of what is written to a channel, where that is known.
pub(crate) fn written(channel: Option<Meaning>) -> Option<ValueType>
    ensures { result ≡ option_and_then spec.written_type channel }
{
    match channel {
        None => None,
        Some(meaning) => written_type(meaning),
    }
}

/// The type of what is taken from a channel, where that is known.
pub(crate) fn taken(channel: Option<Meaning>) -> Option<ValueType>
    ensures { result ≡ option_and_then spec.taken_type channel }
{
    match channel {
        None => None,
        Some(meaning) => taken_type(meaning),
    }
}

/// The type of what is put into a channel, where that is known.
pub(crate) fn put(channel: Option<Meaning>) -> Option<ValueType>
    ensures { result ≡ option_and_then spec.put_type channel }
{
    match channel {
        None => None,
        Some(meaning) => put_type(meaning),
    }
}

/// The type of the variable of a name, where it is one.
pub fn variable_named(place: &Place<'_>, name: &[u8]) -> Option<ValueType>
    ensures { result ≡ spec.variable_named (scope_of place.now) name.now }
{
    match place.meaning(name) {
        Some(Meaning::Variable(t)) => t,
        _ => None,
    }
}
