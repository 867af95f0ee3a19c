ghost use Rattle.std.specs.Prelude.{◌≡◌};
ghost use Rattle.check_names.specs.ModelRules.Names as names;
ghost use Rattle.check_names.specs.ModelRules.Values as values;
ghost use Rattle.check_names.specs.ModelRules.Operators.{is_integer as is_integer_in};
ghost use Rattle.check_expressions.specs.Findings.{faults_of};
ghost use Rattle.check_expressions.specs.ConstructFindings as spec;

use super::findings::{Finding, told_if};
use crate::{is_below, is_integer, is_integer_type, is_port, is_unmet, places};
use check_names::model_rules_api::{ExpressionType, Meaning, Need};
use model_tree::Kind;

/// Which channel of a port.
#[derive(Clone, Copy)]
pub enum At {
    /// None is written.
    First,
    /// A number.
    Number(u64),
    /// A computed place, with its type where that is known.
    Computed(Option<ExpressionType>),
}

fn is_static(need: Need) -> bool
    ensures { result ≡ names.is_static need }
{
    matches!(need, Need::StaticEvent | Need::StaticObject)
}

/// Whether a place stands on something other than a port, or is computed where it has to be a number.
fn is_wrong_at(need: Need, at: At, meaning: Option<Meaning>) -> bool
    ensures { result ≡ spec.is_wrong_at need at meaning }
{
    match (at, meaning) {
        (_, None) | (At::First, Some(_)) => false,
        (At::Number(_), Some(meaning)) => !is_port(meaning),
        (At::Computed(_), Some(meaning)) => !is_port(meaning) || is_static(need),
    }
}

/// Whether a type that is known is no integer.
pub(crate) fn is_no_integer(e: Option<ExpressionType>) -> bool
    ensures { result ≡ values.fails is_integer_in e }
{
    match e {
        None => false,
        Some(e) => !is_integer(e),
    }
}

fn differs_at(at: At) -> bool
    ensures { result ≡ spec.differs_at at }
{
    match at {
        At::First | At::Number(_) => false,
        At::Computed(e) => is_no_integer(e),
    }
}

fn is_past(n: u64, size: Option<u64>) -> bool
    ensures { result ≡ values.is_past n size }
{
    match size {
        None => false,
        Some(size) => n >= size,
    }
}

/// Whether a place that is written is past the size of the port.
fn wide_at(at: At, meaning: Option<Meaning>) -> bool
    ensures { result ≡ spec.wide_at at meaning }
{
    match (at, meaning) {
        (At::Number(n), Some(meaning)) => is_past(n, places(meaning)),
        _ => false,
    }
}

/// The first broken rule at a channel, by what its name stands for.
pub(crate) fn channel_finding<'a>(
    around: &'a [u8],
    need: Need,
    line: u32,
    name: &'a [u8],
    at: At,
    meaning: Option<Meaning>,
) -> Option<Finding<'a>>
    ensures { faults_of result ≡ spec.channel_fault around.now need line name.now at meaning }
{
    if meaning.is_none() {
        return told_if(true, Kind::UnknownName, line, name);
    }
    if is_unmet(need, meaning) {
        return told_if(true, Kind::WrongKind, line, name);
    }
    if is_wrong_at(need, at, meaning) {
        return told_if(true, Kind::WrongKind, line, name);
    }
    if differs_at(at) {
        return told_if(true, Kind::TypeDiffers, line, around);
    }
    told_if(wide_at(at, meaning), Kind::WidthRange, line, around)
}

/// The channel at a place of a port, where there is one.
pub(crate) fn object_at(at: At, meaning: Option<Meaning>) -> Option<Meaning>
    ensures { result ≡ spec.object_at at meaning }
{
    let meaning = meaning?;
    let is_there = match at {
        At::First => true,
        At::Number(n) => is_below(n, places(meaning)),
        At::Computed(e) => is_port(meaning) && is_integer_type(e),
    };
    if is_there { Some(meaning) } else { None }
}
