ghost use Rattle.std.specs.Prelude.{◌≡◌};
ghost use Rattle.std.specs.Option.{option_or};
ghost use Rattle.model_tree.specs.Views.{expression_of};
ghost use Rattle.model_tree.specs.declared.faults.Kind.TheVariants as kind;
ghost use Rattle.check_names.specs.ModelRules.Types.{seen_of};
ghost use Rattle.check_names.specs.ModelRules.declared.meanings.Row.TheVariants as row;
ghost use Rattle.check_names.specs.ModelRules.Names as names;
ghost use Rattle.check_names.specs.Places.{scope_of};
ghost use Rattle.check_expressions.specs.Findings.{faults_of, told};
ghost use Rattle.check_expressions.specs.ConstructFindings as spec;

use super::findings::{Finding, told_if};
use check_names::model_rules_api::{Meaning, Row, Seen, ValueMember};
use check_names::{Place, event_member, has_edges, row_of, value_member};
use flat_design::{EventMember, ValueType};
use model_tree::{Expression, Kind};

/// What stands in front of a member's dot.
#[derive(Clone, Copy)]
pub(crate) enum Front<'a> {
    /// Something that is broken itself.
    Broken,
    /// A name, with what it stands for.
    Named(&'a [u8], Meaning),
    /// A value of its own, and the name of what it is made of.
    Computed(&'a [u8]),
}

/// How a member is used.
#[derive(Clone, Copy)]
pub enum MemberUse {
    /// It is read, with an index or without one.
    Value(bool),
    /// It is an event.
    Event,
    /// It is assigned, and whether it can not be.
    Assigned(bool),
}

/// The name of what a value is made of; none where it is made of no object.
fn object_name(expression: &Expression) -> &[u8]
    ensures { result.now ≡ names.object_name (expression_of expression.now) }
{
    match expression {
        Expression::Number(_, _)
        | Expression::Time(_, _, _)
        | Expression::Logic(_, _)
        | Expression::Truth(_, _)
        | Expression::Now(_)
        | Expression::Myself(_)
        | Expression::Constant(_, _) => &[],
        Expression::Named(_, name)
        | Expression::Placed(_, name, _)
        | Expression::PlacedBy(_, name, _)
        | Expression::Member(_, name) => name.bytes(),
        Expression::Paren(_, inner)
        | Expression::Convert(_, _, inner)
        | Expression::ToVector(_, _, inner)
        | Expression::Concat(_, inner, _)
        | Expression::Element(inner, _)
        | Expression::Slice(inner, _, _)
        | Expression::Unary(_, _, inner)
        | Expression::Binary(_, inner, _) => object_name(inner),
    }
}

fn named_front<'a>(name: &'a [u8], meaning: Option<Meaning>) -> Front<'a>
    ensures { spec.head_seen result ≡ names.named_head name.now meaning }
{
    match meaning {
        None => Front::Broken,
        Some(meaning) => Front::Named(name, meaning),
    }
}

fn computed_front(expression: &Expression, seen: Seen) -> Front<'_>
    ensures { spec.head_seen result ≡ names.computed_head (names.object_name (expression_of expression.now)) seen }
{
    match seen {
        Seen::Nothing => Front::Broken,
        Seen::Object(_) | Seen::Bytes(_) | Seen::Value(_) => {
            Front::Computed(object_name(expression))
        }
    }
}

/// What stands in front of a dot, by what that expression stands for.
pub(crate) fn front_of<'a>(place: &Place<'a>, expression: &'a Expression, seen: Seen) -> Front<'a>
    requires { seen ≡ seen_of (scope_of place.now) (expression_of expression.now) }
    ensures { spec.head_seen result ≡ names.head_of (scope_of place.now) (expression_of expression.now) }
{
    match expression {
        Expression::Named(_, name)
        | Expression::Placed(_, name, _)
        | Expression::PlacedBy(_, name, _) => {
            named_front(name.bytes(), place.meaning(name.bytes()))
        }
        Expression::Number(_, _)
        | Expression::Time(_, _, _)
        | Expression::Logic(_, _)
        | Expression::Truth(_, _)
        | Expression::Now(_)
        | Expression::Myself(_)
        | Expression::Constant(_, _)
        | Expression::Paren(_, _)
        | Expression::Convert(_, _, _)
        | Expression::ToVector(_, _, _)
        | Expression::Concat(_, _, _)
        | Expression::Member(_, _)
        | Expression::Element(_, _)
        | Expression::Slice(_, _, _)
        | Expression::Unary(_, _, _)
        | Expression::Binary(_, _, _) => computed_front(expression, seen),
    }
}

/// Whether a row has a member in neither column.
fn row_lacks(of: Row, name: &[u8]) -> bool
    ensures { result ≡ names.row_lacks of name.now }
{
    value_member(of, name).is_none() && event_member(of, name).is_none()
}

/// Whether a member is no value, or bytes without an index.
fn is_no_value(indexed: bool, member: Option<ValueMember>) -> bool
    ensures { result ≡ names.is_no_value indexed member }
{
    match member {
        None => true,
        Some(ValueMember::One(_)) => false,
        Some(ValueMember::Many(_)) => !indexed,
    }
}

fn has_no_edges(value_type: Option<ValueType>) -> bool
    ensures { result ≡ names.lacks_edges (row.Signals value_type) }
{
    match value_type {
        None => false,
        Some(value_type) => !has_edges(value_type),
    }
}

fn lacks_edges(of: Row) -> bool
    ensures { result ≡ names.lacks_edges of }
{
    match of {
        Row::Signals(value_type) => has_no_edges(value_type),
        Row::Fifos | Row::Semaphores | Row::Processes | Row::Payloads | Row::Keepers => false,
    }
}

/// Whether a member is no event; edges are those of truth values and logic digits.
fn is_no_event(of: Row, member: Option<EventMember>) -> bool
    ensures { result ≡ names.is_no_event of member }
{
    match member {
        None => true,
        Some(EventMember::Posedge | EventMember::Negedge) => lacks_edges(of),
        Some(
            EventMember::Own
            | EventMember::DataWritten
            | EventMember::DataRead
            | EventMember::Terminated
            | EventMember::Reset,
        ) => false,
    }
}

fn is_wrong_member(used: MemberUse, name: &[u8], of: Row) -> bool
    ensures { result ≡ spec.is_wrong_member used name.now of }
{
    match used {
        MemberUse::Value(indexed) => is_no_value(indexed, value_member(of, name)),
        MemberUse::Event => is_no_event(of, event_member(of, name)),
        MemberUse::Assigned(nowhere) => nowhere,
    }
}

/// The first broken rule at a member of what a name stands for.
pub fn member_finding<'a>(
    used: MemberUse,
    line: u32,
    of: &'a [u8],
    name: &'a [u8],
    meaning: Option<Meaning>,
) -> Option<Finding<'a>>
    ensures { faults_of result ≡ spec.member_fault used line of.now name.now meaning }
{
    match meaning {
        None => None,
        Some(meaning) => match row_of(meaning) {
            None => told_if(true, Kind::WrongKind, line, of),
            Some(row) if row_lacks(row, name) => told_if(true, Kind::UnknownName, line, name),
            Some(row) => told_if(
                is_wrong_member(used, name, row),
                Kind::WrongKind,
                line,
                name,
            ),
        },
    }
}

/// The first broken rule at a member behind a dot.
pub(crate) fn dot_finding<'a>(
    indexed: bool,
    line: u32,
    name: &'a [u8],
    front: Front<'a>,
) -> Option<Finding<'a>>
    ensures { faults_of result ≡ option_or (told kind.UnknownName line (names.unknown_of_head name.now (spec.head_seen front.entry))) (told kind.WrongKind line (names.wrong_of_head indexed name.now (spec.head_seen front.entry))) }
{
    match front {
        Front::Broken => None,
        Front::Named(of, meaning) => {
            member_finding(MemberUse::Value(indexed), line, of, name, Some(meaning))
        }
        Front::Computed(of) => Some(Finding {
            kind: Kind::WrongKind,
            line,
            name: of,
        }),
    }
}
