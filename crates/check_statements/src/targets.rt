ghost use Rattle.std.specs.Prelude.{◌≡◌, false, option_map, true};
ghost use Rattle.model_tree.specs.Views.{expression_of, target_of};
ghost use Rattle.check_actions.specs.ModelRules.Targets as targets;
ghost use Rattle.check_actions.specs.ModelRules.Names as names;
ghost use Rattle.flat_design.specs.Typed as typed;
ghost use Rattle.check_actions.specs.CheckNames.Places.{scope_of};

use check_actions::check_expressions_api::is_integer;
use check_actions::check_names_api::{Place, row_of, value_member};
use check_actions::model_rules_api::{Destination, Meaning, Row, ValueMember};
use check_actions::option_type;
use flat_design::{Member, PayloadField, ValueType};
use model_tree::Target;

/// The member of a payload that a name stands for, where its object is one.
fn member_assigned(meaning: Option<Meaning>, name: &[u8]) -> Option<ValueMember>
    ensures { result ≡ targets.member_assigned name.now meaning }
{
    let Some(meaning) = meaning else {
        return None;
    };
    match row_of(meaning) {
        Some(Row::Payloads) => value_member(Row::Payloads, name),
        _ => None,
    }
}

/// What a member of a payload is as a target, without an index.
fn to_field(reached: Option<ValueMember>) -> Destination
    ensures { result ≡ targets.to_field reached }
{
    match reached {
        Some(ValueMember::One(Member::Field(field))) => Destination::Field(field),
        _ => Destination::Nowhere,
    }
}

/// What a member of a payload is as a target, with an index.
fn to_byte(reached: Option<ValueMember>) -> Destination
    ensures { result ≡ targets.to_byte reached }
{
    match reached {
        Some(ValueMember::Many(bytes)) => Destination::Byte(bytes),
        _ => Destination::Nowhere,
    }
}

/// What a name is as a target, without a member.
fn to_name(meaning: Option<Meaning>, indexed: bool) -> Destination
    ensures plain { indexed ≡ false → result ≡ targets.to_variable meaning }
    ensures element { indexed ≡ true → result ≡ targets.to_element meaning }
{
    match meaning {
        Some(Meaning::Variable(t)) if !indexed => Destination::Variable(t),
        Some(Meaning::Memory) if indexed => Destination::Element,
        _ => Destination::Nowhere,
    }
}

/// What gets the value of an assignment.
pub fn destination(place: &Place<'_>, target: &Target) -> Destination
    ensures { result ≡ targets.destination_of (scope_of place.now) (target_of target.now) }
{
    let meaning = place.meaning(target.name.bytes());
    let indexed = target.index.is_some();
    match &target.member {
        None => to_name(meaning, indexed),
        Some(member) => {
            let reached = member_assigned(meaning, member.bytes());
            if indexed {
                to_byte(reached)
            } else {
                to_field(reached)
            }
        }
    }
}

/// Whether an assignment goes nowhere.
pub fn goes_nowhere(destination: Destination) -> bool
    ensures { result ≡ names.goes_nowhere destination }
{
    matches!(destination, Destination::Nowhere)
}

/// The type of a field of a payload.
fn field_type(field: PayloadField) -> ValueType
    ensures { result ≡ typed.field_type field }
{
    match field {
        PayloadField::Command | PayloadField::Status => ValueType::Int(32),
        PayloadField::Address => ValueType::Uint(64),
        PayloadField::Width => ValueType::Uint(32),
    }
}

fn destination_type(destination: Destination) -> Option<ValueType>
    ensures { result ≡ targets.destination_type destination }
{
    match destination {
        Destination::Nowhere => None,
        Destination::Variable(t) => t,
        Destination::Field(field) => Some(field_type(field)),
        Destination::Byte(_) | Destination::Element => Some(ValueType::Uint(8)),
    }
}

/// Whether an index is an integer, where one is written.
fn is_index(place: &Place<'_>, target: &Target) -> bool
    ensures { result ≡ targets.is_index (scope_of place.now) (option_map expression_of target.now.index) }
{
    if target.index.is_none() {
        return true;
    }
    match option_type(place, &target.index) {
        None => false,
        Some(e) => is_integer(e),
    }
}

/// The type of a target; none where its names or its index break a rule.
pub fn target_type(place: &Place<'_>, target: &Target) -> Option<ValueType>
    ensures { result ≡ targets.target_type (scope_of place.now) (target_of target.now) }
{
    if is_index(place, target) {
        destination_type(destination(place, target))
    } else {
        None
    }
}
