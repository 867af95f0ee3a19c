ghost use Rattle.std.specs.Prelude.{◌≡◌, IfOk, option_map};
ghost use Rattle.model_tree.specs.Views.{channel_of as channel_seen, event_of as event_seen, place_of as place_seen};
ghost use Rattle.flat_design.specs.Code as code;
ghost use Rattle.code_rules.specs.Deeds as deeds;
ghost use Rattle.check_expressions.specs.CheckNames.Places.{scope_of};
ghost use Rattle.code_terms.specs.Channels as spec;

use super::named_terms::{declared_place, use_of};
use super::terms::term_code;
use super::values::number;
use check_expressions::check_names_api::{Place, event_member, row_of};
use code_rules::model_rules_api::Meaning;
use flat_design::{ChannelUse, EventMember, EventUse, Expr, StaticUse};
use model_tree::{Channel, Event, Name, Place as Spot};
use std::alloc::{AllocError, Global};

/// The code of the place of a port's channel.
fn place_code(
    alloc: Global,
    place: &Place<'_>,
    spot: &Spot,
) -> Result<Option<Option<Expr>>, AllocError>
    ensures { IfOk result (λ at. option_map (option_map code.term_of) at ≡ deeds.place_term (scope_of place.now) (place_seen spot.now)) }
{
    match spot {
        Spot::First => Ok(Some(None)),
        Spot::Number(n) => Ok(Some(Some(number(*n)))),
        Spot::Computed(e) => match term_code(alloc, place, e)? {
            None => Ok(None),
            Some(term) => Ok(Some(Some(term))),
        },
    }
}

/// The code of a channel that a statement names; none where its name is not declared or its place has no code.
pub fn channel_code(
    alloc: Global,
    place: &Place<'_>,
    channel: &Channel,
) -> Result<Option<ChannelUse>, AllocError>
    ensures { IfOk result (λ found. option_map code.channel_term found ≡ deeds.channel_term (scope_of place.now) (channel_seen channel.now)) }
{
    match declared_place(place, channel.name.bytes())? {
        None => Ok(None),
        Some(name) => match place_code(alloc, place, &channel.place)? {
            None => Ok(None),
            Some(at) => Ok(Some(ChannelUse { name, place: at })),
        },
    }
}

/// The event that a member is of an object, where it is one.
fn named_event(meaning: Option<Meaning>, member: &[u8]) -> Option<EventMember>
    ensures { result ≡ spec.named_event meaning member.now }
{
    match meaning {
        None => None,
        Some(meaning) => match row_of(meaning) {
            None => None,
            Some(row) => event_member(row, member),
        },
    }
}

/// Which event of an object is meant.
fn event_of(place: &Place<'_>, name: &[u8], member: &Option<Name>) -> Option<EventMember>
    ensures { result ≡ deeds.event_of (scope_of place.now) name.now member.now }
{
    match member {
        None => Some(EventMember::Own),
        Some(member) => named_event(place.meaning(name), member.bytes()),
    }
}

/// The code of an event that a statement names; none where its name, its place or its member has none.
pub fn event_code(
    alloc: Global,
    place: &Place<'_>,
    event: &Event,
) -> Result<Option<EventUse>, AllocError>
    ensures { IfOk result (λ found. option_map code.event_term found ≡ deeds.event_term (scope_of place.now) (event_seen event.now)) }
{
    let name = event.channel.name.bytes();
    match use_of(place, name)? {
        None => Ok(None),
        Some(used) => match place_code(alloc, place, &event.channel.place)? {
            None => Ok(None),
            Some(at) => match event_of(place, name, &event.member) {
                None => Ok(None),
                Some(member) => Ok(Some(EventUse {
                    name: used,
                    place: at,
                    event: member,
                })),
            },
        },
    }
}

/// The place of a port's channel that is no computed one.
fn static_place(spot: &Spot) -> Option<Option<u64>>
    ensures { result ≡ deeds.static_place (place_seen spot.now) }
{
    match spot {
        Spot::First => Some(None),
        Spot::Number(n) => Some(Some(*n)),
        Spot::Computed(_) => None,
    }
}

/// The code of an event of a static sensitivity; none where its name is not declared, its place is computed or its member
/// is none.
pub fn static_code(place: &Place<'_>, event: &Event) -> Result<Option<StaticUse>, AllocError>
    ensures { IfOk result (λ found. found ≡ deeds.static_use (scope_of place.now) (event_seen event.now)) }
{
    let name = event.channel.name.bytes();
    match declared_place(place, name)? {
        None => Ok(None),
        Some(declared) => match static_place(&event.channel.place) {
            None => Ok(None),
            Some(at) => match event_of(place, name, &event.member) {
                None => Ok(None),
                Some(member) => Ok(Some(StaticUse {
                    name: declared,
                    place: at,
                    event: member,
                })),
            },
        },
    }
}
