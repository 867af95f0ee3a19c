ghost use Rattle.std.specs.Prelude.{◌≡◌, ℕ, map, List, ◌∷◌, []};
ghost use Rattle.model_tree.specs.Views.{place_of, channel_of, event_of};
ghost use Rattle.parse_actions.specs.ChannelParse as spec;
ghost use Rattle.parse_expressions.specs.Parse.{Parses};

use model_tree::{Channel, Event, Name, ParseStop, Place, Symbol, Word};
use parse_expressions::{Cursor, group, push};
use std::alloc::Global;

/// A place by its number.
#[tactic(auto, unfolding(crate::specs::ChannelParse::numbered_place))]
fn numbered_place(tokens: &mut Cursor<'_>) -> Result<Place, ParseStop>
    ensures { Parses place_of spec.numbered_place tokens.old result tokens.new }
{
    let number = tokens.number()?;
    Ok(Place::Number(number))
}

/// A place by an expression in parentheses.
#[tactic(auto, unfolding(crate::specs::ChannelParse::computed_place))]
fn computed_place(alloc: Global, tokens: &mut Cursor<'_>, depth: u8) -> Result<Place, ParseStop>
    ensures { Parses place_of (spec.computed_place depth) tokens.old result tokens.new }
{
    let (_line, inner) = group(alloc, tokens, depth)?;
    Ok(Place::Computed(inner))
}

/// A place that is written.
fn some_place(alloc: Global, tokens: &mut Cursor<'_>, depth: u8) -> Result<Place, ParseStop>
    ensures { Parses place_of (spec.some_place depth) tokens.old result tokens.new }
{
    let _at = tokens.symbol(Symbol::At)?;
    if tokens.sees_number() {
        return numbered_place(tokens);
    }
    computed_place(alloc, tokens, depth)
}

/// The place, if one is written.
#[tactic(auto, unfolding(crate::specs::ChannelParse::place))]
fn place(alloc: Global, tokens: &mut Cursor<'_>, depth: u8) -> Result<Place, ParseStop>
    ensures { Parses place_of (spec.place depth) tokens.old result tokens.new }
{
    if tokens.sees_symbol(Symbol::At) {
        return some_place(alloc, tokens, depth);
    }
    Ok(Place::First)
}

/// Reads a channel, or a port's channel at a place. So many brackets may be opened in it.
#[tactic(auto, unfolding(crate::specs::ChannelParse::channel))]
pub fn channel(alloc: Global, tokens: &mut Cursor<'_>, depth: u8) -> Result<Channel, ParseStop>
    ensures { Parses channel_of (spec.channel depth) tokens.old result tokens.new }
{
    let (line, name) = tokens.named(alloc)?;
    let place = place(alloc, tokens, depth)?;
    Ok(Channel { line, name, place })
}

/// A member behind a dot.
fn some_member(alloc: Global, tokens: &mut Cursor<'_>) -> Result<Option<Name>, ParseStop>
    ensures { Parses (λ found. found) spec.some_member tokens.old result tokens.new }
{
    let _dot = tokens.symbol(Symbol::Dot)?;
    let name = tokens.name(alloc)?;
    Ok(Some(name))
}

/// Reads a dot and a member, if a dot comes.
#[tactic(auto, unfolding(crate::specs::ChannelParse::optional_member))]
pub fn optional_member(alloc: Global, tokens: &mut Cursor<'_>) -> Result<Option<Name>, ParseStop>
    ensures { Parses (λ found. found) spec.optional_member tokens.old result tokens.new }
{
    if tokens.sees_symbol(Symbol::Dot) {
        return some_member(alloc, tokens);
    }
    Ok(None)
}

/// Reads an event: a channel's own, or a member's. So many brackets may be opened in it.
#[tactic(auto, unfolding(crate::specs::ChannelParse::event))]
pub fn event(alloc: Global, tokens: &mut Cursor<'_>, depth: u8) -> Result<Event, ParseStop>
    ensures { Parses event_of (spec.event depth) tokens.old result tokens.new }
{
    let channel = channel(alloc, tokens, depth)?;
    let member = optional_member(alloc, tokens)?;
    Ok(Event { channel, member })
}

/// An event behind a comma.
#[tactic(auto, unfolding(crate::specs::ChannelParse::next_event))]
fn next_event(alloc: Global, tokens: &mut Cursor<'_>, depth: u8) -> Result<Event, ParseStop>
    ensures { Parses event_of (spec.next_event depth) tokens.old result tokens.new }
{
    let _comma = tokens.symbol(Symbol::Comma)?;
    event(alloc, tokens, depth)
}

/// Whether no comma comes.
pub(crate) fn at_no_comma(tokens: &Cursor<'_>) -> bool
    ensures { result ≡ spec.at_no_comma tokens.now }
{
    !tokens.sees_symbol(Symbol::Comma)
}

/// These events, and those behind commas that come.
#[tactic(auto, unfolding(crate::specs::ChannelParse::more_events))]
fn more_events(
    alloc: Global,
    tokens: &mut Cursor<'_>,
    depth: u8,
    first: Vec<Event>,
) -> Result<Vec<Event>, ParseStop>
    ensures { Parses (λ found. map event_of found.items) (spec.more_events depth (map event_of first.items)) tokens.old result tokens.new }
{
    let mut found = first;
    let turns = tokens.left() + 1;
    for turn in 0..turns {
        if at_no_comma(tokens) {
            return Ok(found);
        }
        let event = next_event(alloc, tokens, depth)?;
        push(&mut found, event)?;
    }
    Err(ParseStop::Syntax {
        line: tokens.line(),
    })
}

/// Reads events with commas between them. So many brackets may be opened in each.
#[tactic(auto, unfolding(crate::specs::ChannelParse::events))]
pub fn events(alloc: Global, tokens: &mut Cursor<'_>, depth: u8) -> Result<Vec<Event>, ParseStop>
    ensures { Parses (λ found. map event_of found.items) (spec.events depth) tokens.old result tokens.new }
{
    let mut found = Vec::new(alloc);
    let event = event(alloc, tokens, depth)?;
    push(&mut found, event)?;
    more_events(alloc, tokens, depth, found)
}

/// A static sensitivity that is written.
fn some_sensitivity(
    alloc: Global,
    tokens: &mut Cursor<'_>,
    depth: u8,
) -> Result<Vec<Event>, ParseStop>
    ensures { Parses (λ found. map event_of found.items) (spec.some_sensitivity depth) tokens.old result tokens.new }
{
    let _line = tokens.word(Word::Sensitive)?;
    events(alloc, tokens, depth)
}

/// Reads a static sensitivity. It is empty where none is written.
#[tactic(auto, unfolding(crate::specs::ChannelParse::sensitive))]
pub fn sensitive(alloc: Global, tokens: &mut Cursor<'_>, depth: u8) -> Result<Vec<Event>, ParseStop>
    ensures { Parses (λ found. map event_of found.items) (spec.sensitive depth) tokens.old result tokens.new }
{
    if tokens.sees_word(Word::Sensitive) {
        return some_sensitivity(alloc, tokens, depth);
    }
    Ok(Vec::new(alloc))
}
