ghost use Rattle.std.specs.Prelude.{option_map};
ghost use Rattle.model_tree.specs.Views.{expression_of, waiting_of, notification_of};
ghost use Rattle.parse_expressions.specs.Parse.{Parses};
ghost use Rattle.parse_actions.specs.Waits as spec;

use crate::{event, events};
use model_tree::{Expression, Notification, ParseStop, Symbol, Waiting, Word};
use parse_expressions::{Cursor, expression};
use std::alloc::Global;

/// A time-out, if one comes.
#[tactic(auto, unfolding(crate::specs::Waits::optional_span))]
fn optional_span(
    alloc: Global,
    tokens: &mut Cursor<'_>,
    depth: u8,
) -> Result<Option<Expression>, ParseStop>
    ensures { Parses (λ found. option_map expression_of found) (spec.optional_span depth) tokens.old result tokens.new }
{
    if tokens.sees_word(Word::For) {
        let _line = tokens.word(Word::For)?;
        let span = expression(alloc, tokens, depth)?;
        return Ok(Some(span));
    }
    Ok(None)
}

/// `delta`
#[tactic(auto, unfolding(crate::specs::Waits::for_delta))]
fn for_delta(tokens: &mut Cursor<'_>) -> Result<Waiting, ParseStop>
    ensures { Parses waiting_of spec.for_delta tokens.old result tokens.new }
{
    let _line = tokens.word(Word::Delta)?;
    Ok(Waiting::Delta)
}

/// `for t`
#[tactic(auto, unfolding(crate::specs::Waits::for_span))]
fn for_span(alloc: Global, tokens: &mut Cursor<'_>, depth: u8) -> Result<Waiting, ParseStop>
    ensures { Parses waiting_of (spec.for_span depth) tokens.old result tokens.new }
{
    let _line = tokens.word(Word::For)?;
    let span = expression(alloc, tokens, depth)?;
    Ok(Waiting::For(span))
}

/// `any` of some events, with a time-out or without.
#[tactic(auto, unfolding(crate::specs::Waits::for_any))]
fn for_any(alloc: Global, tokens: &mut Cursor<'_>, depth: u8) -> Result<Waiting, ParseStop>
    ensures { Parses waiting_of (spec.for_any depth) tokens.old result tokens.new }
{
    let _line = tokens.word(Word::Any)?;
    let found = events(alloc, tokens, depth)?;
    let span = optional_span(alloc, tokens, depth)?;
    Ok(Waiting::Any(found, span))
}

/// `all` of some events, with a time-out or without.
#[tactic(auto, unfolding(crate::specs::Waits::for_all))]
fn for_all(alloc: Global, tokens: &mut Cursor<'_>, depth: u8) -> Result<Waiting, ParseStop>
    ensures { Parses waiting_of (spec.for_all depth) tokens.old result tokens.new }
{
    let _line = tokens.word(Word::All)?;
    let found = events(alloc, tokens, depth)?;
    let span = optional_span(alloc, tokens, depth)?;
    Ok(Waiting::All(found, span))
}

/// One event, with a time-out or without.
#[tactic(auto, unfolding(crate::specs::Waits::for_one))]
fn for_one(alloc: Global, tokens: &mut Cursor<'_>, depth: u8) -> Result<Waiting, ParseStop>
    ensures { Parses waiting_of (spec.for_one depth) tokens.old result tokens.new }
{
    let found = event(alloc, tokens, depth)?;
    let span = optional_span(alloc, tokens, depth)?;
    Ok(Waiting::One(found, span))
}

/// The events of a wait: `any` or `all` of some, or one.
#[tactic(auto, unfolding(crate::specs::Waits::for_events))]
fn for_events(alloc: Global, tokens: &mut Cursor<'_>, depth: u8) -> Result<Waiting, ParseStop>
    ensures { Parses waiting_of (spec.for_events depth) tokens.old result tokens.new }
{
    if tokens.sees_word(Word::Any) {
        return for_any(alloc, tokens, depth);
    }
    if tokens.sees_word(Word::All) {
        return for_all(alloc, tokens, depth);
    }
    for_one(alloc, tokens, depth)
}

/// What is waited for: the static sensitivity where nothing comes before a semicolon.
#[tactic(auto, unfolding(crate::specs::Waits::waiting))]
pub fn waiting(alloc: Global, tokens: &mut Cursor<'_>, depth: u8) -> Result<Waiting, ParseStop>
    ensures { Parses waiting_of (spec.waiting depth) tokens.old result tokens.new }
{
    if tokens.sees_symbol(Symbol::Semicolon) {
        return Ok(Waiting::Static);
    }
    if tokens.sees_word(Word::Delta) {
        return for_delta(tokens);
    }
    if tokens.sees_word(Word::For) {
        return for_span(alloc, tokens, depth);
    }
    for_events(alloc, tokens, depth)
}

/// `delta`
#[tactic(auto, unfolding(crate::specs::Waits::in_delta))]
fn in_delta(tokens: &mut Cursor<'_>) -> Result<Notification, ParseStop>
    ensures { Parses notification_of spec.in_delta tokens.old result tokens.new }
{
    let _line = tokens.word(Word::Delta)?;
    Ok(Notification::Delta)
}

/// `after t`
#[tactic(auto, unfolding(crate::specs::Waits::after_span))]
fn after_span(alloc: Global, tokens: &mut Cursor<'_>, depth: u8) -> Result<Notification, ParseStop>
    ensures { Parses notification_of (spec.after_span depth) tokens.old result tokens.new }
{
    let _line = tokens.word(Word::After)?;
    let span = expression(alloc, tokens, depth)?;
    Ok(Notification::After(span))
}

/// When a notification comes: at once where nothing comes before a semicolon.
#[tactic(auto, unfolding(crate::specs::Waits::notification))]
pub fn notification(
    alloc: Global,
    tokens: &mut Cursor<'_>,
    depth: u8,
) -> Result<Notification, ParseStop>
    ensures { Parses notification_of (spec.notification depth) tokens.old result tokens.new }
{
    if tokens.sees_symbol(Symbol::Semicolon) {
        return Ok(Notification::Immediate);
    }
    if tokens.sees_word(Word::Delta) {
        return in_delta(tokens);
    }
    after_span(alloc, tokens, depth)
}
