ghost use Rattle.model_tree.specs.Views.{item_of};
ghost use Rattle.parse_statements.specs.ParseExpressions.Parse.{Parses};
ghost use Rattle.model_parser.specs.ItemParse as spec;

use super::values::{constant, first_value, time_span};
use model_tree::{
    ClockItem, Item, ParseStop, PlainKind, SignalItem, SignalKind, Span, Symbol, Word, plain_word,
    signal_word,
};
use parse_statements::parse_actions_api::{signal_type, variable_type};
use parse_statements::parse_expressions_api::Cursor;
use std::alloc::Global;

/// A signal or a buffer.
#[tactic(auto, unfolding(crate::specs::ItemParse::signal_item))]
pub fn signal_item(
    alloc: Global,
    tokens: &mut Cursor<'_>,
    kind: SignalKind,
) -> Result<Item, ParseStop>
    ensures { Parses item_of (spec.signal_item kind) tokens.old result tokens.new }
{
    let line = tokens.word(signal_word(kind))?;
    let many = tokens.flag(Word::Many)?;
    let value_type = signal_type(tokens)?;
    let name = tokens.name(alloc)?;
    let initial = first_value(tokens)?;
    let _end = tokens.symbol(Symbol::Semicolon)?;
    Ok(Item::Signal(
        line,
        SignalItem {
            kind,
            many,
            value_type,
            name,
            initial,
        },
    ))
}

/// A resolved signal.
#[tactic(auto, unfolding(crate::specs::ItemParse::resolved_item))]
pub fn resolved_item(alloc: Global, tokens: &mut Cursor<'_>) -> Result<Item, ParseStop>
    ensures { Parses item_of spec.resolved_item tokens.old result tokens.new }
{
    let line = tokens.word(Word::Resolved)?;
    let name = tokens.name(alloc)?;
    let _end = tokens.symbol(Symbol::Semicolon)?;
    Ok(Item::Resolved(line, name))
}

/// When a clock starts, if that is written.
#[tactic(auto, unfolding(crate::specs::ItemParse::clock_start))]
fn clock_start(tokens: &mut Cursor<'_>) -> Result<Option<Span>, ParseStop>
    ensures { Parses (λ t. t) spec.clock_start tokens.old result tokens.new }
{
    if tokens.sees_word(Word::Start) {
        let _line = tokens.word(Word::Start)?;
        let start = time_span(tokens)?;
        return Ok(Some(start));
    }
    Ok(None)
}

/// A clock.
#[tactic(auto, unfolding(crate::specs::ItemParse::clock_item))]
pub fn clock_item(alloc: Global, tokens: &mut Cursor<'_>) -> Result<Item, ParseStop>
    ensures { Parses item_of spec.clock_item tokens.old result tokens.new }
{
    let line = tokens.word(Word::Clock)?;
    let name = tokens.name(alloc)?;
    let _period = tokens.word(Word::Period)?;
    let period = time_span(tokens)?;
    let _high = tokens.word(Word::High)?;
    let high = time_span(tokens)?;
    let start = clock_start(tokens)?;
    let _end = tokens.symbol(Symbol::Semicolon)?;
    Ok(Item::Clock(
        line,
        ClockItem {
            name,
            period,
            high,
            start,
        },
    ))
}

/// The size of a fifo, if it is written.
#[tactic(auto, unfolding(crate::specs::ItemParse::fifo_size))]
fn fifo_size(tokens: &mut Cursor<'_>) -> Result<Option<u64>, ParseStop>
    ensures { Parses (λ n. n) spec.fifo_size tokens.old result tokens.new }
{
    if tokens.sees_word(Word::Size) {
        let _line = tokens.word(Word::Size)?;
        let size = tokens.number()?;
        return Ok(Some(size));
    }
    Ok(None)
}

/// A fifo.
#[tactic(auto, unfolding(crate::specs::ItemParse::fifo_item))]
pub fn fifo_item(alloc: Global, tokens: &mut Cursor<'_>) -> Result<Item, ParseStop>
    ensures { Parses item_of spec.fifo_item tokens.old result tokens.new }
{
    let line = tokens.word(Word::Fifo)?;
    let value_type = signal_type(tokens)?;
    let name = tokens.name(alloc)?;
    let size = fifo_size(tokens)?;
    let _end = tokens.symbol(Symbol::Semicolon)?;
    Ok(Item::Fifo(line, value_type, name, size))
}

/// An item that has a name alone.
#[tactic(auto, unfolding(crate::specs::ItemParse::plain_item))]
pub fn plain_item(
    alloc: Global,
    tokens: &mut Cursor<'_>,
    kind: PlainKind,
) -> Result<Item, ParseStop>
    ensures { Parses item_of (spec.plain_item kind) tokens.old result tokens.new }
{
    let line = tokens.word(plain_word(kind))?;
    let name = tokens.name(alloc)?;
    let _end = tokens.symbol(Symbol::Semicolon)?;
    Ok(Item::Plain(line, kind, name))
}

/// A semaphore.
#[tactic(auto, unfolding(crate::specs::ItemParse::semaphore_item))]
pub fn semaphore_item(alloc: Global, tokens: &mut Cursor<'_>) -> Result<Item, ParseStop>
    ensures { Parses item_of spec.semaphore_item tokens.old result tokens.new }
{
    let line = tokens.word(Word::Semaphore)?;
    let name = tokens.name(alloc)?;
    let start = constant(tokens)?;
    let _end = tokens.symbol(Symbol::Semicolon)?;
    Ok(Item::Semaphore(line, name, start))
}

/// A memory. So many brackets may still be opened.
#[tactic(auto, unfolding(crate::specs::ItemParse::memory_item))]
pub fn memory_item(alloc: Global, tokens: &mut Cursor<'_>, depth: u8) -> Result<Item, ParseStop>
    ensures { Parses item_of (spec.memory_item depth) tokens.old result tokens.new }
{
    let line = tokens.word(Word::Memory)?;
    let name = tokens.name(alloc)?;
    let _bracket = tokens.opened(depth, Symbol::LeftBracket)?;
    let size = tokens.number()?;
    let _close = tokens.symbol(Symbol::RightBracket)?;
    let _end = tokens.symbol(Symbol::Semicolon)?;
    Ok(Item::Memory(line, name, size))
}

/// A variable.
#[tactic(auto, unfolding(crate::specs::ItemParse::variable_item))]
pub fn variable_item(alloc: Global, tokens: &mut Cursor<'_>) -> Result<Item, ParseStop>
    ensures { Parses item_of spec.variable_item tokens.old result tokens.new }
{
    let line = tokens.word(Word::Var)?;
    let (_line, value_type) = variable_type(tokens)?;
    let name = tokens.name(alloc)?;
    let initial = first_value(tokens)?;
    let _end = tokens.symbol(Symbol::Semicolon)?;
    Ok(Item::Variable(line, value_type, name, initial))
}
