ghost use Rattle.std.specs.Prelude.{◌≡◌};
ghost use Rattle.model_tree.specs.Views.{item_of};
ghost use Rattle.parse_statements.specs.ParseExpressions.Parse.{Parses};
ghost use Rattle.model_parser.specs.Starts.{port_ahead};
ghost use Rattle.model_parser.specs.ItemParse as spec;

use super::starts::{Direction, PortStart, direction_word, leading, port_start};
use model_tree::{BoundRule, Interface, Item, ParseStop, PortSize, Symbol, Word};
use parse_statements::parse_actions_api::signal_type;
use parse_statements::parse_expressions_api::Cursor;
use std::alloc::Global;

/// A word and a type.
#[tactic(auto, unfolding(crate::specs::ItemParse::typed_interface))]
fn typed_interface(
    tokens: &mut Cursor<'_>,
    direction: Direction,
) -> Result<(u32, Interface), ParseStop>
    ensures { Parses (λ i. i) (spec.typed_interface direction) tokens.old result tokens.new }
{
    let line = tokens.word(direction_word(direction))?;
    let value_type = signal_type(tokens)?;
    Ok((line, leading(direction, value_type)))
}

/// A word alone.
#[tactic(auto, unfolding(crate::specs::ItemParse::plain_interface))]
fn plain_interface(
    tokens: &mut Cursor<'_>,
    word: Word,
    interface: Interface,
) -> Result<(u32, Interface), ParseStop>
    ensures { Parses (λ i. i) (spec.plain_interface word interface) tokens.old result tokens.new }
{
    let line = tokens.word(word)?;
    Ok((line, interface))
}

/// The port that comes.
fn port_ahead(tokens: &Cursor<'_>) -> PortStart
    ensures { result ≡ port_ahead tokens.now }
{
    match tokens.word_ahead() {
        Some(word) => port_start(word),
        None => PortStart::Nothing,
    }
}

/// What a port or an export leads to, with the line of its first token.
#[tactic(auto, unfolding(crate::specs::ItemParse::interface))]
fn interface(tokens: &mut Cursor<'_>) -> Result<(u32, Interface), ParseStop>
    ensures { Parses (λ i. i) spec.interface tokens.old result tokens.new }
{
    match port_ahead(tokens) {
        PortStart::Typed(direction) => typed_interface(tokens, direction),
        PortStart::Mutex => plain_interface(tokens, Word::MutexPort, Interface::Mutex),
        PortStart::Semaphore => plain_interface(tokens, Word::SemaphorePort, Interface::Semaphore),
        PortStart::Nothing => Err(ParseStop::Syntax {
            line: tokens.line(),
        }),
    }
}

/// A rule on bindings, by its word.
#[tactic(auto, unfolding(crate::specs::ItemParse::bound_word))]
fn bound_word(tokens: &mut Cursor<'_>, word: Word, rule: BoundRule) -> Result<BoundRule, ParseStop>
    ensures { Parses (λ r. r) (spec.bound_word word rule) tokens.old result tokens.new }
{
    let _line = tokens.word(word)?;
    Ok(rule)
}

/// How many of a port's channels have to be bound: one where no word says otherwise.
#[tactic(auto, unfolding(crate::specs::ItemParse::bound_rule))]
fn bound_rule(tokens: &mut Cursor<'_>) -> Result<BoundRule, ParseStop>
    ensures { Parses (λ r. r) spec.bound_rule tokens.old result tokens.new }
{
    if tokens.sees_word(Word::Zero) {
        return bound_word(tokens, Word::Zero, BoundRule::Zero);
    }
    if tokens.sees_word(Word::AllBound) {
        return bound_word(tokens, Word::AllBound, BoundRule::All);
    }
    Ok(BoundRule::One)
}

/// The size of a port, if it is written. So many brackets may still be opened.
#[tactic(auto, unfolding(crate::specs::ItemParse::port_size))]
fn port_size(tokens: &mut Cursor<'_>, depth: u8) -> Result<Option<PortSize>, ParseStop>
    ensures { Parses (λ p. p) (spec.port_size depth) tokens.old result tokens.new }
{
    if tokens.sees_symbol(Symbol::LeftBracket) {
        let _bracket = tokens.opened(depth, Symbol::LeftBracket)?;
        let count = tokens.number()?;
        let rule = bound_rule(tokens)?;
        let _close = tokens.symbol(Symbol::RightBracket)?;
        return Ok(Some(PortSize { count, rule }));
    }
    Ok(None)
}

/// A port. So many brackets may still be opened.
#[tactic(auto, unfolding(crate::specs::ItemParse::port_item))]
pub fn port_item(alloc: Global, tokens: &mut Cursor<'_>, depth: u8) -> Result<Item, ParseStop>
    ensures { Parses item_of (spec.port_item depth) tokens.old result tokens.new }
{
    let (line, interface) = interface(tokens)?;
    let name = tokens.name(alloc)?;
    let size = port_size(tokens, depth)?;
    let _end = tokens.symbol(Symbol::Semicolon)?;
    Ok(Item::Port(line, interface, name, size))
}

/// An export.
#[tactic(auto, unfolding(crate::specs::ItemParse::export_item))]
pub fn export_item(alloc: Global, tokens: &mut Cursor<'_>) -> Result<Item, ParseStop>
    ensures { Parses item_of spec.export_item tokens.old result tokens.new }
{
    let line = tokens.word(Word::Export)?;
    let (_line, interface) = interface(tokens)?;
    let name = tokens.name(alloc)?;
    let _end = tokens.symbol(Symbol::Semicolon)?;
    Ok(Item::Export(line, interface, name))
}
