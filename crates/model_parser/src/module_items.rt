ghost use Rattle.std.specs.Prelude.{◌≡◌, map};
ghost use Rattle.model_tree.specs.Views.{item_of};
ghost use Rattle.parse_statements.specs.ParseExpressions.Parse.{Parses};
ghost use Rattle.model_parser.specs.Starts as start;
ghost use Rattle.model_parser.specs.Bodies as spec;

use super::bodies::{function_item, process_item};
use super::plain::{
    clock_item, fifo_item, memory_item, plain_item, resolved_item, semaphore_item, signal_item,
    variable_item,
};
use super::ports::{export_item, port_item};
use super::sockets::{bind_item, initiator_item, instance_item, target_item};
use super::starts::{ItemStart, item_start};
use model_tree::{Item, ParseStop, Symbol};
use parse_statements::parse_expressions_api::{Cursor, push};
use std::alloc::Global;

/// The item that comes.
fn item_ahead(tokens: &Cursor<'_>) -> ItemStart
    ensures { result ≡ start.item_ahead tokens.now }
{
    match tokens.word_ahead() {
        Some(word) => item_start(word),
        None => ItemStart::Nothing,
    }
}

/// An item of a module. So many brackets may still be opened.
#[tactic(auto, unfolding(crate::specs::Bodies::item))]
fn item(alloc: Global, tokens: &mut Cursor<'_>, depth: u8) -> Result<Item, ParseStop>
    ensures { Parses item_of (spec.item depth) tokens.old result tokens.new }
{
    match item_ahead(tokens) {
        ItemStart::Signal(kind) => signal_item(alloc, tokens, kind),
        ItemStart::Resolved => resolved_item(alloc, tokens),
        ItemStart::Clock => clock_item(alloc, tokens),
        ItemStart::Fifo => fifo_item(alloc, tokens),
        ItemStart::Plain(kind) => plain_item(alloc, tokens, kind),
        ItemStart::Semaphore => semaphore_item(alloc, tokens),
        ItemStart::Memory => memory_item(alloc, tokens, depth),
        ItemStart::Variable => variable_item(alloc, tokens),
        ItemStart::Port => port_item(alloc, tokens, depth),
        ItemStart::Export => export_item(alloc, tokens),
        ItemStart::Initiator => initiator_item(alloc, tokens),
        ItemStart::Target => target_item(alloc, tokens),
        ItemStart::Instance => instance_item(alloc, tokens),
        ItemStart::Bind => bind_item(alloc, tokens),
        ItemStart::Function => function_item(alloc, tokens, depth),
        ItemStart::Process(kind) => process_item(alloc, tokens, kind, depth),
        ItemStart::Nothing => Err(ParseStop::Syntax {
            line: tokens.line(),
        }),
    }
}

/// The items of a module, up to its closing brace. So many brackets may be opened in each.
#[tactic(auto, unfolding(crate::specs::Bodies::items))]
pub fn items(alloc: Global, tokens: &mut Cursor<'_>, depth: u8) -> Result<Vec<Item>, ParseStop>
    ensures { Parses (λ found. map item_of found.items) (spec.items depth) tokens.old result tokens.new }
{
    let mut found = Vec::new(alloc);
    let turns = tokens.left() + 1;
    for turn in 0..turns {
        if tokens.sees_symbol(Symbol::RightBrace) {
            return Ok(found);
        }
        let item = item(alloc, tokens, depth)?;
        push(&mut found, item)?;
    }
    Err(ParseStop::Syntax {
        line: tokens.line(),
    })
}
