ghost use Rattle.std.specs.Prelude.{◌≡◌, map};
ghost use Rattle.model_tree.specs.Views.{module_of};
ghost use Rattle.parse_statements.specs.ParseExpressions.Parse.{Parses};
ghost use Rattle.model_parser.specs.Parse as spec;

use super::heads::head;
use crate::items;
use model_tree::{Head, Module, ParseStop, Symbol, Top, Word};
use parse_statements::parse_expressions_api::{Cursor, push};
use std::alloc::Global;

/// How many brackets may be open at once. A module's braces are one of them.
const BRACKET_LIMIT: u8 = 64;

/// A module. So many brackets may be opened between its braces.
#[tactic(auto, unfolding(crate::specs::Parse::module_text))]
fn module_text(alloc: Global, tokens: &mut Cursor<'_>, depth: u8) -> Result<Module, ParseStop>
    ensures { Parses module_of (spec.module_text depth) tokens.old result tokens.new }
{
    let line = tokens.word(Word::Module)?;
    let name = tokens.name(alloc)?;
    let _open = tokens.symbol(Symbol::LeftBrace)?;
    let items = items(alloc, tokens, depth)?;
    let _close = tokens.symbol(Symbol::RightBrace)?;
    Ok(Module { line, name, items })
}

/// Whether no module comes.
fn at_no_module(tokens: &Cursor<'_>) -> bool
    ensures { result ≡ spec.at_no_module tokens.now }
{
    !tokens.sees_word(Word::Module)
}

/// The modules that come. So many brackets may be opened between the braces of each.
#[tactic(auto, unfolding(crate::specs::Parse::modules))]
fn modules(alloc: Global, tokens: &mut Cursor<'_>, depth: u8) -> Result<Vec<Module>, ParseStop>
    ensures { Parses (λ found. map module_of found.items) (spec.modules depth) tokens.old result tokens.new }
{
    let mut found = Vec::new(alloc);
    let turns = tokens.left() + 1;
    for turn in 0..turns {
        if at_no_module(tokens) {
            return Ok(found);
        }
        let module = module_text(alloc, tokens, depth)?;
        push(&mut found, module)?;
    }
    Err(ParseStop::Syntax {
        line: tokens.line(),
    })
}

/// The instance at the top.
#[tactic(auto, unfolding(crate::specs::Parse::top))]
fn top(alloc: Global, tokens: &mut Cursor<'_>) -> Result<Top, ParseStop>
    ensures { Parses (λ t. t) spec.top tokens.old result tokens.new }
{
    let line = tokens.word(Word::Top)?;
    let module = tokens.name(alloc)?;
    let name = tokens.name(alloc)?;
    let _end = tokens.symbol(Symbol::Semicolon)?;
    Ok(Top { line, module, name })
}

/// The modules and the top of a text.
#[tactic(auto, unfolding(crate::specs::Parse::model))]
fn model(alloc: Global, tokens: &mut Cursor<'_>) -> Result<(Vec<Module>, Top), ParseStop>
    ensures { Parses spec.parts_of spec.model tokens.old result tokens.new }
{
    let modules = modules(alloc, tokens, BRACKET_LIMIT - 1)?;
    let top = top(alloc, tokens)?;
    Ok((modules, top))
}

/// A whole text: what it says of its language, its modules and its top.
#[tactic(auto, unfolding(crate::specs::Parse::source))]
pub fn source(alloc: Global, tokens: &mut Cursor<'_>) -> Result<(Head, Vec<Module>, Top), ParseStop>
    ensures { Parses spec.source_of_parts spec.source tokens.old result tokens.new }
{
    let head = head(tokens)?;
    let (modules, top) = model(alloc, tokens)?;
    Ok((head, modules, top))
}
