ghost use Rattle.std.specs.Prelude.{◌≡◌, map};
ghost use Rattle.model_tree.specs.Views.{statement_of, body_of};
ghost use Rattle.parse_actions.specs.ParseExpressions.Parse as parse;
ghost use Rattle.parse_statements.specs.Parse as spec;

use super::plain::plain;
use model_tree::{Name, ParseStop, Statement, Symbol, Word};
use parse_actions::parse_expressions_api::{Cursor, expression, push};
use std::alloc::Global;

/// What is done where the test fails, if it is written.
#[cycle(statement)]
#[tactic(auto, unfolding(crate::specs::Parse::else_part))]
fn else_part(
    alloc: Global,
    tokens: &mut Cursor<'_>,
    depth: u8,
) -> Result<Option<Vec<Statement>>, ParseStop>
    ensures { parse.Parses spec.other_of (spec.else_part (spec.block depth)) tokens.old result tokens.new }
{
    if tokens.sees_word(Word::Else) {
        let _line = tokens.word(Word::Else)?;
        let body = block(alloc, tokens, depth)?;
        return Ok(Some(body));
    }
    Ok(None)
}

/// A choice by a test.
#[cycle(statement)]
#[tactic(auto, unfolding(crate::specs::Parse::if_statement))]
fn if_statement(alloc: Global, tokens: &mut Cursor<'_>, depth: u8) -> Result<Statement, ParseStop>
    ensures { parse.Parses statement_of (spec.if_statement (spec.block depth) depth) tokens.old result tokens.new }
{
    let line = tokens.word(Word::If)?;
    let test = expression(alloc, tokens, depth)?;
    let body = block(alloc, tokens, depth)?;
    let other = else_part(alloc, tokens, depth)?;
    Ok(Statement::If(line, test, body, other))
}

/// What is done again and again while a test holds.
#[cycle(statement)]
#[tactic(auto, unfolding(crate::specs::Parse::while_statement))]
fn while_statement(
    alloc: Global,
    tokens: &mut Cursor<'_>,
    depth: u8,
) -> Result<Statement, ParseStop>
    ensures { parse.Parses statement_of (spec.while_statement (spec.block depth) depth) tokens.old result tokens.new }
{
    let line = tokens.word(Word::While)?;
    let test = expression(alloc, tokens, depth)?;
    let body = block(alloc, tokens, depth)?;
    Ok(Statement::While(line, test, body))
}

/// What is done, and what undoes it.
#[cycle(statement)]
#[tactic(auto, unfolding(crate::specs::Parse::guard_statement))]
fn guard_statement(
    alloc: Global,
    tokens: &mut Cursor<'_>,
    depth: u8,
) -> Result<Statement, ParseStop>
    ensures { parse.Parses statement_of (spec.guard_statement (spec.block depth)) tokens.old result tokens.new }
{
    let line = tokens.word(Word::Guard)?;
    let body = block(alloc, tokens, depth)?;
    let _unwind = tokens.word(Word::Unwind)?;
    let undo = block(alloc, tokens, depth)?;
    Ok(Statement::Guard(line, body, undo))
}

/// A handler: the name of what it catches, and its block.
#[cycle(statement)]
#[tactic(auto, unfolding(crate::specs::Parse::handler))]
fn handler(
    alloc: Global,
    tokens: &mut Cursor<'_>,
    depth: u8,
) -> Result<(Name, Vec<Statement>), ParseStop>
    ensures { parse.Parses spec.handler_of (spec.handler (spec.block depth)) tokens.old result tokens.new }
{
    let _catch = tokens.word(Word::Catch)?;
    let name = tokens.name(alloc)?;
    let body = block(alloc, tokens, depth)?;
    Ok((name, body))
}

/// Whether no handler comes.
fn at_no_catch(tokens: &Cursor<'_>) -> bool
    ensures { result ≡ spec.at_no_catch tokens.now }
{
    !tokens.sees_word(Word::Catch)
}

/// These handlers, and those that come.
#[cycle(statement)]
#[tactic(auto, unfolding(crate::specs::Parse::more_handlers))]
fn more_handlers(
    alloc: Global,
    tokens: &mut Cursor<'_>,
    depth: u8,
    first: Vec<(Name, Vec<Statement>)>,
) -> Result<Vec<(Name, Vec<Statement>)>, ParseStop>
    ensures { parse.Parses (λ all. spec.handlers_in all.items) (spec.more_handlers (spec.block depth) (spec.handlers_in first.items)) tokens.old result tokens.new }
{
    let mut found = first;
    let turns = tokens.left() + 1;
    for turn in 0..turns {
        if at_no_catch(tokens) {
            return Ok(found);
        }
        let caught = handler(alloc, tokens, depth)?;
        push(&mut found, caught)?;
    }
    Err(ParseStop::Syntax {
        line: tokens.line(),
    })
}

/// The handlers of a try, one at least.
#[cycle(statement)]
#[tactic(auto, unfolding(crate::specs::Parse::handlers))]
fn handlers(
    alloc: Global,
    tokens: &mut Cursor<'_>,
    depth: u8,
) -> Result<Vec<(Name, Vec<Statement>)>, ParseStop>
    ensures { parse.Parses (λ all. spec.handlers_in all.items) (spec.handlers (spec.block depth)) tokens.old result tokens.new }
{
    let caught = handler(alloc, tokens, depth)?;
    let mut first = Vec::new(alloc);
    push(&mut first, caught)?;
    more_handlers(alloc, tokens, depth, first)
}

/// What is done, and what is done where it throws.
#[cycle(statement)]
#[tactic(auto, unfolding(crate::specs::Parse::try_statement))]
fn try_statement(alloc: Global, tokens: &mut Cursor<'_>, depth: u8) -> Result<Statement, ParseStop>
    ensures { parse.Parses statement_of (spec.try_statement (spec.block depth)) tokens.old result tokens.new }
{
    let line = tokens.word(Word::Try)?;
    let body = block(alloc, tokens, depth)?;
    let caught = handlers(alloc, tokens, depth)?;
    Ok(Statement::Try(line, body, caught))
}

/// A statement. So many brackets may be opened in it.
#[cycle(statement)]
#[tactic(auto, unfolding(crate::specs::Parse::statement))]
fn statement(alloc: Global, tokens: &mut Cursor<'_>, depth: u8) -> Result<Statement, ParseStop>
    ensures { parse.Parses statement_of (spec.statement (spec.block depth) depth) tokens.old result tokens.new }
{
    if tokens.sees_word(Word::If) {
        return if_statement(alloc, tokens, depth);
    }
    if tokens.sees_word(Word::While) {
        return while_statement(alloc, tokens, depth);
    }
    if tokens.sees_word(Word::Guard) {
        return guard_statement(alloc, tokens, depth);
    }
    if tokens.sees_word(Word::Try) {
        return try_statement(alloc, tokens, depth);
    }
    plain(alloc, tokens, depth)
}

/// The statements of a block, up to its closing brace.
#[cycle(statement)]
#[tactic(auto, unfolding(crate::specs::Parse::statements))]
fn statements(
    alloc: Global,
    tokens: &mut Cursor<'_>,
    depth: u8,
) -> Result<Vec<Statement>, ParseStop>
    ensures { parse.Parses (λ found. map statement_of found.items) (spec.statements (spec.block depth) depth) tokens.old result tokens.new }
{
    let mut found = Vec::new(alloc);
    let turns = tokens.left() + 1;
    for turn in 0..turns {
        if tokens.sees_symbol(Symbol::RightBrace) {
            return Ok(found);
        }
        let statement = statement(alloc, tokens, depth)?;
        push(&mut found, statement)?;
    }
    Err(ParseStop::Syntax {
        line: tokens.line(),
    })
}

/// Statements between braces. So many brackets may be opened within them.
#[cycle(statement)]
#[tactic(auto, unfolding(crate::specs::Parse::braced))]
fn braced(alloc: Global, tokens: &mut Cursor<'_>, depth: u8) -> Result<Vec<Statement>, ParseStop>
    ensures { parse.Parses (λ body. body_of body.items) (spec.braced (spec.block depth) depth) tokens.old result tokens.new }
{
    let _open = tokens.symbol(Symbol::LeftBrace)?;
    let body = statements(alloc, tokens, depth)?;
    let _close = tokens.symbol(Symbol::RightBrace)?;
    Ok(body)
}

/// Reads statements between braces. So many brackets may be opened, the braces among them: Syntax where none may.
#[cycle(statement)]
pub fn block(alloc: Global, tokens: &mut Cursor<'_>, depth: u8) -> Result<Vec<Statement>, ParseStop>
    ensures { parse.Parses (λ body. body_of body.items) (spec.block depth) tokens.old result tokens.new }
{
    if depth == 0 {
        return Err(ParseStop::Syntax {
            line: tokens.line(),
        });
    }
    braced(alloc, tokens, depth - 1)
}
