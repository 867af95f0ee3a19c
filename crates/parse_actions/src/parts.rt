ghost use Rattle.std.specs.Prelude.{◌≡◌, ℕ, map, option_map, List, ◌∷◌, []};
ghost use Rattle.model_tree.specs.Views.{expression_of};
ghost use Rattle.parse_actions.specs.ChannelParse as spec;
ghost use Rattle.parse_expressions.specs.Parse.{Parses};

use super::channels::at_no_comma;
use model_tree::{Expression, ParseStop, Symbol};
use parse_expressions::{Cursor, expression, inside, push};
use std::alloc::Global;

/// An expression behind a comma.
#[tactic(auto, unfolding(crate::specs::ChannelParse::next_inside))]
fn next_inside(alloc: Global, tokens: &mut Cursor<'_>, depth: u8) -> Result<Expression, ParseStop>
    ensures { Parses expression_of (spec.next_inside depth) tokens.old result tokens.new }
{
    let _comma = tokens.symbol(Symbol::Comma)?;
    inside(alloc, tokens, depth)
}

/// These expressions, and those behind commas that come.
#[tactic(auto, unfolding(crate::specs::ChannelParse::more_inside))]
fn more_inside(
    alloc: Global,
    tokens: &mut Cursor<'_>,
    depth: u8,
    first: Vec<Expression>,
) -> Result<Vec<Expression>, ParseStop>
    ensures { Parses (λ found. map expression_of found.items) (spec.more_inside depth (map expression_of first.items)) tokens.old result tokens.new }
{
    let mut found = first;
    let turns = tokens.left() + 1;
    for turn in 0..turns {
        if at_no_comma(tokens) {
            return Ok(found);
        }
        let expression = next_inside(alloc, tokens, depth)?;
        push(&mut found, expression)?;
    }
    Err(ParseStop::Syntax {
        line: tokens.line(),
    })
}

/// Expressions with commas between them, one at least.
fn some_inside(
    alloc: Global,
    tokens: &mut Cursor<'_>,
    depth: u8,
) -> Result<Vec<Expression>, ParseStop>
    ensures { Parses (λ found. map expression_of found.items) (spec.some_inside depth) tokens.old result tokens.new }
{
    let mut found = Vec::new(alloc);
    let expression = inside(alloc, tokens, depth)?;
    push(&mut found, expression)?;
    more_inside(alloc, tokens, depth, found)
}

/// Expressions with commas between them, none before a closing parenthesis.
#[tactic(auto, unfolding(crate::specs::ChannelParse::listed))]
fn listed(alloc: Global, tokens: &mut Cursor<'_>, depth: u8) -> Result<Vec<Expression>, ParseStop>
    ensures { Parses (λ found. map expression_of found.items) (spec.listed depth) tokens.old result tokens.new }
{
    if tokens.sees_symbol(Symbol::RightParen) {
        return Ok(Vec::new(alloc));
    }
    some_inside(alloc, tokens, depth)
}

/// Reads arguments in parentheses. So many brackets may be opened, theirs among them.
#[tactic(auto, unfolding(crate::specs::ChannelParse::arguments))]
pub fn arguments(
    alloc: Global,
    tokens: &mut Cursor<'_>,
    depth: u8,
) -> Result<Vec<Expression>, ParseStop>
    ensures { Parses (λ found. map expression_of found.items) (spec.arguments depth) tokens.old result tokens.new }
{
    let _open = tokens.opened(depth, Symbol::LeftParen)?;
    let found = listed(alloc, tokens, depth)?;
    let _close = tokens.symbol(Symbol::RightParen)?;
    Ok(found)
}

/// An index that is written.
fn some_index(
    alloc: Global,
    tokens: &mut Cursor<'_>,
    depth: u8,
) -> Result<Option<Expression>, ParseStop>
    ensures { Parses (λ found. option_map expression_of found) (spec.some_index depth) tokens.old result tokens.new }
{
    let _open = tokens.opened(depth, Symbol::LeftBracket)?;
    let index = inside(alloc, tokens, depth)?;
    let _close = tokens.symbol(Symbol::RightBracket)?;
    Ok(Some(index))
}

/// Reads an expression between square brackets, if one comes. So many brackets may be opened, those among them.
#[tactic(auto, unfolding(crate::specs::ChannelParse::optional_index))]
pub fn optional_index(
    alloc: Global,
    tokens: &mut Cursor<'_>,
    depth: u8,
) -> Result<Option<Expression>, ParseStop>
    ensures { Parses (λ found. option_map expression_of found) (spec.optional_index depth) tokens.old result tokens.new }
{
    if tokens.sees_symbol(Symbol::LeftBracket) {
        return some_index(alloc, tokens, depth);
    }
    Ok(None)
}

/// Reads an expression, or none before a semicolon. So many brackets may be opened in it.
#[tactic(auto, unfolding(crate::specs::ChannelParse::optional_expression))]
pub fn optional_expression(
    alloc: Global,
    tokens: &mut Cursor<'_>,
    depth: u8,
) -> Result<Option<Expression>, ParseStop>
    ensures { Parses (λ found. option_map expression_of found) (spec.optional_expression depth) tokens.old result tokens.new }
{
    if tokens.sees_symbol(Symbol::Semicolon) {
        return Ok(None);
    }
    let found = expression(alloc, tokens, depth)?;
    Ok(Some(found))
}
