ghost use Rattle.std.specs.Prelude.{option_map};
ghost use Rattle.model_tree.specs.Views.{expression_of};
ghost use Rattle.parse_expressions.specs.Parse.{Parses};
ghost use Rattle.parse_actions.specs.Operations as spec;
ghost use Rattle.parse_actions.specs.Actions as act;

use model_tree::{Expression, Name, ParseStop, Symbol};
use parse_expressions::{Cursor, expression};
use std::alloc::Global;

/// A name behind a comma.
#[tactic(auto, unfolding(crate::specs::Operations::next_name))]
pub fn next_name(alloc: Global, tokens: &mut Cursor<'_>) -> Result<Name, ParseStop>
    ensures { Parses (λ name. name) spec.next_name tokens.old result tokens.new }
{
    let _comma = tokens.symbol(Symbol::Comma)?;
    tokens.name(alloc)
}

/// An expression behind a comma.
#[tactic(auto, unfolding(crate::specs::Operations::next_expression))]
pub fn next_expression(
    alloc: Global,
    tokens: &mut Cursor<'_>,
    depth: u8,
) -> Result<Expression, ParseStop>
    ensures { Parses expression_of (spec.next_expression depth) tokens.old result tokens.new }
{
    let _comma = tokens.symbol(Symbol::Comma)?;
    expression(alloc, tokens, depth)
}

/// An expression behind a comma, if one comes.
#[tactic(auto, unfolding(crate::specs::Actions::optional_next_expression))]
pub fn optional_next_expression(
    alloc: Global,
    tokens: &mut Cursor<'_>,
    depth: u8,
) -> Result<Option<Expression>, ParseStop>
    ensures { Parses (λ found. option_map expression_of found) (act.optional_next_expression depth) tokens.old result tokens.new }
{
    if tokens.sees_symbol(Symbol::Comma) {
        let found = next_expression(alloc, tokens, depth)?;
        return Ok(Some(found));
    }
    Ok(None)
}
