ghost use Rattle.std.specs.Prelude.{◌≡◌};
ghost use Rattle.model_tree.specs.Views as views;
ghost use Rattle.parse_expressions.specs.Parse.{Parses};
ghost use Rattle.parse_actions.specs.Parse as spec;

use super::actions::{action_start, begins_action, started_action};
use super::operations::{begins_operation, operation_start, started_operation};
use model_tree::{Action, Operation, ParseStop, Word};
use parse_expressions::Cursor;
use std::alloc::Global;

/// Whether an operation's word comes.
pub fn sees_operation(tokens: &Cursor<'_>) -> bool
    ensures { result ≡ spec.sees_operation tokens.now }
{
    match tokens.word_ahead() {
        None => false,
        Some(word) => begins_operation(word),
    }
}

/// Whether an action's word comes.
pub fn sees_action(tokens: &Cursor<'_>) -> bool
    ensures { result ≡ spec.sees_action tokens.now }
{
    match tokens.word_ahead() {
        None => false,
        Some(word) => begins_action(word),
    }
}

/// The operation that begins with this word, which comes, and the word's line.
#[tactic(auto, unfolding(crate::specs::Parse::operation_by))]
fn operation_by(
    alloc: Global,
    tokens: &mut Cursor<'_>,
    depth: u8,
    word: Word,
) -> Result<(u32, Operation), ParseStop>
    ensures { Parses (λ found. (found.0, views.operation_of found.1)) (spec.operation_by depth word) tokens.old result tokens.new }
{
    let line = tokens.skip()?;
    let found = started_operation(alloc, tokens, depth, operation_start(word), line)?;
    Ok((line, found))
}

/// Reads an operation, up to the semicolon behind it. So many brackets may be opened in it. The answer has the
/// line of its word.
#[tactic(auto, unfolding(crate::specs::Parse::operation))]
pub fn operation(
    alloc: Global,
    tokens: &mut Cursor<'_>,
    depth: u8,
) -> Result<(u32, Operation), ParseStop>
    ensures { Parses (λ found. (found.0, views.operation_of found.1)) (spec.operation depth) tokens.old result tokens.new }
{
    match tokens.word_ahead() {
        None => Err(ParseStop::Syntax {
            line: tokens.line(),
        }),
        Some(word) => operation_by(alloc, tokens, depth, word),
    }
}

/// The action that begins with this word, which comes, and the word's line.
#[tactic(auto, unfolding(crate::specs::Parse::action_by))]
fn action_by(
    alloc: Global,
    tokens: &mut Cursor<'_>,
    depth: u8,
    word: Word,
) -> Result<(u32, Action), ParseStop>
    ensures { Parses (λ found. (found.0, views.action_of found.1)) (spec.action_by depth word) tokens.old result tokens.new }
{
    let line = tokens.skip()?;
    let found = started_action(alloc, tokens, depth, action_start(word), line)?;
    Ok((line, found))
}

/// Reads an action, up to the semicolon behind it. So many brackets may be opened in it. The answer has the line
/// of its word.
#[tactic(auto, unfolding(crate::specs::Parse::action))]
pub fn action(alloc: Global, tokens: &mut Cursor<'_>, depth: u8) -> Result<(u32, Action), ParseStop>
    ensures { Parses (λ found. (found.0, views.action_of found.1)) (spec.action depth) tokens.old result tokens.new }
{
    match tokens.word_ahead() {
        None => Err(ParseStop::Syntax {
            line: tokens.line(),
        }),
        Some(word) => action_by(alloc, tokens, depth, word),
    }
}
