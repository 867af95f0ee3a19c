ghost use Rattle.std.specs.Prelude.{option_map, Some};
ghost use Rattle.model_tree.specs.Views.{expression_of, statement_of, target_of};
ghost use Rattle.parse_actions.specs.ParseExpressions.Parse as parse;
ghost use Rattle.parse_statements.specs.Parse as spec;

use model_tree::{Expression, Name, ParseStop, Statement, Symbol, Target, Word};
use parse_actions::parse_expressions_api::{Cursor, expression};
use parse_actions::{
    action, operation, optional_index, optional_member, sees_action, sees_operation, variable_type,
};
use std::alloc::Global;

/// The value behind `=`, if one is written.
#[tactic(auto, unfolding(crate::specs::Parse::initial))]
fn initial(
    alloc: Global,
    tokens: &mut Cursor<'_>,
    depth: u8,
) -> Result<Option<Expression>, ParseStop>
    ensures { parse.Parses (λ value. option_map expression_of value) (spec.initial depth) tokens.old result tokens.new }
{
    if tokens.sees_symbol(Symbol::Equal) {
        let _equal = tokens.symbol(Symbol::Equal)?;
        let value = expression(alloc, tokens, depth)?;
        return Ok(Some(value));
    }
    Ok(None)
}

/// A local variable.
#[tactic(auto, unfolding(crate::specs::Parse::var_statement))]
fn var_statement(alloc: Global, tokens: &mut Cursor<'_>, depth: u8) -> Result<Statement, ParseStop>
    ensures { parse.Parses statement_of (spec.var_statement depth) tokens.old result tokens.new }
{
    let line = tokens.word(Word::Var)?;
    let (_type_line, var_type) = variable_type(tokens)?;
    let name = tokens.name(alloc)?;
    let value = initial(alloc, tokens, depth)?;
    let _semicolon = tokens.symbol(Symbol::Semicolon)?;
    Ok(Statement::Var(line, var_type, name, value))
}

/// What is assigned to a place, behind its `=`.
#[tactic(auto, unfolding(crate::specs::Parse::assign_statement))]
fn assign_statement(
    alloc: Global,
    tokens: &mut Cursor<'_>,
    depth: u8,
    line: u32,
    place: Target,
) -> Result<Statement, ParseStop>
    ensures { parse.Parses statement_of (spec.assign_statement depth line (target_of place)) tokens.old result tokens.new }
{
    let value = expression(alloc, tokens, depth)?;
    let _semicolon = tokens.symbol(Symbol::Semicolon)?;
    Ok(Statement::Assign(line, place, value))
}

/// An operation whose value this variable gets, behind its `=`.
#[tactic(auto, unfolding(crate::specs::Parse::result_statement))]
fn result_statement(
    alloc: Global,
    tokens: &mut Cursor<'_>,
    depth: u8,
    line: u32,
    name: Name,
) -> Result<Statement, ParseStop>
    ensures { parse.Parses statement_of (spec.result_statement depth (line, name)) tokens.old result tokens.new }
{
    let (at, operation) = operation(alloc, tokens, depth)?;
    let _semicolon = tokens.symbol(Symbol::Semicolon)?;
    Ok(Statement::Operate(line, Some(name), at, operation))
}

/// An operation alone.
#[tactic(auto, unfolding(crate::specs::Parse::operate_statement))]
fn operate_statement(
    alloc: Global,
    tokens: &mut Cursor<'_>,
    depth: u8,
) -> Result<Statement, ParseStop>
    ensures { parse.Parses statement_of (spec.operate_statement depth) tokens.old result tokens.new }
{
    let (line, operation) = operation(alloc, tokens, depth)?;
    let _semicolon = tokens.symbol(Symbol::Semicolon)?;
    Ok(Statement::Operate(line, None, line, operation))
}

/// The statement, over at a semicolon.
#[tactic(auto, unfolding(crate::specs::Parse::ended))]
fn ended(tokens: &mut Cursor<'_>, statement: Statement) -> Result<Statement, ParseStop>
    ensures { parse.Parses statement_of (spec.ended (statement_of statement)) tokens.old result tokens.new }
{
    let _semicolon = tokens.symbol(Symbol::Semicolon)?;
    Ok(statement)
}

/// A statement that gives no value.
#[tactic(auto, unfolding(crate::specs::Parse::act_statement))]
fn act_statement(alloc: Global, tokens: &mut Cursor<'_>, depth: u8) -> Result<Statement, ParseStop>
    ensures { parse.Parses statement_of (spec.act_statement depth) tokens.old result tokens.new }
{
    let (line, action) = action(alloc, tokens, depth)?;
    ended(tokens, Statement::Act(line, action))
}

/// An operation for this variable, or the value that it is assigned. Its `=` comes first.
#[tactic(auto, unfolding(crate::specs::Parse::equated))]
fn equated(
    alloc: Global,
    tokens: &mut Cursor<'_>,
    depth: u8,
    line: u32,
    name: Name,
) -> Result<Statement, ParseStop>
    ensures { parse.Parses statement_of (spec.equated depth (line, name)) tokens.old result tokens.new }
{
    let _equal = tokens.symbol(Symbol::Equal)?;
    if sees_operation(tokens) {
        return result_statement(alloc, tokens, depth, line, name);
    }
    let place = Target {
        name,
        member: None,
        index: None,
    };
    assign_statement(alloc, tokens, depth, line, place)
}

/// The rest of a place that begins with this name, and what is assigned to it.
#[tactic(auto, unfolding(crate::specs::Parse::target_statement))]
fn target_statement(
    alloc: Global,
    tokens: &mut Cursor<'_>,
    depth: u8,
    line: u32,
    name: Name,
) -> Result<Statement, ParseStop>
    ensures { parse.Parses statement_of (spec.target_statement depth (line, name)) tokens.old result tokens.new }
{
    let member = optional_member(alloc, tokens)?;
    let index = optional_index(alloc, tokens, depth)?;
    let _equal = tokens.symbol(Symbol::Equal)?;
    let place = Target {
        name,
        member,
        index,
    };
    assign_statement(alloc, tokens, depth, line, place)
}

/// A statement that begins with a name.
#[tactic(auto, unfolding(crate::specs::Parse::name_statement))]
fn name_statement(alloc: Global, tokens: &mut Cursor<'_>, depth: u8) -> Result<Statement, ParseStop>
    ensures { parse.Parses statement_of (spec.name_statement depth) tokens.old result tokens.new }
{
    let (line, name) = tokens.named(alloc)?;
    if tokens.sees_symbol(Symbol::Equal) {
        return equated(alloc, tokens, depth, line, name);
    }
    target_statement(alloc, tokens, depth, line, name)
}

/// A statement that holds no block. So many brackets may be opened in it.
#[tactic(auto, unfolding(crate::specs::Parse::plain))]
pub fn plain(alloc: Global, tokens: &mut Cursor<'_>, depth: u8) -> Result<Statement, ParseStop>
    ensures { parse.Parses statement_of (spec.plain depth) tokens.old result tokens.new }
{
    if sees_action(tokens) {
        return act_statement(alloc, tokens, depth);
    }
    if sees_operation(tokens) {
        return operate_statement(alloc, tokens, depth);
    }
    if tokens.sees_word(Word::Var) {
        return var_statement(alloc, tokens, depth);
    }
    name_statement(alloc, tokens, depth)
}
