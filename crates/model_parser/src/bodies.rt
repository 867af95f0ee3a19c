ghost use Rattle.std.specs.Prelude.{◌≡◌};
ghost use Rattle.model_tree.specs.Views.{item_of};
ghost use Rattle.parse_statements.specs.ParseExpressions.Parse.{Parses};
ghost use Rattle.parse_statements.specs.ParseActions.ChannelParse as shared;
ghost use Rattle.model_parser.specs.Bodies as spec;

use model_tree::{
    FunctionItem, Item, Parameter, ParseStop, ProcessItem, ProcessKind, Symbol, VarType, Word,
    process_word,
};
use parse_statements::block;
use parse_statements::parse_actions_api::{sensitive, variable_type};
use parse_statements::parse_expressions_api::{Cursor, push};
use std::alloc::Global;

/// A parameter whose final value goes back to the caller.
#[tactic(auto, unfolding(crate::specs::Bodies::inout_parameter))]
fn inout_parameter(alloc: Global, tokens: &mut Cursor<'_>) -> Result<Parameter, ParseStop>
    ensures { Parses (λ p. p) spec.inout_parameter tokens.old result tokens.new }
{
    let line = tokens.word(Word::Inout)?;
    let (_line, var_type) = variable_type(tokens)?;
    let name = tokens.name(alloc)?;
    Ok(Parameter {
        line,
        inout: true,
        var_type,
        name,
    })
}

/// A parameter that is a value alone.
#[tactic(auto, unfolding(crate::specs::Bodies::value_parameter))]
fn value_parameter(alloc: Global, tokens: &mut Cursor<'_>) -> Result<Parameter, ParseStop>
    ensures { Parses (λ p. p) spec.value_parameter tokens.old result tokens.new }
{
    let (line, var_type) = variable_type(tokens)?;
    let name = tokens.name(alloc)?;
    Ok(Parameter {
        line,
        inout: false,
        var_type,
        name,
    })
}

/// A parameter.
#[tactic(auto, unfolding(crate::specs::Bodies::parameter))]
fn parameter(alloc: Global, tokens: &mut Cursor<'_>) -> Result<Parameter, ParseStop>
    ensures { Parses (λ p. p) spec.parameter tokens.old result tokens.new }
{
    if tokens.sees_word(Word::Inout) {
        return inout_parameter(alloc, tokens);
    }
    value_parameter(alloc, tokens)
}

/// A parameter behind a comma.
#[tactic(auto, unfolding(crate::specs::Bodies::next_parameter))]
fn next_parameter(alloc: Global, tokens: &mut Cursor<'_>) -> Result<Parameter, ParseStop>
    ensures { Parses (λ p. p) spec.next_parameter tokens.old result tokens.new }
{
    let _comma = tokens.symbol(Symbol::Comma)?;
    parameter(alloc, tokens)
}

/// Whether no comma comes.
fn at_no_comma(tokens: &Cursor<'_>) -> bool
    ensures { result ≡ shared.at_no_comma tokens.now }
{
    !tokens.sees_symbol(Symbol::Comma)
}

/// These parameters, and those behind commas that come.
#[tactic(auto, unfolding(crate::specs::Bodies::more_parameters))]
fn more_parameters(
    alloc: Global,
    tokens: &mut Cursor<'_>,
    first: Vec<Parameter>,
) -> Result<Vec<Parameter>, ParseStop>
    ensures { Parses (λ found. found.items) (spec.more_parameters first.items) tokens.old result tokens.new }
{
    let mut found = first;
    let turns = tokens.left() + 1;
    for turn in 0..turns {
        if at_no_comma(tokens) {
            return Ok(found);
        }
        let parameter = next_parameter(alloc, tokens)?;
        push(&mut found, parameter)?;
    }
    Err(ParseStop::Syntax {
        line: tokens.line(),
    })
}

/// Parameters with commas between them, none before a closing parenthesis.
#[tactic(auto, unfolding(crate::specs::Bodies::listed_parameters))]
fn listed_parameters(alloc: Global, tokens: &mut Cursor<'_>) -> Result<Vec<Parameter>, ParseStop>
    ensures { Parses (λ found. found.items) spec.listed_parameters tokens.old result tokens.new }
{
    let mut found = Vec::new(alloc);
    if tokens.sees_symbol(Symbol::RightParen) {
        return Ok(found);
    }
    let parameter = parameter(alloc, tokens)?;
    push(&mut found, parameter)?;
    more_parameters(alloc, tokens, found)
}

/// The parameters of a function, in their parentheses. So many brackets may still be opened.
#[tactic(auto, unfolding(crate::specs::Bodies::parameters))]
fn parameters(
    alloc: Global,
    tokens: &mut Cursor<'_>,
    depth: u8,
) -> Result<Vec<Parameter>, ParseStop>
    ensures { Parses (λ found. found.items) (spec.parameters depth) tokens.old result tokens.new }
{
    let _open = tokens.opened(depth, Symbol::LeftParen)?;
    let found = listed_parameters(alloc, tokens)?;
    let _close = tokens.symbol(Symbol::RightParen)?;
    Ok(found)
}

/// The type of a function's answer, if one is written.
#[tactic(auto, unfolding(crate::specs::Bodies::answer))]
fn answer(tokens: &mut Cursor<'_>) -> Result<Option<VarType>, ParseStop>
    ensures { Parses (λ t. t) spec.answer tokens.old result tokens.new }
{
    if tokens.sees_symbol(Symbol::Arrow) {
        let _arrow = tokens.symbol(Symbol::Arrow)?;
        let (_line, var_type) = variable_type(tokens)?;
        return Ok(Some(var_type));
    }
    Ok(None)
}

/// A function. So many brackets may still be opened.
#[tactic(auto, unfolding(crate::specs::Bodies::function_item))]
pub fn function_item(alloc: Global, tokens: &mut Cursor<'_>, depth: u8) -> Result<Item, ParseStop>
    ensures { Parses item_of (spec.function_item depth) tokens.old result tokens.new }
{
    let line = tokens.word(Word::Func)?;
    let name = tokens.name(alloc)?;
    let parameters = parameters(alloc, tokens, depth)?;
    let answer = answer(tokens)?;
    let body = block(alloc, tokens, depth)?;
    Ok(Item::Function(
        line,
        FunctionItem {
            name,
            parameters,
            answer,
            body,
        },
    ))
}

/// A thread or a method. So many brackets may still be opened.
#[tactic(auto, unfolding(crate::specs::Bodies::process_item))]
pub fn process_item(
    alloc: Global,
    tokens: &mut Cursor<'_>,
    kind: ProcessKind,
    depth: u8,
) -> Result<Item, ParseStop>
    ensures { Parses item_of (spec.process_item kind depth) tokens.old result tokens.new }
{
    let line = tokens.word(process_word(kind))?;
    let name = tokens.name(alloc)?;
    let sensitive = sensitive(alloc, tokens, depth)?;
    let dont_initialize = tokens.flag(Word::DontInitialize)?;
    let body = block(alloc, tokens, depth)?;
    Ok(Item::Process(
        line,
        ProcessItem {
            kind,
            name,
            sensitive,
            dont_initialize,
            body,
        },
    ))
}
