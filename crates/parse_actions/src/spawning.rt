ghost use Rattle.std.specs.Prelude.{option_map};
ghost use Rattle.model_tree.specs.Views.{spawn_of};
ghost use Rattle.parse_expressions.specs.Parse.{Parses};
ghost use Rattle.parse_actions.specs.Waits as spec;

use crate::{arguments, sensitive};
use model_tree::{Name, ParseStop, Spawn, Symbol, Who, Word};
use parse_expressions::Cursor;
use std::alloc::Global;

/// `self`
#[tactic(auto, unfolding(crate::specs::Waits::myself))]
fn myself(tokens: &mut Cursor<'_>) -> Result<Who, ParseStop>
    ensures { Parses (λ found. found) spec.myself tokens.old result tokens.new }
{
    let line = tokens.word(Word::SelfProcess)?;
    Ok(Who::Myself(line))
}

/// A process by its name.
#[tactic(auto, unfolding(crate::specs::Waits::process_name))]
fn process_name(alloc: Global, tokens: &mut Cursor<'_>) -> Result<Who, ParseStop>
    ensures { Parses (λ found. found) spec.process_name tokens.old result tokens.new }
{
    let (line, name) = tokens.named(alloc)?;
    Ok(Who::Named(line, name))
}

/// The process that a control call is for.
#[tactic(auto, unfolding(crate::specs::Waits::who))]
pub fn who(alloc: Global, tokens: &mut Cursor<'_>) -> Result<Who, ParseStop>
    ensures { Parses (λ found. found) spec.who tokens.old result tokens.new }
{
    if tokens.sees_word(Word::SelfProcess) {
        return myself(tokens);
    }
    process_name(alloc, tokens)
}

/// The variable that gets a handle, if a name and `=` come.
#[tactic(auto, unfolding(crate::specs::Waits::optional_handle))]
fn optional_handle(alloc: Global, tokens: &mut Cursor<'_>) -> Result<Option<Name>, ParseStop>
    ensures { Parses (λ found. found) spec.optional_handle tokens.old result tokens.new }
{
    if tokens.sees_second_symbol(Symbol::Equal) {
        let name = tokens.name(alloc)?;
        let _equal = tokens.symbol(Symbol::Equal)?;
        return Ok(Some(name));
    }
    Ok(None)
}

/// A new instance of a function.
#[tactic(auto, unfolding(crate::specs::Waits::spawn))]
pub fn spawn(alloc: Global, tokens: &mut Cursor<'_>, depth: u8) -> Result<Spawn, ParseStop>
    ensures { Parses spawn_of (spec.spawn depth) tokens.old result tokens.new }
{
    let handle = optional_handle(alloc, tokens)?;
    let method = tokens.flag(Word::Method)?;
    let function = tokens.name(alloc)?;
    let given = arguments(alloc, tokens, depth)?;
    let events = sensitive(alloc, tokens, depth)?;
    let dont_initialize = tokens.flag(Word::DontInitialize)?;
    Ok(Spawn {
        handle,
        method,
        function,
        arguments: given,
        sensitive: events,
        dont_initialize,
    })
}
