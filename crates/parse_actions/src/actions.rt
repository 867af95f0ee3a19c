ghost use Rattle.std.specs.Prelude.{◌≡◌};
ghost use Rattle.model_tree.specs.Views as views;
ghost use Rattle.parse_expressions.specs.Parse.{Parses};
ghost use Rattle.parse_actions.specs.Actions as spec;

use super::commas::{next_expression, next_name, optional_next_expression};
use super::spawning::{spawn, who};
use super::waiting::{notification, waiting};
use crate::{channel, optional_expression};
use model_tree::{Action, Control, Expression, Name, ParseStop, Word};
use parse_expressions::{Cursor, expression};
use std::alloc::Global;

/// An action, by its word.
#[derive(Clone, Copy)]
pub enum ActionStart {
    /// `write`
    Write,
    /// `print`
    Print,
    /// `notify`
    Notify,
    /// `cancel`
    Cancel,
    /// `wait`
    Wait,
    /// `next_trigger`
    NextTrigger,
    /// `lock`
    Lock,
    /// `sem_wait`
    SemWait,
    /// `post`
    Post,
    /// `make`
    Make,
    /// `acquire`
    Acquire,
    /// `release`
    Release,
    /// `carry`
    Carry,
    /// `b_transport`
    BTransport,
    /// `qk_global`
    QkGlobal,
    /// `qk_inc`
    QkInc,
    /// `qk_set`
    QkSet,
    /// `qk_reset`
    QkReset,
    /// `qk_sync`
    QkSync,
    /// `spawn`
    Spawn,
    /// A control call.
    Control(Control),
    /// `throw_it`
    ThrowIt,
    /// `throw`
    Throw,
    /// `return`
    Return,
    /// `stop`
    Stop,
    /// No action.
    Nothing,
}

/// The action that begins with this word.
pub fn action_start(word: Word) -> ActionStart
    ensures { result ≡ spec.action_start word }
{
    match word {
        Word::Write => ActionStart::Write,
        Word::Print => ActionStart::Print,
        Word::Notify => ActionStart::Notify,
        Word::Cancel => ActionStart::Cancel,
        Word::Wait => ActionStart::Wait,
        Word::NextTrigger => ActionStart::NextTrigger,
        Word::Lock => ActionStart::Lock,
        Word::SemWait => ActionStart::SemWait,
        Word::Post => ActionStart::Post,
        Word::Make => ActionStart::Make,
        Word::Acquire => ActionStart::Acquire,
        Word::Release => ActionStart::Release,
        Word::Carry => ActionStart::Carry,
        Word::BTransport => ActionStart::BTransport,
        Word::QkGlobal => ActionStart::QkGlobal,
        Word::QkInc => ActionStart::QkInc,
        Word::QkSet => ActionStart::QkSet,
        Word::QkReset => ActionStart::QkReset,
        Word::QkSync => ActionStart::QkSync,
        Word::Spawn => ActionStart::Spawn,
        Word::Suspend => ActionStart::Control(Control::Suspend),
        Word::Resume => ActionStart::Control(Control::Resume),
        Word::Disable => ActionStart::Control(Control::Disable),
        Word::Enable => ActionStart::Control(Control::Enable),
        Word::Kill => ActionStart::Control(Control::Kill),
        Word::Reset => ActionStart::Control(Control::Reset),
        Word::ThrowIt => ActionStart::ThrowIt,
        Word::Throw => ActionStart::Throw,
        Word::Return => ActionStart::Return,
        Word::Stop => ActionStart::Stop,
        _ => ActionStart::Nothing,
    }
}

/// Whether an action begins with this word.
pub fn begins_action(word: Word) -> bool
    ensures { result ≡ spec.begins_action word }
{
    match action_start(word) {
        ActionStart::Nothing => false,
        _ => true,
    }
}

/// The channel that is written, and the value.
#[tactic(auto, unfolding(crate::specs::Actions::write))]
fn write(alloc: Global, tokens: &mut Cursor<'_>, depth: u8) -> Result<Action, ParseStop>
    ensures { Parses views.action_of (spec.write depth) tokens.old result tokens.new }
{
    let written = channel(alloc, tokens, depth)?;
    let value = expression(alloc, tokens, depth)?;
    Ok(Action::Write(written, value))
}

/// The text that is printed, and the value behind it, if one comes.
#[tactic(auto, unfolding(crate::specs::Actions::print))]
fn print(alloc: Global, tokens: &mut Cursor<'_>, depth: u8) -> Result<Action, ParseStop>
    ensures { Parses views.action_of (spec.print depth) tokens.old result tokens.new }
{
    let text = tokens.text(alloc)?;
    let value = optional_expression(alloc, tokens, depth)?;
    Ok(Action::Print(text, value))
}

/// The event that is notified, and when.
#[tactic(auto, unfolding(crate::specs::Actions::notify))]
fn notify(alloc: Global, tokens: &mut Cursor<'_>, depth: u8) -> Result<Action, ParseStop>
    ensures { Parses views.action_of (spec.notify depth) tokens.old result tokens.new }
{
    let name = tokens.name(alloc)?;
    let when = notification(alloc, tokens, depth)?;
    Ok(Action::Notify(name, when))
}

/// A new payload's variable, its length, and the length of its byte enables, if one comes.
#[tactic(auto, unfolding(crate::specs::Actions::make))]
fn make(alloc: Global, tokens: &mut Cursor<'_>, depth: u8) -> Result<Action, ParseStop>
    ensures { Parses views.action_of (spec.make depth) tokens.old result tokens.new }
{
    let name = tokens.name(alloc)?;
    let length = next_expression(alloc, tokens, depth)?;
    let enables = optional_next_expression(alloc, tokens, depth)?;
    Ok(Action::Make(name, length, enables))
}

/// A payload, and the memory that carries it out.
#[tactic(auto, unfolding(crate::specs::Actions::carry))]
fn carry(alloc: Global, tokens: &mut Cursor<'_>) -> Result<Action, ParseStop>
    ensures { Parses views.action_of spec.carry tokens.old result tokens.new }
{
    let payload = tokens.name(alloc)?;
    let memory = next_name(alloc, tokens)?;
    Ok(Action::Carry(payload, memory))
}

/// A blocking transport's socket, payload and delay.
#[tactic(auto, unfolding(crate::specs::Actions::b_transport))]
fn b_transport(alloc: Global, tokens: &mut Cursor<'_>) -> Result<Action, ParseStop>
    ensures { Parses views.action_of spec.b_transport tokens.old result tokens.new }
{
    let socket = tokens.name(alloc)?;
    let payload = next_name(alloc, tokens)?;
    let delay = next_name(alloc, tokens)?;
    Ok(Action::BTransport(socket, payload, delay))
}

/// A name and an expression.
#[tactic(auto, unfolding(crate::specs::Actions::name_and_expression))]
fn name_and_expression(
    alloc: Global,
    tokens: &mut Cursor<'_>,
    depth: u8,
) -> Result<(Name, Expression), ParseStop>
    ensures { Parses (λ found. (found.0, views.expression_of found.1)) (spec.name_and_expression depth) tokens.old result tokens.new }
{
    let name = tokens.name(alloc)?;
    let value = expression(alloc, tokens, depth)?;
    Ok((name, value))
}

/// The process of a control call, and whether it reaches the descendants of its target.
#[tactic(auto, unfolding(crate::specs::Actions::control))]
fn control(alloc: Global, tokens: &mut Cursor<'_>, order: Control) -> Result<Action, ParseStop>
    ensures { Parses views.action_of (spec.control order) tokens.old result tokens.new }
{
    let process = who(alloc, tokens)?;
    let descendants = tokens.flag(Word::Descendants)?;
    Ok(Action::Control(order, process, descendants))
}

/// The process that is thrown at, what, and whether it reaches the descendants of its target.
#[tactic(auto, unfolding(crate::specs::Actions::throw_it))]
fn throw_it(alloc: Global, tokens: &mut Cursor<'_>) -> Result<Action, ParseStop>
    ensures { Parses views.action_of spec.throw_it tokens.old result tokens.new }
{
    let process = who(alloc, tokens)?;
    let name = tokens.name(alloc)?;
    let descendants = tokens.flag(Word::Descendants)?;
    Ok(Action::ThrowIt(process, name, descendants))
}

/// The action that begins so, behind its word, which is on this line.
#[tactic(auto, unfolding(crate::specs::Actions::started_action))]
pub fn started_action(
    alloc: Global,
    tokens: &mut Cursor<'_>,
    depth: u8,
    start: ActionStart,
    line: u32,
) -> Result<Action, ParseStop>
    ensures { Parses views.action_of (spec.started_action depth start) tokens.old result tokens.new }
{
    match start {
        ActionStart::Write => write(alloc, tokens, depth),
        ActionStart::Print => print(alloc, tokens, depth),
        ActionStart::Notify => notify(alloc, tokens, depth),
        ActionStart::Cancel => Ok(Action::Cancel(tokens.name(alloc)?)),
        ActionStart::Wait => Ok(Action::Wait(waiting(alloc, tokens, depth)?)),
        ActionStart::NextTrigger => Ok(Action::NextTrigger(waiting(alloc, tokens, depth)?)),
        ActionStart::Lock => Ok(Action::Lock(channel(alloc, tokens, depth)?)),
        ActionStart::SemWait => Ok(Action::SemWait(channel(alloc, tokens, depth)?)),
        ActionStart::Post => Ok(Action::Post(channel(alloc, tokens, depth)?)),
        ActionStart::Make => make(alloc, tokens, depth),
        ActionStart::Acquire => Ok(Action::Acquire(tokens.name(alloc)?)),
        ActionStart::Release => Ok(Action::Release(tokens.name(alloc)?)),
        ActionStart::Carry => carry(alloc, tokens),
        ActionStart::BTransport => b_transport(alloc, tokens),
        ActionStart::QkGlobal => Ok(Action::QkGlobal(expression(alloc, tokens, depth)?)),
        ActionStart::QkInc => {
            let (name, value) = name_and_expression(alloc, tokens, depth)?;
            Ok(Action::QkInc(name, value))
        }
        ActionStart::QkSet => {
            let (name, value) = name_and_expression(alloc, tokens, depth)?;
            Ok(Action::QkSet(name, value))
        }
        ActionStart::QkReset => Ok(Action::QkReset(tokens.name(alloc)?)),
        ActionStart::QkSync => Ok(Action::QkSync(tokens.name(alloc)?)),
        ActionStart::Spawn => Ok(Action::Spawn(spawn(alloc, tokens, depth)?)),
        ActionStart::Control(order) => control(alloc, tokens, order),
        ActionStart::ThrowIt => throw_it(alloc, tokens),
        ActionStart::Throw => Ok(Action::Throw(tokens.name(alloc)?)),
        ActionStart::Return => Ok(Action::Return(optional_expression(alloc, tokens, depth)?)),
        ActionStart::Stop => Ok(Action::Stop),
        ActionStart::Nothing => Err(ParseStop::Syntax { line }),
    }
}
