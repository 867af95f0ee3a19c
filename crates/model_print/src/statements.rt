ghost use Rattle.std.specs.Prelude.{◌≡◌, OnOk, option_map};
ghost use Rattle.model_tree.specs.Views.{action_of, body_of, channel_of, event_of, events_of, expression_of, notification_of, operation_of, place_of, spawn_of, statement_of, target_of, waiting_of};
ghost use Rattle.model_print.specs.Layout.{put_all};
ghost use Rattle.model_print.specs.Pieces as piece;
ghost use Rattle.model_print.specs.Printed as spec;

use super::expressions::{arguments, expression};
use super::leaves::{flag, member, var_type, who};
use crate::Page;
use model_tree::{
    Action, Channel, Event, Expression, Name, Notification, Operation, Place, Spawn, Statement,
    Symbol, Target, VarType, Waiting, Word, control_word,
};
use std::alloc::AllocError;

/// Writes the place of a channel where one is written.
fn place(page: &mut Page, place: &Place) -> Result<(), AllocError>
    ensures { OnOk result (page.new ≡ put_all page.old (spec.place (place_of place.now))) }
{
    match place {
        Place::First => Ok(()),
        Place::Number(number) => {
            page.joint(Symbol::At)?;
            page.number(*number)
        }
        Place::Computed(number) => {
            page.joint(Symbol::At)?;
            page.opening(Symbol::LeftParen)?;
            expression(page, number)?;
            page.closing(Symbol::RightParen)
        }
    }
}

/// Writes a channel.
fn channel(page: &mut Page, channel: &Channel) -> Result<(), AllocError>
    ensures { OnOk result (page.new ≡ put_all page.old (spec.channel (channel_of channel.now))) }
{
    page.name(&channel.name)?;
    place(page, &channel.place)
}

/// Writes an event.
fn event(page: &mut Page, event: &Event) -> Result<(), AllocError>
    ensures { OnOk result (page.new ≡ put_all page.old (spec.event (event_of event.now))) }
{
    channel(page, &event.channel)?;
    member(page, &event.member)
}

/// Writes each event behind a comma.
fn more_events(page: &mut Page, events: &[Event]) -> Result<(), AllocError>
    ensures { OnOk result (page.new ≡ put_all page.old (spec.more_events (events_of events.now))) }
{
    for e in events {
        page.comma()?;
        event(page, e)?;
    }
    Ok(())
}

/// Writes events with commas between them.
fn listed(page: &mut Page, events: &[Event]) -> Result<(), AllocError>
    ensures { OnOk result (page.new ≡ put_all page.old (piece.separated spec.event (events_of events.now))) }
{
    match events {
        [] => Ok(()),
        [first, rest @ ..] => {
            event(page, first)?;
            more_events(page, rest)
        }
    }
}

/// Writes a static sensitivity where there is one.
pub fn sensitive(page: &mut Page, events: &[Event]) -> Result<(), AllocError>
    ensures { OnOk result (page.new ≡ put_all page.old (spec.sensitive (events_of events.now))) }
{
    if !events.is_empty() {
        page.word(Word::Sensitive)?;
    }
    listed(page, events)
}

/// Writes an expression where one is written.
fn optional(page: &mut Page, e: &Option<Expression>) -> Result<(), AllocError>
    ensures { OnOk result (page.new ≡ put_all page.old (piece.maybe spec.expression (option_map expression_of e.now))) }
{
    match e {
        None => Ok(()),
        Some(e) => expression(page, e),
    }
}

/// Writes a time-out where one is written.
fn time_out(page: &mut Page, time: &Option<Expression>) -> Result<(), AllocError>
    ensures { OnOk result (page.new ≡ put_all page.old (spec.time_out (option_map expression_of time.now))) }
{
    match time {
        None => Ok(()),
        Some(time) => {
            page.word(Word::For)?;
            expression(page, time)
        }
    }
}

/// Writes what a wait or a next trigger waits for.
fn waiting(page: &mut Page, waiting: &Waiting) -> Result<(), AllocError>
    ensures { OnOk result (page.new ≡ put_all page.old (spec.waiting (waiting_of waiting.now))) }
{
    match waiting {
        Waiting::Static => Ok(()),
        Waiting::Delta => page.word(Word::Delta),
        Waiting::For(time) => {
            page.word(Word::For)?;
            expression(page, time)
        }
        Waiting::One(one, time) => {
            event(page, one)?;
            time_out(page, time)
        }
        Waiting::Any(events, time) => {
            page.word(Word::Any)?;
            listed(page, events.as_slice())?;
            time_out(page, time)
        }
        Waiting::All(events, time) => {
            page.word(Word::All)?;
            listed(page, events.as_slice())?;
            time_out(page, time)
        }
    }
}

/// Writes when a notification comes.
fn notification(page: &mut Page, when: &Notification) -> Result<(), AllocError>
    ensures { OnOk result (page.new ≡ put_all page.old (spec.notification (notification_of when.now))) }
{
    match when {
        Notification::Immediate => Ok(()),
        Notification::Delta => page.word(Word::Delta),
        Notification::After(time) => {
            page.word(Word::After)?;
            expression(page, time)
        }
    }
}

/// Writes an index where one is written.
fn index(page: &mut Page, index: &Option<Expression>) -> Result<(), AllocError>
    ensures { OnOk result (page.new ≡ put_all page.old (spec.index (option_map expression_of index.now))) }
{
    match index {
        None => Ok(()),
        Some(index) => {
            page.opening(Symbol::LeftBracket)?;
            expression(page, index)?;
            page.closing(Symbol::RightBracket)
        }
    }
}

/// Writes the target of an assign.
fn target(page: &mut Page, target: &Target) -> Result<(), AllocError>
    ensures { OnOk result (page.new ≡ put_all page.old (spec.target (target_of target.now))) }
{
    page.name(&target.name)?;
    member(page, &target.member)?;
    index(page, &target.index)
}

/// Writes three names with commas between them.
fn three_names(page: &mut Page, first: &Name, second: &Name, third: &Name) -> Result<(), AllocError>
    ensures { OnOk result (page.new ≡ put_all page.old (spec.three_names first.now second.now third.now)) }
{
    page.name(first)?;
    page.comma()?;
    page.name(second)?;
    page.comma()?;
    page.name(third)
}

/// Writes a word and a channel behind it.
fn with_channel(page: &mut Page, word: Word, of: &Channel) -> Result<(), AllocError>
    ensures { OnOk result (page.new ≡ put_all page.old (spec.with_channel word (channel_of of.now))) }
{
    page.word(word)?;
    channel(page, of)
}

/// Writes an operation.
fn operation(page: &mut Page, operation: &Operation) -> Result<(), AllocError>
    ensures { OnOk result (page.new ≡ put_all page.old (spec.operation (operation_of operation.now))) }
{
    match operation {
        Operation::Call(function, values) => {
            page.word(Word::Call)?;
            page.name(function)?;
            arguments(page, values.as_slice())
        }
        Operation::Read(of) => with_channel(page, Word::Read, of),
        Operation::NbRead(of, variable) => {
            with_channel(page, Word::NbRead, of)?;
            page.comma()?;
            page.name(variable)
        }
        Operation::NbWrite(of, value) => {
            with_channel(page, Word::NbWrite, of)?;
            page.comma()?;
            expression(page, value)
        }
        Operation::Trylock(of) => with_channel(page, Word::Trylock, of),
        Operation::Unlock(of) => with_channel(page, Word::Unlock, of),
        Operation::SemTrywait(of) => with_channel(page, Word::SemTrywait, of),
        Operation::NbTransport(socket, payload, phase, delay) => {
            page.word(Word::NbTransport)?;
            page.name(socket)?;
            page.comma()?;
            three_names(page, payload, phase, delay)
        }
    }
}

/// Writes the variable that gets a value where one is written.
fn stored(page: &mut Page, variable: &Option<Name>) -> Result<(), AllocError>
    ensures { OnOk result (page.new ≡ put_all page.old (spec.stored variable.now)) }
{
    match variable {
        None => Ok(()),
        Some(variable) => {
            page.name(variable)?;
            page.operator(Symbol::Equal)
        }
    }
}

/// Writes a new instance of a function.
fn spawn(page: &mut Page, spawn: &Spawn) -> Result<(), AllocError>
    ensures { OnOk result (page.new ≡ put_all page.old (spec.spawn (spawn_of spawn.now))) }
{
    page.word(Word::Spawn)?;
    stored(page, &spawn.handle)?;
    flag(page, Word::Method, spawn.method)?;
    page.name(&spawn.function)?;
    arguments(page, spawn.arguments.as_slice())?;
    sensitive(page, spawn.sensitive.as_slice())?;
    flag(page, Word::DontInitialize, spawn.dont_initialize)
}

/// Writes a word and a name.
pub fn with_name(page: &mut Page, word: Word, name: &Name) -> Result<(), AllocError>
    ensures { OnOk result (page.new ≡ put_all page.old (spec.with_name word name.now)) }
{
    page.word(word)?;
    page.name(name)
}

/// Writes an expression behind a comma where one is written.
fn one_more(page: &mut Page, e: &Option<Expression>) -> Result<(), AllocError>
    ensures { OnOk result (page.new ≡ put_all page.old (spec.one_more (option_map expression_of e.now))) }
{
    match e {
        None => Ok(()),
        Some(e) => {
            page.comma()?;
            expression(page, e)
        }
    }
}

/// Writes a word, a name and an expression.
fn with_time(
    page: &mut Page,
    word: Word,
    keeper: &Name,
    time: &Expression,
) -> Result<(), AllocError>
    ensures { OnOk result (page.new ≡ put_all page.old (spec.with_time word keeper.now (expression_of time.now))) }
{
    page.word(word)?;
    page.name(keeper)?;
    expression(page, time)
}

/// Writes a statement that gives no value, without its `;`.
fn action(page: &mut Page, action: &Action) -> Result<(), AllocError>
    ensures { OnOk result (page.new ≡ put_all page.old (spec.action (action_of action.now))) }
{
    match action {
        Action::Write(to, value) => {
            with_channel(page, Word::Write, to)?;
            expression(page, value)
        }
        Action::Print(text, value) => {
            page.word(Word::Print)?;
            page.quoted(text)?;
            optional(page, value)
        }
        Action::Notify(event, when) => {
            with_name(page, Word::Notify, event)?;
            notification(page, when)
        }
        Action::Cancel(event) => with_name(page, Word::Cancel, event),
        Action::Wait(until) => {
            page.word(Word::Wait)?;
            waiting(page, until)
        }
        Action::NextTrigger(until) => {
            page.word(Word::NextTrigger)?;
            waiting(page, until)
        }
        Action::Lock(of) => with_channel(page, Word::Lock, of),
        Action::SemWait(of) => with_channel(page, Word::SemWait, of),
        Action::Post(of) => with_channel(page, Word::Post, of),
        Action::Make(payload, len, enables) => {
            with_name(page, Word::Make, payload)?;
            page.comma()?;
            expression(page, len)?;
            one_more(page, enables)
        }
        Action::Acquire(payload) => with_name(page, Word::Acquire, payload),
        Action::Release(payload) => with_name(page, Word::Release, payload),
        Action::Carry(payload, memory) => {
            with_name(page, Word::Carry, payload)?;
            page.comma()?;
            page.name(memory)
        }
        Action::BTransport(socket, payload, delay) => {
            page.word(Word::BTransport)?;
            three_names(page, socket, payload, delay)
        }
        Action::QkGlobal(time) => {
            page.word(Word::QkGlobal)?;
            expression(page, time)
        }
        Action::QkInc(keeper, time) => with_time(page, Word::QkInc, keeper, time),
        Action::QkSet(keeper, time) => with_time(page, Word::QkSet, keeper, time),
        Action::QkReset(keeper) => with_name(page, Word::QkReset, keeper),
        Action::QkSync(keeper) => with_name(page, Word::QkSync, keeper),
        Action::Spawn(new) => spawn(page, new),
        Action::Control(control, process, descendants) => {
            page.word(control_word(*control))?;
            who(page, process)?;
            flag(page, Word::Descendants, *descendants)
        }
        Action::ThrowIt(process, exception, descendants) => {
            page.word(Word::ThrowIt)?;
            who(page, process)?;
            page.name(exception)?;
            flag(page, Word::Descendants, *descendants)
        }
        Action::Throw(exception) => with_name(page, Word::Throw, exception),
        Action::Return(value) => {
            page.word(Word::Return)?;
            optional(page, value)
        }
        Action::Stop => page.word(Word::Stop),
    }
}

/// Writes a first value where one is written.
fn initial(page: &mut Page, value: &Option<Expression>) -> Result<(), AllocError>
    ensures { OnOk result (page.new ≡ put_all page.old (spec.initial (option_map expression_of value.now))) }
{
    match value {
        None => Ok(()),
        Some(value) => {
            page.operator(Symbol::Equal)?;
            expression(page, value)
        }
    }
}

/// Writes a local variable.
fn var(
    page: &mut Page,
    of: VarType,
    name: &Name,
    value: &Option<Expression>,
) -> Result<(), AllocError>
    ensures { OnOk result (page.new ≡ put_all page.old (spec.var of name.now (option_map expression_of value.now))) }
{
    page.word(Word::Var)?;
    var_type(page, of)?;
    page.name(name)?;
    initial(page, value)?;
    page.semicolon()
}

/// Writes an assignment.
fn assign(page: &mut Page, to: &Target, value: &Expression) -> Result<(), AllocError>
    ensures { OnOk result (page.new ≡ put_all page.old (spec.assign (target_of to.now) (expression_of value.now))) }
{
    target(page, to)?;
    page.operator(Symbol::Equal)?;
    expression(page, value)?;
    page.semicolon()
}

/// Writes an operation, with the variable that gets its value.
fn operate(page: &mut Page, variable: &Option<Name>, what: &Operation) -> Result<(), AllocError>
    ensures { OnOk result (page.new ≡ put_all page.old (spec.operate variable.now (operation_of what.now))) }
{
    stored(page, variable)?;
    operation(page, what)?;
    page.semicolon()
}

/// Writes a statement that gives no value.
fn act(page: &mut Page, what: &Action) -> Result<(), AllocError>
    ensures { OnOk result (page.new ≡ put_all page.old (spec.act (action_of what.now))) }
{
    action(page, what)?;
    page.semicolon()
}

/// Writes a statement.
#[cycle(statements)]
fn statement(page: &mut Page, one: &Statement) -> Result<(), AllocError>
    ensures { OnOk result (page.new ≡ put_all page.old (spec.statement (statement_of one.now))) }
{
    match one {
        Statement::Var(_, var_type, name, value) => var(page, *var_type, name, value),
        Statement::Assign(_, target, value) => assign(page, target, value),
        Statement::Operate(_, variable, _, what) => operate(page, variable, what),
        Statement::Act(_, what) => act(page, what),
        Statement::If(_, condition, body, other) => {
            page.word(Word::If)?;
            expression(page, condition)?;
            block(page, body)?;
            match other {
                None => Ok(()),
                Some(other) => {
                    page.word(Word::Else)?;
                    block(page, other)
                }
            }
        }
        Statement::While(_, condition, body) => {
            page.word(Word::While)?;
            expression(page, condition)?;
            block(page, body)
        }
        Statement::Guard(_, body, undo) => {
            page.word(Word::Guard)?;
            block(page, body)?;
            page.word(Word::Unwind)?;
            block(page, undo)
        }
        Statement::Try(_, body, handlers) => {
            page.word(Word::Try)?;
            block(page, body)?;
            for (exception, body) in handlers {
                page.word(Word::Catch)?;
                page.name(exception)?;
                block(page, body)?;
            }
            Ok(())
        }
    }
}

/// Writes the statements of a block.
#[cycle(statements)]
fn statements(page: &mut Page, body: &Vec<Statement>) -> Result<(), AllocError>
    ensures { OnOk result (page.new ≡ put_all page.old (spec.statements (body_of body.now.items))) }
{
    for one in body {
        statement(page, one)?;
    }
    Ok(())
}

/// Writes a block.
#[cycle(statements)]
pub fn block(page: &mut Page, body: &Vec<Statement>) -> Result<(), AllocError>
    ensures { OnOk result (page.new ≡ put_all page.old (piece.braced (spec.statements (body_of body.now.items)))) }
{
    page.left_brace()?;
    statements(page, body)?;
    page.right_brace()
}
