ghost use Rattle.std.specs.Prelude.{◌≡◌, IfOk, option_map, option_and_then};
ghost use Rattle.model_tree.specs.Views.{action_of, channel_of, expression_of, notification_of, spawn_of, waiting_of};
ghost use Rattle.flat_design.specs.Code as code;
ghost use Rattle.code_terms.specs.CodeRules.Deeds as deeds;
ghost use Rattle.code_terms.specs.CodeRules.Terms.{term_of as value_of};
ghost use Rattle.code_terms.specs.ModelRules.Scopes.{place_of as place_in, use_of as use_in};
ghost use Rattle.code_terms.specs.ModelRules.Targets.{written_to as written_in};
ghost use Rattle.code_terms.specs.CheckNames.Places.{scope_of};
ghost use Rattle.code_terms.specs.Statements.{statements_of};
ghost use Rattle.code_deeds.specs.Homes as spec;

use crate::{
    Home, await_code, controlled_by, exception_number, notification_code, spawn_code, written_to,
};
use code_terms::check_names_api::Place;
use code_terms::{Deed, channel_code, declared_place, option_code, term_code, use_of};
use flat_design::{Await, Expr, Member, NameUse, Statement};
use model_tree::{
    Action, Channel, Control, Expression, Name, Notification, PrintText, Spawn, Waiting, Who,
};
use std::alloc::{AllocError, Global};

/// One statement, where there is one.
fn single(statement: Option<Statement>) -> Option<Deed>
    ensures { option_map statements_of result ≡ deeds.single (option_map code.statement_of statement) }
{
    match statement {
        None => None,
        Some(statement) => Some(Deed::One(statement)),
    }
}

/// The code of a write.
fn write_code(
    alloc: Global,
    place: &Place<'_>,
    channel: &Channel,
    value: &Expression,
) -> Result<Option<Statement>, AllocError>
    ensures { IfOk result (λ found. option_map code.statement_of found ≡ deeds.with_three code.write (deeds.channel_term (scope_of place.now) (channel_of channel.now)) (written_in (scope_of place.now) (channel_of channel.now)) (value_of (scope_of place.now) (expression_of value.now))) }
{
    match channel_code(alloc, place, channel)? {
        None => Ok(None),
        Some(written) => match written_to(place, channel) {
            None => Ok(None),
            Some(value_type) => match term_code(alloc, place, value)? {
                None => Ok(None),
                Some(value) => Ok(Some(Statement::Write(written, value_type, value))),
            },
        },
    }
}

/// The same text in memory of its own.
fn copied(alloc: Global, text: &PrintText) -> Result<PrintText, AllocError>
    ensures { IfOk result (λ copy. copy ≡ text.now) }
{
    match PrintText::try_new(Vec::from_slice(alloc, text.bytes())?) {
        Some(copy) => Ok(copy),
        None => Err(AllocError),
    }
}

/// The code of a print.
fn print_code(
    alloc: Global,
    place: &Place<'_>,
    text: &PrintText,
    value: &Option<Expression>,
) -> Result<Option<Statement>, AllocError>
    ensures { IfOk result (λ found. option_map code.statement_of found ≡ option_map (code.print text.now) (deeds.if_written (value_of (scope_of place.now)) (option_map expression_of value.now))) }
{
    match option_code(alloc, place, value)? {
        None => Ok(None),
        Some(value) => {
            let text = copied(alloc, text)?;
            Ok(Some(Statement::Print(text, value)))
        }
    }
}

/// The code of a notification.
fn notify_code(
    alloc: Global,
    place: &Place<'_>,
    name: &Name,
    notification: &Notification,
) -> Result<Option<Statement>, AllocError>
    ensures { IfOk result (λ found. option_map code.statement_of found ≡ option_and_then (deeds.notification_code (scope_of place.now) (notification_of notification.now)) (place_in (scope_of place.now) name.now)) }
{
    match declared_place(place, name.bytes())? {
        None => Ok(None),
        Some(event) => notification_code(alloc, place, notification, event),
    }
}

/// The code of a new payload.
fn make_code(
    alloc: Global,
    place: &Place<'_>,
    name: &Name,
    bytes: &Expression,
    enables: &Option<Expression>,
) -> Result<Option<Statement>, AllocError>
    ensures { IfOk result (λ found. option_map code.statement_of found ≡ deeds.with_three code.make (use_in (scope_of place.now) name.now) (value_of (scope_of place.now) (expression_of bytes.now)) (deeds.if_written (value_of (scope_of place.now)) (option_map expression_of enables.now))) }
{
    match use_of(place, name.bytes())? {
        None => Ok(None),
        Some(name) => match term_code(alloc, place, bytes)? {
            None => Ok(None),
            Some(bytes) => match option_code(alloc, place, enables)? {
                None => Ok(None),
                Some(enables) => Ok(Some(Statement::Make(name, bytes, enables))),
            },
        },
    }
}

/// The code of a copy of bytes between a payload and a memory.
fn carry_code(
    place: &Place<'_>,
    payload: &Name,
    memory: &Name,
) -> Result<Option<Statement>, AllocError>
    ensures { IfOk result (λ found. option_map code.statement_of found ≡ deeds.with_two code.carry (use_in (scope_of place.now) payload.now) (place_in (scope_of place.now) memory.now)) }
{
    match use_of(place, payload.bytes())? {
        None => Ok(None),
        Some(payload) => match declared_place(place, memory.bytes())? {
            None => Ok(None),
            Some(memory) => Ok(Some(Statement::Carry(payload, memory))),
        },
    }
}

/// The code of a blocking transport call.
fn b_transport_code(
    place: &Place<'_>,
    socket: &Name,
    payload: &Name,
    delay: &Name,
) -> Result<Option<Statement>, AllocError>
    ensures { IfOk result (λ found. option_map code.statement_of found ≡ deeds.with_three code.b_transport (place_in (scope_of place.now) socket.now) (use_in (scope_of place.now) payload.now) (use_in (scope_of place.now) delay.now)) }
{
    match declared_place(place, socket.bytes())? {
        None => Ok(None),
        Some(socket) => match use_of(place, payload.bytes())? {
            None => Ok(None),
            Some(payload) => match use_of(place, delay.bytes())? {
                None => Ok(None),
                Some(delay) => Ok(Some(Statement::BTransport(socket, payload, delay))),
            },
        },
    }
}

/// The code of a lock of a mutex.
fn lock_code(
    alloc: Global,
    place: &Place<'_>,
    channel: &Channel,
) -> Result<Option<Statement>, AllocError>
    ensures { IfOk result (λ found. option_map code.statement_of found ≡ option_map code.lock (deeds.channel_term (scope_of place.now) (channel_of channel.now))) }
{
    match channel_code(alloc, place, channel)? {
        None => Ok(None),
        Some(channel) => Ok(Some(Statement::Lock(channel))),
    }
}

/// The code of a take from a semaphore.
fn sem_wait_code(
    alloc: Global,
    place: &Place<'_>,
    channel: &Channel,
) -> Result<Option<Statement>, AllocError>
    ensures { IfOk result (λ found. option_map code.statement_of found ≡ option_map code.sem_wait (deeds.channel_term (scope_of place.now) (channel_of channel.now))) }
{
    match channel_code(alloc, place, channel)? {
        None => Ok(None),
        Some(channel) => Ok(Some(Statement::SemWait(channel))),
    }
}

/// The code of a give to a semaphore.
fn post_code(
    alloc: Global,
    place: &Place<'_>,
    channel: &Channel,
) -> Result<Option<Statement>, AllocError>
    ensures { IfOk result (λ found. option_map code.statement_of found ≡ option_map code.post (deeds.channel_term (scope_of place.now) (channel_of channel.now))) }
{
    match channel_code(alloc, place, channel)? {
        None => Ok(None),
        Some(channel) => Ok(Some(Statement::Post(channel))),
    }
}

/// The code of a wait.
fn wait_code(
    alloc: Global,
    place: &Place<'_>,
    waiting: &Waiting,
) -> Result<Option<Statement>, AllocError>
    ensures { IfOk result (λ found. option_map code.statement_of found ≡ option_map code.wait (deeds.await_term (scope_of place.now) (waiting_of waiting.now))) }
{
    match await_code(alloc, place, waiting)? {
        None => Ok(None),
        Some(awaited) => Ok(Some(Statement::Wait(awaited))),
    }
}

/// The code of how a method waits after its return.
fn next_trigger_code(
    alloc: Global,
    place: &Place<'_>,
    waiting: &Waiting,
) -> Result<Option<Statement>, AllocError>
    ensures { IfOk result (λ found. option_map code.statement_of found ≡ option_map code.next_trigger (deeds.await_term (scope_of place.now) (waiting_of waiting.now))) }
{
    match await_code(alloc, place, waiting)? {
        None => Ok(None),
        Some(awaited) => Ok(Some(Statement::NextTrigger(awaited))),
    }
}

/// The code of a notification that is taken back.
fn cancel_code(place: &Place<'_>, name: &Name) -> Result<Option<Statement>, AllocError>
    ensures { IfOk result (λ found. option_map code.statement_of found ≡ option_map code.cancel (place_in (scope_of place.now) name.now)) }
{
    match declared_place(place, name.bytes())? {
        None => Ok(None),
        Some(name) => Ok(Some(Statement::Cancel(name))),
    }
}

/// The code of one reference more to a payload.
fn acquire_code(place: &Place<'_>, name: &Name) -> Result<Option<Statement>, AllocError>
    ensures { IfOk result (λ found. option_map code.statement_of found ≡ option_map code.acquire (use_in (scope_of place.now) name.now)) }
{
    match use_of(place, name.bytes())? {
        None => Ok(None),
        Some(name) => Ok(Some(Statement::Acquire(name))),
    }
}

/// The code of one reference less to a payload.
fn release_code(place: &Place<'_>, name: &Name) -> Result<Option<Statement>, AllocError>
    ensures { IfOk result (λ found. option_map code.statement_of found ≡ option_map code.release (use_in (scope_of place.now) name.now)) }
{
    match use_of(place, name.bytes())? {
        None => Ok(None),
        Some(name) => Ok(Some(Statement::Release(name))),
    }
}

/// The code of a keeper that begins anew.
fn qk_reset_code(place: &Place<'_>, name: &Name) -> Result<Option<Statement>, AllocError>
    ensures { IfOk result (λ found. option_map code.statement_of found ≡ option_map code.qk_reset (place_in (scope_of place.now) name.now)) }
{
    match declared_place(place, name.bytes())? {
        None => Ok(None),
        Some(name) => Ok(Some(Statement::QkReset(name))),
    }
}

/// The code of the global quantum.
fn qk_global_code(
    alloc: Global,
    place: &Place<'_>,
    time: &Expression,
) -> Result<Option<Statement>, AllocError>
    ensures { IfOk result (λ found. option_map code.statement_of found ≡ option_map code.qk_global (value_of (scope_of place.now) (expression_of time.now))) }
{
    match term_code(alloc, place, time)? {
        None => Ok(None),
        Some(time) => Ok(Some(Statement::QkGlobal(time))),
    }
}

/// The code of a time more in a keeper.
fn qk_inc_code(
    alloc: Global,
    place: &Place<'_>,
    name: &Name,
    time: &Expression,
) -> Result<Option<Statement>, AllocError>
    ensures { IfOk result (λ found. option_map code.statement_of found ≡ deeds.with_two code.qk_inc (place_in (scope_of place.now) name.now) (value_of (scope_of place.now) (expression_of time.now))) }
{
    match declared_place(place, name.bytes())? {
        None => Ok(None),
        Some(keeper) => match term_code(alloc, place, time)? {
            None => Ok(None),
            Some(time) => Ok(Some(Statement::QkInc(keeper, time))),
        },
    }
}

/// The code of the local time of a keeper.
fn qk_set_code(
    alloc: Global,
    place: &Place<'_>,
    name: &Name,
    time: &Expression,
) -> Result<Option<Statement>, AllocError>
    ensures { IfOk result (λ found. option_map code.statement_of found ≡ deeds.with_two code.qk_set (place_in (scope_of place.now) name.now) (value_of (scope_of place.now) (expression_of time.now))) }
{
    match declared_place(place, name.bytes())? {
        None => Ok(None),
        Some(keeper) => match term_code(alloc, place, time)? {
            None => Ok(None),
            Some(time) => Ok(Some(Statement::QkSet(keeper, time))),
        },
    }
}

/// The code of a new instance.
fn instance_code(
    alloc: Global,
    place: &Place<'_>,
    home: Home<'_>,
    spawn: &Spawn,
) -> Result<Option<Statement>, AllocError>
    requires { spec.IsHome home (scope_of place.now) }
    ensures { IfOk result (λ found. option_map code.statement_of found ≡ option_map code.spawn (deeds.spawn_term (spec.home_of home.entry) (scope_of place.now) (spawn_of spawn.now))) }
{
    match spawn_code(alloc, place, home, spawn)? {
        None => Ok(None),
        Some(form) => Ok(Some(Statement::Spawn(form))),
    }
}

/// The code of a control call.
fn control_code(
    place: &Place<'_>,
    control: Control,
    who: &Who,
    descendants: bool,
) -> Result<Option<Statement>, AllocError>
    ensures { IfOk result (λ found. option_map code.statement_of found ≡ option_map (λ q. code.control control q descendants) (deeds.controlled_by (scope_of place.now) who.now)) }
{
    match controlled_by(place, who)? {
        None => Ok(None),
        Some(controlled) => Ok(Some(Statement::Control(control, controlled, descendants))),
    }
}

/// The code of an exception.
fn throw_code(home: Home<'_>, name: &Name) -> Result<Option<Statement>, AllocError>
    ensures { IfOk result (λ found. option_map code.statement_of found ≡ option_map code.throw (deeds.exception_number (spec.home_of home.entry) name.now)) }
{
    match exception_number(home, name.bytes())? {
        None => Ok(None),
        Some(exception) => Ok(Some(Statement::Throw(exception))),
    }
}

/// The code of a return.
fn return_code(
    alloc: Global,
    place: &Place<'_>,
    value: &Option<Expression>,
) -> Result<Option<Statement>, AllocError>
    ensures { IfOk result (λ found. option_map code.statement_of found ≡ option_map code.return_ (deeds.if_written (value_of (scope_of place.now)) (option_map expression_of value.now))) }
{
    match option_code(alloc, place, value)? {
        None => Ok(None),
        Some(value) => Ok(Some(Statement::Return(value))),
    }
}

/// The code of an exception for another process.
fn throw_it_code(
    place: &Place<'_>,
    home: Home<'_>,
    who: &Who,
    name: &Name,
    descendants: bool,
) -> Result<Option<Statement>, AllocError>
    ensures { IfOk result (λ found. option_map code.statement_of found ≡ deeds.with_two (λ q e. code.throw_it q e descendants) (deeds.controlled_by (scope_of place.now) who.now) (deeds.exception_number (spec.home_of home.entry) name.now)) }
{
    match controlled_by(place, who)? {
        None => Ok(None),
        Some(controlled) => match exception_number(home, name.bytes())? {
            None => Ok(None),
            Some(exception) => { Ok(Some(Statement::ThrowIt(controlled, exception, descendants))) }
        },
    }
}

/// The two statements of a sync: a wait for the local time of the keeper, and then its reset.
fn synced(keeper: u32) -> Deed
    ensures { statements_of result ≡ deeds.synced keeper }
{
    let local = Expr::Member(NameUse::Declared(keeper), Member::Local);
    Deed::Two(
        Statement::Wait(Await::For(local)),
        Statement::QkReset(keeper),
    )
}

/// The code of a sync.
fn sync_code(place: &Place<'_>, name: &Name) -> Result<Option<Deed>, AllocError>
    ensures { IfOk result (λ found. option_map statements_of found ≡ option_map deeds.synced (place_in (scope_of place.now) name.now)) }
{
    match declared_place(place, name.bytes())? {
        None => Ok(None),
        Some(keeper) => Ok(Some(synced(keeper))),
    }
}

/// The code of a statement that gives no value; none where a part of it has none.
pub fn action_code(
    alloc: Global,
    place: &Place<'_>,
    home: Home<'_>,
    action: &Action,
) -> Result<Option<Deed>, AllocError>
    requires { spec.IsHome home (scope_of place.now) }
    ensures { IfOk result (λ found. option_map statements_of found ≡ deeds.action_code (spec.home_of home.entry) (scope_of place.now) (action_of action.now)) }
{
    match action {
        Action::Write(channel, value) => Ok(single(write_code(alloc, place, channel, value)?)),
        Action::Print(text, value) => Ok(single(print_code(alloc, place, text, value)?)),
        Action::Notify(name, when) => Ok(single(notify_code(alloc, place, name, when)?)),
        Action::Cancel(name) => Ok(single(cancel_code(place, name)?)),
        Action::Wait(waiting) => Ok(single(wait_code(alloc, place, waiting)?)),
        Action::NextTrigger(waiting) => Ok(single(next_trigger_code(alloc, place, waiting)?)),
        Action::Lock(channel) => Ok(single(lock_code(alloc, place, channel)?)),
        Action::SemWait(channel) => Ok(single(sem_wait_code(alloc, place, channel)?)),
        Action::Post(channel) => Ok(single(post_code(alloc, place, channel)?)),
        Action::Make(name, bytes, enables) => {
            Ok(single(make_code(alloc, place, name, bytes, enables)?))
        }
        Action::Acquire(name) => Ok(single(acquire_code(place, name)?)),
        Action::Release(name) => Ok(single(release_code(place, name)?)),
        Action::Carry(payload, memory) => Ok(single(carry_code(place, payload, memory)?)),
        Action::BTransport(socket, payload, delay) => {
            Ok(single(b_transport_code(place, socket, payload, delay)?))
        }
        Action::QkGlobal(time) => Ok(single(qk_global_code(alloc, place, time)?)),
        Action::QkInc(name, time) => Ok(single(qk_inc_code(alloc, place, name, time)?)),
        Action::QkSet(name, time) => Ok(single(qk_set_code(alloc, place, name, time)?)),
        Action::QkReset(name) => Ok(single(qk_reset_code(place, name)?)),
        Action::QkSync(name) => sync_code(place, name),
        Action::Spawn(spawn) => Ok(single(instance_code(alloc, place, home, spawn)?)),
        Action::Control(control, who, descendants) => {
            Ok(single(control_code(place, *control, who, *descendants)?))
        }
        Action::ThrowIt(who, name, descendants) => {
            Ok(single(throw_it_code(place, home, who, name, *descendants)?))
        }
        Action::Throw(name) => Ok(single(throw_code(home, name)?)),
        Action::Return(value) => Ok(single(return_code(alloc, place, value)?)),
        Action::Stop => Ok(Some(Deed::One(Statement::Stop))),
    }
}
