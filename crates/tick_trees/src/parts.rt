//! Channels, events, and what statements do with them.
ghost use Rattle.std.specs.Prelude.{◌≡◌};
ghost use Rattle.model_tree.specs.Views.{action_of, channel_of, event_of, events_of, notification_of, operation_of, waiting_of};
ghost use Rattle.tick_trees.specs.Times as times;
ghost use Rattle.tick_trees.specs.Unfit.{first, unfit_in};

use crate::expressions::{in_each, in_expression, in_option};
use crate::found::{Unfit, either};
use model_tree::sim_time_api::Resolution;
use model_tree::{Action, Channel, Event, Notification, Operation, Place, Waiting};

/// The first time of a channel that is none of the resolution.
fn in_channel(channel: &Channel, r: Resolution) -> Option<Unfit>
    ensures { result ≡ first (unfit_in r) (times.in_channel (channel_of channel.now)) }
{
    match &channel.place {
        Place::First | Place::Number(_) => None,
        Place::Computed(e) => in_expression(e, r),
    }
}

/// The same of an event.
fn in_event(event: &Event, r: Resolution) -> Option<Unfit>
    ensures { result ≡ first (unfit_in r) (times.in_event (event_of event.now)) }
{
    in_channel(&event.channel, r)
}

/// The same of events.
pub(crate) fn in_events(events: &[Event], r: Resolution) -> Option<Unfit>
    ensures { result ≡ first (unfit_in r) (times.in_events (events_of events.now)) }
{
    for event in events {
        match in_event(event, r) {
            None => {}
            Some(unfit) => return Some(unfit),
        }
    }
    None
}

/// The same of what is waited for.
#[tactic(auto, using(crate::proofs::Firsts::first_append))]
fn in_waiting(waiting: &Waiting, r: Resolution) -> Option<Unfit>
    ensures { result ≡ first (unfit_in r) (times.in_waiting (waiting_of waiting.now)) }
{
    match waiting {
        Waiting::Static | Waiting::Delta => None,
        Waiting::For(time) => in_expression(time, r),
        Waiting::One(event, time) => either(in_event(event, r), in_option(time, r)),
        Waiting::Any(events, time) | Waiting::All(events, time) => {
            either(in_events(events.as_slice(), r), in_option(time, r))
        }
    }
}

/// The same of when a notification comes.
fn in_notification(when: &Notification, r: Resolution) -> Option<Unfit>
    ensures { result ≡ first (unfit_in r) (times.in_notification (notification_of when.now)) }
{
    match when {
        Notification::Immediate | Notification::Delta => None,
        Notification::After(time) => in_expression(time, r),
    }
}

/// The same of an operation.
#[tactic(auto, using(crate::proofs::Firsts::first_append))]
pub(crate) fn in_operation(operation: &Operation, r: Resolution) -> Option<Unfit>
    ensures { result ≡ first (unfit_in r) (times.in_operation (operation_of operation.now)) }
{
    match operation {
        Operation::Call(_, arguments) => in_each(arguments.as_slice(), r),
        Operation::NbWrite(fifo, value) => either(in_channel(fifo, r), in_expression(value, r)),
        Operation::Read(channel)
        | Operation::NbRead(channel, _)
        | Operation::Trylock(channel)
        | Operation::Unlock(channel)
        | Operation::SemTrywait(channel) => in_channel(channel, r),
        Operation::NbTransport(_, _, _, _) => None,
    }
}

/// The same of an action.
#[tactic(auto, using(crate::proofs::Firsts::first_append))]
pub(crate) fn in_action(action: &Action, r: Resolution) -> Option<Unfit>
    ensures { result ≡ first (unfit_in r) (times.in_action (action_of action.now)) }
{
    match action {
        Action::Cancel(_)
        | Action::Acquire(_)
        | Action::Release(_)
        | Action::Carry(_, _)
        | Action::BTransport(_, _, _)
        | Action::QkReset(_)
        | Action::QkSync(_)
        | Action::Control(_, _, _)
        | Action::ThrowIt(_, _, _)
        | Action::Throw(_)
        | Action::Stop => None,
        Action::Write(channel, value) => either(in_channel(channel, r), in_expression(value, r)),
        Action::Print(_, value) | Action::Return(value) => in_option(value, r),
        Action::Notify(_, when) => in_notification(when, r),
        Action::Wait(waiting) | Action::NextTrigger(waiting) => in_waiting(waiting, r),
        Action::Lock(channel) | Action::SemWait(channel) | Action::Post(channel) => {
            in_channel(channel, r)
        }
        Action::Make(_, bytes, enables) => either(in_expression(bytes, r), in_option(enables, r)),
        Action::QkGlobal(time) | Action::QkInc(_, time) | Action::QkSet(_, time) => {
            in_expression(time, r)
        }
        Action::Spawn(spawn) => either(
            in_each(spawn.arguments.as_slice(), r),
            in_events(spawn.sensitive.as_slice(), r),
        ),
    }
}
