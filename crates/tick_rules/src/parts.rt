//! Channels, events, and what statements do with them.
ghost use Rattle.std.specs.Prelude.{◌≡◌, map};
ghost use Rattle.tick_trees.specs.Retimed as retimed;
ghost use Rattle.tick_trees.specs.Ticks.{ticks_span};
ghost use Rattle.model_tree.specs.Views.{channel_of, event_of, events_of, notification_of, operation_of, spawn_of, target_of, waiting_of};

use crate::expressions::{retime, retime_each, retime_option};
use model_tree::sim_time_api::Resolution;
use model_tree::{Channel, Event, Notification, Operation, Place, Spawn, Target, Waiting};

/// Writes the times of a channel as numbers of resolutions.
pub(crate) fn retime_channel(channel: &mut Channel, r: Resolution)
    ensures { channel_of channel.new ≡ retimed.channel (ticks_span r) (channel_of channel.old) }
{
    match &mut channel.place {
        Place::First | Place::Number(_) => {}
        Place::Computed(e) => retime(e, r),
    }
}

/// The same of an event.
fn retime_event(event: &mut Event, r: Resolution)
    ensures { event_of event.new ≡ retimed.event (ticks_span r) (event_of event.old) }
{
    retime_channel(&mut event.channel, r);
}

/// Writes the times of events as numbers of resolutions.
pub fn retime_events(events: &mut [Event], r: Resolution)
    ensures { events_of events.new ≡ map (retimed.event (ticks_span r)) (events_of events.old) }
{
    for event in events.iter_mut() {
        retime_event(event, r);
    }
}

/// The same of what is waited for.
pub(crate) fn retime_waiting(waiting: &mut Waiting, r: Resolution)
    ensures { waiting_of waiting.new ≡ retimed.waiting (ticks_span r) (waiting_of waiting.old) }
{
    match waiting {
        Waiting::Static | Waiting::Delta => {}
        Waiting::For(time) => retime(time, r),
        Waiting::One(event, time) => {
            retime_event(event, r);
            retime_option(time, r);
        }
        Waiting::Any(events, time) => {
            retime_events(events, r);
            retime_option(time, r);
        }
        Waiting::All(events, time) => {
            retime_events(events, r);
            retime_option(time, r);
        }
    }
}

/// The same of when a notification comes.
pub(crate) fn retime_notification(when: &mut Notification, r: Resolution)
    ensures { notification_of when.new ≡ retimed.notification (ticks_span r) (notification_of when.old) }
{
    match when {
        Notification::Immediate | Notification::Delta => {}
        Notification::After(time) => retime(time, r),
    }
}

/// The same of the target of an assignment.
pub(crate) fn retime_target(target: &mut Target, r: Resolution)
    ensures { target_of target.new ≡ retimed.target (ticks_span r) (target_of target.old) }
{
    retime_option(&mut target.index, r);
}

/// The same of an operation.
pub(crate) fn retime_operation(operation: &mut Operation, r: Resolution)
    ensures { operation_of operation.new ≡ retimed.operation (ticks_span r) (operation_of operation.old) }
{
    match operation {
        Operation::Call(_, arguments) => retime_each(arguments, r),
        Operation::Read(fifo) => retime_channel(fifo, r),
        Operation::NbRead(fifo, _) => retime_channel(fifo, r),
        Operation::NbWrite(fifo, value) => {
            retime_channel(fifo, r);
            retime(value, r);
        }
        Operation::Trylock(mutex) => retime_channel(mutex, r),
        Operation::Unlock(mutex) => retime_channel(mutex, r),
        Operation::SemTrywait(semaphore) => retime_channel(semaphore, r),
        Operation::NbTransport(_, _, _, _) => {}
    }
}

/// The same of a new instance.
pub(crate) fn retime_spawn(spawn: &mut Spawn, r: Resolution)
    ensures { spawn_of spawn.new ≡ retimed.spawn (ticks_span r) (spawn_of spawn.old) }
{
    retime_each(&mut spawn.arguments, r);
    retime_events(&mut spawn.sensitive, r);
}
