//! Statements that give no value.
ghost use Rattle.std.specs.Prelude.{◌≡◌};
ghost use Rattle.tick_trees.specs.Retimed as retimed;
ghost use Rattle.tick_trees.specs.Ticks.{ticks_span};
ghost use Rattle.model_tree.specs.Views.{action_of};

use crate::expressions::{retime, retime_option};
use crate::parts::{retime_channel, retime_notification, retime_spawn, retime_waiting};
use model_tree::Action;
use model_tree::sim_time_api::Resolution;

/// Writes the times of an action as numbers of resolutions.
pub(crate) fn retime_action(action: &mut Action, r: Resolution)
    ensures { action_of action.new ≡ retimed.action (ticks_span r) (action_of action.old) }
{
    match action {
        Action::Cancel(_)
        | Action::Acquire(_)
        | Action::Release(_)
        | Action::Carry(_, _)
        | Action::BTransport(_, _, _)
        | Action::QkReset(_)
        | Action::QkSync(_)
        | Action::Control(_, _, _)
        | Action::ThrowIt(_, _, _)
        | Action::Throw(_)
        | Action::Stop => {}
        Action::Write(channel, value) => {
            retime_channel(channel, r);
            retime(value, r);
        }
        Action::Print(_, value) => retime_option(value, r),
        Action::Notify(_, when) => retime_notification(when, r),
        Action::Wait(waiting) => retime_waiting(waiting, r),
        Action::NextTrigger(waiting) => retime_waiting(waiting, r),
        Action::Lock(mutex) => retime_channel(mutex, r),
        Action::SemWait(semaphore) => retime_channel(semaphore, r),
        Action::Post(semaphore) => retime_channel(semaphore, r),
        Action::Make(_, bytes, enables) => {
            retime(bytes, r);
            retime_option(enables, r);
        }
        Action::QkGlobal(time) => retime(time, r),
        Action::QkInc(_, time) => retime(time, r),
        Action::QkSet(_, time) => retime(time, r),
        Action::Spawn(spawn) => retime_spawn(spawn, r),
        Action::Return(value) => retime_option(value, r),
    }
}
