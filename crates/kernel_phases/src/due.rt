//! What is due fires, and what waited until then wakes.
ghost use Rattle.std.specs.Prelude.{◌≡◌, ◌≤◌, [], ℕ, List, length, vec_capacity};
ghost use Rattle.kernel_state.specs.KernelEvents.Numbered.{fixed};
ghost use Rattle.kernel_state.specs.SimModel.Configuration.{Config};
ghost use Rattle.kernel_state.specs.SimModel.Phases as phases;
ghost use Rattle.kernel_state.specs.SimModel.Waits.{fire_all, wake_all};
ghost use Rattle.kernel_state.specs.KernelProcesses.InstanceViews.{is_on};
ghost use Rattle.kernel_state.specs.Kernel.{StandsFor, IsSound};
ghost use Rattle.kernel_state.specs.Moves.{Moves, KeepsBodies};
ghost use Rattle.kernel_phases.specs.Due.{IsBetween, HasRoom, SetsOff};

use super::updates::set_phase;
use kernel_state::Kernel;
use kernel_state::event_core_api::Ev;
use kernel_state::kernel_processes_api::{fire, take_zero, wake_due};
use kernel_state::ready_set_api::least_of_a_set;
use kernel_state::sim_model_api::Phase;

/// Fires events one after another.
#[inline(always)]
fn fire_events(k: &mut Kernel, events: &[u32])
    requires { IsBetween k.old }
    ensures moves { Moves k.old k.new (fire_all (fixed events.now)) }
    ensures due { k.new.schedule.due ≡ k.old.schedule.due }
    ensures kept { KeepsBodies k.old k.new }
    ensures events { k.new.events ≡ k.old.events }
    ensures between { IsBetween k.new }
    ensures made { k.new.made ≡ k.old.made }
{
    for event in events {
        fire(&mut k.schedule, Ev::Fixed(*event));
    }
}

/// These events fire, and the instances that are due wake.
#[inline(always)]
pub(crate) fn set_off(k: &mut Kernel, events: &mut Vec<u32>)
    requires { IsBetween k.old }
    ensures moves { SetsOff events.old.items k.old k.new }
    ensures kept { KeepsBodies k.old k.new }
    ensures events { k.new.events ≡ k.old.events }
    ensures none { events.new.items ≡ [] }
    ensures capacity { vec_capacity events.new ≡ vec_capacity events.old }
    ensures sound { IsSound k.new }
    ensures made { k.new.made ≡ k.old.made }
{
    fire_events(k, events.as_slice());
    wake_due(&mut k.schedule);
    events.clear();
}

/// The phase that follows a notification phase.
pub(crate) fn phase_after(k: &Kernel) -> Phase
    ensures { (c : Config) → StandsFor k.now c → result ≡ phases.phase_after c.processes.runnable }
{
    least_of_a_set();
    let runnable = k.schedule.ready.len();
    if runnable == 0 {
        Phase::Timed
    } else {
        Phase::Evaluate
    }
}

/// The pending delta notifications fire and the zero time-outs end. It takes no memory: `events` is a list without members
/// that has room for all events.
#[inline(always)]
pub(crate) fn notify_deltas(k: &mut Kernel, events: &mut Vec<u32>)
    requires sound { IsSound k.old }
    requires room { HasRoom k.old events.old }
    ensures moves { Moves k.old k.new phases.delta_phase }
    ensures kept { KeepsBodies k.old k.new }
    ensures sound { IsSound k.new }
    ensures room { HasRoom k.new events.new }
    ensures made { k.new.made ≡ k.old.made }
{
    k.events.take_deltas(events);
    take_zero(&mut k.schedule);
    set_off(k, events);
}

/// The delta notification phase (IEEE 1666-2011, 4.2.1.4). It takes no memory: `events` is a list without members that has
/// room for all events.
pub fn delta(k: &mut Kernel, events: &mut Vec<u32>)
    requires sound { IsSound k.old }
    requires room { HasRoom k.old events.old }
    ensures moves { Moves k.old k.new phases.delta_step }
    ensures kept { KeepsBodies k.old k.new }
    ensures sound { IsSound k.new }
    ensures room { HasRoom k.new events.new }
    ensures made { k.new.made ≡ k.old.made }
{
    notify_deltas(k, events);
    let next = phase_after(k);
    set_phase(k, next);
}
