//! The timed notification phase.
ghost use Rattle.std.specs.Prelude.{◌≡◌, ◌≤◌, ℕ, None, Some, ◌==◌, not, option_map};
ghost use Rattle.kernel_state.specs.KernelProcesses.Times.{HasNoTimeBefore};
ghost use Rattle.kernel_state.specs.SimModel.Configuration.{Config, with_phase};
ghost use Rattle.kernel_state.specs.SimModel.Phases as phases;
ghost use Rattle.kernel_state.specs.Kernel.{StandsFor, IsSound};
ghost use Rattle.kernel_state.specs.Moves.{Moves, KeepsBodies};
ghost use Rattle.kernel_phases.specs.Due.{HasRoom};

use super::due::{phase_after, set_off};
use super::updates::set_phase;
use kernel_state::Kernel;
use kernel_state::kernel_processes_api::{
    earliest as earliest_deadline, not_before as no_deadline_before, take_due,
};
use kernel_state::sim_model_api::Phase;
use kernel_state::sim_time_api::Time;

/// The earlier of a time and one that there may be.
fn earlier(a: Option<Time>, b: Time) -> Option<Time>
    ensures { option_map (λ t. t.0) result ≡ phases.earlier (option_map (λ t. t.0) a) b.0 }
{
    match a {
        None => Some(b),
        Some(a) => { if b.0 < a.0 { Some(b) } else { Some(a) } }
    }
}

/// The earliest time of the timed notifications, which is given, and of the waits that end.
fn with_deadlines(k: &Kernel, event: Option<Time>) -> Option<Time>
    requires sound { IsSound k.now }
    requires event { option_map (λ t. t.0) event ≡ phases.earliest_event k.now.events None }
    ensures { (c : Config) → StandsFor k.now c → option_map (λ t. t.0) result ≡ phases.earliest c }
{
    match earliest_deadline(&k.schedule) {
        None => event,
        Some(t) => earlier(event, t),
    }
}

/// The earliest time of all, where no wait ends before the bound: the waits are asked only where a notification comes later.
fn events_first(k: &Kernel, bound: Time) -> Option<Time>
    requires sound { IsSound k.now }
    requires bound { HasNoTimeBefore k.now.schedule bound.0 }
    ensures { (c : Config) → StandsFor k.now c → option_map (λ t. t.0) result ≡ phases.earliest c }
{
    let event = k.events.earliest();
    match event {
        None => with_deadlines(k, event),
        Some(t) => {
            if t.0 <= bound.0 {
                Some(t)
            } else {
                with_deadlines(k, event)
            }
        }
    }
}

/// The earliest time of all, where no notification is before the bound: they are asked only where a wait ends later.
fn deadlines_first(k: &Kernel, bound: Time) -> Option<Time>
    requires sound { IsSound k.now }
    requires bound { (u : ℕ) → phases.earliest_event k.now.events None ≡ Some u → bound.0 ≤ u }
    ensures { (c : Config) → StandsFor k.now c → option_map (λ t. t.0) result ≡ phases.earliest c }
{
    match earliest_deadline(&k.schedule) {
        None => k.events.earliest(),
        Some(t) => {
            if t.0 <= bound.0 {
                Some(t)
            } else {
                earlier(k.events.earliest(), t)
            }
        }
    }
}

/// The earliest time at which something is notified or a wait ends; none where nothing is pending. Of notifications and waits those
/// are asked first that may come first, and the others only where they may come before that answer.
pub fn earliest(k: &Kernel) -> Option<Time>
    requires { IsSound k.now }
    ensures { (c : Config) → StandsFor k.now c → option_map (λ t. t.0) result ≡ phases.earliest c }
{
    match k.events.not_before() {
        None => with_deadlines(k, None),
        Some(event) => match no_deadline_before(&k.schedule) {
            None => k.events.earliest(),
            Some(deadline) => {
                if event.0 <= deadline.0 {
                    events_first(k, deadline)
                } else {
                    deadlines_first(k, event)
                }
            }
        },
    }
}

/// Now becomes a time; at another time than before nothing has changed yet.
fn now_becomes(k: &mut Kernel, t: Time)
    requires { IsSound k.old }
    ensures moves { Moves k.old k.new (λ c. phases.now_becomes c t.0) }
    ensures schedule { k.new.schedule ≡ k.old.schedule }
    ensures events { k.new.events ≡ k.old.events }
    ensures kept { KeepsBodies k.old k.new }
    ensures now { k.new.cycle ≡ record k.old.cycle { now = t } }
    ensures sound { IsSound k.new }
    ensures made { k.new.made ≡ k.old.made }
{
    if t.0 != k.cycle.now.0 {
        k.cycle.now = t;
        k.channels.clear_changed();
    }
}

/// The run is over: now becomes its end, if it has one.
fn run_over(k: &mut Kernel)
    requires { IsSound k.old }
    ensures moves { Moves k.old k.new phases.run_over }
    ensures events { k.new.events ≡ k.old.events }
    ensures kept { KeepsBodies k.old k.new }
    ensures sound { IsSound k.new }
    ensures made { k.new.made ≡ k.old.made }
{
    match k.cycle.end {
        None => {}
        Some(end) => now_becomes(k, end),
    }
    set_phase(k, Phase::Idle);
}

/// Whether a time is past the end of the run.
fn is_past(t: Time, end: Option<Time>) -> bool
    ensures { result ≡ phases.is_past t.0 (option_map (λ u. u.0) end) }
{
    match end {
        None => false,
        Some(end) => end.0 < t.0,
    }
}

/// Whether a time is the end of the run.
fn is_end(t: Time, end: Option<Time>) -> bool
    ensures { result ≡ phases.is_end t.0 (option_map (λ u. u.0) end) }
{
    match end {
        None => false,
        Some(end) => end.0 == t.0,
    }
}

/// What is due at a time fires, and now becomes that time.
fn notify_at(k: &mut Kernel, events: &mut Vec<u32>, t: Time)
    requires sound { IsSound k.old }
    requires room { HasRoom k.old events.old }
    ensures moves { Moves k.old k.new (λ c. phases.fired_at c t.0) }
    ensures kept { KeepsBodies k.old k.new }
    ensures sound { IsSound k.new }
    ensures room { HasRoom k.new events.new }
    ensures made { k.new.made ≡ k.old.made }
{
    now_becomes(k, t);
    k.events.take_at(t, events);
    take_due(&mut k.schedule, t);
    set_off(k, events);
}

/// What is due at a time fires; the run is over at its end.
fn go_to(k: &mut Kernel, events: &mut Vec<u32>, t: Time)
    requires sound { IsSound k.old }
    requires room { HasRoom k.old events.old }
    ensures moves { (c : Config) → StandsFor k.old c → StandsFor k.new (with_phase (phases.fired_at c t.0) (phases.phase_at t.0 c.cycle.end (phases.fired_at c t.0).processes.runnable)) }
    ensures kept { KeepsBodies k.old k.new }
    ensures sound { IsSound k.new }
    ensures room { HasRoom k.new events.new }
    ensures made { k.new.made ≡ k.old.made }
{
    let at_end = is_end(t, k.cycle.end);
    notify_at(k, events, t);
    if at_end {
        set_phase(k, Phase::Idle);
    } else {
        let next = phase_after(k);
        set_phase(k, next);
    }
}

/// What is due at the earliest time fires, or the run is over.
fn go_on(k: &mut Kernel, events: &mut Vec<u32>, next: Option<Time>)
    requires sound { IsSound k.old }
    requires room { HasRoom k.old events.old }
    ensures moves { Moves k.old k.new (λ c. phases.timed_at c (option_map (λ t. t.0) next)) }
    ensures kept { KeepsBodies k.old k.new }
    ensures sound { IsSound k.new }
    ensures room { HasRoom k.new events.new }
    ensures made { k.new.made ≡ k.old.made }
{
    match next {
        None => run_over(k),
        Some(t) => {
            if is_past(t, k.cycle.end) {
                run_over(k);
            } else {
                go_to(k, events, t);
            }
        }
    }
}

/// The timed notification phase: now becomes the earliest time at which something is pending, which fires, or the run is over
/// (IEEE 1666-2011, 4.2.1.5). Answers whether now has moved. It takes no memory: `events` is a list without members that has
/// room for all events.
pub fn timed(k: &mut Kernel, events: &mut Vec<u32>) -> bool
    requires sound { IsSound k.old }
    requires room { HasRoom k.old events.old }
    ensures moves { Moves k.old k.new phases.timed_step }
    ensures moved { result ≡ not (k.new.cycle.now.0 == k.old.cycle.now.0) }
    ensures kept { KeepsBodies k.old k.new }
    ensures sound { IsSound k.new }
    ensures room { HasRoom k.new events.new }
    ensures made { k.new.made ≡ k.old.made }
{
    let before = k.cycle.now;
    let next = earliest(k);
    go_on(k, events, next);
    k.cycle.now.0 != before.0
}
