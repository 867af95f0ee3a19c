//! Statements on events, once the event and the time are known: none takes memory.
ghost use Rattle.std.specs.Prelude.{◌≡◌, true, Some};
ghost use Rattle.kernel_view.specs.SimModel.Configuration.{change_instance};
ghost use Rattle.kernel_view.specs.SimModel.Storing.{passes};
ghost use Rattle.kernel_view.specs.SimModel.Waiting as waiting;
ghost use Rattle.kernel_view.specs.SimModel.Waits as waits;
ghost use Rattle.kernel_view.specs.KernelState.Kernel.{IsSound, trigger_of};
ghost use Rattle.kernel_view.specs.KernelState.Moves.{Moves, Steps, Lives, HasStatement};
ghost use Rattle.exec_events.specs.Stopping.{asks_to_stop};

use kernel_view::event_core_api::{Ev, When};
use kernel_view::kernel_processes_api::Trigger;
use kernel_view::kernel_state_api::{Kernel, fire, notify as note, pass};

/// An event of the design's objects is notified for the next delta or for a time (IEEE 1666-2011, 5.10.6).
#[inline(always)]
pub fn notify(k: &mut Kernel, p: u32, e: u32, w: When)
    requires sound { IsSound k.old }
    requires lives { Lives k.old p }
    requires statement { HasStatement k.old p }
    ensures steps { Steps k.old k.new p (λ c q i r. waits.notify (passes c q r) e w) }
    ensures sound { IsSound k.new }
    ensures made { k.new.made ≡ k.old.made }
{
    pass(k, p);
    note(k, e, w);
}

/// An event of the design's objects is notified at once: what was pending for it is gone, and it fires (IEEE 1666-2011,
/// 5.10.6).
pub fn notify_now(k: &mut Kernel, p: u32, e: u32)
    requires sound { IsSound k.old }
    requires lives { Lives k.old p }
    requires statement { HasStatement k.old p }
    ensures steps { Steps k.old k.new p (λ c q i r. waiting.notified_now (passes c q r) e) }
    ensures sound { IsSound k.new }
    ensures made { k.new.made ≡ k.old.made }
{
    pass(k, p);
    note(k, e, When::Immediate);
    fire(k, Ev::Fixed(e));
}

/// Nothing is pending any more for an event of the design's objects.
fn take_back(k: &mut Kernel, e: u32)
    requires { IsSound k.old }
    ensures moves { Moves k.old k.new (λ c. waiting.cancelled c e) }
    ensures sound { IsSound k.new }
    ensures made { k.new.made ≡ k.old.made }
{
    k.events.cancel(e);
}

/// What is pending for an event of the design's objects is cancelled (IEEE 1666-2011, 5.10.7).
pub fn cancel(k: &mut Kernel, p: u32, e: u32)
    requires sound { IsSound k.old }
    requires lives { Lives k.old p }
    requires statement { HasStatement k.old p }
    ensures steps { Steps k.old k.new p (λ c q i r. waiting.cancelled (passes c q r) e) }
    ensures sound { IsSound k.new }
    ensures made { k.new.made ≡ k.old.made }
{
    pass(k, p);
    take_back(k, e);
}

/// The model asks to stop.
fn ask(k: &mut Kernel)
    requires { IsSound k.old }
    ensures moves { Moves k.old k.new asks_to_stop }
    ensures sound { IsSound k.new }
    ensures made { k.new.made ≡ k.old.made }
{
    k.cycle.stop_asked = true;
}

/// The session is to stop behind the update phase that ends this evaluation phase (IEEE 1666-2011, 4.5.3).
pub fn stop(k: &mut Kernel, p: u32)
    requires sound { IsSound k.old }
    requires lives { Lives k.old p }
    requires statement { HasStatement k.old p }
    ensures steps { Steps k.old k.new p (λ c q i r. asks_to_stop (passes c q r)) }
    ensures sound { IsSound k.new }
    ensures made { k.new.made ≡ k.old.made }
{
    pass(k, p);
    ask(k);
}

/// A method waits so after its return; the last of a turn counts (IEEE 1666-2011, 5.2.17).
pub fn next_trigger(k: &mut Kernel, p: u32, t: Trigger)
    requires sound { IsSound k.old }
    requires lives { Lives k.old p }
    requires statement { HasStatement k.old p }
    ensures steps { Steps k.old k.new p (λ c q i r. change_instance (passes c q r) q (λ j. record j { trigger = Some (trigger_of t) })) }
    ensures sound { IsSound k.new }
    ensures made { k.new.made ≡ k.old.made }
{
    match k.schedule.table.get_mut(p) {
        Some(x) => {
            x.body.body.body.past(k.program);
            x.body.body.trigger = Some(t);
        }
        None => {}
    }
}
