//! Notifications of events by their names. None takes memory.
ghost use Rattle.std.specs.Prelude.{◌≡◌, Ok};
ghost use Rattle.flat_design.specs.Code.{term_of};
ghost use Rattle.kernel_view.specs.SimModel.Reading.{here};
ghost use Rattle.kernel_view.specs.SimModel.Waiting as waiting;
ghost use Rattle.kernel_view.specs.KernelState.Kernel.{IsSound};
ghost use Rattle.kernel_view.specs.KernelState.Moves.{Does, Lives, HasStatement};

use crate::events::event_number;
use crate::{cancel, notify, notify_now};
use flat_design::{Expr, RunFault};
use kernel_view::event_core_api::When;
use kernel_view::expr_eval_api::moment;
use kernel_view::kernel_state_api::{Kernel, pass};
use kernel_view::sim_time_api::{Time, add};
use kernel_view::{denoted_at, eval_at};

/// An event is notified at once (IEEE 1666-2011, 5.10.6).
pub fn notify_named(k: &mut Kernel, p: u32, n: u32)
    requires sound { IsSound k.old }
    requires lives { Lives k.old p }
    requires statement { HasStatement k.old p }
    ensures does { Does k.old k.new (Ok tt) p (λ c q i r. waiting.do_notify c q r (here c q i r) n) }
    ensures sound { IsSound k.new }
    ensures made { k.new.made ≡ k.old.made }
{
    match event_number(denoted_at(k, p, n)) {
        Some(e) => notify_now(k, p, e),
        None => pass(k, p),
    }
}

/// An event is notified for the next delta (IEEE 1666-2011, 5.10.6).
pub fn notify_delta(k: &mut Kernel, p: u32, n: u32)
    requires sound { IsSound k.old }
    requires lives { Lives k.old p }
    requires statement { HasStatement k.old p }
    ensures does { Does k.old k.new (Ok tt) p (λ c q i r. waiting.do_notify_delta c q r (here c q i r) n) }
    ensures sound { IsSound k.new }
    ensures made { k.new.made ≡ k.old.made }
{
    match event_number(denoted_at(k, p, n)) {
        Some(e) => notify(k, p, e, When::Delta),
        None => pass(k, p),
    }
}

/// What is pending for an event is cancelled (IEEE 1666-2011, 5.10.7).
pub fn cancel_named(k: &mut Kernel, p: u32, n: u32)
    requires sound { IsSound k.old }
    requires lives { Lives k.old p }
    requires statement { HasStatement k.old p }
    ensures does { Does k.old k.new (Ok tt) p (λ c q i r. waiting.do_cancel c q r (here c q i r) n) }
    ensures sound { IsSound k.new }
    ensures made { k.new.made ≡ k.old.made }
{
    match event_number(denoted_at(k, p, n)) {
        Some(e) => cancel(k, p, e),
        None => pass(k, p),
    }
}

/// When a notification after a time is: after 0 in the next delta.
///
/// # Errors
/// A time past 2^64 - 1 ps.
fn when_after(now: Time, time: Time) -> Result<When, RunFault>
    ensures { result ≡ waiting.when_after now.0 time.0 }
{
    if time.0 == 0 {
        return Ok(When::Delta);
    }
    match add(now, time) {
        Some(t) => Ok(When::At(t)),
        None => Err(RunFault::TimeOverflow),
    }
}

/// An event is notified after a time (IEEE 1666-2011, 5.10.6).
///
/// # Errors
/// The first fault of the time, or that it is past 2^64 - 1 ps; then nothing changes.
pub fn notify_after(k: &mut Kernel, p: u32, n: u32, time: &Expr) -> Result<(), RunFault>
    requires sound { IsSound k.old }
    requires lives { Lives k.old p }
    requires statement { HasStatement k.old p }
    ensures does { Does k.old k.new result p (λ c q i r. waiting.do_notify_after c q r (here c q i r) n (term_of time.now)) }
    ensures sound { IsSound k.new }
    ensures made { k.new.made ≡ k.old.made }
{
    let value = eval_at(k, p, time)?;
    let when = when_after(k.cycle.now, moment(value))?;
    match event_number(denoted_at(k, p, n)) {
        Some(e) => notify(k, p, e, when),
        None => pass(k, p),
    }
    Ok(())
}
