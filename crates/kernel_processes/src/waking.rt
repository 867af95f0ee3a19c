ghost use Rattle.std.specs.Prelude.{◌≡◌, ℕ};
ghost use Rattle.std.specs.FinMap as map;
ghost use Rattle.kernel_processes.specs.Woken.{at_only, joins_only, after_wake, joins, after_event, joins_by};
ghost use Rattle.kernel_processes.specs.InstanceViews.{seen, is_on};
ghost use Rattle.kernel_processes.specs.Sound.{IsSound};
ghost use Rattle.kernel_processes.specs.Moves.{Rouses, HasPlaces, IsTimedSo, MeetsAll};

use super::moves::meet;
use super::parts::Schedule;
use wait_lists::event_core_api::Ev;
use wait_lists::{as_many_as_have_room, who_waits_has_room};

/// Whether an instance is among the active ones.
#[inline(always)]
pub fn is_active(stack: &[u32], p: u32) -> bool
    ensures { result ≡ is_on stack.now p }
{
    stack.iter().any(|q| *q == p)
}

/// A wake of one instance. It has no effect where there is no such live instance, or where it is active or disabled; a
/// suspended one is kept; any other becomes runnable. Where it has an effect the wait is over (IEEE 1666-2011, 4.2.1).
#[inline(always)]
pub fn wake<B>(s: &mut Schedule<B>, p: u32)
    requires sound { IsSound s.old }
    ensures rouses { Rouses (at_only p after_wake) (joins_only p joins) s.old s.new }
    ensures sound { IsSound s.new }
{
    if is_active(s.stack.as_slice(), p) {
        return;
    }
    if meet(s, p) {
        s.lists.leave(p);
    }
}

/// Those that an event woke meet their wakes.
#[inline(always)]
fn meet_all<B>(s: &mut Schedule<B>)
    requires places { HasPlaces s.old }
    requires timed { (q : ℕ) → IsTimedSo (seen s.old q) }
    ensures { MeetsAll s.old s.new }
{
    while let Some(p) = s.woken.pop() {
        meet(s, p);
    }
}

/// An event: each instance that is sensitive to it is woken, and of a wait for all it takes itself away
/// (IEEE 1666-2011, 5.10). It looks only at those who wait for it.
#[inline(always)]
pub fn fire<B>(s: &mut Schedule<B>, e: Ev)
    requires sound { IsSound s.old }
    ensures rouses { Rouses (λ q. after_event e) (λ q. joins_by e) s.old s.new }
    ensures sound { IsSound s.new }
{
    as_many_as_have_room();
    who_waits_has_room(&s.lists);
    s.lists.fire(e, &mut s.woken);
    meet_all(s);
}
