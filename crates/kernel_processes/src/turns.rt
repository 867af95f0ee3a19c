//! The turns of processes.
ghost use Rattle.std.specs.Prelude.{◌≡◌, [], true, false, ◌-◌, IfNone, IfSome};
ghost use Rattle.std.specs.FinMap as map;
ghost use Rattle.std.specs.FinSet as set;
ghost use Rattle.sim_model.specs.Waits.{freed};
ghost use Rattle.kernel_processes.specs.InstanceViews.{is_on};
ghost use Rattle.kernel_processes.specs.Sound.{IsSound};
ghost use Rattle.kernel_processes.specs.Moves.{Changes, MovesOne};
ghost use Rattle.kernel_processes.specs.Moved.{IsTop, LeavesTop, joins_top, same_stack, started_as, is_suspended, untimed_free};

use super::changes::{leave_lists, mark_free, mark_started, unready};
use super::moves::{end_time, join};
use crate::Schedule;

/// The active instance that is on top, if one is active.
#[inline(always)]
pub fn top<B>(s: &Schedule<B>) -> Option<u32>
    ensures none { IfNone result (s.now.stack.items ≡ []) }
    ensures some { IfSome result (λ p. IsTop p s.now.stack.items) }
{
    s.stack.as_slice().last().copied()
}

/// The instance on top leaves the stack.
#[inline(always)]
pub(crate) fn leave_stack<B>(s: &mut Schedule<B>, p: u32)
    requires sound { IsSound s.old }
    requires top { IsTop p s.old.stack.items }
    ensures left { LeavesTop p s.old s.new }
    ensures sound { IsSound s.new }
{
    s.stack.pop();
}

/// What is left of a wait of an instance is taken back.
#[inline(always)]
pub(crate) fn free<B>(s: &mut Schedule<B>, p: u32)
    ensures { Changes p untimed_free s.old s.new }
{
    leave_lists(s, p);
    end_time(s, p);
    mark_free(s, p);
}

/// A runnable instance is taken: it is the only active one now (IEEE 1666-2011, 4.2.1.2).
#[inline(always)]
pub fn take<B>(s: &mut Schedule<B>, p: u32)
    requires sound { IsSound s.old }
    requires runs { set.contains s.old.ready.members p ≡ true }
    requires nobody { s.old.stack.items ≡ [] }
    ensures moves { MovesOne p (λ i. i) false (joins_top p) s.old s.new }
    ensures sound { IsSound s.new }
{
    unready(s, p);
    s.stack.push_reserved(p);
}

/// Notes whether the body of an instance has begun.
#[inline(always)]
pub fn begin<B>(s: &mut Schedule<B>, p: u32, on: bool)
    requires sound { IsSound s.old }
    requires lives { map.contains_key s.old.table.live p ≡ true }
    ensures moves { MovesOne p (started_as on) (set.contains s.old.ready.members p) same_stack s.old s.new }
    ensures sound { IsSound s.new }
{
    mark_started(s, p, on);
}

/// Initialization makes an instance runnable (IEEE 1666-2011, 4.2.1.1).
pub fn initialize<B>(s: &mut Schedule<B>, p: u32)
    requires sound { IsSound s.old }
    requires lives { map.contains_key s.old.table.live p ≡ true }
    requires rests { is_on s.old.stack.items p ≡ false }
    requires goes { is_suspended (map.get s.old.table.live p) ≡ false }
    ensures moves { MovesOne p freed true same_stack s.old s.new }
    ensures sound { IsSound s.new }
{
    free(s, p);
    join(s, p);
}
