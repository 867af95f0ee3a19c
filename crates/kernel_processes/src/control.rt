//! What one process does to another, and to itself, by process control (IEEE 1666-2011, 5.6.6).
ghost use Rattle.std.specs.Prelude.{◌≡◌, ◌||◌, not, true, false};
ghost use Rattle.std.specs.FinMap as map;
ghost use Rattle.std.specs.FinSet as set;
ghost use Rattle.kernel_processes.specs.InstanceViews.{is_on};
ghost use Rattle.kernel_processes.specs.Sound.{IsSound};
ghost use Rattle.kernel_processes.specs.Moves.{is_kept, MovesOne};
ghost use Rattle.kernel_processes.specs.Moved.{IsTop, Ends, leaves_top, joins_top, same_stack, leaves_if, is_suspended, pushed_as, suspended_as, resumed_as, disabled_as, kept_as};

use super::changes::{mark_disabled, mark_kept, mark_resumed, mark_suspended, mute, unready};
use super::moves::join;
use super::turns::{free, leave_stack};
use crate::Schedule;

/// An instance that is not active gets on top of the stack: what it waited for, its mark to be kept and its place among the
/// runnable ones are gone.
pub fn push<B>(s: &mut Schedule<B>, p: u32)
    requires sound { IsSound s.old }
    requires lives { map.contains_key s.old.table.live p ≡ true }
    requires rests { is_on s.old.stack.items p ≡ false }
    ensures moves { MovesOne p pushed_as false (joins_top p) s.old s.new }
    ensures sound { IsSound s.new }
{
    free(s, p);
    unready(s, p);
    s.stack.push_reserved(p);
}

/// The instance on top leaves the stack, and is kept till it is resumed. It is suspended.
pub fn stay_kept<B>(s: &mut Schedule<B>, p: u32)
    requires sound { IsSound s.old }
    requires top { IsTop p s.old.stack.items }
    requires held { is_suspended (map.get s.old.table.live p) ≡ true }
    ensures moves { MovesOne p kept_as false (leaves_top p) s.old s.new }
    ensures sound { IsSound s.new }
{
    leave_stack(s, p);
    mark_kept(s, p);
}

/// Suspends an instance. One that is runnable is kept till it is resumed, and so is one on top that yields: it leaves the
/// stack at once.
pub fn suspend<B>(s: &mut Schedule<B>, p: u32, yields: bool)
    requires sound { IsSound s.old }
    requires lives { map.contains_key s.old.table.live p ≡ true }
    requires top { yields ≡ true → IsTop p s.old.stack.items }
    ensures moves { MovesOne p (suspended_as (set.contains s.old.ready.members p || yields)) false (leaves_if yields p) s.old s.new }
    ensures sound { IsSound s.new }
{
    if unready(s, p) {
        mark_suspended(s, p);
        mark_kept(s, p);
        return;
    }
    mark_suspended(s, p);
    if yields {
        stay_kept(s, p);
    }
}

/// Resumes an instance. One that was kept is runnable now.
pub fn resume<B>(s: &mut Schedule<B>, p: u32)
    requires sound { IsSound s.old }
    requires lives { map.contains_key s.old.table.live p ≡ true }
    ensures moves { MovesOne p resumed_as (set.contains s.old.ready.members p || is_kept (map.get s.old.table.live p)) same_stack s.old s.new }
    ensures sound { IsSound s.new }
{
    if mark_resumed(s, p) {
        join(s, p);
    }
}

/// Disables an instance, or enables it.
pub fn disable<B>(s: &mut Schedule<B>, p: u32, on: bool)
    requires sound { IsSound s.old }
    requires lives { map.contains_key s.old.table.live p ≡ true }
    ensures moves { MovesOne p (disabled_as on) (set.contains s.old.ready.members p) same_stack s.old s.new }
    ensures sound { IsSound s.new }
{
    mute(s, p, on);
    mark_disabled(s, p, on);
}

/// The instance on top leaves the stack and has ended: there is none of its serial any more.
pub fn end<B: Drop>(s: &mut Schedule<B>, p: u32)
    requires sound { IsSound s.old }
    requires top { IsTop p s.old.stack.items }
    ensures ends { Ends p s.old s.new }
    ensures sound { IsSound s.new }
{
    leave_stack(s, p);
    s.lists.forget(p);
    s.deadlines.clear(p);
    s.zero.remove(p);
    s.table.end(p);
}
