ghost use Rattle.std.specs.Prelude.{◌≡◌, ◌<◌, true, false, Some, None};
ghost use Rattle.std.specs.FinMap as map;
ghost use Rattle.std.specs.FinSet as set;
ghost use Rattle.kernel_processes.specs.InstanceViews.{seen};
ghost use Rattle.kernel_processes.specs.Moves.{heard, heard_as, hears_at, heard_seen, is_heard, has_end, is_timed, met, Changes, HasNoTimeOut, HasPlaces, IsTimedSo};

use super::parts::{Process, Schedule};
use instance_table::{Deadline, Instance, Waiting};

/// What a wake made of an instance.
#[derive(Clone, Copy, Debug, PartialEq, Eq)]
pub enum Heard {
    /// Nothing: there is none, or it is disabled.
    Nothing,
    /// It is suspended, and kept.
    Kept,
    /// It is to join the runnable ones.
    Joins,
}

/// What a wake makes of the entry of an instance.
#[inline(always)]
fn hear<B>(x: &mut Instance<Process<B>>) -> Heard
    ensures entry { x.new ≡ heard x.old }
    ensures answer { result ≡ heard_as x.old }
{
    if x.disabled {
        return Heard::Nothing;
    }
    x.wait = Waiting::None;
    x.deadline = Deadline::None;
    if x.suspended {
        x.kept = true;
        return Heard::Kept;
    }
    Heard::Joins
}

/// Whether a wait that ends so is to end by time.
#[inline(always)]
fn has_end(deadline: Deadline) -> bool
    ensures { result ≡ has_end deadline }
{
    match deadline {
        Deadline::None => false,
        Deadline::Delta => true,
        Deadline::At(_) => true,
    }
}

/// Ends the time-outs of an instance.
#[inline(always)]
pub(crate) fn end_time<B>(s: &mut Schedule<B>, p: u32)
    ensures { Changes p (λ x. record x { time = None; zero = false }) s.old s.new }
{
    s.deadlines.clear(p);
    s.zero.remove(p);
}

/// Ends the time-outs of an instance, if it may have any.
#[inline(always)]
fn end_time_if<B>(s: &mut Schedule<B>, p: u32, timed: bool)
    requires { timed ≡ false → HasNoTimeOut p s.old }
    ensures { Changes p (λ x. record x { time = None; zero = false }) s.old s.new }
{
    if timed {
        end_time(s, p);
    }
}

/// Makes a live instance runnable.
#[inline(always)]
pub(crate) fn join<B>(s: &mut Schedule<B>, p: u32)
    requires places { HasPlaces s.old }
    requires live { map.contains_key s.old.table.live p ≡ true }
    ensures changes { Changes p (λ x. record x { ready = true }) s.old s.new }
    ensures places { HasPlaces s.new }
{
    s.ready.insert(p);
}

/// What a wake makes of the entry of the instance of a serial, and whether a time was to end its wait.
#[inline(always)]
fn hear_at<B>(s: &mut Schedule<B>, p: u32) -> (Heard, bool)
    ensures changes { Changes p heard_seen s.old s.new }
    ensures answer { result.0 ≡ hears_at (map.get s.old.table.live p) }
    ensures timed { result.1 ≡ is_timed (map.get s.old.table.live p) }
{
    match s.table.get_mut(p) {
        Some(x) => {
            let timed = has_end(x.deadline);
            let heard = hear(x);
            (heard, timed)
        }
        None => (Heard::Nothing, false),
    }
}

/// A wake of an instance, but for what the wait lists have of it. It answers whether that was heard. Time-outs are looked for only
/// where a time was to end its wait.
#[inline(always)]
pub(crate) fn meet<B>(s: &mut Schedule<B>, p: u32) -> bool
    requires places { HasPlaces s.old }
    requires timed { IsTimedSo (seen s.old p) }
    ensures answer { result ≡ is_heard (map.get s.old.table.live p) }
    ensures changes { Changes p met s.old s.new }
    ensures places { HasPlaces s.new }
{
    let (heard, timed) = hear_at(s, p);
    match heard {
        Heard::Nothing => false,
        Heard::Kept => {
            end_time_if(s, p, timed);
            true
        }
        Heard::Joins => {
            end_time_if(s, p, timed);
            join(s, p);
            true
        }
    }
}
