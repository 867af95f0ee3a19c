//! The turns of processes.
ghost use Rattle.std.specs.Prelude.{◌≡◌, [], true, false, None, IfSome, IfNone, is_some};
ghost use Rattle.std.specs.FinMap as map;
ghost use Rattle.std.specs.FinSet as set;
ghost use Rattle.kernel_state.specs.SimModel.Configuration.{instance_at};
ghost use Rattle.kernel_state.specs.SimModel.Steps.{instance_taken};
ghost use Rattle.kernel_state.specs.Kernel.{IsSound};
ghost use Rattle.kernel_state.specs.Moves.{Moves, MovesAt, Lives};
ghost use Rattle.kernel_phases.specs.Turns.{is_begun, begins_first};

use kernel_state::Kernel;
use kernel_state::kernel_processes_api::{Trigger, take};

/// What stands in a place is let go of.
#[cold]
#[inline(never)]
fn drop_trigger(place: &mut Option<Trigger>)
    ensures { place.new ≡ None }
{
    *place = None;
}

/// Nothing stands in a place. Where nothing stood, nothing is written.
#[inline(always)]
fn clear(place: &mut Option<Trigger>)
    ensures { place.new ≡ None }
{
    match place {
        Some(_) => drop_trigger(place),
        None => {}
    }
}

/// The body of an instance begins at its first statement, and no next trigger is set for it, where it has not begun: all in one look
/// at the instance. Where it has begun nothing changes.
#[inline(always)]
fn begin_first(k: &mut Kernel, p: u32)
    requires sound { IsSound k.old }
    requires lives { Lives k.old p }
    ensures first { is_begun (map.get k.old.schedule.table.live p) ≡ false → MovesAt k.old k.new p (λ c i. begins_first c p i) }
    ensures stays { is_begun (map.get k.old.schedule.table.live p) ≡ true → Moves k.old k.new (λ c. c) }
    ensures sound { IsSound k.new }
    ensures made { k.new.made ≡ k.old.made }
{
    match k.schedule.table.get_mut(p) {
        Some(x) => {
            if !x.started {
                x.started = true;
                clear(&mut x.body.body.trigger);
                x.body.body.body.restart(k.program);
            }
        }
        None => {}
    }
}

/// A runnable instance is taken: it is the only active one, and its body begins where it has not begun (IEEE 1666-2011,
/// 4.2.1.2). It takes no memory.
pub fn turn(k: &mut Kernel, p: u32)
    requires sound { IsSound k.old }
    requires runs { set.contains k.old.schedule.ready.members p ≡ true }
    requires nobody { k.old.schedule.stack.items ≡ [] }
    ensures moves { Moves k.old k.new (λ c. instance_taken c p (instance_at c p)) }
    ensures sound { IsSound k.new }
    ensures made { k.new.made ≡ k.old.made }
{
    take(&mut k.schedule, p);
    begin_first(k, p);
}
