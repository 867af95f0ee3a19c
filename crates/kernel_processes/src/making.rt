ghost use Rattle.std.specs.Prelude.{◌≡◌, ℕ, [], None};
ghost use Rattle.kernel_processes.specs.InstanceViews.{shown_at};
ghost use Rattle.kernel_processes.specs.Sound.{IsSound};

use super::parts::Schedule;
use instance_table::Table;
use ready_set::ReadySet;
use std::alloc::Global;
use timed_queue::TimedQueue;
use wait_lists::WaitLists;

/// A schedule without an instance. It takes no memory.
pub fn empty<B>(alloc: Global) -> Schedule<B>
    ensures nobody { (p : ℕ) → shown_at result p ≡ None }
    ensures first { result.table.next ≡ 0 }
    ensures stack { result.stack.items ≡ [] }
    ensures due { result.due.items ≡ [] }
    ensures sound { IsSound result }
{
    Schedule {
        table: Table::new(alloc),
        lists: WaitLists::new(alloc),
        deadlines: TimedQueue::new(alloc),
        zero: ReadySet::new(alloc),
        ready: ReadySet::new(alloc),
        stack: Vec::new(alloc),
        woken: Vec::new(alloc),
        due: Vec::new(alloc),
    }
}
