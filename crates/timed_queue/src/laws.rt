ghost use Rattle.std.specs.Prelude.{◌≤◌};
ghost use Rattle.std.specs.Ordering.{nat_cmp};
ghost use Rattle.std.specs.FinMap as map;
ghost use Rattle.sim_time.specs.declared.moments.Time.{Time};
ghost use Rattle.timed_queue.specs.Timed.{due_at};

/// No more names have one time than there are names: room for all names is enough for what `take_due` gives, whatever the time.
pub fn due_names_are_held()
    ensures { (times : map.FinMap nat_cmp Time) (t : Time) → map.len (due_at times t) ≤ map.len times }
{}
