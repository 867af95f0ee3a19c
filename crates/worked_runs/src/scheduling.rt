//! Runs of events, waits, times and the ends of sessions.
ghost use Rattle.std.specs.Prelude.{◌≡◌, [], ◌∷◌, codes, Some};
ghost use Rattle.sim_model.specs.declared.plain.Log.TheVariants as log_of;
ghost use Rattle.sim_model.specs.declared.plain.Rule.TheVariants as rule;
ghost use Rattle.worked_runs.specs.Rows as rows;
ghost use Rattle.worked_runs.specs.Run.{told, told_under, IsRuled, run, run_for};

/// Of several notifications of an event the earliest stands (IEEE 1666-2011, 5.10.8).
pub fn the_earliest_notification_stands()
    ensures stands { told 18 (0 ∷ 1 ∷ 1 ∷ []) rows.earliest (run ∷ []) ≡ Some (codes "7000 m.w w\nend done 7000\n") }
{}

/// A process is not woken by its own immediate notification.
pub fn an_own_notification_wakes_nobody()
    ensures wakes { told 10 (0 ∷ []) rows.own_notification (run ∷ []) ≡ Some (codes "0 m.s n 1\nend done 0\n") }
{}

/// A cancelled notification never comes, and a run for a time ends then.
pub fn a_cancelled_notification_never_comes()
    ensures comes { told 11 (0 ∷ 1 ∷ []) rows.cancelled (run_for 10000 ∷ []) ≡ Some (codes "end done 10000\n") }
{}

/// A wait for all of some events ends by its time, where one is missing.
pub fn a_wait_for_all_ends_by_its_time()
    ensures ends { told 19 (0 ∷ 1 ∷ 1 ∷ []) rows.timed_out (run ∷ []) ≡ Some (codes "10000 m.w woke\nend done 12000\n") }
{}

/// What is woken at the end of a run stays runnable for the next one.
pub fn a_run_ends_at_its_time()
    ensures one { told 7 (0 ∷ []) rows.sleeper (run_for 10000 ∷ []) ≡ Some (codes "end done 10000\n") }
    ensures two { told 14 (0 ∷ 0 ∷ []) rows.sleeper (run_for 10000 ∷ run_for 1000 ∷ []) ≡ Some (codes "10000 m.t x\nend done 11000\n") }
{}

/// A session ends by its budget, by a stop, by a choice that is not runnable, or by a time past the greatest.
pub fn sessions_end()
    ensures budget { told_under rule.First log_of.Prints 100 100 (0 ∷ []) rows.forever (run ∷ []) ≡ Some (codes "end budget 0\n") }
    ensures stop { told 7 (0 ∷ []) rows.stopping (run ∷ []) ≡ Some (codes "0 m.t a\nend stopped 0\n") }
    ensures replay { told_under (rule.Replay (1 ∷ 1 ∷ [])) log_of.Prints 10000000 5 (1 ∷ []) rows.two_prints (run ∷ []) ≡ Some (codes "0 m.q q\nend replay 0 2\n") }
    ensures time { told 8 (0 ∷ 0 ∷ []) rows.past_the_end (run ∷ []) ≡ Some (codes "end fault 18446744073709551615 TimeOverflow\n") }
{}

/// A rule picks each choice: the least, the greatest, the one at the place to which a seeded generator's next word points, or the listed one.
pub fn a_rule_picks_each_choice()
    ensures told { told 14 (2 ∷ 0 ∷ 1 ∷ []) rows.three_prints (run ∷ []) ≡ Some (codes "0 m.r r\n0 m.p p\n0 m.q q\nend done 0\n") }
    ensures first { IsRuled rule.First 14 (0 ∷ 1 ∷ 2 ∷ []) rows.three_prints (run ∷ []) }
    ensures last { IsRuled rule.Last 14 (2 ∷ 1 ∷ 0 ∷ []) rows.three_prints (run ∷ []) }
    ensures seeded { IsRuled (rule.Seed 7) 14 (2 ∷ 0 ∷ 1 ∷ []) rows.three_prints (run ∷ []) }
    ensures listed { IsRuled (rule.Replay (1 ∷ 2 ∷ 0 ∷ [])) 14 (1 ∷ 2 ∷ 0 ∷ []) rows.three_prints (run ∷ []) }
{}
