//! Runs of waits (IEEE 1666-2011, 5.2.17 and 5.2.18).
ghost use Rattle.std.specs.Prelude.{◌≡◌, [], ◌∷◌, codes, Some};
ghost use Rattle.worked_runs.specs.Waiting.{waits, for_both, at_most, statically, no_time, triggers, fires, fires_g, later};
ghost use Rattle.worked_runs.specs.Body.{wait_for};
ghost use Rattle.worked_runs.specs.Run.{told, run};

/// A wait for all of some events wakes at the last of them, and one that is named twice counts once.
pub fn a_wait_for_all_wants_each_event()
    ensures twice { told 20 (0 ∷ 1 ∷ 1 ∷ 0 ∷ []) (waits for_both (fires ∷ fires_g ∷ [])) (run ∷ []) ≡ Some (codes "0 m.t begin\n1000 m.t woke\nend done 1000\n") }
    ensures each { told 26 (0 ∷ 1 ∷ 1 ∷ 1 ∷ 0 ∷ []) (waits for_both (fires ∷ fires ∷ later ∷ fires_g ∷ [])) (run ∷ []) ≡ Some (codes "0 m.t begin\n2000 m.t woke\nend done 2000\n") }
{}

/// A wait that ended by its event has no deadline any more.
pub fn an_event_ends_its_deadline()
    ensures ends { told 19 (0 ∷ 1 ∷ 1 ∷ 0 ∷ []) (waits (at_most 5000) (fires ∷ [])) (run ∷ []) ≡ Some (codes "0 m.t begin\n1000 m.t woke\nend done 1000\n") }
{}

/// A thread waits for what its wait names, in place of its static sensitivity, and by that where it names nothing.
pub fn a_thread_waits_by_what_it_named()
    ensures named { told 30 (0 ∷ 1 ∷ 1 ∷ 0 ∷ 1 ∷ 0 ∷ []) (statically (fires_g ∷ fires ∷ later ∷ fires ∷ fires_g ∷ [])) (run ∷ []) ≡ Some (codes "0 m.t begin\n1000 m.t static\n2000 m.t g\nend done 2000\n") }
{}

/// A wait for no time ends in the next delta notification phase.
pub fn a_wait_for_no_time_ends_in_the_next_delta_cycle()
    ensures ends { told 17 (0 ∷ 0 ∷ 0 ∷ []) no_time (run ∷ []) ≡ Some (codes "0 m.t zero\n0 m.t delta\nend done 0\n") }
{}

/// The last next trigger of a turn counts, in place of the static sensitivity, which holds again behind a turn without one.
pub fn a_method_waits_by_its_last_next_trigger()
    ensures last { told 40 (0 ∷ 1 ∷ 1 ∷ 0 ∷ 1 ∷ 0 ∷ []) (triggers (fires ∷ fires_g ∷ wait_for 2000 ∷ fires ∷ [])) (run ∷ []) ≡ Some (codes "0 m.s n 1\n2000 m.s n 2\n3000 m.s n 3\nend done 3000\n") }
{}
