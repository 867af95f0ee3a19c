//! Runs of processes that are disabled and enabled.
ghost use Rattle.std.specs.Prelude.{◌≡◌, [], ◌∷◌, codes, Some};
ghost use Rattle.worked_runs.specs.Selves.{disables_itself};
ghost use Rattle.worked_runs.specs.Targets.{on_waiter, on_unstarted, on_method, on_timed, on_both, disable, enable, says, later, fires, fires_g};
ghost use Rattle.worked_runs.specs.Body.{wait_for};
ghost use Rattle.worked_runs.specs.Run.{told, run};

/// A disabled process stays in the runnable set, and then misses what comes until it is enabled.
pub fn a_runnable_process_is_disabled_and_runs()
    ensures runnable { told 41 (0 ∷ 3 ∷ 3 ∷ 0 ∷ 3 ∷ 3 ∷ 0 ∷ 1 ∷ []) (on_waiter (fires ∷ disable ∷ later ∷ fires ∷ enable ∷ later ∷ fires ∷ [])) (run ∷ []) ≡ Some (codes "0 m.t begin\n1000 m.t woke\n3000 m.t end\n3000 m.w ended\nend done 3000\n") }
    ensures unstarted { told 14 (3 ∷ 0 ∷ []) (on_unstarted (disable ∷ says ∷ [])) (run ∷ []) ≡ Some (codes "0 m.k k\n0 m.t begin\nend done 0\n") }
{}

/// What comes while a process is disabled does not count, for a wait for all neither.
pub fn a_disabled_process_misses_what_comes()
    ensures waiting { told 30 (0 ∷ 3 ∷ 3 ∷ 3 ∷ 0 ∷ []) (on_waiter (disable ∷ fires ∷ enable ∷ says ∷ later ∷ fires ∷ [])) (run ∷ []) ≡ Some (codes "0 m.t begin\n1000 m.k k\n2000 m.t woke\nend done 2000\n") }
    ensures method { told 23 (0 ∷ 3 ∷ 3 ∷ 0 ∷ []) (on_method (disable ∷ fires ∷ enable ∷ says ∷ fires ∷ [])) (run ∷ []) ≡ Some (codes "0 m.t run\n1000 m.k k\n1000 m.t run\nend done 1000\n") }
    ensures all { told 32 (0 ∷ 3 ∷ 3 ∷ 3 ∷ 0 ∷ 1 ∷ []) (on_both (disable ∷ fires ∷ enable ∷ fires_g ∷ says ∷ later ∷ fires ∷ [])) (run ∷ []) ≡ Some (codes "0 m.t begin\n1000 m.k k\n2000 m.t woke\n2000 m.w ended\nend done 2000\n") }
{}

/// A time-out that expires while its process is disabled is lost, and the rest of the wait stays.
pub fn a_lost_time_out_leaves_the_wait()
    ensures stays { told 36 (0 ∷ 3 ∷ 3 ∷ 3 ∷ 3 ∷ 0 ∷ 1 ∷ []) (on_timed (disable ∷ wait_for 3000 ∷ enable ∷ says ∷ later ∷ fires ∷ [])) (run ∷ []) ≡ Some (codes "0 m.t begin\n4000 m.k k\n5000 m.t woke\n5000 m.w ended\nend done 5000\n") }
    ensures itself { told 13 (0 ∷ 3 ∷ []) disables_itself (run ∷ []) ≡ Some (codes "0 m.t begin\n0 m.k k\nend done 1000\n") }
{}
