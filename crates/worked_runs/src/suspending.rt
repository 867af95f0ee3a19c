//! Runs of processes that are suspended and resumed.
ghost use Rattle.std.specs.Prelude.{◌≡◌, [], ◌∷◌, codes, Some};
ghost use Rattle.worked_runs.specs.Targets.{on_waiter, on_unstarted, on_method, on_both, suspends_in_nb, suspends_in_b, suspend, resume, disable, enable, says, later, fires, fires_g};
ghost use Rattle.worked_runs.specs.Run.{told, run};

/// A suspended process does not run: a waiting one keeps what wakes it, a runnable one and one that was not begun are kept.
pub fn a_process_is_suspended()
    ensures never { told 20 (0 ∷ 3 ∷ 3 ∷ []) (on_waiter (suspend ∷ fires ∷ says ∷ [])) (run ∷ []) ≡ Some (codes "0 m.t begin\n1000 m.k k\nend done 1000\n") }
    ensures waiting { told 31 (0 ∷ 3 ∷ 3 ∷ 3 ∷ 0 ∷ []) (on_waiter (suspend ∷ suspend ∷ fires ∷ says ∷ later ∷ resume ∷ resume ∷ [])) (run ∷ []) ≡ Some (codes "0 m.t begin\n1000 m.k k\n2000 m.t woke\nend done 2000\n") }
    ensures again { told 30 (0 ∷ 3 ∷ 3 ∷ 3 ∷ 0 ∷ []) (on_waiter (suspend ∷ fires ∷ suspend ∷ says ∷ later ∷ resume ∷ [])) (run ∷ []) ≡ Some (codes "0 m.t begin\n1000 m.k k\n2000 m.t woke\nend done 2000\n") }
    ensures runnable { told 29 (0 ∷ 3 ∷ 3 ∷ 3 ∷ 0 ∷ []) (on_waiter (fires ∷ suspend ∷ says ∷ later ∷ resume ∷ [])) (run ∷ []) ≡ Some (codes "0 m.t begin\n1000 m.k k\n2000 m.t woke\nend done 2000\n") }
    ensures unstarted { told 20 (3 ∷ 3 ∷ 0 ∷ []) (on_unstarted (suspend ∷ says ∷ later ∷ resume ∷ [])) (run ∷ []) ≡ Some (codes "0 m.k k\n1000 m.t begin\nend done 1000\n") }
    ensures method { told 27 (0 ∷ 3 ∷ 3 ∷ 3 ∷ 0 ∷ []) (on_method (suspend ∷ fires ∷ says ∷ later ∷ resume ∷ [])) (run ∷ []) ≡ Some (codes "0 m.t run\n1000 m.k k\n2000 m.t run\nend done 2000\n") }
    ensures all { told 31 (0 ∷ 3 ∷ 3 ∷ 3 ∷ 0 ∷ 1 ∷ []) (on_both (suspend ∷ fires ∷ fires_g ∷ says ∷ later ∷ resume ∷ [])) (run ∷ []) ≡ Some (codes "0 m.t begin\n1000 m.k k\n2000 m.t woke\n2000 m.w ended\nend done 2000\n") }
{}

/// A process that was not kept goes on waiting once it is resumed, and a resume of one that is not suspended does nothing.
pub fn a_suspended_process_is_resumed()
    ensures waits { told 25 (0 ∷ 3 ∷ 3 ∷ 0 ∷ []) (on_waiter (resume ∷ suspend ∷ resume ∷ fires ∷ says ∷ [])) (run ∷ []) ≡ Some (codes "0 m.t begin\n1000 m.k k\n1000 m.t woke\nend done 1000\n") }
{}

/// What a disabled process misses is not kept, and one that is kept is runnable once it is resumed, though it is disabled.
pub fn the_flags_are_independent()
    ensures misses { told 32 (0 ∷ 3 ∷ 3 ∷ 3 ∷ 0 ∷ []) (on_waiter (disable ∷ suspend ∷ fires ∷ resume ∷ enable ∷ says ∷ later ∷ fires ∷ [])) (run ∷ []) ≡ Some (codes "0 m.t begin\n1000 m.k k\n2000 m.t woke\nend done 2000\n") }
    ensures runs { told 25 (0 ∷ 3 ∷ 3 ∷ 0 ∷ []) (on_waiter (suspend ∷ fires ∷ disable ∷ resume ∷ says ∷ [])) (run ∷ []) ≡ Some (codes "0 m.t begin\n1000 m.k k\n1000 m.t woke\nend done 1000\n") }
{}

/// A thread that suspends itself in the handler of a non-blocking transport call goes on to its next wait; in that of a blocking
/// one it stops at once.
pub fn a_thread_suspends_itself_in_a_call()
    ensures goes_on { told 28 (0 ∷ 1 ∷ 1 ∷ 0 ∷ []) suspends_in_nb (run ∷ []) ≡ Some (codes "0 m.i.t in\n0 m.i.t back\n3000 m.i.t late\nend done 3000\n") }
    ensures stops { told 30 (0 ∷ 1 ∷ 1 ∷ 0 ∷ 0 ∷ []) suspends_in_b (run ∷ []) ≡ Some (codes "3000 m.i.t in\n3000 m.i.t back\n4000 m.i.t late\nend done 4000\n") }
{}
