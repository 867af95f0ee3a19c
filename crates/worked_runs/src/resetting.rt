//! Runs of processes that another one resets.
ghost use Rattle.std.specs.Prelude.{◌≡◌, [], ◌∷◌, codes, Some};
ghost use Rattle.worked_runs.specs.Targets.{on_waiter, on_unstarted, on_method, respawned, reset, suspend, resume, disable, enable, says, later, fires};
ghost use Rattle.worked_runs.specs.Run.{told, run};

/// A waiting, runnable or disabled process is unwound and begins again, before its resetter goes on; and it is disabled still.
pub fn a_process_is_reset()
    ensures waiting { told 32 (0 ∷ 3 ∷ 3 ∷ 2 ∷ 0 ∷ []) (on_waiter (reset ∷ says ∷ fires ∷ [])) (run ∷ []) ≡ Some (codes "0 m.t begin\n1000 m.t undo\n1000 m.t begin\n1000 m.k k\n1000 m.v restarted\n1000 m.t woke\nend done 1000\n") }
    ensures runnable { told 29 (0 ∷ 3 ∷ 3 ∷ 2 ∷ []) (on_waiter (fires ∷ reset ∷ says ∷ [])) (run ∷ []) ≡ Some (codes "0 m.t begin\n1000 m.t undo\n1000 m.t begin\n1000 m.k k\n1000 m.v restarted\nend done 1000\n") }
    ensures disabled { told 35 (0 ∷ 3 ∷ 3 ∷ 2 ∷ 0 ∷ []) (on_waiter (disable ∷ reset ∷ fires ∷ enable ∷ says ∷ fires ∷ [])) (run ∷ []) ≡ Some (codes "0 m.t begin\n1000 m.t undo\n1000 m.t begin\n1000 m.k k\n1000 m.v restarted\n1000 m.t woke\nend done 1000\n") }
{}

/// A suspended process is unwound now, and begins again when it is resumed, whether it was kept runnable or not.
pub fn a_suspended_process_is_reset()
    ensures waiting { told 36 (0 ∷ 3 ∷ 3 ∷ 2 ∷ 3 ∷ 0 ∷ []) (on_waiter (suspend ∷ reset ∷ says ∷ later ∷ resume ∷ [])) (run ∷ []) ≡ Some (codes "0 m.t begin\n1000 m.t undo\n1000 m.k k\n1000 m.v restarted\n2000 m.t begin\nend done 2000\n") }
    ensures kept { told 37 (0 ∷ 3 ∷ 3 ∷ 2 ∷ 3 ∷ 0 ∷ []) (on_waiter (suspend ∷ fires ∷ reset ∷ says ∷ later ∷ resume ∷ [])) (run ∷ []) ≡ Some (codes "0 m.t begin\n1000 m.t undo\n1000 m.k k\n1000 m.v restarted\n2000 m.t begin\nend done 2000\n") }
{}

/// A thread that was not begun begins at once, or when it is resumed.
pub fn a_thread_is_reset_before_it_begins()
    ensures begins { told 17 (3 ∷ 2 ∷ []) (on_unstarted (reset ∷ says ∷ [])) (run ∷ []) ≡ Some (codes "0 m.t begin\n0 m.k k\n0 m.v restarted\nend done 0\n") }
    ensures suspended { told 25 (3 ∷ 2 ∷ 3 ∷ 0 ∷ []) (on_unstarted (suspend ∷ reset ∷ says ∷ later ∷ resume ∷ [])) (run ∷ []) ≡ Some (codes "0 m.k k\n0 m.v restarted\n1000 m.t begin\nend done 1000\n") }
{}

/// An idle method runs at once, or when it is resumed.
pub fn a_method_is_reset()
    ensures runs { told 23 (0 ∷ 3 ∷ 3 ∷ 2 ∷ []) (on_method (reset ∷ says ∷ [])) (run ∷ []) ≡ Some (codes "0 m.t run\n1000 m.t run\n1000 m.k k\n1000 m.v restarted\nend done 1000\n") }
    ensures suspended { told 31 (0 ∷ 3 ∷ 3 ∷ 2 ∷ 3 ∷ 0 ∷ []) (on_method (suspend ∷ reset ∷ says ∷ later ∷ resume ∷ [])) (run ∷ []) ≡ Some (codes "0 m.t run\n1000 m.k k\n1000 m.v restarted\n2000 m.t run\nend done 2000\n") }
{}

/// A spawned instance gets its first arguments again.
pub fn a_spawned_instance_is_reset()
    ensures begins { told 25 (0 ∷ 1 ∷ 0 ∷ []) respawned (run ∷ []) ≡ Some (codes "0 m.w_1 n 5\n0 m.w_1 n 6\n1000 m.w_1 n 5\n1000 m.w_1 n 6\n1000 m.k k\nend done 1000\n") }
{}
