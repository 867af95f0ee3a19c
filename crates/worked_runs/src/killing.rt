//! Runs of processes that another one kills.
ghost use Rattle.std.specs.Prelude.{◌≡◌, [], ◌∷◌, codes, Some};
ghost use Rattle.worked_runs.specs.Targets.{on_waiter, on_unstarted, on_method, on_timed, kill, reset, suspend, resume, disable, enable, other, says, fires};
ghost use Rattle.worked_runs.specs.Run.{told, run};

/// A waiting, runnable, suspended or disabled process is unwound and ends, before its killer goes on: it is not runnable any more,
/// and waits for nothing.
pub fn a_killed_process_has_ended()
    ensures waiting { told 24 (0 ∷ 3 ∷ 3 ∷ 1 ∷ []) (on_waiter (kill ∷ says ∷ [])) (run ∷ []) ≡ Some (codes "0 m.t begin\n1000 m.t undo\n1000 m.k k\n1000 m.w ended\nend done 1000\n") }
    ensures runnable { told 25 (0 ∷ 3 ∷ 3 ∷ 1 ∷ []) (on_waiter (fires ∷ kill ∷ says ∷ [])) (run ∷ []) ≡ Some (codes "0 m.t begin\n1000 m.t undo\n1000 m.k k\n1000 m.w ended\nend done 1000\n") }
    ensures suspended { told 26 (0 ∷ 3 ∷ 3 ∷ 1 ∷ []) (on_waiter (suspend ∷ kill ∷ resume ∷ says ∷ [])) (run ∷ []) ≡ Some (codes "0 m.t begin\n1000 m.t undo\n1000 m.k k\n1000 m.w ended\nend done 1000\n") }
    ensures kept { told 27 (0 ∷ 3 ∷ 3 ∷ 1 ∷ []) (on_waiter (suspend ∷ fires ∷ kill ∷ resume ∷ says ∷ [])) (run ∷ []) ≡ Some (codes "0 m.t begin\n1000 m.t undo\n1000 m.k k\n1000 m.w ended\nend done 1000\n") }
    ensures disabled { told 26 (0 ∷ 3 ∷ 3 ∷ 1 ∷ []) (on_waiter (disable ∷ kill ∷ fires ∷ says ∷ [])) (run ∷ []) ≡ Some (codes "0 m.t begin\n1000 m.t undo\n1000 m.k k\n1000 m.w ended\nend done 1000\n") }
    ensures timed { told 21 (0 ∷ 3 ∷ 3 ∷ 1 ∷ []) (on_timed (kill ∷ says ∷ [])) (run ∷ []) ≡ Some (codes "0 m.t begin\n1000 m.k k\n1000 m.w ended\nend done 1000\n") }
{}

/// A thread that was not begun never begins, and an idle method never runs again.
pub fn a_process_is_killed_before_it_begins()
    ensures thread { told 13 (3 ∷ 1 ∷ []) (on_unstarted (kill ∷ says ∷ [])) (run ∷ []) ≡ Some (codes "0 m.k k\n0 m.w ended\nend done 0\n") }
    ensures method { told 22 (0 ∷ 3 ∷ 3 ∷ 1 ∷ []) (on_method (kill ∷ fires ∷ says ∷ [])) (run ∷ []) ≡ Some (codes "0 m.t run\n1000 m.k k\n1000 m.w ended\nend done 1000\n") }
{}

/// No control call does anything to a process that has ended.
pub fn an_ended_process_is_left_alone()
    ensures leaves { told 31 (0 ∷ 3 ∷ 3 ∷ 1 ∷ []) (on_waiter (kill ∷ kill ∷ reset ∷ other ∷ suspend ∷ resume ∷ disable ∷ enable ∷ says ∷ [])) (run ∷ []) ≡ Some (codes "0 m.t begin\n1000 m.t undo\n1000 m.k k\n1000 m.w ended\nend done 1000\n") }
{}
