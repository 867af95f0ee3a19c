//! Runs of processes at which another one throws an exception.
ghost use Rattle.std.specs.Prelude.{◌≡◌, [], ◌∷◌, codes, Some};
ghost use Rattle.worked_runs.specs.Targets.{on_waiter, on_unstarted, on_method, halt, other, suspend, resume, disable, says, later, fires};
ghost use Rattle.worked_runs.specs.Run.{told, run};

/// A waiting, runnable or disabled thread is unwound to its handler and goes on there, before the thrower goes on.
pub fn a_thread_is_thrown_at()
    ensures waiting { told 30 (0 ∷ 3 ∷ 3 ∷ 0 ∷ 1 ∷ []) (on_waiter (halt ∷ says ∷ fires ∷ [])) (run ∷ []) ≡ Some (codes "0 m.t begin\n1000 m.t undo\n1000 m.t halted\n1000 m.k k\n1000 m.t end\n1000 m.w ended\nend done 1000\n") }
    ensures runnable { told 24 (0 ∷ 3 ∷ 3 ∷ []) (on_waiter (fires ∷ halt ∷ says ∷ [])) (run ∷ []) ≡ Some (codes "0 m.t begin\n1000 m.t undo\n1000 m.t halted\n1000 m.k k\nend done 1000\n") }
    ensures disabled { told 25 (0 ∷ 3 ∷ 3 ∷ []) (on_waiter (disable ∷ halt ∷ fires ∷ says ∷ [])) (run ∷ []) ≡ Some (codes "0 m.t begin\n1000 m.t undo\n1000 m.t halted\n1000 m.k k\nend done 1000\n") }
{}

/// A suspended thread is unwound now, and goes on in its handler when it is resumed, whether it was kept runnable or not.
pub fn a_suspended_thread_goes_on_when_it_is_resumed()
    ensures waiting { told 31 (0 ∷ 3 ∷ 3 ∷ 3 ∷ 0 ∷ []) (on_waiter (suspend ∷ halt ∷ says ∷ later ∷ resume ∷ [])) (run ∷ []) ≡ Some (codes "0 m.t begin\n1000 m.t undo\n1000 m.k k\n2000 m.t halted\nend done 2000\n") }
    ensures kept { told 32 (0 ∷ 3 ∷ 3 ∷ 3 ∷ 0 ∷ []) (on_waiter (suspend ∷ fires ∷ halt ∷ says ∷ later ∷ resume ∷ [])) (run ∷ []) ≡ Some (codes "0 m.t begin\n1000 m.t undo\n1000 m.k k\n2000 m.t halted\nend done 2000\n") }
{}

/// An exception that the thread does not catch where it stands is a fault, and nothing is unwound.
pub fn an_exception_that_is_not_caught_is_a_fault()
    ensures other { told 13 (0 ∷ 3 ∷ 3 ∷ []) (on_waiter (other ∷ says ∷ [])) (run ∷ []) ≡ Some (codes "0 m.t begin\nend fault 1000 Uncaught Other\n") }
    ensures behind { told 22 (0 ∷ 3 ∷ 3 ∷ 0 ∷ 3 ∷ []) (on_waiter (fires ∷ later ∷ halt ∷ says ∷ [])) (run ∷ []) ≡ Some (codes "0 m.t begin\n1000 m.t woke\nend fault 2000 Uncaught Halt\n") }
{}

/// A method, and a thread that was not begun, go on as if nothing were thrown.
pub fn a_throw_at_a_method_does_nothing()
    ensures thread { told 15 (3 ∷ 0 ∷ []) (on_unstarted (other ∷ halt ∷ says ∷ [])) (run ∷ []) ≡ Some (codes "0 m.k k\n0 m.t begin\nend done 0\n") }
    ensures method { told 22 (0 ∷ 3 ∷ 3 ∷ 0 ∷ []) (on_method (other ∷ halt ∷ says ∷ fires ∷ [])) (run ∷ []) ≡ Some (codes "0 m.t run\n1000 m.k k\n1000 m.t run\nend done 1000\n") }
{}
