//! Runs of processes that control themselves.
ghost use Rattle.std.specs.Prelude.{◌≡◌, [], ◌∷◌, codes, Some};
ghost use Rattle.worked_runs.specs.Selves.{thread_does, method_does, thread_resets_once, method_resets_once, thread_throws, method_throws, retriggered, killing, one_says};
ghost use Rattle.worked_runs.specs.Targets.{after_a_while, suspending, resume, says, later, fires};
ghost use Rattle.sim_model.specs.ModelTree.declared.statements.Control.TheVariants as control_of;
ghost use Rattle.worked_runs.specs.Body.{control_self};
ghost use Rattle.worked_runs.specs.Run.{told, run};

/// A thread that suspends itself stops at once and is kept, and one that kills itself is unwound from where it stands; one that
/// resumes, disables or enables itself goes on.
pub fn a_thread_controls_itself()
    ensures suspends { told 24 (0 ∷ 3 ∷ 3 ∷ 0 ∷ 1 ∷ []) (thread_does suspending (after_a_while (says ∷ resume ∷ []))) (run ∷ []) ≡ Some (codes "0 m.t begin\n1000 m.k k\n1000 m.t on\n1000 m.w ended\nend done 1000\n") }
    ensures resumes { told 17 (0 ∷ 1 ∷ 3 ∷ []) (thread_does (control_self control_of.Resume) one_says) (run ∷ []) ≡ Some (codes "0 m.t begin\n0 m.t on\n0 m.w ended\n0 m.k k\nend done 0\n") }
    ensures disables { told 17 (0 ∷ 1 ∷ 3 ∷ []) (thread_does (control_self control_of.Disable) one_says) (run ∷ []) ≡ Some (codes "0 m.t begin\n0 m.t on\n0 m.w ended\n0 m.k k\nend done 0\n") }
    ensures enables { told 17 (0 ∷ 1 ∷ 3 ∷ []) (thread_does (control_self control_of.Enable) one_says) (run ∷ []) ≡ Some (codes "0 m.t begin\n0 m.t on\n0 m.w ended\n0 m.k k\nend done 0\n") }
    ensures kills { told 17 (0 ∷ 1 ∷ 3 ∷ []) (thread_does killing one_says) (run ∷ []) ≡ Some (codes "0 m.t begin\n0 m.t undo\n0 m.w ended\n0 m.k k\nend done 0\n") }
{}

/// A method that suspends itself runs to its return and is not kept by that, and one that kills itself is unwound.
pub fn a_method_controls_itself()
    ensures resumed { told 32 (0 ∷ 3 ∷ 3 ∷ 3 ∷ 0 ∷ []) (method_does suspending (after_a_while (resume ∷ says ∷ later ∷ fires ∷ []))) (run ∷ []) ≡ Some (codes "0 m.t run\n0 m.t on\n1000 m.k k\n2000 m.t run\n2000 m.t on\nend done 2000\n") }
    ensures kept { told 32 (0 ∷ 3 ∷ 3 ∷ 3 ∷ 0 ∷ []) (method_does suspending (after_a_while (fires ∷ says ∷ later ∷ resume ∷ []))) (run ∷ []) ≡ Some (codes "0 m.t run\n0 m.t on\n1000 m.k k\n2000 m.t run\n2000 m.t on\nend done 2000\n") }
    ensures kills { told 17 (0 ∷ 1 ∷ 3 ∷ []) (method_does killing one_says) (run ∷ []) ≡ Some (codes "0 m.t run\n0 m.t undo\n0 m.w ended\n0 m.k k\nend done 0\n") }
{}

/// A process that resets itself is unwound and begins again, in the same turn: a next trigger that was set before stays.
pub fn a_process_resets_itself()
    ensures thread { told 27 (0 ∷ 2 ∷ 1 ∷ 3 ∷ []) thread_resets_once (run ∷ []) ≡ Some (codes "0 m.t n 1\n0 m.t undo\n0 m.t n 2\n0 m.t end\n0 m.v restarted\n0 m.w ended\n0 m.k k\nend done 0\n") }
    ensures method { told 24 (0 ∷ 2 ∷ 3 ∷ []) method_resets_once (run ∷ []) ≡ Some (codes "0 m.t n 1\n0 m.t undo\n0 m.t n 2\n0 m.t end\n0 m.v restarted\n0 m.k k\nend done 0\n") }
    ensures trigger { told 38 (0 ∷ 2 ∷ 3 ∷ 3 ∷ 3 ∷ 0 ∷ []) retriggered (run ∷ []) ≡ Some (codes "0 m.t n 2\n0 m.v restarted\n1000 m.k k\n2000 m.t n 3\nend done 2000\n") }
{}

/// A process that throws an exception at itself is unwound to its handler; where it has none, that is a fault.
pub fn a_process_catches_what_it_throws_at_itself()
    ensures thread { told 20 (0 ∷ 1 ∷ 3 ∷ []) (thread_throws 0) (run ∷ []) ≡ Some (codes "0 m.t undo\n0 m.t halted\n0 m.t end\n0 m.w ended\n0 m.k k\nend done 0\n") }
    ensures method { told 17 (0 ∷ 3 ∷ []) (method_throws 0) (run ∷ []) ≡ Some (codes "0 m.t undo\n0 m.t halted\n0 m.t end\n0 m.k k\nend done 0\n") }
    ensures uncaught { told 5 (0 ∷ []) (thread_throws 1) (run ∷ []) ≡ Some (codes "end fault 0 Uncaught Other\n") }
{}
