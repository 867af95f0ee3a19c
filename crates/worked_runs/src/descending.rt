//! Runs of calls that reach the descendants of a process (IEEE 1666-2011, 5.6.6): one step for the call, and one for each that it
//! reaches, the greatest serial first and the process itself behind its descendants.
ghost use Rattle.std.specs.Prelude.{◌≡◌, [], ◌∷◌, codes, Some};
ghost use Rattle.worked_runs.specs.Descending.{one_child, by_its_child, one_between, none_left, none_held, one_catches, below_the_top, suspended_by_its_child, by_itself, ended_meanwhile};
ghost use Rattle.worked_runs.specs.Run.{told, run};

/// All that has not ended and came of the process is ended before it, also over one that has ended; who has ended is left alone.
pub fn a_call_reaches_descendants()
    ensures child { told 27 (0 ∷ 1 ∷ 2 ∷ 1 ∷ []) one_child (run ∷ []) ≡ Some (codes "1000 m.c_2 c\n1000 m.t t\n1000 m.k k\nend done 1000\n") }
    ensures between { told 30 (0 ∷ 1 ∷ 2 ∷ 3 ∷ 1 ∷ []) one_between (run ∷ []) ≡ Some (codes "1000 m.g_3 g\n1000 m.t t\n1000 m.k k\nend done 1000\n") }
    ensures ended { told 16 (0 ∷ 1 ∷ 1 ∷ []) none_left (run ∷ []) ≡ Some (codes "1000 m.k k\nend done 1000\n") }
    ensures meanwhile { told 35 (0 ∷ 1 ∷ 2 ∷ 3 ∷ 1 ∷ []) ended_meanwhile (run ∷ []) ≡ Some (codes "1000 m.c_3 c\n1000 m.d_2 d\n1000 m.t t\n1000 m.k k\nend done 1000\n") }
{}

/// Where the caller is one of them it comes last.
pub fn a_caller_comes_last()
    ensures child { told 23 (0 ∷ 1 ∷ 1 ∷ []) by_its_child (run ∷ []) ≡ Some (codes "1000 m.t t\n1000 m.c_1 c\nend done 1000\n") }
    ensures itself { told 23 (0 ∷ 1 ∷ 0 ∷ []) by_itself (run ∷ []) ≡ Some (codes "1000 m.c_1 c\n1000 m.t t\nend done 1000\n") }
    ensures suspends { told 35 (0 ∷ 1 ∷ 2 ∷ 2 ∷ 1 ∷ 0 ∷ 2 ∷ []) suspended_by_its_child (run ∷ []) ≡ Some (codes "5000 m.k s 0\n5000 m.t t\n5000 m.c_2 c goes on\nend done 5000\n") }
{}

/// The faults of a call are those of one process, each in the step of that process.
pub fn a_call_of_several_may_be_at_fault()
    ensures empty { told 4 (0 ∷ []) none_held (run ∷ []) ≡ Some (codes "end fault 0 EmptyHandle\n") }
    ensures uncaught { told 19 (0 ∷ 1 ∷ 2 ∷ 1 ∷ []) one_catches (run ∷ []) ≡ Some (codes "1000 m.c_2 c\nend fault 1000 Uncaught X\n") }
    ensures below { told 15 (0 ∷ 1 ∷ 0 ∷ []) below_the_top (run ∷ []) ≡ Some (codes "end fault 1000 ControlOnActive 0\n") }
{}
