//! Runs of process control (IEEE 1666-2011, 5.6.6).
ghost use Rattle.std.specs.Prelude.{◌≡◌, [], ◌∷◌, codes, Some};
ghost use Rattle.worked_runs.specs.Rows as rows;
ghost use Rattle.worked_runs.specs.Run.{told, run};

/// A kill runs the unwind blocks of the guards that are open, the innermost first, before the killer goes on.
pub fn a_kill_unwinds_at_once()
    ensures unwinds { told 23 (0 ∷ 1 ∷ 1 ∷ []) rows.killed (run ∷ []) ≡ Some (codes "5000 m.t in\n5000 m.t out\n5000 m.k killed\nend done 5000\n") }
{}

/// A reset unwinds and begins the body again, before the caller goes on.
pub fn a_reset_begins_again()
    ensures begins { told 23 (0 ∷ 1 ∷ 1 ∷ []) rows.restarted (run ∷ []) ≡ Some (codes "0 m.t start\n3000 m.t undo\n3000 m.t start\n3000 m.k after\nend done 3000\n") }
{}

/// An exception that is thrown at a thread is caught there, and one that it does not catch is a fault.
pub fn an_exception_is_caught_where_it_is_thrown()
    ensures catches { told 16 (0 ∷ 1 ∷ 1 ∷ []) rows.thrown_at (run ∷ []) ≡ Some (codes "1000 m.t caught\n1000 m.k thrown\nend fault 1000 Uncaught Other\n") }
{}

/// A suspended process that was runnable runs once it is resumed, and a disabled one misses what comes.
pub fn flags_hold()
    ensures holds { told 36 (0 ∷ 1 ∷ 3 ∷ 3 ∷ 3 ∷ 3 ∷ 2 ∷ []) rows.flags (run ∷ []) ≡ Some (codes "0 m.r r\n7000 m.d d\nend done 7000\n") }
{}

/// A kill of an instance that is active below the top is a fault, and so is one by an empty handle.
pub fn a_kill_may_be_a_fault()
    ensures below { told 12 (0 ∷ 1 ∷ 1 ∷ []) rows.kill_below (run ∷ []) ≡ Some (codes "end fault 1000 ControlOnActive 1\n") }
    ensures empty { told 4 (0 ∷ []) rows.empty_handle (run ∷ []) ≡ Some (codes "end fault 0 EmptyHandle\n") }
{}
