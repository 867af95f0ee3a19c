//! Runs of processes that are active: below the top of the stack, or being unwound.
ghost use Rattle.std.specs.Prelude.{◌≡◌, [], ◌∷◌, codes, Some};
ghost use Rattle.sim_model.specs.ModelTree.declared.statements.Control.TheVariants as control_of;
ghost use Rattle.sim_model.specs.Residual.{enter, leave, begin, finish};
ghost use Rattle.worked_runs.specs.Selves.{unwound, killing, on_k, throws_at_k, kills_j, says_late, j, j_undoes, resumes_k, passed_over, thrown_through};
ghost use Rattle.worked_runs.specs.Targets.{suspending, kill, reset, halt, resume, says, later};
ghost use Rattle.worked_runs.specs.Body.{say, control_self, throw_at_self};
ghost use Rattle.worked_runs.specs.Rows.{killed};
ghost use Rattle.worked_runs.specs.Run.{told, marked, run};

/// A kill, a reset or an exception of the process itself, inside its own unwind block, does nothing.
pub fn an_unwinding_is_not_unwound()
    ensures goes_on { told 27 (0 ∷ 3 ∷ 3 ∷ 1 ∷ []) (unwound (killing ∷ control_self control_of.Reset ∷ throw_at_self 1 ∷ []) (kill ∷ says ∷ []) []) (run ∷ []) ≡ Some (codes "0 m.t begin\n1000 m.t undo\n1000 m.k k\n1000 m.w ended\nend done 1000\n") }
{}

/// A process that suspends itself inside its own unwind block goes on to the end of the unwinding: killed it ends, reset it
/// begins again when it is resumed, and thrown at it goes on in its handler when it is resumed.
pub fn an_unwinding_process_is_suspended()
    ensures ends { told 25 (0 ∷ 3 ∷ 3 ∷ 1 ∷ []) (unwound (suspending ∷ []) (kill ∷ says ∷ []) []) (run ∷ []) ≡ Some (codes "0 m.t begin\n1000 m.t undo\n1000 m.k k\n1000 m.w ended\nend done 1000\n") }
    ensures begins { told 36 (0 ∷ 3 ∷ 3 ∷ 2 ∷ 3 ∷ 0 ∷ []) (unwound (suspending ∷ []) (reset ∷ says ∷ later ∷ resume ∷ []) []) (run ∷ []) ≡ Some (codes "0 m.t begin\n1000 m.t undo\n1000 m.k k\n1000 m.v restarted\n2000 m.t begin\nend done 2000\n") }
    ensures goes_on { told 35 (0 ∷ 3 ∷ 3 ∷ 3 ∷ 0 ∷ 1 ∷ []) (unwound (suspending ∷ []) (halt ∷ says ∷ later ∷ resume ∷ []) []) (run ∷ []) ≡ Some (codes "0 m.t begin\n1000 m.t undo\n1000 m.k k\n2000 m.t halted\n2000 m.t end\n2000 m.w ended\nend done 2000\n") }
{}

/// A kill, a reset or an exception of a process below the top of the stack is a fault, also where that one is being unwound.
pub fn a_process_below_the_top_is_not_unwound()
    ensures kill { told 14 (0 ∷ 3 ∷ 3 ∷ []) (unwound (on_k control_of.Kill ∷ []) (kill ∷ []) []) (run ∷ []) ≡ Some (codes "0 m.t begin\nend fault 1000 ControlOnActive 3\n") }
    ensures reset { told 14 (0 ∷ 3 ∷ 3 ∷ []) (unwound (on_k control_of.Reset ∷ []) (kill ∷ []) []) (run ∷ []) ≡ Some (codes "0 m.t begin\nend fault 1000 ControlOnActive 3\n") }
    ensures throw { told 14 (0 ∷ 3 ∷ 3 ∷ []) (unwound (throws_at_k ∷ []) (kill ∷ []) []) (run ∷ []) ≡ Some (codes "0 m.t begin\nend fault 1000 ControlOnActive 3\n") }
    ensures unwinding { told 18 (0 ∷ 3 ∷ 4 ∷ 3 ∷ []) (unwound (kills_j ∷ []) (kill ∷ []) (j (j_undoes kill) ∷ [])) (run ∷ []) ≡ Some (codes "0 m.t begin\nend fault 1000 ControlOnActive 0\n") }
{}

/// A process below the top of the stack may be suspended or disabled: it goes on to its next wait, and there it is kept, or
/// misses its time-out.
pub fn a_process_below_the_top_is_flagged()
    ensures suspended { told 37 (0 ∷ 3 ∷ 4 ∷ 3 ∷ 1 ∷ 4 ∷ 3 ∷ []) (unwound (on_k control_of.Suspend ∷ []) (kill ∷ says ∷ later ∷ says_late ∷ []) (j resumes_k ∷ [])) (run ∷ []) ≡ Some (codes "0 m.t begin\n1000 m.t undo\n1000 m.k k\n1000 m.w ended\n4000 m.k late\nend done 4000\n") }
    ensures disabled { told 26 (0 ∷ 3 ∷ 3 ∷ 1 ∷ []) (unwound (on_k control_of.Disable ∷ []) (kill ∷ says ∷ later ∷ says_late ∷ []) []) (run ∷ []) ≡ Some (codes "0 m.t begin\n1000 m.t undo\n1000 m.k k\n1000 m.w ended\nend done 2000\n") }
    ensures back { told 34 (0 ∷ 3 ∷ 3 ∷ 1 ∷ 3 ∷ []) (unwound (on_k control_of.Suspend ∷ on_k control_of.Resume ∷ on_k control_of.Disable ∷ on_k control_of.Enable ∷ []) (kill ∷ says ∷ later ∷ says_late ∷ []) []) (run ∷ []) ≡ Some (codes "0 m.t begin\n1000 m.t undo\n1000 m.k k\n1000 m.w ended\n2000 m.k late\nend done 2000\n") }
{}

/// An unwind block runs where a kill or an exception passes it, the innermost first, and not where its guard is left by its end
/// or by a return; one that kills another process goes on when that one has ended.
pub fn unwind_blocks_run_when_they_are_passed()
    ensures left { told 14 (0 ∷ []) passed_over (run ∷ []) ≡ Some (codes "0 m.t in\n0 m.t end\nend done 0\n") }
    ensures left_marks { marked 14 (0 ∷ []) passed_over (run ∷ []) ≡ Some (enter 0 0 ∷ leave 0 0 ∷ enter 0 1 ∷ leave 0 1 ∷ []) }
    ensures thrown { told 14 (0 ∷ []) thrown_through (run ∷ []) ≡ Some (codes "0 m.t inner\n0 m.t halted\nend done 0\n") }
    ensures thrown_marks { marked 14 (0 ∷ []) thrown_through (run ∷ []) ≡ Some (enter 0 0 ∷ begin 0 0 ∷ finish 0 0 ∷ []) }
    ensures killed_marks { marked 23 (0 ∷ 1 ∷ 1 ∷ []) killed (run ∷ []) ≡ Some (enter 0 0 ∷ enter 0 1 ∷ begin 0 1 ∷ finish 0 1 ∷ begin 0 0 ∷ finish 0 0 ∷ []) }
    ensures nested { told 30 (0 ∷ 3 ∷ 4 ∷ 3 ∷ 1 ∷ []) (unwound (kills_j ∷ []) (kill ∷ says ∷ []) (j (j_undoes (say (codes "inner"))) ∷ [])) (run ∷ []) ≡ Some (codes "0 m.t begin\n1000 m.j inner\n1000 m.t undo\n1000 m.k k\n1000 m.w ended\nend done 1000\n") }
{}
