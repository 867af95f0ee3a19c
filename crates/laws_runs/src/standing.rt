//! What is left of a body stands in the bodies of the design.
ghost use Rattle.std.specs.Prelude.{◌≡◌, ℕ, true, false, Option};
ghost use Rattle.sim_model.specs.LogicValues.declared.kinds.Value.{Value};
ghost use Rattle.sim_model.specs.FlatDesign.declared.design.Design.{Design};
ghost use Rattle.sim_model.specs.Residual.{Residual, skip, goal, settle, put, in_innermost, next_of, statement, has_goal};
ghost use Rattle.sim_model.specs.Unwinding.{unw, raise, returned};
ghost use Rattle.sim_model.specs.Storing.{with_local};
ghost use Rattle.sim_model.specs.Clean.{EachBelowGoal, IsOfUnwindBlock};
ghost use Rattle.sim_model.specs.declared.plain.Goal.{Goal};
ghost use Rattle.laws_runs.specs.Standing.{code_of, OfBody, OfUnwindBlock, IsOrdinary, IsStanding, place_of};

/// Where what is left of a body stands in the bodies of the design, and what is below its goal in unwind blocks, so it does
/// once finished parts have fallen away, after a return, after a local variable is set, and, where it had no goal, after a
/// kill, a reset or an exception (IEEE 1666-2011, 5.6.6).
pub fn unwindings_stand_in_unwind_blocks()
    ensures settles { (d : Design) (home : ℕ) (r : Residual) → IsStanding d home r → IsStanding d home (settle (code_of d) r) }
    ensures returns { (v : Option Value) (d : Design) (home : ℕ) (r : Residual) → IsStanding d home r → IsStanding d home (returned v r) }
    ensures sets { (n : ℕ) (v : Value) (d : Design) (home : ℕ) (r : Residual) → IsStanding d home r → IsStanding d home (in_innermost (with_local n v) r) }
    ensures unwinds { (d : Design) (home : ℕ) (r : Residual) (k : Goal) → IsStanding d home r → has_goal r ≡ false → IsStanding d home (goal (unw r) k) }
    ensures raises { (d : Design) (e : ℕ) (k : Goal) (home : ℕ) (r : Residual) → IsStanding d home r → has_goal r ≡ false → IsStanding d home (raise (code_of d) r e k) }
{}

/// The statement in place stands in a body of the module of the instance in which it runs, and below a goal in an unwind
/// block, or is reached from there; what keeps to that may be put in its place, and nothing may always be.
pub fn the_statement_in_place_stands_in_a_body()
    ensures body { (d : Design) (home : ℕ) (r : Residual) (s : ℕ) → IsStanding d home r → next_of r ≡ statement s → OfBody d (place_of d home r) s }
    ensures unwind { (d : Design) (home : ℕ) (r : Residual) (s : ℕ) → IsStanding d home r → next_of r ≡ statement s → has_goal r ≡ true
        → OfUnwindBlock d (place_of d home r) s }
    ensures goes_on { (d : Design) (home : ℕ) (r n : Residual) (s : ℕ) → IsStanding d home r → next_of r ≡ statement s
        → IsOrdinary (OfBody d) d (place_of d home r) n → (has_goal r ≡ true → IsOrdinary (OfUnwindBlock d) d (place_of d home r) n)
        → IsStanding d home (put r n) }
    ensures passes { (d : Design) (home : ℕ) (r : Residual) → IsStanding d home r → IsStanding d home (put r skip) }
{}

/// Below a goal are only statements of unwind blocks, or reached from them.
pub fn below_a_goal_are_unwind_blocks()
    ensures { (d : Design) (home : ℕ) (r : Residual) → IsStanding d home r → EachBelowGoal (IsOfUnwindBlock (code_of d)) (code_of d) r }
{}
