//! What is left of a body stays typed.
ghost use Rattle.std.specs.Prelude.{◌≡◌, ℕ, Option};
ghost use Rattle.sim_model.specs.FlatDesign.declared.design.Design.{Design};
ghost use Rattle.sim_model.specs.Residual.{Residual, skip, goal, settle, put};
ghost use Rattle.sim_model.specs.Unwinding.{unw, raise};
ghost use Rattle.sim_model.specs.declared.plain.Goal.{Goal};
ghost use Rattle.laws_runs.specs.Standing.{code_of};
ghost use Rattle.laws_runs.specs.Frames.{LeftFits};

/// Where what is left of a body is typed, so it is once finished parts have fallen away, once what comes next is past, and
/// after a kill, a reset or an exception (IEEE 1666-2011, 5.6.6).
pub fn moves_keep_residuals_typed()
    ensures settles { (d : Design) (outer : Option ℕ) (home : ℕ) (r : Residual) → LeftFits d outer home r → LeftFits d outer home (settle (code_of d) r) }
    ensures passes { (d : Design) (outer : Option ℕ) (home : ℕ) (r : Residual) → LeftFits d outer home r → LeftFits d outer home (put r skip) }
    ensures unwinds { (d : Design) (outer : Option ℕ) (home : ℕ) (r : Residual) (k : Goal) → LeftFits d outer home r → LeftFits d outer home (goal (unw r) k) }
    ensures raises { (d : Design) (e : ℕ) (k : Goal) (outer : Option ℕ) (home : ℕ) (r : Residual) → LeftFits d outer home r → LeftFits d outer home (raise (code_of d) r e k) }
{}
