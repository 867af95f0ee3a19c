//! Laws on the marks of guards.
ghost use Rattle.std.specs.Prelude.{◌≡◌, ◌++◌, ℕ, Option};
ghost use Rattle.sim_model.specs.LogicValues.declared.kinds.Value.{Value};
ghost use Rattle.sim_model.specs.FlatDesign.Code.{Arena};
ghost use Rattle.sim_model.specs.Residual.{Residual, Frame, skip, settle, put, in_innermost, fall, next_of, statement};
ghost use Rattle.sim_model.specs.Unwinding.{raise, returned, return_marks};
ghost use Rattle.sim_model.specs.Clean.{guards_of};
ghost use Rattle.sim_model.specs.declared.plain.Goal.{Goal};
ghost use Rattle.laws_runs.specs.Shapes.{IsShaped};
ghost use Rattle.laws_runs.specs.Marks.{still_open, IsDistinct};

/// The marks that settling adds close just the guards that go: those that fall away, and those whose unwind block is over;
/// a guard whose unwind block begins stays.
pub fn settling_marks_what_goes()
    ensures { (p : ℕ) (a : Arena) (r : Residual) → IsDistinct (guards_of r) → still_open p (fall p a r) (guards_of r) ≡ guards_of (settle a r) }
{}

/// The marks that a return adds close just the guards that it ends, where a statement is in place: no unwind block that is
/// owed is lost by it.
pub fn a_return_marks_what_goes()
    ensures { (p : ℕ) (v : Option Value) (r : Residual) (s : ℕ) → IsShaped r → next_of r ≡ statement s → IsDistinct (guards_of r)
        → still_open p (return_marks p r) (guards_of r) ≡ guards_of (returned v r) }
{}

/// No guard is lost by what goes on: what is put in place of a statement stands inside the guards that are there, its own
/// guards behind them; and a statement that is past, a local variable that is set and an exception keep all (IEEE
/// 1666-2011, 5.6.6).
pub fn moves_keep_guards()
    ensures goes_on { (r n : Residual) (s : ℕ) → next_of r ≡ statement s → guards_of (put r n) ≡ guards_of r ++ guards_of n }
    ensures passes { (r : Residual) → guards_of (put r skip) ≡ guards_of r }
    ensures sets { (f : Frame → Frame) (r : Residual) → guards_of (in_innermost f r) ≡ guards_of r }
    ensures raises { (a : Arena) (e : ℕ) (k : Goal) (r : Residual) → guards_of (raise a r e k) ≡ guards_of r }
{}
