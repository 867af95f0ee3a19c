//! Laws on the shapes of what is left of a body.
ghost use Rattle.std.specs.Prelude.{◌≡◌, ◌≤◌, ℕ, false, Option, List};
ghost use Rattle.sim_model.specs.LogicValues.declared.kinds.Value.{Value};
ghost use Rattle.sim_model.specs.FlatDesign.Code.{Arena};
ghost use Rattle.sim_model.specs.Residual.{Residual, Frame, goal, settle, put, in_innermost, block, entered, has_goal};
ghost use Rattle.sim_model.specs.Unwinding.{unw, raise, returned};
ghost use Rattle.sim_model.specs.Clean.{goals_in, OneAtATime};
ghost use Rattle.sim_model.specs.declared.plain.Goal.{Goal};
ghost use Rattle.sim_model.specs.declared.plain.Via.{Via};
ghost use Rattle.laws_runs.specs.Shapes.{IsNormal, IsShaped};

/// A body begins with nothing being unwound, and so does a block.
pub fn bodies_begin_normal()
    ensures body { (a : Arena) (f : ℕ) (args : List Value) (call : Option ℕ) (via : Option Via) → IsNormal (entered a f args call via) }
    ensures block { (a : Arena) (b : ℕ) → IsNormal (block a b) }
{}

/// Each move of what is left of a body keeps its shape: finished parts fall away, what comes next is replaced by something
/// in which nothing is being unwound, a return, a local variable that is set; and where it has no goal, a kill, a reset and
/// an exception (IEEE 1666-2011, 5.6.6).
pub fn moves_keep_shapes()
    ensures settles { (a : Arena) (r : Residual) → IsShaped r → IsShaped (settle a r) }
    ensures goes_on { (n : Residual) → IsNormal n → (r : Residual) → IsShaped r → IsShaped (put r n) }
    ensures returns { (v : Option Value) (r : Residual) → IsShaped r → IsShaped (returned v r) }
    ensures sets { (f : Frame → Frame) (r : Residual) → IsShaped r → IsShaped (in_innermost f r) }
    ensures unwinds { (r : Residual) (k : Goal) → IsShaped r → has_goal r ≡ false → IsShaped (goal (unw r) k) }
    ensures raises { (a : Arena) (e : ℕ) (k : Goal) (r : Residual) → IsShaped r → has_goal r ≡ false → IsShaped (raise a r e k) }
{}

/// In what has such a shape there is at most one goal; and at most one unwind block is begun, and all that are owed lie
/// outside it.
pub fn shapes_have_one_unwinding()
    ensures goal { (r : Residual) → IsShaped r → goals_in r ≤ 1 }
    ensures block { (r : Residual) → IsShaped r → OneAtATime r }
{}
