//! Residuals without the numbers of their guards, which is what a body keeps of them, and that each definition on
//! residuals is the same without these numbers. It has definitions and laws alone.
ghost use Rattle.std.specs.Prelude.{◌≡◌, ℕ, List, Option};
ghost use Rattle.sim_model.specs.LogicValues.declared.kinds.Value.{Value};
ghost use Rattle.sim_model.specs.FlatDesign.Code.{Arena};
ghost use Rattle.sim_model.specs.Residual as residual;
ghost use Rattle.sim_model.specs.Residual.{Residual, Frame};
ghost use Rattle.sim_model.specs.Unwinding as unwinding;
ghost use Rattle.sim_model.specs.declared.plain.Goal.{Goal};
ghost use Rattle.sim_model.specs.declared.plain.Via.{Via};
ghost use Rattle.kernel_bodies.specs.Strip.{strip};

/// What a residual becomes, it also becomes without the numbers of its guards.
pub fn numbers_change_nothing()
    ensures settled { (a : Arena) (r : Residual) → strip (residual.settle a r) ≡ residual.settle a (strip r) }
    ensures another { (r n : Residual) → strip (residual.put r n) ≡ residual.put (strip r) (strip n) }
    ensures in_a_call { (f : Frame → Frame) (r : Residual) → strip (residual.in_innermost f r) ≡ residual.in_innermost f (strip r) }
    ensures unwound { (r : Residual) → strip (unwinding.unw r) ≡ unwinding.unw (strip r) }
    ensures raised { (a : Arena) (r : Residual) (e : ℕ) (k : Goal) → strip (unwinding.raise a r e k) ≡ unwinding.raise a (strip r) e k }
    ensures returned { (v : Option Value) (r : Residual) → strip (unwinding.returned v r) ≡ unwinding.returned v (strip r) }
    ensures entered { (a : Arena) (f : ℕ) (args : List Value) (call : Option ℕ) (via : Option Via) → strip (residual.entered a f args call via) ≡ residual.entered a f args call via }
    ensures block { (a : Arena) (b : ℕ) → strip (residual.block a b) ≡ residual.block a b }
{}

/// What a residual shows, it also shows without the numbers of its guards.
pub fn numbers_show_nowhere()
    ensures next { (r : Residual) → residual.next_of (strip r) ≡ residual.next_of r }
    ensures innermost { (r : Residual) → residual.innermost (strip r) ≡ residual.innermost r }
    ensures within { (r : Residual) → residual.within (strip r) ≡ residual.within r }
    ensures open_frames { (r : Residual) → residual.open_frames (strip r) ≡ residual.open_frames r }
    ensures in_nb { (r : Residual) → residual.in_nb (strip r) ≡ residual.in_nb r }
    ensures has_goal { (r : Residual) → residual.has_goal (strip r) ≡ residual.has_goal r }
    ensures catches { (r : Residual) (e : ℕ) → unwinding.catches (strip r) e ≡ unwinding.catches r e }
    ensures left_by_unw { (r : Residual) → unwinding.left_by_unw (strip r) ≡ unwinding.left_by_unw r }
    ensures left_by_raise { (r : Residual) (e : ℕ) → unwinding.left_by_raise (strip r) e ≡ unwinding.left_by_raise r e }
{}
