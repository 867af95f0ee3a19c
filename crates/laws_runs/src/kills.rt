//! What a kill and a reset begin.
ghost use Rattle.std.specs.Prelude.{◌≡◌, ℕ, false, Some, Ok};
ghost use Rattle.sim_model.specs.ModelTree.declared.statements.Control.TheVariants as control;
ghost use Rattle.sim_model.specs.Residual.{has_goal};
ghost use Rattle.sim_model.specs.Configuration.{Config, Instance, instance_at};
ghost use Rattle.sim_model.specs.Control.{is_below_top, control_call};
ghost use Rattle.sim_model.specs.declared.plain.Goal.TheVariants as goal_of;
ghost use Rattle.laws_runs.specs.Once.{UnwindsAll};

/// A kill and a reset of an instance that lives, is not below the top of the stack and is not being unwound begin its
/// unwinding at once: it is on top of the stack, its goal is the outermost, all its guards are to be unwound, and the call
/// itself adds no mark (IEEE 1666-2011, 5.6.6).
pub fn a_kill_unwinds_all_guards()
    ensures kill { (c : Config) (q : ℕ) (i : Instance) → instance_at c q ≡ Some i → i.ended ≡ false → is_below_top c q ≡ false → has_goal i.residual ≡ false
        → (d : Config) × (control_call c q control.Kill ≡ Ok d) × UnwindsAll c d q i goal_of.End }
    ensures reset { (c : Config) (q : ℕ) (i : Instance) → instance_at c q ≡ Some i → i.ended ≡ false → is_below_top c q ≡ false → has_goal i.residual ≡ false
        → (d : Config) × (control_call c q control.Reset ≡ Ok d) × UnwindsAll c d q i goal_of.Restart }
{}
