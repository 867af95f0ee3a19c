//! What an exception begins.
ghost use Rattle.std.specs.Prelude.{◌≡◌, ℕ, true, false, Some, Ok};
ghost use Rattle.sim_model.specs.ModelTree.declared.items.ProcessKind.TheVariants as process;
ghost use Rattle.sim_model.specs.Residual.{Residual, has_goal};
ghost use Rattle.sim_model.specs.Unwinding.{catches};
ghost use Rattle.sim_model.specs.Configuration.{Config, Instance, instance_at};
ghost use Rattle.sim_model.specs.Calls.{thrown};
ghost use Rattle.sim_model.specs.Control.{is_top, is_below_top, throw_call};
ghost use Rattle.laws_runs.specs.Once.{IsOnTop};
ghost use Rattle.laws_runs.specs.Throws.{UnwindsInTry};

/// An exception that some try of an instance catches, where it is not being unwound, begins an unwinding at once: just the
/// guards inside the innermost try that names the exception are to be unwound, the call itself adds no mark, and the guards
/// outside stay as they are. So it is for one that the instance on top of the stack throws itself (`own`), and for one that
/// is thrown at a started thread that lives and is not on the stack, which is on top of it then (`other`; IEEE 1666-2011,
/// 5.6.6). That their unwind blocks run exactly once, the innermost first, is the law of all unwindings.
pub fn a_throw_unwinds_the_guards_inside_its_try()
    ensures own { (c : Config) (q : ℕ) (i : Instance) (e : ℕ) → instance_at c q ≡ Some i → IsOnTop q c → catches i.residual e ≡ true → has_goal i.residual ≡ false
        → (d : Config) × (thrown c q i.residual e ≡ Ok d) × UnwindsInTry c d q i e }
    ensures other { (c : Config) (q : ℕ) (i : Instance) (e : ℕ) → instance_at c q ≡ Some i → i.ended ≡ false → is_below_top c q ≡ false → is_top c q ≡ false
        → i.kind ≡ process.Thread → i.started ≡ true → catches i.residual e ≡ true → has_goal i.residual ≡ false
        → (d : Config) × (throw_call c q e ≡ Ok d) × UnwindsInTry c d q i e }
{}
