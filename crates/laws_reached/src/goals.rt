//! Who is being unwound.
ghost use Rattle.std.specs.Prelude.{◌≡◌, ℕ, Some};
ghost use Rattle.flat_design.specs.Code as code;
ghost use Rattle.flat_design.specs.Code.{arena_of, statement_at};
ghost use Rattle.laws_runs.specs.SimModel.Configuration.{Config};
ghost use Rattle.kernel_phases.specs.KernelState.Kernel.{StandsFor};
ghost use Rattle.kernel_phases.specs.KernelState.declared.kernel.Kernel.{Kernel};
ghost use Rattle.exec_control.specs.ExecData.Entered.{Shows};
ghost use Rattle.exec_control.specs.Unwound.{HasNoGoal, ThrowsFreeNext};
ghost use Rattle.exec_control.specs.Thrown.{OthersHaveNoGoal};
ghost use Rattle.laws_reached.specs.Reached.{IsReached};

/// An instance in whose body a throw comes next is not being unwound: no unwind block throws, nor does what it calls (IEEE
/// 1666-2011, 5.6.6).
pub fn throws_are_free()
    ensures free { (k : Kernel) (c : Config) → StandsFor k c → IsReached c → (p s e : ℕ) → Shows k p s → statement_at (arena_of k.program.now.code) s ≡ Some (code.throw e) → HasNoGoal k p }
    ensures next { (k : Kernel) (c : Config) → StandsFor k c → IsReached c → (p : ℕ) → ThrowsFreeNext k p }
{}

/// Who is not active is not being unwound.
pub fn others_have_no_goal()
    ensures { (k : Kernel) (c : Config) → StandsFor k c → IsReached c → OthersHaveNoGoal k }
{}
