//! How the processes of a design begin.
ghost use Rattle.std.specs.Prelude.{◌≡◌, ℕ, List, [], Some, slice_get};
ghost use Rattle.sim_model.specs.FlatDesign.Code.{arena_of};
ghost use Rattle.sim_model.specs.FlatDesign.declared.design.ProcessPart.{ProcessPart};
ghost use Rattle.sim_model.specs.FlatDesign.declared.design.Design.{Design};
ghost use Rattle.sim_model.specs.Residual.{settle, next_of, begun};
ghost use Rattle.sim_model.specs.Configuration.{start};
ghost use Rattle.sim_model.specs.declared.plain.Command.{Command};
ghost use Rattle.order_free.specs.Free.{Uses, Free};
ghost use Rattle.laws_order.specs.Alongside.{OwnNext, AreUnheard};

/// Before a run of a design that keeps the rule on the order of processes nobody waits for the end or the reset of a process.
pub fn ends_are_unheard_at_the_start()
    ensures { (d : Design) (script : List Command) → Free d → (p : ℕ) → AreUnheard p (start d script) }
{}

/// What comes first of the body of a process is its own.
pub fn bodies_begin_on_their_own()
    ensures { (d : Design) (p : ℕ) (part : ProcessPart) → slice_get d.processes p ≡ Some part
        → OwnNext (Uses d p) d part.home (next_of (settle (arena_of d.code) (begun (arena_of d.code) part.code []))) }
{}
