//! Who is runnable, active or waiting, in every run.
ghost use Rattle.std.specs.Prelude.{◌≡◌, ℕ, true, List, slice_get, Some};
ghost use Rattle.sim_model.specs.FlatDesign.declared.design.Design.{Design};
ghost use Rattle.sim_model.specs.Residual.{skip};
ghost use Rattle.sim_model.specs.Configuration.{Config, Instance, start};
ghost use Rattle.sim_model.specs.Steps.{taking};
ghost use Rattle.sim_model.specs.Runs.{after};
ghost use Rattle.sim_model.specs.Clean.{places, IsLive, IsFree, CleanProcesses};
ghost use Rattle.sim_model.specs.declared.plain.Command.{Command};

/// Whatever is chosen, and however control calls are nested, after any number of steps: what is runnable or active was
/// made and has not ended, stands there once, and has no wait, deadline or kept mark; a kept instance is suspended, a
/// suspended one is not runnable; the parent of an instance is a smaller serial; and of an instance that has ended nothing is
/// left (IEEE 1666-2011, 4.2.1 and 5.6.6).
/// No steps are among them, so the configuration before the first command is clean too.
pub fn runs_have_clean_processes()
    ensures { (design : Design) (script : List Command) (steps : ℕ) (choices : List ℕ) (last : Config) → after steps choices (start design script) ≡ Some last
        → CleanProcesses last.processes }
{}

/// An instance that has ended is neither runnable nor active, waits for no event and no time, is not kept, and nothing is
/// left of its body.
pub fn what_has_ended_is_nowhere()
    ensures { (design : Design) (script : List Command) (steps : ℕ) (choices : List ℕ) (last : Config) → after steps choices (start design script) ≡ Some last
        → (p : ℕ) (i : Instance) → slice_get last.processes.instances p ≡ Some i → i.ended ≡ true
        → (places last.processes p ≡ 0) × IsFree i × (i.residual ≡ skip) }
{}

/// What is taken was made and has not ended: an instance that has ended is never taken again.
pub fn only_live_instances_are_taken()
    ensures { (design : Design) (script : List Command) (steps : ℕ) (choices : List ℕ) (last : Config) → after steps choices (start design script) ≡ Some last
        → (p : ℕ) (next : Config) → taking last p ≡ Some next → IsLive last.processes p }
{}
