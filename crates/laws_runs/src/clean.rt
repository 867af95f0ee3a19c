//! Every configuration of a run of a sound design is clean.
ghost use Rattle.std.specs.Prelude.{◌≡◌, ℕ, Bool, List, Some};
ghost use Rattle.sim_model.specs.FlatDesign.Sound.{SoundDesign};
ghost use Rattle.sim_model.specs.FlatDesign.declared.design.Design.{Design};
ghost use Rattle.sim_model.specs.Configuration.{Config, start};
ghost use Rattle.sim_model.specs.Runs.{after};
ghost use Rattle.sim_model.specs.Clean.{Clean};
ghost use Rattle.sim_model.specs.declared.plain.Command.{Command};

/// Whatever is chosen, and however control calls are nested, after any number of steps of a run of a sound design the
/// configuration is clean, whole: nothing of an instance that has ended is left anywhere; goals stand only on the stack, and
/// below them unwind blocks alone, one at a time; the guards that an instance has entered, and neither left nor finished, are
/// those of what is left of its body, from outside in; and each guard has one Enter, then at most one of Leave and Begin, and
/// at most one Finish, behind its Begin (IEEE 1666-2011, 4.2.1 and 5.6.6).
pub fn runs_are_clean()
    ensures { (design : Design) (script : List Command) → SoundDesign design → (steps : ℕ) (choices : List ℕ) (last : Config)
        → after steps choices (start design script) ≡ Some last → Clean last }
{}
