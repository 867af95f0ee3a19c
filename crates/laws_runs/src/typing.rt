//! Every configuration of every run is typed.
ghost use Rattle.std.specs.Prelude.{◌≡◌, ℕ, Bool, List, Some};
ghost use Rattle.sim_model.specs.FlatDesign.Typed.{EachOf};
ghost use Rattle.sim_model.specs.FlatDesign.Sound.{SoundDesign};
ghost use Rattle.sim_model.specs.FlatDesign.declared.design.Design.{Design};
ghost use Rattle.sim_model.specs.Configuration.{Config, Instance, instance_at, start};
ghost use Rattle.sim_model.specs.Runs.{after};
ghost use Rattle.sim_model.specs.declared.plain.Command.{Command};
ghost use Rattle.laws_runs.specs.TypedConfig.{CommandFits, TypesHaveValues, IsTypedConfig};
ghost use Rattle.laws_runs.specs.Terms.{MeetsItsTypes, NextIsTyped};

/// The first configuration of a sound design is typed, where the script sets only values of their signals' types.
pub fn start_is_typed()
    ensures { (design : Design) (script : List Command) → SoundDesign design → EachOf (CommandFits design) script
        → IsTypedConfig (start design script) }
{}

/// In every run of a sound design whose bodies declare only types that have values, under a script that sets only values of
/// their signals' types, whatever is chosen, after any number of steps: each variable, each signal with what is written to
/// it, each fifo entry, each first argument of an instance, and in each open call each parameter, each local variable and
/// the answer that is kept has the type that its declaration says; each memory has as many bytes as it declares, and it and
/// the payloads hold bytes; and each statement that is left is one of the body whose call it stands in.
pub fn runs_are_typed()
    ensures { (design : Design) (script : List Command) → SoundDesign design → TypesHaveValues design → EachOf (CommandFits design) script
        → (steps : ℕ) (choices : List ℕ) (last : Config) → after steps choices (start design script) ≡ Some last → IsTypedConfig last }
{}

/// In every such run the statement of the next step of each instance is typed where it is carried out, among local variables
/// of their types (`next`); so each of its expressions has the type that its place asks for, or is a run fault
/// (`typed_terms_have_their_types`). And wherever an operator, an index, a conversion or a concatenation in one of them is
/// evaluated, it meets operands of the types that its table asks for (`operands`).
pub fn operators_meet_their_types()
    ensures next { (design : Design) (script : List Command) → SoundDesign design → TypesHaveValues design → EachOf (CommandFits design) script
        → (steps : ℕ) (choices : List ℕ) (last : Config) → after steps choices (start design script) ≡ Some last
        → (p : ℕ) (i : Instance) → instance_at last p ≡ Some i → NextIsTyped last p i }
    ensures operands { (design : Design) (script : List Command) → SoundDesign design → TypesHaveValues design → EachOf (CommandFits design) script
        → (steps : ℕ) (choices : List ℕ) (last : Config) → after steps choices (start design script) ≡ Some last
        → (p : ℕ) (i : Instance) → instance_at last p ≡ Some i → MeetsItsTypes last p i }
{}
