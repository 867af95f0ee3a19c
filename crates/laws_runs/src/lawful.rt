//! The histories of hops, in every run of a sound design.
ghost use Rattle.std.specs.Prelude.{◌≡◌, ◌⊎◌, ℕ, Bool, List, Contains, Some};
ghost use Rattle.sim_model.specs.TransportPhases.declared.transaction.Open.TheVariants.{Nothing};
ghost use Rattle.sim_model.specs.TransportPhases.History.{is_open};
ghost use Rattle.sim_model.specs.TransportPhases.Lawful.{Lawful};
ghost use Rattle.sim_model.specs.FlatDesign.Sound.{SoundDesign};
ghost use Rattle.sim_model.specs.FlatDesign.declared.design.Design.{Design};
ghost use Rattle.sim_model.specs.Unwinding.{left_by_unw};
ghost use Rattle.sim_model.specs.Configuration.{Config, Instance, instance_at, start};
ghost use Rattle.sim_model.specs.Transport.{history};
ghost use Rattle.sim_model.specs.Runs.{after};
ghost use Rattle.sim_model.specs.declared.plain.Command.{Command};
ghost use Rattle.sim_model.specs.declared.plain.Via.{Via};
ghost use Rattle.laws_runs.specs.OpenCalls.{IsInCall, call_of};

/// Whatever is chosen, and however control calls are nested, after any number of steps of a run of a sound design the history
/// of each hop is lawful: what was called, returned and left on it forms the words of the base protocol, transaction by
/// transaction (IEEE 1666-2011, 15.2).
pub fn histories_are_lawful()
    ensures { (design : Design) (script : List Command) → SoundDesign design
        → (steps : ℕ) (choices : List ℕ) (last : Config) → after steps choices (start design script) ≡ Some last
        → (hop : ℕ) → Lawful (history last hop) }
{}

/// In every run of a sound design a call is open on a hop where an instance is in it (`held`), and nowhere else (`owned`): a
/// call that a kill, a reset or an exception has left is open no more, in the same step (IEEE 1666-2011, 5.6.6 and 15.2).
pub fn open_calls_are_of_instances()
    ensures held { (design : Design) (script : List Command) → SoundDesign design
        → (steps : ℕ) (choices : List ℕ) (last : Config) → after steps choices (start design script) ≡ Some last
        → (p : ℕ) (i : Instance) (v : Via) → instance_at last p ≡ Some i → Contains (left_by_unw i.residual) v
        → is_open (history last v.hop) v.payload ≡ call_of v.blocking }
    ensures owned { (design : Design) (script : List Command) → SoundDesign design
        → (steps : ℕ) (choices : List ℕ) (last : Config) → after steps choices (start design script) ≡ Some last
        → (hop t : ℕ) → (is_open (history last hop) t ≡ Nothing) ⊎ IsInCall last hop t }
{}
