//! Faults of the base protocol.
ghost use Rattle.std.specs.Prelude.{◌≡◌, ℕ, Bool, List, Some};
ghost use Rattle.sim_model.specs.TransportPhases.History.{Entry};
ghost use Rattle.sim_model.specs.FlatDesign.Sound.{SoundDesign};
ghost use Rattle.sim_model.specs.FlatDesign.declared.design.Design.{Design};
ghost use Rattle.sim_model.specs.Configuration.{Config, start};
ghost use Rattle.sim_model.specs.Steps.{faulted, step};
ghost use Rattle.sim_model.specs.Runs.{after};
ghost use Rattle.sim_model.specs.declared.plain.Command.{Command};
ghost use Rattle.sim_model.specs.FlatDesign.declared.faults.RunFault.TheVariants as fault;
ghost use Rattle.laws_runs.specs.Added.{WouldAdd, IsJudged, WouldAddFreed, IsJudgedFreed, NamesFreed, BreaksRule};

/// In every run of a sound design a step that comes to a transport call, or to the end of one, whose payload is not freed,
/// adds its entry to the hop exactly where the history with that entry is lawful; where it is not, the step is the fault of
/// the base protocol, with the first rule that is broken, the hop and the payload (`live`; IEEE 1666-2011, 15.2). At the end
/// of a call whose payload is freed it reads as incomplete, and the rule on the response is then the fault of a freed payload
/// (`freed`).
pub fn faults_of_the_protocol_are_exact()
    ensures live { (design : Design) (script : List Command) → SoundDesign design
        → (steps : ℕ) (choices : List ℕ) (c : Config) → after steps choices (start design script) ≡ Some c
        → (hop t : ℕ) (e : Entry) → WouldAdd c hop t e → IsJudged c hop t e (step c) }
    ensures freed { (design : Design) (script : List Command) → SoundDesign design
        → (steps : ℕ) (choices : List ℕ) (c : Config) → after steps choices (start design script) ≡ Some c
        → (hop t : ℕ) (e : Entry) → WouldAddFreed c hop t e → IsJudgedFreed c hop t e (step c) }
{}

/// A step that comes to a transport call which names a freed payload is the fault of a freed payload, whatever the history of
/// the hop: no rule of the base protocol is asked before (IEEE 1666-2011, 14.5 and 15.2). So it is of every configuration, be it
/// one that a run comes to or not.
pub fn a_freed_payload_comes_first()
    ensures { (c : Config) (t : ℕ) → NamesFreed c t → step c ≡ faulted (fault.PayloadFreed t) }
{}

/// A fault of the base protocol comes only at a step that would add an entry to the history of the hop which it names, of the
/// payload which it names: a call, or the end of one. Its number is that of the first rule that this entry breaks (IEEE
/// 1666-2011, 15.2). So it is of every configuration, be it one that a run comes to or not.
pub fn protocol_faults_come_with_entries()
    ensures { (c : Config) (number hop t : ℕ) → step c ≡ faulted (fault.Protocol number hop t) → BreaksRule c number hop t }
{}
