//! Whom a control call for an instance and its descendants is for.
ghost use Rattle.std.specs.Prelude.{◌≡◌, ◌<◌, ◌↔◌, ℕ, Bool, true, List, Some, AllPairs};
ghost use Rattle.sim_model.specs.FlatDesign.declared.design.Design.{Design};
ghost use Rattle.sim_model.specs.Configuration.{Config, start};
ghost use Rattle.sim_model.specs.Runs.{after};
ghost use Rattle.sim_model.specs.Waits.{holds};
ghost use Rattle.sim_model.specs.Control.{targets};
ghost use Rattle.sim_model.specs.declared.plain.Command.{Command};
ghost use Rattle.laws_runs.specs.Descendants.{ComesOf, IsFor, StandsBefore};

/// In every run a control call of p for q and its descendants is for q and all that comes of it, at any depth, over parents that
/// live or have ended: for just those of them that live, and for none where q has ended (`whom`). Of any two of them the one with
/// the greater serial is first, but that p, where it is among them, is the last (`order`); and what comes of an instance has a
/// greater serial, so that q is behind all that comes of it but p (`greater`; IEEE 1666-2011, 5.6.6, SC_INCLUDE_DESCENDANTS).
pub fn calls_reach_what_comes_of_their_targets()
    ensures whom { (design : Design) (script : List Command) (n : ℕ) (choices : List ℕ) (c : Config) → after n choices (start design script) ≡ Some c
        → (p q m : ℕ) → (holds (targets c q p) m ≡ true) ↔ IsFor c q m }
    ensures order { (design : Design) (script : List Command) (n : ℕ) (choices : List ℕ) (c : Config) → after n choices (start design script) ≡ Some c
        → (p q : ℕ) → AllPairs (StandsBefore p) (targets c q p) }
    ensures greater { (design : Design) (script : List Command) (n : ℕ) (choices : List ℕ) (c : Config) → after n choices (start design script) ≡ Some c
        → (q m : ℕ) → ComesOf c.processes.parents q m → q < m }
{}
