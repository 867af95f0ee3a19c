//! What the laws on typed runs ask for, tried on runs that do not have it.
ghost use Rattle.std.specs.Prelude.{◌≡◌, [], ◌∷◌, Some};
ghost use Rattle.sim_model.specs.FlatDesign.Sound.{SoundDesign};
ghost use Rattle.sim_model.specs.Configuration.{Config, start};
ghost use Rattle.sim_model.specs.Runs.{after};
ghost use Rattle.laws_runs.specs.TypedConfig.{TypesHaveValues, IsTypedConfig};
ghost use Rattle.laws_runs.specs.Unfit.{tried, runs, sets_a_time};

/// Neither premise of the laws on typed runs can be left out. A sound design may declare a local variable of 65 digits, which
/// begins with a value of 64: three steps from the start its run is not typed (`types`). And where a script sets a bool
/// signal to a time, the run is not typed after one step (`script`).
pub fn both_premises_are_needed()
    ensures types { SoundDesign (tried 65) × ((last : Config) × (after 3 (0 ∷ []) (start (tried 65) runs) ≡ Some last) × (IsTypedConfig last → ⊥)) }
    ensures script { SoundDesign (tried 1) × TypesHaveValues (tried 1) × ((last : Config) × (after 1 [] (start (tried 1) sets_a_time) ≡ Some last) × (IsTypedConfig last → ⊥)) }
{}
