//! Which designs number the events of their channels.
ghost use Rattle.std.specs.Prelude.{◌<◌, ◌-◌, ◌^◌};
ghost use Rattle.flat_design.specs.Sound.{SoundDesign};
ghost use Rattle.flat_design.specs.declared.design.Design.{Design};
ghost use Rattle.exec_events.specs.Numbers.{NumbersEvents};

/// A sound design does, if its events are few.
pub fn sound_designs_number_events()
    ensures { (d : Design) → SoundDesign d → d.events < 2 ^ 32 - 1 → NumbersEvents d }
{}
