//! Laws of the parts of a design that is a model's.
ghost use Rattle.std.specs.Prelude.{◌≡◌, ◌+◌, ◌<◌, ℕ, slice_get, Some};
ghost use Rattle.elaborate_objects.specs.ModelTree.Tree.{Model};
ghost use Rattle.elaborate_objects.specs.FlatDesign.Denotes.{denoted_at};
ghost use Rattle.elaborate_objects.specs.FlatDesign.Sound.{DenotedFits};
ghost use Rattle.elaborate_objects.specs.FlatDesign.declared.design.SignalPart.{SignalPart};
ghost use Rattle.elaborate_objects.specs.FlatDesign.declared.design.ResolvedPart.{ResolvedPart};
ghost use Rattle.elaborate_objects.specs.FlatDesign.declared.design.FifoPart.{FifoPart};
ghost use Rattle.elaborate_objects.specs.FlatDesign.declared.design.Design.{Design};
ghost use Rattle.elaborate_objects.specs.DesignRules.Designs.{IsDesignOf};

/// What a name stands for in an instance is there: the part of its number, with the events that the design counts for it.
pub fn names_stand_for_what_is_there()
    ensures { (m : Model) (d : Design) → IsDesignOf m d → (home n : ℕ) → DenotedFits d (denoted_at d home n) }
{}

/// The three events of a signal and of a resolved signal and the two of a fifo are events of the design.
pub fn channels_have_their_events()
    ensures signals { (m : Model) (d : Design) → IsDesignOf m d → (n : ℕ) (p : SignalPart) → slice_get d.signals n ≡ Some p → p.events + 2 < d.events }
    ensures resolved { (m : Model) (d : Design) → IsDesignOf m d → (n : ℕ) (p : ResolvedPart) → slice_get d.resolved n ≡ Some p → p.events + 2 < d.events }
    ensures fifos { (m : Model) (d : Design) → IsDesignOf m d → (n : ℕ) (p : FifoPart) → slice_get d.fifos n ≡ Some p → p.events + 1 < d.events }
{}
