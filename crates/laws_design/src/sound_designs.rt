//! What accepted models give.
ghost use Rattle.elaborate_objects.specs.ModelTree.Tree.{Model};
ghost use Rattle.elaborate_objects.specs.FlatDesign.Sound.{SoundDesign};
ghost use Rattle.elaborate_objects.specs.FlatDesign.declared.design.Design.{Design};
ghost use Rattle.elaborate_objects.specs.DesignRules.Designs.{IsDesignOf};
ghost use Rattle.laws_design.specs.Accepted.{IsAccepted, IsLaidOut};

/// The design of an accepted model, whose code is laid out as it is made, is sound.
pub fn accepted_designs_are_sound()
    ensures { (m : Model) (d : Design) → IsAccepted m → IsDesignOf m d → IsLaidOut d → SoundDesign d }
{}
