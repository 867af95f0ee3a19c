//! Laws of the numbers of a design.
ghost use Rattle.std.specs.Prelude.{◌≡◌, ◌≤◌, ◌<◌, ◌^◌, None, All, length};
ghost use Rattle.elaborate_objects.specs.ModelTree.Tree.{Model};
ghost use Rattle.elaborate_objects.specs.FlatDesign.declared.design.SemaphorePart.{SemaphorePart};
ghost use Rattle.elaborate_objects.specs.FlatDesign.declared.design.Design.{Design};
ghost use Rattle.elaborate_objects.specs.ModelRules.Passes.{first_fault};
ghost use Rattle.elaborate_objects.specs.DesignRules.ObjectFaults.{limit_fault};
ghost use Rattle.elaborate_objects.specs.DesignRules.Designs.{IsDesignOf};

/// A model that has not too many objects has at most 65,536 processes and at most 196,608 events: an object is one process at
/// most, and has three events at most.
pub fn designs_are_few()
    ensures processes { (m : Model) (d : Design) → limit_fault m ≡ None → IsDesignOf m d → length d.processes ≤ 65536 }
    ensures events { (m : Model) (d : Design) → limit_fault m ≡ None → IsDesignOf m d → d.events ≤ 196608 }
{}

/// The semaphores of a model that breaks no rule start below 2^31 (IEEE 1666-2011, 6.29).
pub fn semaphores_start_low()
    ensures { (m : Model) (d : Design) → first_fault m ≡ None → IsDesignOf m d → All (λ (p : SemaphorePart). p.start < 2 ^ 31) d.semaphores }
{}
