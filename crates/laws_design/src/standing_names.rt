//! Laws of what names stand for.
ghost use Rattle.std.specs.Prelude.{◌≡◌, None};
ghost use Rattle.elaborate_objects.specs.ModelTree.Tree.{Model};
ghost use Rattle.elaborate_objects.specs.FlatDesign.declared.design.Design.{Design};
ghost use Rattle.elaborate_objects.specs.ModelRules.Passes.{first_fault};
ghost use Rattle.elaborate_objects.specs.DesignRules.ObjectFaults.{cycle_fault};
ghost use Rattle.elaborate_objects.specs.DesignRules.Designs.{IsDesignOf};
ghost use Rattle.laws_code.specs.Standing.{DesignStands};
ghost use Rattle.laws_design.specs.Sockets.{SocketsHaveHops};

/// Where a model has no first fault, no module has itself among its instances, and each socket without `pass` is an end of a
/// hop, each name of a module stands in each instance of it for what it is declared as.
pub fn names_stand_for_what_they_are_declared_as()
    ensures { (m : Model) (d : Design) → first_fault m ≡ None → cycle_fault m ≡ None → SocketsHaveHops d.objects → IsDesignOf m d → DesignStands m d }
{}
