//! Laws of the designs of models that break no rule.
ghost use Rattle.std.specs.Prelude.{◌≡◌, None};
ghost use Rattle.elaborate_objects.specs.ModelTree.Tree.{Model};
ghost use Rattle.elaborate_objects.specs.FlatDesign.declared.design.Design.{Design};
ghost use Rattle.elaborate_objects.specs.ModelRules.Passes.{first_fault};
ghost use Rattle.elaborate_objects.specs.DesignRules.Listing.{objects_of};
ghost use Rattle.elaborate_objects.specs.DesignRules.ObjectFaults.{cycle_fault, limit_fault};
ghost use Rattle.elaborate_objects.specs.DesignRules.BindingFaults as binding;
ghost use Rattle.elaborate_objects.specs.DesignRules.Designs.{IsDesignOf};
ghost use Rattle.laws_code.specs.Standing.{DesignStands};
ghost use Rattle.laws_design.specs.Sockets.{SocketsHaveHops};
ghost use Rattle.laws_code.specs.Bodies.{HandlersStand};

/// Where a model breaks no rule on single modules, and no binding of its objects has a fault, each socket without `pass` is
/// an end of a hop.
pub fn sockets_are_ends_of_hops()
    ensures { (m : Model) (d : Design) → first_fault m ≡ None → cycle_fault m ≡ None → limit_fault m ≡ None → binding.first_fault (objects_of m) ≡ None → IsDesignOf m d → SocketsHaveHops d.objects }
{}

/// Each name of a module then stands in each instance of it for what it is declared as.
pub fn names_stand()
    ensures { (m : Model) (d : Design) → first_fault m ≡ None → cycle_fault m ≡ None → limit_fault m ≡ None → binding.first_fault (objects_of m) ≡ None → IsDesignOf m d → DesignStands m d }
{}

/// Each handler of a hop is a function that a socket of its module names as one.
pub fn handlers_are_functions()
    ensures { (m : Model) (d : Design) → first_fault m ≡ None → IsDesignOf m d → HandlersStand m d }
{}
