//! Laws of the ports, the processes and the hops of a design.
ghost use Rattle.std.specs.Prelude.{◌≡◌, None};
ghost use Rattle.elaborate_objects.specs.ModelTree.Tree.{Model};
ghost use Rattle.elaborate_objects.specs.FlatDesign.declared.design.Design.{Design};
ghost use Rattle.elaborate_objects.specs.ModelRules.Passes.{first_fault};
ghost use Rattle.elaborate_objects.specs.DesignRules.Listing.{objects_of};
ghost use Rattle.elaborate_objects.specs.DesignRules.ObjectFaults.{cycle_fault, limit_fault};
ghost use Rattle.elaborate_objects.specs.DesignRules.BindingFaults as binding;
ghost use Rattle.elaborate_objects.specs.DesignRules.Designs.{IsDesignOf};
ghost use Rattle.laws_code.specs.CodeRules.RoomFields.{HopsFit};
ghost use Rattle.laws_code.specs.CodeRules.DesignFields.{ProcessesFit};
ghost use Rattle.laws_design.specs.Fields.{PortsFit};

/// Where a model breaks no rule on single modules, and no binding of its objects has a fault, each process of its design runs
/// the body of its item in an instance of that item's module: a body of its kind, without parameters and answer. The events
/// that it is sensitive to are there.
pub fn processes_fit()
    ensures { (m : Model) (d : Design) → first_fault m ≡ None → cycle_fault m ≡ None → limit_fault m ≡ None → binding.first_fault (objects_of m) ≡ None → IsDesignOf m d → ProcessesFit d }
{}

/// The ends of each hop are objects then, and its handlers are functions of the modules of these, with the parameters and the
/// answers of handlers.
pub fn hops_fit()
    ensures { (m : Model) (d : Design) → first_fault m ≡ None → cycle_fault m ≡ None → limit_fault m ≡ None → IsDesignOf m d → HopsFit d }
{}

/// Where no binding has a fault, the channels of a port are there, and are what the port leads to.
pub fn ports_fit()
    ensures { (m : Model) (d : Design) → binding.first_fault (objects_of m) ≡ None → IsDesignOf m d → PortsFit d }
{}
