//! Laws of the bindings of models without a fault.
ghost use Rattle.std.specs.Prelude.{◌≡◌, All, None};
ghost use Rattle.elaborate_objects.specs.ModelTree.Tree.{Model};
ghost use Rattle.elaborate_objects.specs.ModelRules.Passes.{first_fault};
ghost use Rattle.elaborate_objects.specs.DesignRules.Listing.{objects_of};
ghost use Rattle.elaborate_objects.specs.DesignRules.ObjectFaults.{cycle_fault, limit_fault};
ghost use Rattle.elaborate_objects.specs.DesignRules.Formed.{HasForm, AreFormed};

/// Where a model has no first fault, and no module has itself among its instances, both ends of each binding are objects, of
/// forms and in places that fit each other.
pub fn bindings_have_forms()
    ensures { (m : Model) → first_fault m ≡ None → cycle_fault m ≡ None → All (HasForm (objects_of m)) (objects_of m).binds }
{}

/// Where a model has no first fault, no module has itself among its instances, and the limits are kept, its objects are formed
/// as bindings need it.
pub fn models_are_formed()
    ensures { (m : Model) → first_fault m ≡ None → cycle_fault m ≡ None → limit_fault m ≡ None → AreFormed (objects_of m) }
{}
