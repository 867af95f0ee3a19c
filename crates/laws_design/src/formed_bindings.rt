//! Laws of the objects of models without a fault.
ghost use Rattle.std.specs.Prelude.{◌≡◌, ◌<◌, ◌≤◌, ◌^◌, ℕ, All, None, Some, filter, length};
ghost use Rattle.std.specs.List.{flat_map};
ghost use Rattle.elaborate_objects.specs.ModelTree.Tree.{Model};
ghost use Rattle.elaborate_objects.specs.ModelRules.Passes.{first_fault};
ghost use Rattle.elaborate_objects.specs.FlatDesign.declared.objects.Object.{Object};
ghost use Rattle.elaborate_objects.specs.DesignRules.Forms.{around, items_at};
ghost use Rattle.elaborate_objects.specs.DesignRules.Listing.{inside, inside_within, list_of, objects_of};
ghost use Rattle.elaborate_objects.specs.DesignRules.ObjectFaults.{cycle_fault, limit_fault};
ghost use Rattle.elaborate_objects.specs.Parents.{AreInside};
ghost use Rattle.elaborate_objects.specs.DesignRules.Objects.{object_at};
ghost use Rattle.elaborate_objects.specs.DesignRules.Formed.{HasForm, HasSize, AreFormed};
ghost use Rattle.laws_design.specs.Declared.{is_in, declared_in};

/// Where no module has itself among its instances, no instance is left out: as many of them as there are modules stand in each
/// other at most, so that more levels add no object.
pub fn no_instance_is_left_out()
    ensures { (m : Model) → cycle_fault m ≡ None → (n : ℕ) → length m.modules ≤ n → (at place : ℕ) → inside_within n m.modules at place ≡ inside m.modules at place }
{}

/// Where no module has itself among its instances, the objects that are in an instance itself, and not in one inside it, are
/// those that the items of its module declare, in text order.
pub fn objects_are_those_declared()
    ensures { (m : Model) → cycle_fault m ≡ None → (at place : ℕ)
        → filter (is_in at) (inside m.modules at place) ≡ flat_map (declared_in (around m.modules place) at) (items_at m.modules place) }
{}

/// The objects of a model within the limits are numbered in 32 bits.
pub fn objects_are_few()
    ensures { (m : Model) → limit_fault m ≡ None → length (list_of m) < 2 ^ 32 }
{}

/// Where a model has no first fault, each port among its objects has a size from 1 to 64.
pub fn sizes_are_in_range()
    ensures { (m : Model) → first_fault m ≡ None → (i : ℕ) (o : Object) → object_at (objects_of m) i ≡ Some o → HasSize o.form }
{}

/// Where a model has no first fault and keeps the limits, its objects are formed as bindings need it, once each of them is in
/// an instance before it and the ends of each binding are what they may be.
pub fn bound_models_are_formed()
    ensures { (m : Model) → first_fault m ≡ None → limit_fault m ≡ None → AreInside (list_of m) → All (HasForm (objects_of m)) (objects_of m).binds
        → AreFormed (objects_of m) }
{}
