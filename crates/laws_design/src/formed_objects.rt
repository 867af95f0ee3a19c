//! Laws of the objects of a model that breaks no rule.
ghost use Rattle.std.specs.Prelude.{◌≡◌, ◌==◌, ℕ, filter, slice_get, Some, None};
ghost use Rattle.std.specs.List.{flat_map};
ghost use Rattle.elaborate_objects.specs.ModelTree.Tree.{Item, Model};
ghost use Rattle.elaborate_objects.specs.FlatDesign.declared.objects.Object.{Object};
ghost use Rattle.elaborate_objects.specs.FlatDesign.declared.objects.ObjectForm.TheVariants as form;
ghost use Rattle.elaborate_objects.specs.DesignRules.Forms.{around, items_at, object_form};
ghost use Rattle.elaborate_objects.specs.DesignRules.Listing.{object_if, list_of};
ghost use Rattle.elaborate_objects.specs.DesignRules.ObjectFaults.{cycle_fault};
ghost use Rattle.elaborate_objects.specs.DesignRules.Denoting.{below_top};

/// Where no module has itself among its instances, the objects in an instance are those of the items of its module, in text
/// order.
pub fn objects_are_those_of_items()
    ensures { (m : Model) → cycle_fault m ≡ None → (j place : ℕ) (o : Object) → slice_get (list_of m) j ≡ Some o → o.form ≡ form.Instance place
        → filter (λ (x : Object). x.parent == j) (below_top (list_of m)) ≡ flat_map (λ (i : Item). object_if j i (object_form (around m.modules place) i)) (items_at m.modules place) }
{}
