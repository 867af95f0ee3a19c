//! Laws of the hops of objects that bindings join without a fault.
ghost use Rattle.std.specs.Prelude.{◌≡◌, ℕ, false, Option, Some, None, Contains};
ghost use Rattle.elaborate_objects.specs.FlatDesign.declared.objects.Object.{Object};
ghost use Rattle.elaborate_objects.specs.FlatDesign.declared.objects.ObjectForm.TheVariants as form;
ghost use Rattle.elaborate_objects.specs.FlatDesign.declared.objects.Objects.{Objects};
ghost use Rattle.elaborate_objects.specs.DesignRules.declared.bindings.Joined.{Joined};
ghost use Rattle.elaborate_objects.specs.DesignRules.Objects.{object_at};
ghost use Rattle.elaborate_objects.specs.DesignRules.BindingFaults.{first_fault};
ghost use Rattle.elaborate_objects.specs.DesignRules.Formed.{AreFormed};
ghost use Rattle.elaborate_objects.specs.DesignRules.Bound.{bound};

/// Where objects are formed and their bindings have no fault, each initiator without `pass` begins a hop.
pub fn initiators_begin_hops()
    ensures { (os : Objects) → AreFormed os → first_fault os ≡ None → (i : ℕ) (o : Object) (backward : Option ℕ) → object_at os i ≡ Some o → o.form ≡ form.Initiator false backward
        → (h : Joined) × Contains (bound os).hops h × (h.initiator ≡ i) }
{}

/// Each target without `pass` ends a hop.
pub fn targets_end_hops()
    ensures { (os : Objects) → AreFormed os → first_fault os ≡ None → (i : ℕ) (o : Object) (blocking forward : Option ℕ) → object_at os i ≡ Some o → o.form ≡ form.Target false blocking forward
        → (h : Joined) × Contains (bound os).hops h × (h.target ≡ i) }
{}
