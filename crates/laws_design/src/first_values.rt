//! Laws of the designs of models without a first fault.
ghost use Rattle.std.specs.Prelude.{◌≡◌, ◌⊎◌, ◌<◌, ◌≤◌, ℕ, slice_get, Some, None};
ghost use Rattle.elaborate_objects.specs.ModelTree.Tree.{Model};
ghost use Rattle.elaborate_objects.specs.FlatDesign.ValueTypes.{type_of_value};
ghost use Rattle.elaborate_objects.specs.FlatDesign.declared.objects.Object.{Object};
ghost use Rattle.elaborate_objects.specs.FlatDesign.declared.design.SignalPart.{SignalPart};
ghost use Rattle.elaborate_objects.specs.FlatDesign.declared.design.FifoPart.{FifoPart};
ghost use Rattle.elaborate_objects.specs.FlatDesign.declared.design.VariablePart.{VariablePart};
ghost use Rattle.elaborate_objects.specs.FlatDesign.declared.design.Design.{Design};
ghost use Rattle.elaborate_objects.specs.ModelRules.Passes.{first_fault};
ghost use Rattle.elaborate_objects.specs.DesignRules.Designs.{IsDesignOf};

/// Each object of a design is in an instance before it, but for the top instance, which is in itself.
pub fn objects_are_inside()
    ensures { (m : Model) (d : Design) → IsDesignOf m d → (i : ℕ) (o : Object) → slice_get d.objects.list i ≡ Some o → (o.parent < i) ⊎ ((i ≡ 0) × (o.parent ≡ 0)) }
{}

/// The first value of a signal, and that of a variable of an instance, has its type.
pub fn first_values_have_their_types()
    ensures signals { (m : Model) (d : Design) → first_fault m ≡ None → IsDesignOf m d → (n : ℕ) (p : SignalPart) → slice_get d.signals n ≡ Some p → type_of_value p.initial ≡ p.value_type }
    ensures variables { (m : Model) (d : Design) → first_fault m ≡ None → IsDesignOf m d → (n : ℕ) (p : VariablePart) → slice_get d.variables n ≡ Some p → type_of_value p.initial ≡ p.value_type }
{}

/// A fifo holds a value at least.
pub fn fifos_have_room()
    ensures { (m : Model) (d : Design) → first_fault m ≡ None → IsDesignOf m d → (n : ℕ) (p : FifoPart) → slice_get d.fifos n ≡ Some p → 1 ≤ p.size }
{}
