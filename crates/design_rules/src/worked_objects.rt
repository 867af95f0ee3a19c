//! The definitions, worked out for models written by hand: what they give there is computed by the checker.
#![tactic(auto, unfolding(crate::specs::Listing::inside_within, crate::specs::Listing::binds_within, crate::specs::ObjectFaults::has_within))]

ghost use Rattle.std.specs.Prelude.{◌≡◌, ◌∷◌, ◌-◌, ◌^◌, [], codes, None, false};
ghost use Rattle.code_rules.specs.ModelTree.declared.faults.Kind.TheVariants as kind;
ghost use Rattle.code_rules.specs.ModelTree.declared.items.SignalKind.TheVariants as signal_kind;
ghost use Rattle.code_rules.specs.ModelTree.declared.items.ProcessKind.TheVariants as process_kind;
ghost use Rattle.code_rules.specs.ModelTree.declared.types.BoundRule.TheVariants as rule;
ghost use Rattle.code_rules.specs.ModelTree.declared.types.ConstantForm.TheVariants as constant;
ghost use Rattle.code_rules.specs.LogicValues.declared.kinds.Value.TheVariants as value;
ghost use Rattle.code_rules.specs.FlatDesign.declared.value_types.ValueType.TheVariants as type;
ghost use Rattle.code_rules.specs.FlatDesign.declared.objects.LeadsTo.TheVariants as leads;
ghost use Rattle.code_rules.specs.FlatDesign.declared.objects.ObjectForm.TheVariants as form;
ghost use Rattle.design_rules.specs.Values.{constant_value};
ghost use Rattle.design_rules.specs.Listing.{list_of, binds_of};
ghost use Rattle.design_rules.specs.ObjectFaults.{cycle_fault, instances_fault};
ghost use Rattle.design_rules.specs.WrittenObjects.{object, binding, fault, with_child, with_memories, in_a_row};

/// An instance is followed by its own objects; a function is none, but its body has a number. A binding is between the
/// objects that its names stand for.
pub fn children_stand_at_their_place()
    ensures objects { list_of with_child ≡
        object 90 (codes "m") 0 (form.Instance 0) ∷ object 2 (codes "t") 0 (form.Process process_kind.Thread 0 false)
        ∷ object 3 (codes "c") 0 (form.Instance 1) ∷ object 8 (codes "p") 2 (form.Port (leads.In type.Bool) 1 rule.One)
        ∷ object 9 (codes "t") 2 (form.Process process_kind.Thread 2 false)
        ∷ object 4 (codes "s") 0 (form.Signal signal_kind.Signal false type.Bool (value.Bool false)) ∷ [] }
    ensures bindings { binds_of with_child ≡ binding 5 0 3 5 ∷ [] }
    ensures accepted { instances_fault with_child ≡ None }
{}

/// A first value is cut to its width and extended by its sign.
pub fn first_values_fit_their_types()
    ensures cut { constant_value (constant.Number 300) (type.Uint 8) ≡ value.Uint 8 44 }
    ensures extended { constant_value (constant.Number 255) (type.Int 8) ≡ value.Int 8 (2 ^ 64 - 1) }
    ensures negative { constant_value (constant.Negative 1) (type.Uint 4) ≡ value.Uint 4 15 }
{}

/// The first module in text order on a cycle is the fault, at the line of the instance that leads back to it.
pub fn modules_are_not_among_their_instances()
    ensures none { cycle_fault (in_a_row (codes "D")) ≡ None }
    ensures itself { cycle_fault (in_a_row (codes "B")) ≡ fault kind.ModuleCycle 7 (codes "B") }
    ensures above { cycle_fault (in_a_row (codes "A")) ≡ fault kind.ModuleCycle 5 (codes "A") }
    ensures top { cycle_fault (in_a_row (codes "M")) ≡ fault kind.ModuleCycle 2 (codes "M") }
{}

/// The memories of all instances together have at most 67,108,864 bytes.
pub fn memories_are_counted_together()
    ensures few { instances_fault (with_memories 33554432) ≡ None }
    ensures many { instances_fault (with_memories 33554433) ≡ fault kind.TooManyObjects 90 (codes "m") }
{}
