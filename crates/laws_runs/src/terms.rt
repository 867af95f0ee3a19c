//! The values of typed expressions, and the operands that operators meet.
ghost use Rattle.std.specs.Prelude.{ℕ, Bool, List, IfOk};
ghost use Rattle.sim_model.specs.FlatDesign.Code.{Term};
ghost use Rattle.sim_model.specs.FlatDesign.Typed.{HasType};
ghost use Rattle.sim_model.specs.FlatDesign.Sound.{SoundDesign};
ghost use Rattle.sim_model.specs.FlatDesign.declared.value_types.ValueType.{ValueType};
ghost use Rattle.sim_model.specs.FlatDesign.declared.code.Local.{Local};
ghost use Rattle.sim_model.specs.Reading.{Here, val};
ghost use Rattle.laws_runs.specs.Contents.{IsOf, PlaceFits, context_of};
ghost use Rattle.laws_runs.specs.Operands.{OperandsFit};

/// In a sound design, where variables, channels, memories, payloads and local variables hold values of their types, a
/// typed expression has a value of its type or is a run fault; and wherever an operator, an index, a conversion or a
/// concatenation in it is evaluated, it meets operands of the types that its table asks for. So no value that is stated
/// for another type is ever used there.
pub fn typed_terms_have_their_types()
    ensures value { (h : Here) → SoundDesign h.config.design → (locals : List Local) → PlaceFits locals h
        → (e : Term) (t : ValueType) → HasType (context_of locals h) e t → IfOk (val h e) (IsOf t) }
    ensures operands { (h : Here) → SoundDesign h.config.design → (locals : List Local) → PlaceFits locals h
        → (e : Term) (t : ValueType) → HasType (context_of locals h) e t → OperandsFit h e }
{}
