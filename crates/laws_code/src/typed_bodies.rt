//! Laws of the code of models without a first fault.
ghost use Rattle.std.specs.Prelude.{◌≡◌, true, None};
ghost use Rattle.code_rules.specs.ModelTree.Tree.{Model};
ghost use Rattle.code_rules.specs.ModelTree.Limits.{is_sound};
ghost use Rattle.code_rules.specs.FlatDesign.declared.design.Design.{Design};
ghost use Rattle.code_rules.specs.ModelRules.Passes.{first_fault};
ghost use Rattle.code_rules.specs.Bodies.{IsCodeOf};
ghost use Rattle.laws_code.specs.Standing.{DesignStands};
ghost use Rattle.laws_code.specs.TypedCode.{IsTypedCode};

/// Where a model within the limits has no first fault and each name stands in each instance for what it is declared as, code
/// that reads back as the model's is typed: each statement of each body, at any depth, in each instance of its module.
pub fn code_is_typed()
    ensures { (m : Model) (d : Design) → first_fault m ≡ None → is_sound m ≡ true → DesignStands m d → IsCodeOf m d.code → IsTypedCode d }
{}
