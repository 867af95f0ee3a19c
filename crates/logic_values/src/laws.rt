ghost use Rattle.std.specs.Prelude.{◌≡◌, ◌↔◌, true};
ghost use Rattle.logic_values.specs.SameValue.{is_same};
ghost use Rattle.logic_values.specs.declared.kinds.Value.{Value};

/// Two values are the same exactly where they are equal.
pub fn same_values_are_equal()
    ensures { (a b : Value) → (is_same a b ≡ true) ↔ (a ≡ b) }
{}
