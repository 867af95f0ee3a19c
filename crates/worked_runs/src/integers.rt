//! Runs of operators on integers, truth values and times.
ghost use Rattle.std.specs.Prelude.{◌≡◌, [], ◌∷◌, codes, Some, true, false};
ghost use Rattle.sim_model.specs.FlatDesign.declared.value_types.ValueType.TheVariants as type;
ghost use Rattle.sim_model.specs.ModelTree.declared.expressions.BinaryOp.TheVariants as op;
ghost use Rattle.sim_model.specs.ModelTree.declared.expressions.UnaryOp.TheVariants as unary_op;
ghost use Rattle.sim_model.specs.FlatDesign.declared.terms.Expr.TheVariants as expr;
ghost use Rattle.worked_runs.specs.Body.{number, moment, unary, binary};
ghost use Rattle.worked_runs.specs.Rows.{signed, integer};
ghost use Rattle.worked_runs.specs.Run.{told, run};
ghost use Rattle.worked_runs.specs.Printed.{printed, unsigned, minus, least, greatest, int, uint, truth, bool, faulty, time, latest, digit_of, digits_of};

/// Sums, differences and products go modulo 2^64, quotients are rounded towards 0, and a remainder has the sign of what is divided.
pub fn integers_are_reckoned_with()
    ensures signed { told 15 (0 ∷ []) (printed (int op.Add (integer 7) (integer 9) ∷ int op.Subtract (integer 7) (integer 9) ∷ int op.Multiply (int op.Subtract (integer 7) (integer 9)) (integer 3) ∷ int op.Divide (minus 7) (integer 2) ∷ int op.Remainder (minus 7) (integer 2) ∷ int op.Remainder (integer 7) (minus 2) ∷ int op.Divide least (minus 1) ∷ int op.Remainder least (minus 1) ∷ [])) (run ∷ []) ≡ Some (codes "0 m.s v 16\n0 m.s v -2\n0 m.s v -6\n0 m.s v -3\n0 m.s v -1\n0 m.s v 1\n0 m.s v -9223372036854775808\n0 m.s v 0\nend done 0\n") }
    ensures unsigned { told 12 (0 ∷ []) (printed (uint op.Subtract (number 7) (number 9) ∷ uint op.Add greatest (number 2) ∷ uint op.Multiply greatest greatest ∷ uint op.Divide greatest (number 2) ∷ uint op.Remainder greatest (number 10) ∷ [])) (run ∷ []) ≡ Some (codes "0 m.s v 18446744073709551614\n0 m.s v 1\n0 m.s v 1\n0 m.s v 9223372036854775807\n0 m.s v 5\nend done 0\n") }
{}

/// A shift down keeps the sign of a signed integer; from 64 places on only what is filled in is left.
pub fn integers_are_shifted()
    ensures down { told 11 (0 ∷ []) (printed (int op.ShiftRight (minus 8) (integer 1) ∷ int op.ShiftRight (minus 8) (integer 70) ∷ uint op.ShiftRight greatest (number 63) ∷ uint op.ShiftRight greatest (number 70) ∷ [])) (run ∷ []) ≡ Some (codes "0 m.s v -4\n0 m.s v -1\n0 m.s v 1\n0 m.s v 0\nend done 0\n") }
    ensures up { told 9 (0 ∷ []) (printed (int op.ShiftLeft (integer 1) (integer 63) ∷ int op.ShiftLeft (integer 1) (integer 64) ∷ [])) (run ∷ []) ≡ Some (codes "0 m.s v -9223372036854775808\n0 m.s v 0\nend done 0\n") }
{}

/// Integers are compared with their sign.
pub fn integers_are_compared()
    ensures signed { told 12 (0 ∷ []) (printed (int op.Less (minus 1) (integer 1) ∷ int op.LessEqual (integer 1) (integer 1) ∷ int op.Greater (integer 1) (minus 1) ∷ int op.Equal (integer 3) (integer 3) ∷ int op.NotEqual (integer 3) (integer 3) ∷ [])) (run ∷ []) ≡ Some (codes "0 m.s v 1\n0 m.s v 1\n0 m.s v 1\n0 m.s v 1\n0 m.s v 0\nend done 0\n") }
    ensures unsigned { told 9 (0 ∷ []) (printed (uint op.Less greatest (number 1) ∷ uint op.GreaterEqual (number 1) greatest ∷ [])) (run ∷ []) ≡ Some (codes "0 m.s v 0\n0 m.s v 0\nend done 0\n") }
{}

/// Operators on bits; a place past the 64th is a fault, and a negative one is told without its sign.
pub fn integers_have_bits()
    ensures operators { told 13 (0 ∷ []) (printed (int op.BitAnd (integer 12) (integer 10) ∷ int op.BitOr (integer 12) (integer 10) ∷ int op.BitXor (integer 12) (integer 10) ∷ unary unary_op.Complement signed (integer 0) ∷ unary unary_op.Complement unsigned (number 0) ∷ unary unary_op.Negate unsigned (number 5) ∷ [])) (run ∷ []) ≡ Some (codes "0 m.s v 8\n0 m.s v 14\n0 m.s v 6\n0 m.s v -1\n0 m.s v 18446744073709551615\n0 m.s v 18446744073709551611\nend done 0\n") }
    ensures places { told 10 (0 ∷ []) (printed (digit_of signed (integer 5) (integer 1) ∷ digit_of signed (integer 5) (integer 2) ∷ digits_of signed (integer 54) 4 1 ∷ [])) (run ∷ []) ≡ Some (codes "0 m.s v 0\n0 m.s v 1\n0 m.s v 11\nend done 0\n") }
    ensures past { told 3 (0 ∷ []) (printed (digit_of signed (integer 5) (integer 64) ∷ [])) (run ∷ []) ≡ Some (codes "end fault 0 IndexRange 64 64\n") }
    ensures negative { told 3 (0 ∷ []) (printed (digit_of signed (integer 5) (minus 1) ∷ [])) (run ∷ []) ≡ Some (codes "end fault 0 IndexRange 18446744073709551615 64\n") }
{}

/// Operators on truth values; the right operand of `&&` and `||` is evaluated only where the left one does not decide.
pub fn truth_values_are_joined()
    ensures operators { told 13 (0 ∷ []) (printed (bool op.AndThen (truth true) (truth true) ∷ bool op.OrElse (truth false) (truth false) ∷ unary unary_op.Not type.Bool (truth true) ∷ bool op.BitXor (truth true) (truth false) ∷ bool op.BitAnd (truth true) (truth false) ∷ bool op.BitOr (truth true) (truth false) ∷ [])) (run ∷ []) ≡ Some (codes "0 m.s v 1\n0 m.s v 0\n0 m.s v 0\n0 m.s v 1\n0 m.s v 0\n0 m.s v 1\nend done 0\n") }
    ensures decided { told 9 (0 ∷ []) (printed (bool op.AndThen (truth false) faulty ∷ bool op.OrElse (truth true) faulty ∷ [])) (run ∷ []) ≡ Some (codes "0 m.s v 0\n0 m.s v 1\nend done 0\n") }
    ensures evaluated { told 3 (0 ∷ []) (printed (bool op.AndThen (truth true) faulty ∷ [])) (run ∷ []) ≡ Some (codes "end fault 0 DivideByZero\n") }
{}

/// Operators on times; a time below 0 or past the greatest is a fault.
pub fn times_are_reckoned_with()
    ensures operators { told 13 (0 ∷ []) (printed (time op.Add (moment 3000) (moment 4000) ∷ time op.Subtract (moment 4000) (moment 3000) ∷ binary op.Multiply type.Time (moment 3000) (number 2) ∷ time op.Less (moment 3000) (moment 4000) ∷ time op.Equal (moment 3000) (moment 3000) ∷ expr.Now ∷ [])) (run ∷ []) ≡ Some (codes "0 m.s v 7000\n0 m.s v 1000\n0 m.s v 6000\n0 m.s v 1\n0 m.s v 1\n0 m.s v 0\nend done 0\n") }
    ensures below { told 3 (0 ∷ []) (printed (time op.Subtract (moment 3000) (moment 4000) ∷ [])) (run ∷ []) ≡ Some (codes "end fault 0 TimeOverflow\n") }
    ensures past { told 3 (0 ∷ []) (printed (time op.Add latest (moment 1) ∷ [])) (run ∷ []) ≡ Some (codes "end fault 0 TimeOverflow\n") }
    ensures product { told 3 (0 ∷ []) (printed (binary op.Multiply type.Time latest (number 2) ∷ [])) (run ∷ []) ≡ Some (codes "end fault 0 TimeOverflow\n") }
{}
