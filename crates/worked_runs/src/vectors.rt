//! Runs of operators on digits and vectors, and of conversions.
ghost use Rattle.std.specs.Prelude.{◌≡◌, [], ◌∷◌, codes, Some, true};
ghost use Rattle.sim_model.specs.LogicValues.declared.kinds.Digit.TheVariants as digit;
ghost use Rattle.sim_model.specs.FlatDesign.declared.value_types.ValueType.TheVariants as type;
ghost use Rattle.sim_model.specs.ModelTree.declared.expressions.BinaryOp.TheVariants as op;
ghost use Rattle.sim_model.specs.ModelTree.declared.expressions.UnaryOp.TheVariants as unary_op;
ghost use Rattle.worked_runs.specs.Body.{unary};
ghost use Rattle.worked_runs.specs.Rows.{signed, integer};
ghost use Rattle.worked_runs.specs.Run.{told, run};
ghost use Rattle.worked_runs.specs.Printed.{printed, unsigned, truth, logic, two, mixed, zeros, ones, vectors, logics, digit_of, digits_of, joined, to};

/// Operators go digit by digit by the logic tables, and digits are compared as they are.
pub fn vectors_go_digit_by_digit()
    ensures operators { told 14 (0 ∷ []) (printed (mixed ∷ vectors op.BitAnd mixed ones ∷ vectors op.BitAnd mixed zeros ∷ vectors op.BitOr mixed zeros ∷ vectors op.BitOr mixed ones ∷ vectors op.BitXor mixed ones ∷ unary unary_op.Complement (type.Vector 4) mixed ∷ [])) (run ∷ []) ≡ Some (codes "0 m.s v 01ZX\n0 m.s v 01XX\n0 m.s v 0000\n0 m.s v 01XX\n0 m.s v 1111\n0 m.s v 10XX\n0 m.s v 10XX\nend done 0\n") }
    ensures compared { told 9 (0 ∷ []) (printed (vectors op.Equal mixed mixed ∷ vectors op.Equal mixed (vectors op.BitOr mixed zeros) ∷ [])) (run ∷ []) ≡ Some (codes "0 m.s v 1\n0 m.s v 0\nend done 0\n") }
    ensures one { told 11 (0 ∷ []) (printed (logics op.BitAnd (logic digit.One) (logic digit.Z) ∷ logics op.BitAnd (logic digit.Zero) (logic digit.X) ∷ logics op.BitOr (logic digit.One) (logic digit.X) ∷ logics op.BitOr (logic digit.Zero) (logic digit.Z) ∷ [])) (run ∷ []) ≡ Some (codes "0 m.s v X\n0 m.s v 0\n0 m.s v 1\n0 m.s v X\nend done 0\n") }
{}

/// Places count from the right, from 0, and the first of two joined vectors stands above the other; a place past the width is a fault.
pub fn vectors_have_places()
    ensures places { told 11 (0 ∷ []) (printed (digit_of (type.Vector 4) mixed (integer 3) ∷ digit_of (type.Vector 4) mixed (integer 0) ∷ digits_of (type.Vector 4) mixed 2 1 ∷ joined (two digit.Zero digit.One) (two digit.Z digit.X) ∷ [])) (run ∷ []) ≡ Some (codes "0 m.s v 0\n0 m.s v X\n0 m.s v 1Z\n0 m.s v 01ZX\nend done 0\n") }
    ensures past { told 3 (0 ∷ []) (printed (digit_of (type.Vector 4) mixed (integer 4) ∷ [])) (run ∷ []) ≡ Some (codes "end fault 0 IndexRange 4 4\n") }
{}

/// In a number each digit other than 1 counts as 0; a vector is cut, or filled with 0.
pub fn values_are_converted()
    ensures numbers { told 11 (0 ∷ []) (printed (to unsigned (type.Vector 4) mixed ∷ to signed (type.Vector 4) ones ∷ to unsigned type.Logic (logic digit.Z) ∷ to signed type.Bool (truth true) ∷ [])) (run ∷ []) ≡ Some (codes "0 m.s v 4\n0 m.s v 15\n0 m.s v 0\n0 m.s v 1\nend done 0\n") }
    ensures vectors { told 11 (0 ∷ []) (printed (to (type.Vector 4) signed (integer 5) ∷ to (type.Vector 2) (type.Vector 4) mixed ∷ to (type.Vector 6) (type.Vector 4) mixed ∷ to (type.Vector 1) type.Logic (logic digit.One) ∷ [])) (run ∷ []) ≡ Some (codes "0 m.s v 0101\n0 m.s v ZX\n0 m.s v 0001ZX\n0 m.s v 1\nend done 0\n") }
    ensures truths { told 12 (0 ∷ []) (printed (to type.Bool signed (integer 0) ∷ to type.Bool signed (integer 7) ∷ to type.Bool type.Logic (logic digit.X) ∷ to type.Bool type.Logic (logic digit.One) ∷ to type.Logic type.Bool (truth true) ∷ [])) (run ∷ []) ≡ Some (codes "0 m.s v 0\n0 m.s v 1\n0 m.s v 0\n0 m.s v 1\n0 m.s v 1\nend done 0\n") }
{}
