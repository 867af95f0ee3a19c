//! The code of expressions and statements.
#![tactic(auto, unfolding(worked_runs::specs::Run::told, worked_runs::specs::Run::told_under))]

ghost use Rattle.std.specs.Prelude.{◌≡◌, ◌^◌, ◌-◌, codes, [], ◌∷◌, Some, None, true, false};
ghost use Rattle.model_lexer.specs.LogicValues.declared.kinds.Value.TheVariants as value;
ghost use Rattle.model_lexer.specs.SimTime.declared.moments.Unit.TheVariants as unit;
ghost use Rattle.model_lexer.specs.ModelTree.Tree as tree;
ghost use Rattle.model_lexer.specs.ModelTree.declared.expressions.BinaryOp.TheVariants as op;
ghost use Rattle.model_lexer.specs.ModelTree.declared.expressions.UnaryOp.TheVariants as unary_op;
ghost use Rattle.model_lexer.specs.ModelTree.declared.expressions.Conversion.TheVariants as conversion;
ghost use Rattle.model_lexer.specs.ModelTree.declared.expressions.NamedConstant.TheVariants as constant;
ghost use Rattle.code_rules.specs.FlatDesign.Code as code;
ghost use Rattle.code_rules.specs.FlatDesign.declared.value_types.ValueType.TheVariants as type;
ghost use Rattle.code_rules.specs.FlatDesign.declared.names.NameUse.TheVariants as name_use;
ghost use Rattle.code_rules.specs.FlatDesign.declared.names.Member.TheVariants as member;
ghost use Rattle.code_rules.specs.FlatDesign.declared.names.PayloadField.TheVariants as field;
ghost use Rattle.code_rules.specs.FlatDesign.declared.names.PayloadBytes.TheVariants as bytes;
ghost use Rattle.code_rules.specs.Terms.{term_of};
ghost use Rattle.code_rules.specs.Deeds.{action_code, operation_code, store, destination_term};
ghost use Rattle.code_rules.specs.Numbered.{assign_code};
ghost use Rattle.worked_models.specs.Arenas.{ReadsBack};
ghost use Rattle.worked_models.specs.Coded.{scope, home, named, number, channel};

/// Integers keep their sign: a shift and a sum have that of their operands, and what is written out takes it.
pub fn signs_are_kept()
    ensures signed_shift { term_of scope (tree.binary op.ShiftRight (named (codes "i")) (number 1)) ≡ Some (code.binary op.ShiftRight (type.Int 64) (code.name (name_use.Declared 2)) (code.literal (value.Int 64 1))) }
    ensures unsigned_shift { term_of scope (tree.binary op.ShiftRight (named (codes "u")) (number 1)) ≡ Some (code.binary op.ShiftRight (type.Uint 64) (code.name (name_use.Declared 1)) (code.literal (value.Int 64 1))) }
    ensures unsigned_sum { term_of scope (tree.binary op.Add (number 1) (named (codes "u"))) ≡ Some (code.binary op.Add (type.Uint 64) (code.literal (value.Uint 64 1)) (code.name (name_use.Declared 1))) }
    ensures free_quotient { term_of scope (tree.binary op.Add (named (codes "u")) (tree.paren 1 (tree.binary op.Divide (number 7) (number 2)))) ≡ Some (code.binary op.Add (type.Uint 64) (code.name (name_use.Declared 1)) (code.convert (type.Uint 64) (type.Int 64) (code.binary op.Divide (type.Int 64) (code.literal (value.Int 64 7)) (code.literal (value.Int 64 2))))) }
    ensures constant { term_of scope (tree.constant 1 constant.GenericError) ≡ Some (code.literal (value.Int 64 (2 ^ 64 - 1))) }
    ensures unlike { term_of scope (tree.binary op.Add (named (codes "u")) (named (codes "i"))) ≡ None }
{}

/// Names, places, members, elements and conversions.
pub fn parts_are_told_apart()
    ensures local { term_of scope (named (codes "n")) ≡ Some (code.name (name_use.Local 0)) }
    ensures place { term_of scope (tree.placed 1 (codes "p") 1) ≡ Some (code.placed 5 (code.literal (value.Int 64 1))) }
    ensures past { term_of scope (tree.placed 1 (codes "p") 2) ≡ None }
    ensures member_at_place { term_of scope (tree.member (tree.placed 1 (codes "p") 1) (codes "changed")) ≡ Some (code.placed_member 5 (code.literal (value.Int 64 1)) member.Changed) }
    ensures element { term_of scope (tree.element (named (codes "m")) (number 3)) ≡ Some (code.element 4 (code.literal (value.Int 64 3))) }
    ensures byte { term_of scope (tree.element (tree.member (named (codes "q")) (codes "data")) (number 3)) ≡ Some (code.payload_byte (name_use.Local 1) bytes.Data (code.literal (value.Int 64 3))) }
    ensures digit { term_of scope (tree.element (tree.member (named (codes "q")) (codes "address")) (number 3)) ≡ Some (code.digit (type.Uint 64) (code.member (name_use.Local 1) (member.Field field.Address)) (code.literal (value.Int 64 3))) }
    ensures slice { term_of scope (tree.slice (named (codes "v")) 8 2) ≡ Some (code.digits (type.Vector 9) (code.name (name_use.Declared 3)) 8 2) }
    ensures convert { term_of scope (tree.convert 1 conversion.Bool (named (codes "u"))) ≡ Some (code.convert type.Bool (type.Uint 64) (code.name (name_use.Declared 1))) }
    ensures time { term_of scope (tree.time 1 3 unit.Ns) ≡ Some (code.literal (value.Moment 3000)) }
{}

/// Statements know the types that they cut to, functions by their bodies, and exceptions by their spelling.
pub fn statements_are_coded()
    ensures write { action_code home scope (tree.write (channel (codes "i")) (number 300)) ≡ Some (code.write (record { channel_name = 2; place = None }) (type.Int 8) (code.literal (value.Int 64 300)) ∷ []) }
    ensures sync { action_code home scope (tree.qk_sync (codes "k")) ≡ Some (code.wait (code.for_ (code.member (name_use.Declared 6) member.Local)) ∷ code.qk_reset 6 ∷ []) }
    ensures throw { action_code home scope (tree.throw (codes "Bad")) ≡ Some (code.throw 1 ∷ []) }
    ensures call { operation_code home scope (store scope (codes "n")) (tree.call (codes "g") (named (codes "n") ∷ tree.truth 1 true ∷ [])) ≡ Some (code.call (Some (record { name = name_use.Local 0; value_type = type.Uint 8 })) 5 (code.inout (name_use.Local 0) ∷ code.by_value (code.literal (value.Bool true)) ∷ [])) }
    ensures assign { assign_code scope (record { name = codes "n"; member = None; index = None }) (number 300) ≡ Some (code.assign (code.to_name (record { name = name_use.Local 0; value_type = type.Uint 8 })) (code.literal (value.Int 64 300)) ∷ []) }
    ensures field { assign_code scope (record { name = codes "q"; member = Some (codes "status"); index = None }) (tree.constant 1 constant.OkResponse) ≡ Some (code.assign (code.to_field (name_use.Local 1) field.Status) (code.literal (value.Int 64 1)) ∷ []) }
{}

/// Code reads back as the thread of a clock and the body of a thread, and not with another time.
pub fn a_clock_reads_back()
    ensures reads { ReadsBack 4000 }
    ensures other { ReadsBack 5000 → ⊥ }
{}
