//! Values: types, widths, places and times.
#![tactic(auto, unfolding(worked_runs::specs::Run::told, worked_runs::specs::Run::told_under))]

ghost use Rattle.std.specs.Prelude.{◌≡◌, codes, None};
ghost use Rattle.model_lexer.specs.ModelTree.declared.faults.Kind.TheVariants as kind;
ghost use Rattle.code_rules.specs.ModelRules.Passes.{first_fault};
ghost use Rattle.worked_models.specs.FormTrees.{fault};
ghost use Rattle.worked_models.specs.RuleRows as rows;

/// Operands of an operator have one sign; numbers that are written out take that of the other operand.
pub fn operands_have_one_sign()
    ensures truth { first_fault rows.truth_and_number ≡ fault kind.TypeDiffers 5 (codes "t") }
    ensures free { first_fault rows.unsigned_and_free ≡ None }
    ensures signs { first_fault rows.unsigned_and_signed ≡ fault kind.TypeDiffers 5 (codes "t") }
    ensures negated { first_fault rows.negated_and_signed ≡ fault kind.TypeDiffers 5 (codes "t") }
    ensures shifted { first_fault rows.shifted_by_unsigned ≡ None }
    ensures unknown { first_fault rows.sum_of_unknown ≡ fault kind.UnknownName 6 (codes "zz") }
{}

/// The bounds of a slice, a place that is written and a time are in range.
pub fn places_and_slices_are_in_range()
    ensures last { first_fault (rows.slice_to 8) ≡ None }
    ensures past { first_fault (rows.slice_to 9) ≡ fault kind.WidthRange 5 (codes "t") }
    ensures turned { first_fault (rows.slice_to 1) ≡ fault kind.WidthRange 5 (codes "t") }
    ensures truth { first_fault rows.slice_of_truth ≡ fault kind.TypeDiffers 5 (codes "t") }
    ensures place { first_fault (rows.place_of 1) ≡ None }
    ensures past_the_port { first_fault (rows.place_of 2) ≡ fault kind.WidthRange 4 (codes "t") }
    ensures greatest_time { first_fault (rows.time_of 18446744073709551) ≡ None }
    ensures late { first_fault (rows.time_of 18446744073709552) ≡ fault kind.LiteralRange 5 (codes "t") }
{}

/// A type out of range is at fault before what it is the type of.
pub fn written_types_come_first()
    ensures wide { first_fault rows.wide_signal ≡ fault kind.WidthRange 2 (codes "a") }
    ensures other { first_fault rows.signal_of_another_type ≡ fault kind.TypeDiffers 2 (codes "a") }
{}

/// Values fit where they go.
pub fn types_fit()
    ensures handle { first_fault rows.handle_printed ≡ fault kind.TypeDiffers 4 (codes "t") }
    ensures nothing { first_fault rows.answer_of_nothing ≡ fault kind.TypeDiffers 5 (codes "t") }
    ensures argument { first_fault rows.called_with_truth ≡ fault kind.TypeDiffers 4 (codes "t") }
{}
