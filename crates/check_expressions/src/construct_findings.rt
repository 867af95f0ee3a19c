ghost use Rattle.std.specs.Prelude.{◌≡◌, ◌&&◌, ◌||◌, not, is_some, is_none, option_map, option_and_then, false, None};
ghost use Rattle.std.specs.Option.{option_or};
ghost use Rattle.model_tree.specs.Lines.{first_line as line_of};
ghost use Rattle.model_tree.specs.Views.{expression_of};
ghost use Rattle.check_names.specs.ModelRules.Meanings as meanings;
ghost use Rattle.check_names.specs.ModelRules.Operators as operators;
ghost use Rattle.check_names.specs.ModelRules.Types as types;
ghost use Rattle.check_names.specs.ModelRules.declared.meanings.ExpressionType.TheVariants as t;
ghost use Rattle.check_names.specs.ModelRules.declared.meanings.Seen.TheVariants as seen_as;
ghost use Rattle.check_names.specs.ModelRules.Values as values;
ghost use Rattle.check_expressions.specs.Findings.{faults_of};
ghost use Rattle.check_expressions.specs.ConstructFindings as spec;

use super::findings::{Finding, first_finding, told_if};
use crate::{
    becomes_vector, concat_type, conversion_type, digit_count, digit_type, element_seen, given,
    is_array, is_integer, is_time_literal, is_within, operands, slice_type, type_seen, unary_type,
    value_if,
};
use check_names::is_width;
use check_names::model_rules_api::{ExpressionType, Seen};
use check_names::sim_time_api::Unit;
use model_tree::{BinaryOp, Conversion, Expression, Kind, UnaryOp, first_line};

/// What an expression stands for, and the first broken rule in it.
#[derive(Clone, Copy)]
pub struct Judged<'a> {
    /// What it stands for.
    pub seen: Seen,
    /// The first broken rule in it.
    pub finding: Option<Finding<'a>>,
}

/// A value of this type, which breaks no rule.
pub(crate) fn sound_value<'a>(e: ExpressionType) -> Judged<'a>
    ensures seen { result.seen ≡ seen_as.Value e }
    ensures finding { faults_of result.finding ≡ None }
{
    Judged {
        seen: Seen::Value(e),
        finding: None,
    }
}

/// The first rule that an expression breaks itself: on types, on widths, and on times.
fn own_finding<'a>(
    around: &'a [u8],
    expression: &Expression,
    differs: bool,
    wide: bool,
    late: bool,
) -> Option<Finding<'a>>
    ensures { faults_of result ≡ spec.own_fault around.now (line_of (expression_of expression.now)) differs wide late }
{
    if differs {
        return told_if(true, Kind::TypeDiffers, first_line(expression), around);
    }
    if wide {
        return told_if(true, Kind::WidthRange, first_line(expression), around);
    }
    if late {
        return told_if(true, Kind::LiteralRange, first_line(expression), around);
    }
    None
}

/// A time literal.
pub(crate) fn time_literal<'a>(
    around: &'a [u8],
    expression: &Expression,
    n: u64,
    unit: Unit,
) -> Judged<'a>
    ensures seen { result.seen ≡ types.value_if (operators.option_if (types.is_time_literal n unit) t.Time) }
    ensures finding { faults_of result.finding ≡ spec.own_fault around.now (line_of (expression_of expression.now)) false false (not (types.is_time_literal n unit)) }
{
    if is_time_literal(n, unit) {
        sound_value(ExpressionType::Time)
    } else {
        Judged {
            seen: Seen::Nothing,
            finding: own_finding(around, expression, false, false, true),
        }
    }
}

/// An expression in parentheses.
pub(crate) fn paren<'a>(inner: Judged<'a>) -> Judged<'a>
    ensures seen { result.seen ≡ types.value_if (types.type_seen inner.entry.seen) }
    ensures finding { faults_of result.finding ≡ faults_of inner.entry.finding }
{
    Judged {
        seen: value_if(type_seen(inner.seen)),
        finding: inner.finding,
    }
}

/// What an operation gives, where the types of its operands are known, and the finding where they do not fit.
fn given_by<'a>(
    around: &'a [u8],
    expression: &Expression,
    given: Option<ExpressionType>,
    inside: Option<Finding<'a>>,
) -> Judged<'a>
    ensures seen { result.seen ≡ types.value_if given }
    ensures finding { faults_of result.finding ≡ option_or (spec.own_fault around.now (line_of (expression_of expression.now)) (is_none given) false false) (faults_of inside.entry) }
{
    match given {
        Some(e) => Judged {
            seen: Seen::Value(e),
            finding: inside,
        },
        None => Judged {
            seen: Seen::Nothing,
            finding: own_finding(around, expression, true, false, false),
        },
    }
}

/// An expression of which nothing is known, because a part of it is broken.
fn unknown<'a>(inside: Option<Finding<'a>>) -> Judged<'a>
    ensures seen { result.seen ≡ seen_as.Nothing }
    ensures finding { faults_of result.finding ≡ faults_of inside.entry }
{
    Judged {
        seen: Seen::Nothing,
        finding: inside,
    }
}

/// A conversion by a word.
pub(crate) fn convert<'a>(
    around: &'a [u8],
    expression: &Expression,
    conversion: Conversion,
    inner: Judged<'a>,
) -> Judged<'a>
    ensures seen { result.seen ≡ types.value_if (option_and_then (operators.conversion_type conversion) (types.type_seen inner.entry.seen)) }
    ensures finding { faults_of result.finding ≡ option_or (spec.own_fault around.now (line_of (expression_of expression.now)) (values.refuses (operators.conversion_type conversion) (types.type_seen inner.entry.seen)) false false) (faults_of inner.entry.finding) }
{
    match type_seen(inner.seen) {
        None => unknown(inner.finding),
        Some(e) => given_by(
            around,
            expression,
            conversion_type(conversion, e),
            inner.finding,
        ),
    }
}

/// A prefix operator before its operand.
pub(crate) fn unary<'a>(
    around: &'a [u8],
    expression: &Expression,
    op: UnaryOp,
    inner: Judged<'a>,
) -> Judged<'a>
    ensures seen { result.seen ≡ types.value_if (option_and_then (operators.unary_type op) (types.type_seen inner.entry.seen)) }
    ensures finding { faults_of result.finding ≡ option_or (spec.own_fault around.now (line_of (expression_of expression.now)) (values.refuses (operators.unary_type op) (types.type_seen inner.entry.seen)) false false) (faults_of inner.entry.finding) }
{
    match type_seen(inner.seen) {
        None => unknown(inner.finding),
        Some(e) => given_by(around, expression, unary_type(op, e), inner.finding),
    }
}

/// A binary operator between its operands.
pub(crate) fn binary<'a>(
    around: &'a [u8],
    expression: &Expression,
    op: BinaryOp,
    left: Judged<'a>,
    right: Judged<'a>,
) -> Judged<'a>
    ensures seen { result.seen ≡ types.value_if (option_map (operators.given op) (operators.both (operators.operands op) (types.type_seen left.entry.seen) (types.type_seen right.entry.seen))) }
    ensures finding { faults_of result.finding ≡ option_or (spec.own_fault around.now (line_of (expression_of expression.now)) (values.refuse (operators.operands op) (types.type_seen left.entry.seen) (types.type_seen right.entry.seen)) false false) (option_or (faults_of left.entry.finding) (faults_of right.entry.finding)) }
{
    let inside = first_finding(left.finding, right.finding);
    match (type_seen(left.seen), type_seen(right.seen)) {
        (Some(l), Some(r)) => match operands(op, l, r) {
            None => given_by(around, expression, None, inside),
            Some(taken) => given_by(around, expression, Some(given(op, taken)), inside),
        },
        (None, _) | (Some(_), None) => unknown(inside),
    }
}

/// `concat` of two vectors.
pub(crate) fn concat<'a>(
    around: &'a [u8],
    expression: &Expression,
    upper: Judged<'a>,
    lower: Judged<'a>,
) -> Judged<'a>
    ensures seen { result.seen ≡ types.value_if (operators.both operators.concat_type (types.type_seen upper.entry.seen) (types.type_seen lower.entry.seen)) }
    ensures finding { faults_of result.finding ≡ option_or (spec.own_fault around.now (line_of (expression_of expression.now)) (values.refuse operators.concat_type (types.type_seen upper.entry.seen) (types.type_seen lower.entry.seen)) false false) (option_or (faults_of upper.entry.finding) (faults_of lower.entry.finding)) }
{
    let inside = first_finding(upper.finding, lower.finding);
    match (type_seen(upper.seen), type_seen(lower.seen)) {
        (Some(u), Some(l)) => given_by(around, expression, concat_type(u, l), inside),
        (None, _) | (Some(_), None) => unknown(inside),
    }
}

/// The vector of so many digits that a value becomes; none where it becomes none.
fn vector_type(width: u64, e: ExpressionType) -> Option<ExpressionType>
    ensures { result ≡ operators.option_if (meanings.is_width width && operators.becomes_vector width e) (t.Vector width) }
{
    if is_width(width) && becomes_vector(width, e) {
        Some(ExpressionType::Vector(width as u8))
    } else {
        None
    }
}

/// A conversion to a vector.
pub(crate) fn to_vector<'a>(
    around: &'a [u8],
    expression: &Expression,
    width: u64,
    inner: Judged<'a>,
) -> Judged<'a>
    ensures seen { result.seen ≡ types.value_if (option_and_then (λ x. operators.option_if (meanings.is_width width && operators.becomes_vector width x) (t.Vector width)) (types.type_seen inner.entry.seen)) }
    ensures finding { faults_of result.finding ≡ option_or (spec.own_fault around.now (line_of (expression_of expression.now)) (values.fails (operators.becomes_vector width) (types.type_seen inner.entry.seen)) (not (meanings.is_width width)) false) (faults_of inner.entry.finding) }
{
    match type_seen(inner.seen) {
        None => {
            let own = own_finding(around, expression, false, !is_width(width), false);
            unknown(first_finding(own, inner.finding))
        }
        Some(e) => {
            let differs = !becomes_vector(width, e);
            let own = own_finding(around, expression, differs, !is_width(width), false);
            Judged {
                seen: value_if(vector_type(width, e)),
                finding: first_finding(own, inner.finding),
            }
        }
    }
}

/// Whether the bounds of a slice are out of range, where there are digits.
fn is_beyond(high: u64, low: u64, count: Option<u8>) -> bool
    ensures { result ≡ values.is_beyond high low count }
{
    match count {
        None => false,
        Some(count) => !is_within(high, low, count),
    }
}

/// Some digits.
pub(crate) fn slice<'a>(
    around: &'a [u8],
    expression: &Expression,
    high: u64,
    low: u64,
    inner: Judged<'a>,
) -> Judged<'a>
    ensures seen { result.seen ≡ types.value_if (option_and_then (operators.slice_type high low) (types.type_seen inner.entry.seen)) }
    ensures finding { faults_of result.finding ≡ option_or (spec.own_fault around.now (line_of (expression_of expression.now)) (values.refuses operators.digit_count (types.type_seen inner.entry.seen)) (values.is_beyond high low (option_and_then operators.digit_count (types.type_seen inner.entry.seen))) false) (faults_of inner.entry.finding) }
{
    match type_seen(inner.seen) {
        None => unknown(inner.finding),
        Some(e) => {
            let count = digit_count(e);
            let beyond = is_beyond(high, low, count);
            let own = own_finding(around, expression, count.is_none(), beyond, false);
            Judged {
                seen: value_if(slice_type(high, low, e)),
                finding: first_finding(own, inner.finding),
            }
        }
    }
}

/// Whether a value has no digits, or its index is wrong.
fn digits_differ(e: Option<ExpressionType>, wrong: bool) -> bool
    ensures { result ≡ (is_some e && (values.refuses operators.digit_type e || wrong)) }
{
    match e {
        None => false,
        Some(e) => digit_type(e).is_none() || wrong,
    }
}

/// Whether an index is no integer, or what it is taken of has neither elements nor digits.
fn element_differs(of: Seen, index: Option<ExpressionType>) -> bool
    ensures { result ≡ values.element_differs of index }
{
    match index {
        None => false,
        Some(index) => {
            let wrong = !is_integer(index);
            is_array(of) && wrong || digits_differ(type_seen(of), wrong)
        }
    }
}

/// A digit or an element.
pub(crate) fn element<'a>(
    around: &'a [u8],
    expression: &Expression,
    of: Judged<'a>,
    index: Judged<'a>,
) -> Judged<'a>
    ensures seen { result.seen ≡ types.element_seen of.entry.seen (types.type_seen index.entry.seen) }
    ensures finding { faults_of result.finding ≡ option_or (spec.own_fault around.now (line_of (expression_of expression.now)) (values.element_differs of.entry.seen (types.type_seen index.entry.seen)) false false) (option_or (faults_of of.entry.finding) (faults_of index.entry.finding)) }
{
    let at = type_seen(index.seen);
    let differs = element_differs(of.seen, at);
    let own = own_finding(around, expression, differs, false, false);
    Judged {
        seen: element_seen(of.seen, at),
        finding: first_finding(own, first_finding(of.finding, index.finding)),
    }
}
