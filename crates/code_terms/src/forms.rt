ghost use Rattle.std.specs.Prelude.{◌≡◌, IfOk, option_map, option_and_then};
ghost use Rattle.flat_design.specs.Code.{term_of};
ghost use Rattle.code_rules.specs.Terms as terms;
ghost use Rattle.code_rules.specs.ModelRules.Operators as operators;
ghost use Rattle.code_terms.specs.Parts as spec;

use super::operands::{evaluated_as, right_taken, taken_as};
use super::parts::{Coded, TypedTerm, given_part, made_if, term_made, typed};
use check_expressions::check_names_api::is_width;
use check_expressions::{
    becomes_vector, concat_type, conversion_type, digit_count, given, is_within, operands,
    slice_type, type_seen, unary_type, value_if,
};
use code_rules::model_rules_api::ExpressionType;
use flat_design::{Expr, ValueType};
use model_tree::{BinaryOp, Conversion, UnaryOp};
use std::alloc::{AllocError, Global};

/// An expression in parentheses.
pub(crate) fn paren(inner: Coded) -> Coded
    ensures { spec.part_of result ≡ spec.paren_part (spec.part_of inner) }
{
    Coded {
        seen: value_if(type_seen(inner.seen)),
        made: made_if(term_made(inner.made)),
    }
}

/// The type that a conversion by a word is to.
fn converted_to(conversion: Conversion) -> ValueType
    ensures { result ≡ terms.converted_to conversion }
{
    match conversion {
        Conversion::Int => ValueType::Int(64),
        Conversion::Uint => ValueType::Uint(64),
        Conversion::Bool => ValueType::Bool,
        Conversion::Logic => ValueType::Logic,
    }
}

/// The code of a conversion, where its operand has code.
fn convert_term(
    alloc: Global,
    to: ValueType,
    operand: Option<TypedTerm>,
) -> Result<Option<Expr>, AllocError>
    ensures { IfOk result (λ term. option_map term_of term ≡ option_map (terms.convert_term to) (option_map spec.typed_seen operand)) }
{
    match operand {
        None => Ok(None),
        Some(operand) => {
            let from = evaluated_as(operand.expression_type);
            let term = Box::new(alloc, operand.term)?;
            Ok(Some(Expr::Convert(to, from, term)))
        }
    }
}

/// What a conversion by a word gives, where the type of its operand is known.
fn conversion_given(conversion: Conversion, e: Option<ExpressionType>) -> Option<ExpressionType>
    ensures { result ≡ option_and_then (operators.conversion_type conversion) e }
{
    match e {
        None => None,
        Some(e) => conversion_type(conversion, e),
    }
}

/// A conversion by a word.
pub(crate) fn convert(
    alloc: Global,
    conversion: Conversion,
    inner: Coded,
) -> Result<Coded, AllocError>
    ensures { IfOk result (λ part. spec.part_of part ≡ spec.convert_part conversion (spec.part_of inner)) }
{
    let given = conversion_given(conversion, type_seen(inner.seen));
    let term = convert_term(alloc, converted_to(conversion), typed(inner))?;
    Ok(given_part(given, term))
}

/// A conversion to a vector.
pub(crate) fn to_vector(alloc: Global, width: u64, inner: Coded) -> Result<Coded, AllocError>
    ensures { IfOk result (λ part. spec.part_of part ≡ spec.to_vector_part width (spec.part_of inner)) }
{
    match type_seen(inner.seen) {
        None => Ok(given_part(None, None)),
        Some(e) => {
            if is_width(width) && becomes_vector(width, e) {
                let to = width as u8;
                let term = convert_term(alloc, ValueType::Vector(to), typed(inner))?;
                Ok(given_part(Some(ExpressionType::Vector(to)), term))
            } else {
                Ok(given_part(None, None))
            }
        }
    }
}

/// The type of two vectors as one, where both types are known and fit.
fn concat_given(
    upper: Option<ExpressionType>,
    lower: Option<ExpressionType>,
) -> Option<ExpressionType>
    ensures { result ≡ operators.both operators.concat_type upper lower }
{
    match upper {
        None => None,
        Some(upper) => match lower {
            None => None,
            Some(lower) => concat_type(upper, lower),
        },
    }
}

/// The code of two vectors as one, where both have code.
fn concat_term(
    alloc: Global,
    upper: Option<Expr>,
    lower: Option<Expr>,
) -> Result<Option<Expr>, AllocError>
    ensures { IfOk result (λ term. option_map term_of term ≡ spec.concat_term (option_map term_of upper) (option_map term_of lower)) }
{
    match upper {
        None => Ok(None),
        Some(upper) => match lower {
            None => Ok(None),
            Some(lower) => {
                let upper = Box::new(alloc, upper)?;
                let lower = Box::new(alloc, lower)?;
                Ok(Some(Expr::Concat(upper, lower)))
            }
        },
    }
}

/// `concat` of two vectors.
pub(crate) fn concat(alloc: Global, upper: Coded, lower: Coded) -> Result<Coded, AllocError>
    ensures { IfOk result (λ part. spec.part_of part ≡ spec.concat_part (spec.part_of upper) (spec.part_of lower)) }
{
    let given = concat_given(type_seen(upper.seen), type_seen(lower.seen));
    let term = concat_term(alloc, term_made(upper.made), term_made(lower.made))?;
    Ok(given_part(given, term))
}

/// What a prefix operator gives, where the type of its operand is known.
fn unary_given(op: UnaryOp, e: Option<ExpressionType>) -> Option<ExpressionType>
    ensures { result ≡ option_and_then (operators.unary_type op) e }
{
    match e {
        None => None,
        Some(e) => unary_type(op, e),
    }
}

/// The code of a prefix operator before its operand, where that has code.
fn unary_term(
    alloc: Global,
    op: UnaryOp,
    operand: Option<TypedTerm>,
) -> Result<Option<Expr>, AllocError>
    ensures { IfOk result (λ term. option_map term_of term ≡ option_map (spec.unary_term op) (option_map spec.typed_seen operand)) }
{
    match operand {
        None => Ok(None),
        Some(operand) => {
            let of = evaluated_as(operand.expression_type);
            let term = Box::new(alloc, operand.term)?;
            Ok(Some(Expr::Unary(op, of, term)))
        }
    }
}

/// A prefix operator before its operand.
pub(crate) fn unary(alloc: Global, op: UnaryOp, inner: Coded) -> Result<Coded, AllocError>
    ensures { IfOk result (λ part. spec.part_of part ≡ spec.unary_part op (spec.part_of inner)) }
{
    let given = unary_given(op, type_seen(inner.seen));
    let term = unary_term(alloc, op, typed(inner))?;
    Ok(given_part(given, term))
}

/// The code of some digits, where their value has code.
fn slice_term(
    alloc: Global,
    high: u8,
    low: u8,
    operand: Option<TypedTerm>,
) -> Result<Option<Expr>, AllocError>
    ensures { IfOk result (λ term. option_map term_of term ≡ option_map (spec.slice_term high low) (option_map spec.typed_seen operand)) }
{
    match operand {
        None => Ok(None),
        Some(operand) => {
            let of = evaluated_as(operand.expression_type);
            let term = Box::new(alloc, operand.term)?;
            Ok(Some(Expr::Digits(of, term, high, low)))
        }
    }
}

/// Some digits.
pub(crate) fn slice(alloc: Global, high: u64, low: u64, inner: Coded) -> Result<Coded, AllocError>
    ensures { IfOk result (λ part. spec.part_of part ≡ spec.slice_part high low (spec.part_of inner)) }
{
    match type_seen(inner.seen) {
        None => Ok(given_part(None, None)),
        Some(e) => match digit_count(e) {
            Some(count) if is_within(high, low, count) => {
                let term = slice_term(alloc, high as u8, low as u8, typed(inner))?;
                Ok(given_part(slice_type(high, low, e), term))
            }
            _ => Ok(given_part(None, None)),
        },
    }
}

/// What a binary operator gives, where the types of its operands are known and fit.
fn binary_given(
    op: BinaryOp,
    left: Option<ExpressionType>,
    right: Option<ExpressionType>,
) -> Option<ExpressionType>
    ensures { result ≡ option_map (operators.given op) (operators.both (operators.operands op) left right) }
{
    match left {
        None => None,
        Some(left) => match right {
            None => None,
            Some(right) => match operands(op, left, right) {
                None => None,
                Some(taken) => Some(given(op, taken)),
            },
        },
    }
}

/// The code of a binary operator between operands that are taken as this together.
fn joined(
    alloc: Global,
    op: BinaryOp,
    left: TypedTerm,
    right: TypedTerm,
    taken: ExpressionType,
) -> Result<Expr, AllocError>
    ensures { IfOk result (λ term. term_of term ≡ terms.joined op (spec.typed_seen left) (spec.typed_seen right) taken) }
{
    let second = right_taken(op, right.expression_type, taken);
    let left = taken_as(alloc, left.expression_type, taken, left.term)?;
    let right = taken_as(alloc, right.expression_type, second, right.term)?;
    let left = Box::new(alloc, left)?;
    let right = Box::new(alloc, right)?;
    Ok(Expr::Binary(op, evaluated_as(taken), left, right))
}

/// The code of a binary operator between its operands, where both have code and fit.
fn binary_term(
    alloc: Global,
    op: BinaryOp,
    left: Option<TypedTerm>,
    right: Option<TypedTerm>,
) -> Result<Option<Expr>, AllocError>
    ensures { IfOk result (λ term. option_map term_of term ≡ operators.both (terms.binary_term op) (option_map spec.typed_seen left) (option_map spec.typed_seen right)) }
{
    match left {
        None => Ok(None),
        Some(left) => match right {
            None => Ok(None),
            Some(right) => match operands(op, left.expression_type, right.expression_type) {
                None => Ok(None),
                Some(taken) => {
                    let term = joined(alloc, op, left, right, taken)?;
                    Ok(Some(term))
                }
            },
        },
    }
}

/// A binary operator between its operands.
pub(crate) fn binary(
    alloc: Global,
    op: BinaryOp,
    left: Coded,
    right: Coded,
) -> Result<Coded, AllocError>
    ensures { IfOk result (λ part. spec.part_of part ≡ spec.binary_part op (spec.part_of left) (spec.part_of right)) }
{
    let given = binary_given(op, type_seen(left.seen), type_seen(right.seen));
    let term = binary_term(alloc, op, typed(left), typed(right))?;
    Ok(Coded {
        seen: value_if(given),
        made: made_if(term),
    })
}
