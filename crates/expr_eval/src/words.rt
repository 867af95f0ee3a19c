//! Operators whose operands are literals and names, where what they give is told in a word.
ghost use Rattle.std.specs.Prelude.{◌≡◌, IfSome, Ok, if◌then◌else◌};
ghost use Rattle.flat_design.specs.Code as code;
ghost use Rattle.flat_design.specs.Code.{term_of};
ghost use Rattle.sim_model.specs.Reading.{Here, val};
ghost use Rattle.sim_model.specs.Values as spec;
ghost use Rattle.expr_eval.specs.Words.{Says};

use crate::operators::less;
use crate::values::{is_number, number_of, sign_of, signed, signed_as, unsigned, widened};
use crate::views::{Reading, View};
use flat_design::{Expr, NameUse, ValueType};
use sim_model::logic_values_api::{Sign, Value};
use sim_model::model_tree_api::{BinaryOp, UnaryOp};

/// A value, as far as it is told in a word, which fits registers.
#[derive(Clone, Copy)]
pub(crate) enum Word {
    /// It is this truth value.
    Truth(bool),
    /// It is the signed number of 64 bits with these bits.
    Signed(u64),
    /// It is the unsigned number of 64 bits with these bits.
    Unsigned(u64),
    /// Nothing is told.
    Untold,
}

/// The value of an operator whose operands are literals and names, where that is told in a word.
#[inline(always)]
pub(crate) fn told<V: View>(view: &V, e: &Expr) -> Option<Value>
    ensures { (h : Here) → V.Shows view.now h → IfSome result (λ v. val h (term_of e.now) ≡ Ok v) }
{
    match e {
        Expr::Unary(op, t, operand) => match negated(view, *op, *t, operand) {
            Some(b) => Some(Value::Bool(b)),
            None => None,
        },
        Expr::Binary(op, t, left, right) => {
            if !is_told(*op) {
                return None;
            }
            match between(view, *op, *t, left, right) {
                Word::Truth(b) => Some(Value::Bool(b)),
                Word::Signed(n) => Some(signed(n)),
                Word::Unsigned(n) => Some(unsigned(n)),
                Word::Untold => None,
            }
        }
        _ => None,
    }
}

// The negation of what has a name, where that is a truth value.
#[inline(always)]
fn negated<V: View>(view: &V, op: UnaryOp, t: ValueType, operand: &Expr) -> Option<bool>
    ensures { (h : Here) → V.Shows view.now h → IfSome result (λ b. val h (code.unary op t (term_of operand.now)) ≡ Ok (spec.bool_value b)) }
{
    let _ = t;
    if let (UnaryOp::Not, Expr::Name(n)) = (op, operand) {
        if let Some(b) = truth_named(view, *n) {
            return Some(!b);
        }
    }
    None
}

// What has a name, where it is a truth value.
#[inline(never)]
fn truth_named<V: View>(view: &V, n: NameUse) -> Option<bool>
    ensures { (h : Here) → V.Shows view.now h → IfSome result (λ b. val h (code.name n) ≡ Ok (spec.bool_value b)) }
{
    match view.read(Reading::Name(n)) {
        Ok(Value::Bool(b)) => Some(b),
        _ => None,
    }
}

// An operator between two numbers that are literals or names.
#[inline(never)]
fn between<V: View>(view: &V, op: BinaryOp, t: ValueType, left: &Expr, right: &Expr) -> Word
    ensures { (h : Here) → V.Shows view.now h → Says result (val h (code.binary op t (term_of left.now) (term_of right.now))) }
{
    match numbers(view, t, left, right) {
        Some((l, r)) => word_of(op, t, l, r),
        None => Word::Untold,
    }
}

// Whether what an operator gives between two numbers is told in a word.
#[inline(always)]
fn is_told(op: BinaryOp) -> bool {
    matches!(
        op,
        BinaryOp::Add
            | BinaryOp::Subtract
            | BinaryOp::Less
            | BinaryOp::LessEqual
            | BinaryOp::Greater
            | BinaryOp::GreaterEqual
            | BinaryOp::Equal
            | BinaryOp::NotEqual
    )
}

// An operator between two numbers of 64 bits of this type.
#[inline(always)]
fn word_of(op: BinaryOp, t: ValueType, l: u64, r: u64) -> Word
    ensures { Says result (if spec.decides op (spec.signed_as (spec.sign_of t) l) then Ok (spec.bool_value (spec.truth (spec.signed_as (spec.sign_of t) l))) else spec.binary op t (spec.signed_as (spec.sign_of t) l) (spec.signed_as (spec.sign_of t) r)) }
{
    let left = signed_as(sign_of(t), l);
    let right = signed_as(sign_of(t), r);
    match op {
        BinaryOp::Add => sum(t, l, r),
        BinaryOp::Subtract => difference(t, l, r),
        BinaryOp::Less => Word::Truth(less(t, left, right)),
        BinaryOp::LessEqual => Word::Truth(!less(t, right, left)),
        BinaryOp::Greater => Word::Truth(less(t, right, left)),
        BinaryOp::GreaterEqual => Word::Truth(!less(t, left, right)),
        BinaryOp::Equal => Word::Truth(sim_model::logic_values_api::is_same(left, right)),
        BinaryOp::NotEqual => Word::Truth(!sim_model::logic_values_api::is_same(left, right)),
        _ => Word::Untold,
    }
}

// The sum of two numbers of 64 bits of this type.
#[inline(always)]
fn sum(t: ValueType, l: u64, r: u64) -> Word
    ensures { Says result (spec.sum t (spec.signed_as (spec.sign_of t) l) (spec.signed_as (spec.sign_of t) r)) }
{
    match t {
        ValueType::Int(_) => Word::Signed(sim_model::logic_values_api::add(l, r)),
        ValueType::Uint(_) => Word::Unsigned(sim_model::logic_values_api::add(l, r)),
        _ => Word::Untold,
    }
}

// Their difference.
#[inline(always)]
fn difference(t: ValueType, l: u64, r: u64) -> Word
    ensures { Says result (spec.difference t (spec.signed_as (spec.sign_of t) l) (spec.signed_as (spec.sign_of t) r)) }
{
    match t {
        ValueType::Int(_) => Word::Signed(sim_model::logic_values_api::sub(l, r)),
        ValueType::Uint(_) => Word::Unsigned(sim_model::logic_values_api::sub(l, r)),
        _ => Word::Untold,
    }
}

/// The bits of two operands of this type, where both are numbers of it that are literals or names.
#[inline(always)]
pub(crate) fn numbers<V: View>(
    view: &V,
    t: ValueType,
    left: &Expr,
    right: &Expr,
) -> Option<(u64, u64)>
    ensures { (h : Here) → V.Shows view.now h → IfSome result (λ p. (val h (term_of left.now) ≡ Ok (spec.signed_as (spec.sign_of t) p.0)) × (val h (term_of right.now) ≡ Ok (spec.signed_as (spec.sign_of t) p.1))) }
{
    if !is_number(t) || !is_plain(right) {
        return None;
    }
    let sign = sign_of(t);
    let l = number(view, sign, left)?;
    let r = number(view, sign, right)?;
    Some((l, r))
}

// Whether an operand is a literal or a name.
#[inline(always)]
fn is_plain(e: &Expr) -> bool {
    matches!(e, Expr::Literal(_) | Expr::Name(_))
}

// The bits of an operand that is a literal or a name, where it is a number with this sign.
#[inline(always)]
fn number<V: View>(view: &V, sign: Sign, e: &Expr) -> Option<u64>
    ensures { (h : Here) → V.Shows view.now h → IfSome result (λ n. val h (term_of e.now) ≡ Ok (spec.signed_as sign n)) }
{
    match e {
        Expr::Literal(value) => number_of(sign, *value),
        Expr::Name(n) => number_named(view, sign, *n),
        _ => None,
    }
}

// The bits of what has a name, where it is a number with this sign.
#[inline(never)]
fn number_named<V: View>(view: &V, sign: Sign, n: NameUse) -> Option<u64>
    ensures { (h : Here) → V.Shows view.now h → IfSome result (λ k. val h (code.name n) ≡ Ok (spec.signed_as sign k)) }
{
    match view.read(Reading::Name(n)) {
        Ok(value) => number_of(sign, widened(value)),
        Err(_) => None,
    }
}
