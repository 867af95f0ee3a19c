//! Operators on values.
ghost use Rattle.std.specs.Prelude.{◌≡◌, ◌&&◌, ◌||◌, if◌then◌else◌, IfSome, IfNone, Ok, Err, map, bit_and, bit_or, bit_xor};
ghost use Rattle.sim_model.specs.LogicValues.LogicTables.{and_of, or_of, xor_of, not_of};
ghost use Rattle.sim_model.specs.LogicValues.Vectors.{digit_by_digit};
ghost use Rattle.sim_model.specs.LogicValues.declared.kinds.Digit.{Digit};
ghost use Rattle.sim_model.specs.LogicValues.declared.kinds.Value.TheVariants as value;
ghost use Rattle.flat_design.specs.declared.faults.RunFault.TheVariants as fault;
ghost use Rattle.sim_model.specs.Values as spec;
ghost use Rattle.expr_eval.specs.Vectors.{listed, paired};

use crate::values::{
    bits, digits_of, first_digit, moment, sign_of, signed, signed_as, truth, unsigned, vector,
};
use flat_design::{RunFault, ValueType};
use sim_model::logic_values_api::{Lv, Sign, Value};
use sim_model::model_tree_api::{BinaryOp, UnaryOp};
use sim_model::sim_time_api::Time;

/// A prefix operator before an operand of this type.
pub(crate) fn unary(op: UnaryOp, t: ValueType, v: Value) -> Value
    ensures { result ≡ spec.unary op t v }
{
    match op {
        UnaryOp::Negate => signed_as(sign_of(t), sim_model::logic_values_api::sub(0, bits(v))),
        UnaryOp::Not => Value::Bool(!truth(v)),
        UnaryOp::Complement => complement(t, v),
    }
}

fn complement(t: ValueType, v: Value) -> Value
    ensures { result ≡ spec.complement t v }
{
    match t {
        ValueType::Bool => Value::Bool(!truth(v)),
        ValueType::Int(_) => signed(!bits(v)),
        ValueType::Uint(_) => unsigned(!bits(v)),
        ValueType::Logic => Value::Logic(first_digit(v).not()),
        ValueType::Vector(_) => Value::Vector(vector(turned(digits_of(v)))),
        ValueType::Time | ValueType::Process | ValueType::Payload => v,
    }
}

// Each digit turned into its opposite.
fn turned(digits: Option<Lv>) -> Option<Lv>
    ensures { listed result ≡ map not_of (listed digits) }
{
    match digits {
        Some(v) => Some(sim_model::logic_values_api::not(v)),
        None => None,
    }
}

/// Whether the left operand decides, so that the right one is not evaluated.
pub(crate) fn decides(op: BinaryOp, l: Value) -> bool
    ensures { result ≡ spec.decides op l }
{
    match op {
        BinaryOp::OrElse => truth(l),
        BinaryOp::AndThen => !truth(l),
        _ => false,
    }
}

/// A binary operator on a left operand of this type and a right one.
pub(crate) fn binary(op: BinaryOp, t: ValueType, l: Value, r: Value) -> Result<Value, RunFault>
    ensures { result ≡ spec.binary op t l r }
{
    match op {
        BinaryOp::OrElse => Ok(Value::Bool(truth(l) || truth(r))),
        BinaryOp::AndThen => Ok(Value::Bool(truth(l) && truth(r))),
        BinaryOp::BitOr => Ok(bit_or(t, l, r)),
        BinaryOp::BitXor => Ok(bit_xor(t, l, r)),
        BinaryOp::BitAnd => Ok(bit_and(t, l, r)),
        BinaryOp::Equal => Ok(Value::Bool(sim_model::logic_values_api::is_same(l, r))),
        BinaryOp::NotEqual => Ok(Value::Bool(!sim_model::logic_values_api::is_same(l, r))),
        BinaryOp::Less => Ok(Value::Bool(less(t, l, r))),
        BinaryOp::LessEqual => Ok(Value::Bool(!less(t, r, l))),
        BinaryOp::Greater => Ok(Value::Bool(less(t, r, l))),
        BinaryOp::GreaterEqual => Ok(Value::Bool(!less(t, l, r))),
        BinaryOp::ShiftLeft => Ok(signed_as(
            sign_of(t),
            sim_model::logic_values_api::shl(bits(l), bits(r)),
        )),
        BinaryOp::ShiftRight => Ok(signed_as(
            sign_of(t),
            sim_model::logic_values_api::shr(sign_of(t), bits(l), bits(r)),
        )),
        BinaryOp::Add => sum(t, l, r),
        BinaryOp::Subtract => difference(t, l, r),
        BinaryOp::Multiply => product(t, l, r),
        BinaryOp::Divide => {
            unless_zero(
                sign_of(t),
                sim_model::logic_values_api::div(sign_of(t), bits(l), bits(r)),
            )
        }
        BinaryOp::Remainder => {
            unless_zero(
                sign_of(t),
                sim_model::logic_values_api::rem(sign_of(t), bits(l), bits(r)),
            )
        }
    }
}

/// An operator between two numbers of 64 bits with this sign.
#[inline(never)]
pub(crate) fn of_any_numbers(
    op: BinaryOp,
    t: ValueType,
    s: Sign,
    l: u64,
    r: u64,
) -> Result<Value, RunFault>
    ensures { result ≡ (if spec.decides op (spec.signed_as s l) then Ok (spec.bool_value (spec.truth (spec.signed_as s l))) else spec.binary op t (spec.signed_as s l) (spec.signed_as s r)) }
{
    let left = signed_as(s, l);
    if decides(op, left) {
        return Ok(Value::Bool(truth(left)));
    }
    binary(op, t, left, signed_as(s, r))
}

/// A binary operator; the sum and the order of two unsigned numbers, which loops count with, are no call.
#[inline(always)]
pub(crate) fn operate(op: BinaryOp, t: ValueType, l: Value, r: Value) -> Result<Value, RunFault>
    ensures { result ≡ spec.binary op t l r }
{
    match (op, t) {
        (BinaryOp::Add, ValueType::Uint(_)) => {
            Ok(unsigned(sim_model::logic_values_api::add(bits(l), bits(r))))
        }
        (BinaryOp::Less, ValueType::Uint(_)) => Ok(Value::Bool(sim_model::logic_values_api::lt(
            Sign::Unsigned,
            bits(l),
            bits(r),
        ))),
        _ => binary(op, t, l, r),
    }
}

// The digits of two values, cut to as many as both have.
fn pair(l: Value, r: Value) -> Option<(Lv, Lv)>
    ensures alike { IfSome result (λ p. p.0.width ≡ p.1.width) }
    ensures pairs { (f : Digit → Digit → Digit) → paired f result ≡ digit_by_digit f (spec.digit_list l) (spec.digit_list r) }
{
    match (digits_of(l), digits_of(r)) {
        (Some(a), Some(b)) => {
            let width = a.width.min(b.width);
            Some((a.resize(width), b.resize(width)))
        }
        _ => None,
    }
}

fn and_digits(l: Value, r: Value) -> Value
    ensures { result ≡ spec.vector (digit_by_digit and_of (spec.digit_list l) (spec.digit_list r)) }
{
    let both = match pair(l, r) {
        Some((a, b)) => Some(sim_model::logic_values_api::and(a, b)),
        None => None,
    };
    Value::Vector(vector(both))
}

fn or_digits(l: Value, r: Value) -> Value
    ensures { result ≡ spec.vector (digit_by_digit or_of (spec.digit_list l) (spec.digit_list r)) }
{
    let both = match pair(l, r) {
        Some((a, b)) => Some(sim_model::logic_values_api::or(a, b)),
        None => None,
    };
    Value::Vector(vector(both))
}

fn xor_digits(l: Value, r: Value) -> Value
    ensures { result ≡ spec.vector (digit_by_digit xor_of (spec.digit_list l) (spec.digit_list r)) }
{
    let both = match pair(l, r) {
        Some((a, b)) => Some(sim_model::logic_values_api::xor(a, b)),
        None => None,
    };
    Value::Vector(vector(both))
}

fn bit_and(t: ValueType, l: Value, r: Value) -> Value
    ensures { result ≡ spec.bitwise (λ a b. a && b) bit_and and_of t l r }
{
    match t {
        ValueType::Bool => Value::Bool(truth(l) && truth(r)),
        ValueType::Int(_) => signed(bits(l) & bits(r)),
        ValueType::Uint(_) => unsigned(bits(l) & bits(r)),
        ValueType::Logic => Value::Logic(first_digit(l).and(first_digit(r))),
        ValueType::Vector(_) => and_digits(l, r),
        ValueType::Time | ValueType::Process | ValueType::Payload => l,
    }
}

fn bit_or(t: ValueType, l: Value, r: Value) -> Value
    ensures { result ≡ spec.bitwise (λ a b. a || b) bit_or or_of t l r }
{
    match t {
        ValueType::Bool => Value::Bool(truth(l) || truth(r)),
        ValueType::Int(_) => signed(bits(l) | bits(r)),
        ValueType::Uint(_) => unsigned(bits(l) | bits(r)),
        ValueType::Logic => Value::Logic(first_digit(l).or(first_digit(r))),
        ValueType::Vector(_) => or_digits(l, r),
        ValueType::Time | ValueType::Process | ValueType::Payload => l,
    }
}

fn bit_xor(t: ValueType, l: Value, r: Value) -> Value
    ensures { result ≡ spec.bitwise spec.differ bit_xor xor_of t l r }
{
    match t {
        ValueType::Bool => Value::Bool(truth(l) != truth(r)),
        ValueType::Int(_) => signed(bits(l) ^ bits(r)),
        ValueType::Uint(_) => unsigned(bits(l) ^ bits(r)),
        ValueType::Logic => Value::Logic(first_digit(l).xor(first_digit(r))),
        ValueType::Vector(_) => xor_digits(l, r),
        ValueType::Time | ValueType::Process | ValueType::Payload => l,
    }
}

/// Whether the left one is less.
#[inline(always)]
pub(crate) fn less(t: ValueType, l: Value, r: Value) -> bool
    ensures { result ≡ spec.less t l r }
{
    match t {
        ValueType::Int(_) => sim_model::logic_values_api::lt(Sign::Signed, bits(l), bits(r)),
        ValueType::Uint(_) => sim_model::logic_values_api::lt(Sign::Unsigned, bits(l), bits(r)),
        ValueType::Time => moment(l).0 < moment(r).0,
        ValueType::Bool
        | ValueType::Logic
        | ValueType::Vector(_)
        | ValueType::Process
        | ValueType::Payload => false,
    }
}

fn sum(t: ValueType, l: Value, r: Value) -> Result<Value, RunFault>
    ensures { result ≡ spec.sum t l r }
{
    match t {
        ValueType::Int(_) => Ok(signed(sim_model::logic_values_api::add(bits(l), bits(r)))),
        ValueType::Uint(_) => Ok(unsigned(sim_model::logic_values_api::add(bits(l), bits(r)))),
        ValueType::Time => within(sim_model::sim_time_api::add(moment(l), moment(r))),
        ValueType::Bool
        | ValueType::Logic
        | ValueType::Vector(_)
        | ValueType::Process
        | ValueType::Payload => Ok(l),
    }
}

fn difference(t: ValueType, l: Value, r: Value) -> Result<Value, RunFault>
    ensures { result ≡ spec.difference t l r }
{
    match t {
        ValueType::Int(_) => Ok(signed(sim_model::logic_values_api::sub(bits(l), bits(r)))),
        ValueType::Uint(_) => Ok(unsigned(sim_model::logic_values_api::sub(bits(l), bits(r)))),
        ValueType::Time => within(sim_model::sim_time_api::sub(moment(l), moment(r))),
        ValueType::Bool
        | ValueType::Logic
        | ValueType::Vector(_)
        | ValueType::Process
        | ValueType::Payload => Ok(l),
    }
}

fn product(t: ValueType, l: Value, r: Value) -> Result<Value, RunFault>
    ensures { result ≡ spec.product t l r }
{
    match t {
        ValueType::Int(_) => Ok(signed(sim_model::logic_values_api::mul(bits(l), bits(r)))),
        ValueType::Uint(_) => Ok(unsigned(sim_model::logic_values_api::mul(bits(l), bits(r)))),
        ValueType::Time => within(sim_model::sim_time_api::times(moment(l), bits(r))),
        ValueType::Bool
        | ValueType::Logic
        | ValueType::Vector(_)
        | ValueType::Process
        | ValueType::Payload => Ok(l),
    }
}

// A time that is not past the range.
fn within(time: Option<Time>) -> Result<Value, RunFault>
    ensures within { IfSome time (λ t. result ≡ Ok (value.Moment t.0)) }
    ensures past { IfNone time (result ≡ Err fault.TimeOverflow) }
{
    match time {
        Some(t) => Ok(Value::Moment(t.0)),
        None => Err(RunFault::TimeOverflow),
    }
}

fn unless_zero(s: Sign, number: Option<u64>) -> Result<Value, RunFault>
    ensures { result ≡ spec.unless_zero s number }
{
    match number {
        Some(n) => Ok(signed_as(s, n)),
        None => Err(RunFault::DivideByZero),
    }
}
