//! The value of an expression.
ghost use Rattle.std.specs.Prelude.{◌≡◌, Ok, Some, if◌then◌else◌, option_map};
ghost use Rattle.flat_design.specs.Code as code;
ghost use Rattle.flat_design.specs.Code.{term_of};
ghost use Rattle.sim_model.specs.Reading.{Here, val, place_in};
ghost use Rattle.sim_model.specs.Values as spec;
ghost use Rattle.sim_model.specs.Values.{on_ok};
ghost use Rattle.expr_eval.specs.Readings.{reading_value};

use crate::conversions::converted;
use crate::digits::{digit_at, digits_between, joined_digits};
use crate::operators::{decides, of_any_numbers, operate, unary};
use crate::values::{bits, sign_of, truth, widened};
use crate::views::{Reading, View};
use crate::words::{numbers, told};
use flat_design::{Expr, Member, NameUse, PayloadBytes, RunFault, ValueType};
use sim_model::logic_values_api::Value;
use sim_model::model_tree_api::{BinaryOp, UnaryOp};

/// The value of the expression, or its first fault from left to right. It takes no memory.
///
/// Operands are evaluated from the left to the right, and the right one of `&&` and `||` only where the left one does not
/// decide. A name with places and indices is taken piece by piece: what a further index is taken of is read before that
/// index is evaluated.
#[inline(always)]
#[cycle(parts)]
pub fn eval<V: View>(view: &V, e: &Expr) -> Result<Value, RunFault>
    ensures { (h : Here) → V.Shows view.now h → result ≡ val h (term_of e.now) }
{
    // Most operands are literals or names, and most operators stand between two of these.
    match e {
        Expr::Literal(value) => Ok(*value),
        Expr::Name(n) => named(view, *n),
        _ => match told(view, e) {
            Some(value) => Ok(value),
            None => composed(view, e),
        },
    }
}

// The same of an expression of any form.
#[cycle(parts)]
fn composed<V: View>(view: &V, e: &Expr) -> Result<Value, RunFault>
    ensures { (h : Here) → V.Shows view.now h → result ≡ val h (term_of e.now) }
{
    match e {
        Expr::Literal(value) => Ok(*value),
        Expr::Now => Ok(Value::Moment(view.now().0)),
        Expr::Myself => Ok(Value::Handle(Some(view.own()))),
        Expr::Name(n) => named(view, *n),
        Expr::Placed(n, place) => placed(view, *n, place),
        Expr::Member(n, m) => member(view, *n, *m),
        Expr::PlacedMember(n, place, m) => placed_member(view, *n, place, *m),
        Expr::Element(n, index) => element(view, *n, index),
        Expr::PayloadByte(n, b, index) => payload_byte(view, *n, *b, index),
        Expr::Digit(t, of, index) => {
            let whole = eval(view, of)?;
            one_digit(view, *t, whole, index)
        }
        Expr::Digits(t, of, high, low) => some_digits(view, *t, of, *high, *low),
        Expr::Unary(op, t, operand) => of_one(view, *op, *t, operand),
        Expr::Binary(op, t, left, right) => {
            // Many operands are numbers, literals or names.
            if let Some((l, r)) = numbers(view, *t, left, right) {
                return of_any_numbers(*op, *t, sign_of(*t), l, r);
            }
            let l = eval(view, left)?;
            of_two(view, *op, *t, l, right)
        }
        Expr::Convert(to, from, operand) => convert(view, *to, *from, operand),
        Expr::Concat(upper, lower) => {
            let u = eval(view, upper)?;
            join(view, u, lower)
        }
    }
}

fn named<V: View>(view: &V, n: NameUse) -> Result<Value, RunFault>
    ensures { (h : Here) → V.Shows view.now h → result ≡ val h (code.name n) }
{
    read(view, Reading::Name(n))
}

#[cycle(parts)]
fn placed<V: View>(view: &V, n: u32, place: &Expr) -> Result<Value, RunFault>
    ensures { (h : Here) → V.Shows view.now h → result ≡ val h (code.placed n (term_of place.now)) }
{
    let k = bits(eval(view, place)?);
    read(view, Reading::Placed(n, k))
}

fn member<V: View>(view: &V, n: NameUse, m: Member) -> Result<Value, RunFault>
    ensures { (h : Here) → V.Shows view.now h → result ≡ val h (code.member n m) }
{
    read(view, Reading::Member(n, m))
}

#[cycle(parts)]
fn placed_member<V: View>(view: &V, n: u32, place: &Expr, m: Member) -> Result<Value, RunFault>
    ensures { (h : Here) → V.Shows view.now h → result ≡ val h (code.placed_member n (term_of place.now) m) }
{
    let k = bits(eval(view, place)?);
    read(view, Reading::PlacedMember(n, k, m))
}

#[cycle(parts)]
fn element<V: View>(view: &V, n: u32, index: &Expr) -> Result<Value, RunFault>
    ensures { (h : Here) → V.Shows view.now h → result ≡ val h (code.element n (term_of index.now)) }
{
    let i = bits(eval(view, index)?);
    read(view, Reading::Element(n, i))
}

#[cycle(parts)]
fn payload_byte<V: View>(
    view: &V,
    n: NameUse,
    b: PayloadBytes,
    index: &Expr,
) -> Result<Value, RunFault>
    ensures { (h : Here) → V.Shows view.now h → result ≡ val h (code.payload_byte n b (term_of index.now)) }
{
    let i = bits(eval(view, index)?);
    read(view, Reading::PayloadByte(n, b, i))
}

// The digit, or the bit, of a value at an index.
#[cycle(parts)]
fn one_digit<V: View>(view: &V, t: ValueType, whole: Value, index: &Expr) -> Result<Value, RunFault>
    ensures { (h : Here) → V.Shows view.now h → result ≡ on_ok (val h (term_of index.now)) (λ k. spec.digit_at t whole (spec.bits k)) }
{
    let i = bits(eval(view, index)?);
    digit_at(t, whole, i)
}

#[cycle(parts)]
fn some_digits<V: View>(
    view: &V,
    t: ValueType,
    of: &Expr,
    high: u8,
    low: u8,
) -> Result<Value, RunFault>
    ensures { (h : Here) → V.Shows view.now h → result ≡ val h (code.digits t (term_of of.now) high low) }
{
    let v = eval(view, of)?;
    Ok(digits_between(t, v, high, low))
}

// A prefix operator with its operand.
#[cycle(parts)]
fn of_one<V: View>(view: &V, op: UnaryOp, t: ValueType, operand: &Expr) -> Result<Value, RunFault>
    ensures { (h : Here) → V.Shows view.now h → result ≡ val h (code.unary op t (term_of operand.now)) }
{
    let v = eval(view, operand)?;
    Ok(unary(op, t, v))
}

// An operator behind its left operand: the right one is evaluated where that does not decide.
#[cycle(parts)]
fn of_two<V: View>(
    view: &V,
    op: BinaryOp,
    t: ValueType,
    l: Value,
    right: &Expr,
) -> Result<Value, RunFault>
    ensures { (h : Here) → V.Shows view.now h → result ≡ (if spec.decides op l then Ok (spec.bool_value (spec.truth l)) else on_ok (val h (term_of right.now)) (λ r. spec.binary op t l r)) }
{
    if decides(op, l) {
        return Ok(Value::Bool(truth(l)));
    }
    let r = eval(view, right)?;
    operate(op, t, l, r)
}

#[cycle(parts)]
fn convert<V: View>(
    view: &V,
    to: ValueType,
    from: ValueType,
    operand: &Expr,
) -> Result<Value, RunFault>
    ensures { (h : Here) → V.Shows view.now h → result ≡ val h (code.convert to from (term_of operand.now)) }
{
    let v = eval(view, operand)?;
    Ok(converted(to, from, v))
}

// A vector behind the one above it.
#[cycle(parts)]
fn join<V: View>(view: &V, upper: Value, lower: &Expr) -> Result<Value, RunFault>
    ensures { (h : Here) → V.Shows view.now h → result ≡ on_ok (val h (term_of lower.now)) (λ l. Ok (spec.joined_digits upper l)) }
{
    let l = eval(view, lower)?;
    Ok(joined_digits(upper, l))
}

// The value of a reading in an expression.
#[inline(always)]
fn read<V: View>(view: &V, reading: Reading) -> Result<Value, RunFault>
    ensures { (h : Here) → V.Shows view.now h → result ≡ reading_value h reading }
{
    let value = view.read(reading)?;
    match reading {
        Reading::Name(_) | Reading::Placed(..) => Ok(widened(value)),
        Reading::Member(..)
        | Reading::PlacedMember(..)
        | Reading::Element(..)
        | Reading::PayloadByte(..) => Ok(value),
    }
}

// The place of a port that is written.
#[inline(never)]
fn place_of<V: View>(view: &V, e: &Expr) -> Result<Option<u64>, RunFault>
    ensures { (h : Here) → V.Shows view.now h → result ≡ place_in h (Some (term_of e.now)) }
{
    Ok(Some(bits(eval(view, e)?)))
}

/// The place of a port, where one is written, or the first fault of its expression.
#[inline(always)]
pub fn eval_place<V: View>(view: &V, e: &Option<Expr>) -> Result<Option<u64>, RunFault>
    ensures { (h : Here) → V.Shows view.now h → result ≡ place_in h (option_map term_of e.now) }
{
    match e {
        Some(e) => place_of(view, e),
        None => Ok(None),
    }
}
