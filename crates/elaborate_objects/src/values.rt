//! First values, sizes and times.
ghost use Rattle.std.specs.Prelude.{◌≡◌, IfOk, unwrap_or};
ghost use Rattle.check_names.specs.LogicValues.Digits.{digits};
ghost use Rattle.check_names.specs.LogicValues.Integers.{cut_of};
ghost use Rattle.design_rules.specs.Values as spec;

use check_names::flat_design_api::{ValueType, default_value};
use check_names::logic_values_api::{Digit, Lv, Sign, Value, cut, digit, sub};
use check_names::model_tree_api::{Constant, ConstantForm, Span};
use check_names::sim_time_api::{Time, Unit, picoseconds_of};
use std::alloc::AllocError;

pub(crate) fn known_type(t: Option<ValueType>) -> ValueType
    ensures { result ≡ spec.known_type t }
{
    match t {
        Some(t) => t,
        None => ValueType::Bool,
    }
}

/// So many units. Out of memory is answered where that passes 2^64 - 1 ps.
fn unit_time(count: u64, unit: Unit) -> Result<Time, AllocError>
    ensures { IfOk result (λ t. t ≡ spec.span_time (record { count = count; unit = unit })) }
{
    match picoseconds_of(count, unit) {
        Some(t) => Ok(t),
        None => Err(AllocError),
    }
}

pub(crate) fn span_time(t: Span) -> Result<Time, AllocError>
    ensures { IfOk result (λ time. time ≡ spec.span_time t) }
{
    unit_time(t.count, t.unit)
}

pub(crate) fn start_time(t: Option<Span>) -> Result<Time, AllocError>
    ensures { IfOk result (λ time. time ≡ spec.start_time t) }
{
    match t {
        None => Ok(Time(0)),
        Some(t) => span_time(t),
    }
}

/// A number modulo 2^64.
pub(crate) fn whole(form: ConstantForm) -> u64
    ensures { result ≡ spec.whole form }
{
    match form {
        ConstantForm::Number(n) => n,
        ConstantForm::Negative(n) => sub(0, n),
        ConstantForm::Time(_, _) | ConstantForm::Logic(_) | ConstantForm::Truth(_) => 0,
    }
}

fn truth_of(form: ConstantForm) -> Value
    ensures { result ≡ spec.truth_of form }
{
    match form {
        ConstantForm::Truth(b) => Value::Bool(b),
        ConstantForm::Number(_)
        | ConstantForm::Negative(_)
        | ConstantForm::Time(_, _)
        | ConstantForm::Logic(_) => default_value(ValueType::Bool),
    }
}

fn first_digit(v: Lv) -> Digit
    ensures { result ≡ spec.first_digit (digits v) }
{
    digit(v, 0)
}

fn logic_of(form: ConstantForm) -> Value
    ensures { result ≡ spec.logic_of form }
{
    match form {
        ConstantForm::Logic(v) => Value::Logic(first_digit(v)),
        ConstantForm::Number(_)
        | ConstantForm::Negative(_)
        | ConstantForm::Time(_, _)
        | ConstantForm::Truth(_) => default_value(ValueType::Logic),
    }
}

fn vector_of(width: u8, form: ConstantForm) -> Value
    ensures { result ≡ spec.vector_of width form }
{
    match form {
        ConstantForm::Logic(v) => Value::Vector(v),
        ConstantForm::Number(_)
        | ConstantForm::Negative(_)
        | ConstantForm::Time(_, _)
        | ConstantForm::Truth(_) => default_value(ValueType::Vector(width)),
    }
}

fn moment_of(form: ConstantForm) -> Result<Value, AllocError>
    ensures { IfOk result (λ v. v ≡ spec.moment_of form) }
{
    match form {
        ConstantForm::Time(n, unit) => match picoseconds_of(n, unit) {
            Some(t) => Ok(Value::Moment(t.0)),
            None => Err(AllocError),
        },
        ConstantForm::Number(_)
        | ConstantForm::Negative(_)
        | ConstantForm::Logic(_)
        | ConstantForm::Truth(_) => Ok(default_value(ValueType::Time)),
    }
}

/// Out of memory is answered where the width is not one of 1 to 64.
fn cut_if(sign: Sign, width: u8, n: u64) -> Result<u64, AllocError>
    ensures { IfOk result (λ bits. bits ≡ cut_of sign width n) }
{
    if width == 0 || width > 64 {
        return Err(AllocError);
    }
    Ok(cut(sign, width, n))
}

/// A constant as a value of a type. Out of memory is also answered where a time passes 2^64 - 1 ps.
fn constant_value(form: ConstantForm, t: ValueType) -> Result<Value, AllocError>
    ensures { IfOk result (λ v. v ≡ spec.constant_value form t) }
{
    match t {
        ValueType::Bool => Ok(truth_of(form)),
        ValueType::Int(width) => {
            let bits = cut_if(Sign::Signed, width, whole(form))?;
            Ok(Value::Int { width, bits })
        }
        ValueType::Uint(width) => {
            let bits = cut_if(Sign::Unsigned, width, whole(form))?;
            Ok(Value::Uint { width, bits })
        }
        ValueType::Logic => Ok(logic_of(form)),
        ValueType::Vector(width) => Ok(vector_of(width, form)),
        ValueType::Time => moment_of(form),
        ValueType::Process | ValueType::Payload => Ok(default_value(t)),
    }
}

/// The first value of a signal or a variable.
pub(crate) fn first_value(t: ValueType, initial: Option<Constant>) -> Result<Value, AllocError>
    ensures { IfOk result (λ v. v ≡ spec.first_value t initial) }
{
    match initial {
        None => Ok(default_value(t)),
        Some(c) => constant_value(c.form, t),
    }
}
