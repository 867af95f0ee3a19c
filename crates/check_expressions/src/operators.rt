ghost use Rattle.std.specs.Prelude.{◌≡◌, ◌<◌, ◌≤◌};
ghost use Rattle.check_names.specs.ModelRules.Operators as spec;
ghost use Rattle.check_names.specs.ModelRules.declared.meanings.ExpressionType.TheVariants as type_of;

use check_names::model_rules_api::ExpressionType;
use flat_design::ValueType;
use model_tree::{BinaryOp, Conversion, UnaryOp};

/// The type that a value of this type has in an expression, where an integer has 64 bits.
pub fn seen_as(value_type: ValueType) -> ExpressionType
    ensures { result ≡ spec.seen_as value_type }
{
    match value_type {
        ValueType::Bool => ExpressionType::Bool,
        ValueType::Int(_) => ExpressionType::Signed,
        ValueType::Uint(_) => ExpressionType::Unsigned,
        ValueType::Logic => ExpressionType::Logic,
        ValueType::Vector(width) => ExpressionType::Vector(width),
        ValueType::Time => ExpressionType::Time,
        ValueType::Process => ExpressionType::Process,
        ValueType::Payload => ExpressionType::Payload,
    }
}

/// Whether it is an integer.
pub fn is_integer(e: ExpressionType) -> bool
    ensures { result ≡ spec.is_integer e }
{
    matches!(
        e,
        ExpressionType::Free | ExpressionType::Signed | ExpressionType::Unsigned
    )
}

/// Whether it is a truth value.
pub fn is_bool(e: ExpressionType) -> bool
    ensures { result ≡ spec.is_bool e }
{
    matches!(e, ExpressionType::Bool)
}

/// Whether it is a logic digit.
pub fn is_logic(e: ExpressionType) -> bool
    ensures { result ≡ spec.is_logic e }
{
    matches!(e, ExpressionType::Logic)
}

/// Whether it is a time.
pub fn is_time(e: ExpressionType) -> bool
    ensures { result ≡ spec.is_time e }
{
    matches!(e, ExpressionType::Time)
}

/// Whether it is a handle of a process.
pub fn is_process(e: ExpressionType) -> bool
    ensures { result ≡ spec.is_process e }
{
    matches!(e, ExpressionType::Process)
}

/// Whether it is a handle of a payload.
pub fn is_payload(e: ExpressionType) -> bool
    ensures { result ≡ spec.is_payload e }
{
    matches!(e, ExpressionType::Payload)
}

/// Whether it is a vector of so many digits.
pub fn is_vector_of(width: u8, e: ExpressionType) -> bool
    ensures { result ≡ spec.is_vector_of width e }
{
    match e {
        ExpressionType::Vector(other) => width == other,
        _ => false,
    }
}

/// The type, where a test on it holds.
fn type_if(test: bool, e: ExpressionType) -> Option<ExpressionType>
    ensures { result ≡ spec.option_if test e }
{
    if test { Some(e) } else { None }
}

/// The sign that two integers have together: a free one takes that of the other.
fn one_sign(left: ExpressionType, right: ExpressionType) -> Option<ExpressionType>
    ensures { result ≡ spec.one_sign left right }
{
    match (left, right) {
        (ExpressionType::Free, right) => type_if(is_integer(right), right),
        (ExpressionType::Signed, ExpressionType::Free | ExpressionType::Signed) => {
            Some(ExpressionType::Signed)
        }
        (ExpressionType::Unsigned, ExpressionType::Free | ExpressionType::Unsigned) => {
            Some(ExpressionType::Unsigned)
        }
        _ => None,
    }
}

/// Integers of one sign, or two times.
fn quantities(left: ExpressionType, right: ExpressionType) -> Option<ExpressionType>
    ensures { result ≡ spec.quantities left right }
{
    match left {
        ExpressionType::Free | ExpressionType::Signed | ExpressionType::Unsigned => {
            one_sign(left, right)
        }
        ExpressionType::Time => type_if(is_time(right), left),
        _ => None,
    }
}

/// Integers of one sign, two truth values, two logic digits, or vectors of one width.
fn bitwise(left: ExpressionType, right: ExpressionType) -> Option<ExpressionType>
    ensures { result ≡ spec.bitwise left right }
{
    match left {
        ExpressionType::Free | ExpressionType::Signed | ExpressionType::Unsigned => {
            one_sign(left, right)
        }
        ExpressionType::Bool => type_if(is_bool(right), left),
        ExpressionType::Logic => type_if(is_logic(right), left),
        ExpressionType::Vector(width) => type_if(is_vector_of(width, right), left),
        _ => None,
    }
}

/// What is compared for equality: integers of one sign, or two of one other type.
fn compared(left: ExpressionType, right: ExpressionType) -> Option<ExpressionType>
    ensures { result ≡ spec.compared left right }
{
    match left {
        ExpressionType::Free | ExpressionType::Signed | ExpressionType::Unsigned => {
            one_sign(left, right)
        }
        ExpressionType::Bool => type_if(is_bool(right), left),
        ExpressionType::Logic => type_if(is_logic(right), left),
        ExpressionType::Vector(width) => type_if(is_vector_of(width, right), left),
        ExpressionType::Time => type_if(is_time(right), left),
        ExpressionType::Process => type_if(is_process(right), left),
        ExpressionType::Payload => type_if(is_payload(right), left),
    }
}

/// Two truth values.
fn truths(left: ExpressionType, right: ExpressionType) -> Option<ExpressionType>
    ensures { result ≡ spec.truths left right }
{
    type_if(is_bool(left) && is_bool(right), ExpressionType::Bool)
}

/// An integer, and any integer as the amount.
fn shifted(left: ExpressionType, right: ExpressionType) -> Option<ExpressionType>
    ensures { result ≡ spec.shifted left right }
{
    type_if(is_integer(left) && is_integer(right), left)
}

/// Integers of one sign, or a time and an integer.
fn multiplied(left: ExpressionType, right: ExpressionType) -> Option<ExpressionType>
    ensures { result ≡ spec.multiplied left right }
{
    match left {
        ExpressionType::Free | ExpressionType::Signed | ExpressionType::Unsigned => {
            one_sign(left, right)
        }
        ExpressionType::Time => type_if(is_integer(right), left),
        _ => None,
    }
}

/// What the operands of an operator are taken as together; none where they do not fit.
pub fn operands(op: BinaryOp, left: ExpressionType, right: ExpressionType) -> Option<ExpressionType>
    ensures { result ≡ spec.operands op left right }
{
    match op {
        BinaryOp::OrElse | BinaryOp::AndThen => truths(left, right),
        BinaryOp::BitOr | BinaryOp::BitXor | BinaryOp::BitAnd => bitwise(left, right),
        BinaryOp::Equal | BinaryOp::NotEqual => compared(left, right),
        BinaryOp::Less
        | BinaryOp::LessEqual
        | BinaryOp::Greater
        | BinaryOp::GreaterEqual
        | BinaryOp::Add
        | BinaryOp::Subtract => quantities(left, right),
        BinaryOp::ShiftLeft | BinaryOp::ShiftRight => shifted(left, right),
        BinaryOp::Multiply => multiplied(left, right),
        BinaryOp::Divide | BinaryOp::Remainder => one_sign(left, right),
    }
}

/// What an operator gives for operands that are taken as this.
pub fn given(op: BinaryOp, taken: ExpressionType) -> ExpressionType
    ensures { result ≡ spec.given op taken }
{
    match op {
        BinaryOp::OrElse
        | BinaryOp::AndThen
        | BinaryOp::Equal
        | BinaryOp::NotEqual
        | BinaryOp::Less
        | BinaryOp::LessEqual
        | BinaryOp::Greater
        | BinaryOp::GreaterEqual => ExpressionType::Bool,
        BinaryOp::BitOr
        | BinaryOp::BitXor
        | BinaryOp::BitAnd
        | BinaryOp::ShiftLeft
        | BinaryOp::ShiftRight
        | BinaryOp::Add
        | BinaryOp::Subtract
        | BinaryOp::Multiply
        | BinaryOp::Divide
        | BinaryOp::Remainder => taken,
    }
}

/// Whether `~` takes it.
fn is_bitwise(e: ExpressionType) -> bool
    ensures { result ≡ spec.is_bitwise e }
{
    match e {
        ExpressionType::Free
        | ExpressionType::Signed
        | ExpressionType::Unsigned
        | ExpressionType::Bool
        | ExpressionType::Logic
        | ExpressionType::Vector(_) => true,
        ExpressionType::Time | ExpressionType::Process | ExpressionType::Payload => false,
    }
}

/// What a prefix operator gives; none where its operand does not fit.
pub fn unary_type(op: UnaryOp, e: ExpressionType) -> Option<ExpressionType>
    ensures { result ≡ spec.unary_type op e }
{
    match op {
        UnaryOp::Negate => type_if(is_integer(e), e),
        UnaryOp::Not => type_if(is_bool(e), ExpressionType::Bool),
        UnaryOp::Complement => type_if(is_bitwise(e), e),
    }
}

/// Whether `int` and `uint` take it.
fn is_number_like(e: ExpressionType) -> bool
    ensures { result ≡ spec.is_number_like e }
{
    match e {
        ExpressionType::Free
        | ExpressionType::Signed
        | ExpressionType::Unsigned
        | ExpressionType::Bool
        | ExpressionType::Logic
        | ExpressionType::Vector(_) => true,
        ExpressionType::Time | ExpressionType::Process | ExpressionType::Payload => false,
    }
}

/// What a conversion gives; none where its operand does not fit.
pub fn conversion_type(conversion: Conversion, e: ExpressionType) -> Option<ExpressionType>
    ensures { result ≡ spec.conversion_type conversion e }
{
    match conversion {
        Conversion::Int => type_if(is_number_like(e), ExpressionType::Signed),
        Conversion::Uint => type_if(is_number_like(e), ExpressionType::Unsigned),
        Conversion::Bool => type_if(is_integer(e) || is_logic(e), ExpressionType::Bool),
        Conversion::Logic => type_if(is_bool(e), ExpressionType::Logic),
    }
}

/// Whether it can become a vector of so many digits.
pub fn becomes_vector(width: u64, e: ExpressionType) -> bool
    ensures { result ≡ spec.becomes_vector width e }
{
    match e {
        ExpressionType::Free
        | ExpressionType::Signed
        | ExpressionType::Unsigned
        | ExpressionType::Vector(_) => true,
        ExpressionType::Logic => width == 1,
        ExpressionType::Bool
        | ExpressionType::Time
        | ExpressionType::Process
        | ExpressionType::Payload => false,
    }
}

/// The vector of the digits of two, at most 64 together.
fn joined(upper: u8, lower: u8) -> Option<ExpressionType>
    ensures { result ≡ spec.joined_width upper (type_of.Vector lower) }
{
    let width = u16::from(upper) + u16::from(lower);
    if width <= 64 {
        Some(ExpressionType::Vector(width as u8))
    } else {
        None
    }
}

/// What `concat` gives; none where its operands do not fit.
pub fn concat_type(upper: ExpressionType, lower: ExpressionType) -> Option<ExpressionType>
    ensures { result ≡ spec.concat_type upper lower }
{
    match (upper, lower) {
        (ExpressionType::Vector(upper), ExpressionType::Vector(lower)) => joined(upper, lower),
        _ => None,
    }
}

/// The type of a digit; none where there are none.
pub fn digit_type(e: ExpressionType) -> Option<ExpressionType>
    ensures { result ≡ spec.digit_type e }
{
    match e {
        ExpressionType::Free | ExpressionType::Signed | ExpressionType::Unsigned => {
            Some(ExpressionType::Bool)
        }
        ExpressionType::Vector(_) => Some(ExpressionType::Logic),
        _ => None,
    }
}

/// How many digits can be sliced; none of a type without digits.
pub fn digit_count(e: ExpressionType) -> Option<u8>
    ensures { result ≡ spec.digit_count e }
{
    match e {
        ExpressionType::Free | ExpressionType::Signed | ExpressionType::Unsigned => Some(64),
        ExpressionType::Vector(width) => Some(width),
        _ => None,
    }
}

/// Whether the bounds of a slice are in range.
pub fn is_within(high: u64, low: u64, count: u8) -> bool
    ensures { result ≡ spec.is_within high low count }
{
    low <= high && high < u64::from(count)
}

/// The type of some digits of a type that has digits.
fn digits_of(high: u64, low: u64, e: ExpressionType) -> ExpressionType
    requires low { low ≤ high }
    requires high { high < 255 }
    ensures { result ≡ spec.digits_of high low e }
{
    match e {
        ExpressionType::Vector(_) => ExpressionType::Vector((high - low + 1) as u8),
        _ => ExpressionType::Unsigned,
    }
}

/// What a slice gives; none where there are no such digits.
pub fn slice_type(high: u64, low: u64, e: ExpressionType) -> Option<ExpressionType>
    ensures { result ≡ spec.slice_type high low e }
{
    match digit_count(e) {
        Some(count) if is_within(high, low, count) => Some(digits_of(high, low, e)),
        _ => None,
    }
}
