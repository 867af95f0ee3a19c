ghost use Rattle.std.specs.Prelude.{◌≡◌, IfOk};
ghost use Rattle.flat_design.specs.Code.{term_of};
ghost use Rattle.code_rules.specs.Terms as terms;
ghost use Rattle.code_rules.specs.ModelRules.Operators as operators;

use code_rules::logic_values_api::Value;
use code_rules::model_rules_api::ExpressionType;
use flat_design::{Expr, ValueType};
use model_tree::BinaryOp;
use std::alloc::{AllocError, Global};

/// The type of the values of an expression of this type: what is still free is signed.
pub fn evaluated_as(e: ExpressionType) -> ValueType
    ensures { result ≡ operators.evaluated_as e }
{
    match e {
        ExpressionType::Free | ExpressionType::Signed => ValueType::Int(64),
        ExpressionType::Unsigned => ValueType::Uint(64),
        ExpressionType::Bool => ValueType::Bool,
        ExpressionType::Logic => ValueType::Logic,
        ExpressionType::Vector(width) => ValueType::Vector(width),
        ExpressionType::Time => ValueType::Time,
        ExpressionType::Process => ValueType::Process,
        ExpressionType::Payload => ValueType::Payload,
    }
}

/// The same integer taken as an unsigned one: what is written out is so from the start.
fn as_unsigned(alloc: Global, term: Expr) -> Result<Expr, AllocError>
    ensures { IfOk result (λ e. term_of e ≡ terms.as_unsigned (term_of term)) }
{
    match term {
        Expr::Literal(Value::Int { width: _, bits }) => {
            Ok(Expr::Literal(Value::Uint { width: 64, bits }))
        }
        other => {
            let operand = Box::new(alloc, other)?;
            Ok(Expr::Convert(ValueType::Uint(64), ValueType::Int(64), operand))
        }
    }
}

/// An operand of the first type where the operands are taken as the second together.
pub(crate) fn taken_as(
    alloc: Global,
    own: ExpressionType,
    taken: ExpressionType,
    term: Expr,
) -> Result<Expr, AllocError>
    ensures { IfOk result (λ e. term_of e ≡ terms.taken_as own taken (term_of term)) }
{
    match (own, taken) {
        (ExpressionType::Free, ExpressionType::Unsigned) => as_unsigned(alloc, term),
        _ => Ok(term),
    }
}

/// What the right operand is taken as: the amount of a shift and the factor of a time keep their own sign.
pub(crate) fn right_taken(
    op: BinaryOp,
    own: ExpressionType,
    taken: ExpressionType,
) -> ExpressionType
    ensures { result ≡ terms.right_taken op own taken }
{
    match op {
        BinaryOp::ShiftLeft | BinaryOp::ShiftRight => own,
        BinaryOp::OrElse
        | BinaryOp::AndThen
        | BinaryOp::BitOr
        | BinaryOp::BitXor
        | BinaryOp::BitAnd
        | BinaryOp::Equal
        | BinaryOp::NotEqual
        | BinaryOp::Less
        | BinaryOp::LessEqual
        | BinaryOp::Greater
        | BinaryOp::GreaterEqual
        | BinaryOp::Add
        | BinaryOp::Subtract
        | BinaryOp::Multiply
        | BinaryOp::Divide
        | BinaryOp::Remainder => taken,
    }
}
