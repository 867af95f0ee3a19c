ghost use Rattle.std.specs.Prelude.{◌≡◌, ◌*◌, option_map};
ghost use Rattle.flat_design.specs.Code.{term_of};
ghost use Rattle.code_rules.specs.LogicValues.Digits.{digits};
ghost use Rattle.code_rules.specs.LogicValues.declared.kinds.Value.TheVariants as value;
ghost use Rattle.flat_design.specs.Code as code;
ghost use Rattle.code_rules.specs.Terms as terms;
ghost use Rattle.code_rules.specs.ModelRules.Operators.{option_if};
ghost use Rattle.code_rules.specs.ModelRules.Types as types;
ghost use Rattle.code_rules.specs.SimTime.Times.{picoseconds_in};
ghost use Rattle.code_terms.specs.Parts as spec;

use super::parts::{Coded, made_if, value_part};
use check_expressions::{is_time_literal, logic_type, value_if};
use code_rules::logic_values_api::{Lv, Value, digit, vector_of_digits};
use code_rules::model_rules_api::ExpressionType;
use code_rules::sim_time_api::{Unit, picoseconds_of};
use flat_design::Expr;
use model_tree::NamedConstant;

/// The code of a number that is written out.
pub(crate) fn number(n: u64) -> Expr
    ensures { term_of result ≡ terms.number n }
{
    Expr::Literal(Value::Int { width: 64, bits: n })
}

/// The number modulo 2^64 of a named constant.
pub(crate) fn constant_bits(word: NamedConstant) -> u64
    ensures { result ≡ terms.constant_bits word }
{
    match word {
        NamedConstant::Read | NamedConstant::Incomplete | NamedConstant::Accepted => 0,
        NamedConstant::Write
        | NamedConstant::OkResponse
        | NamedConstant::BeginReq
        | NamedConstant::Updated => 1,
        NamedConstant::Ignore | NamedConstant::EndReq | NamedConstant::Completed => 2,
        NamedConstant::BeginResp => 3,
        NamedConstant::EndResp => 4,
        NamedConstant::GenericError => u64::MAX,
        NamedConstant::AddressError => u64::MAX - 1,
        NamedConstant::CommandError => u64::MAX - 2,
        NamedConstant::BurstError => u64::MAX - 3,
        NamedConstant::ByteEnableError => u64::MAX - 4,
    }
}

/// The value of a logic literal: a digit alone, or a vector.
pub(crate) fn logic_value(v: Lv) -> Value
    ensures { result ≡ terms.logic_value (digits v) }
{
    vector_of_digits();
    if v.width == 1 {
        Value::Logic(digit(v, 0))
    } else {
        Value::Vector(v)
    }
}

/// A logic literal.
pub(crate) fn logic_part(v: Lv) -> Coded
    ensures { spec.part_of result ≡ spec.value_part (types.logic_type (digits v)) (code.literal (terms.logic_value (digits v))) }
{
    value_part(logic_type(v), Expr::Literal(logic_value(v)))
}

/// The code of a time literal, which is none from 2^64 picoseconds on.
fn time_term(n: u64, unit: Unit) -> Option<Expr>
    ensures { option_map term_of result ≡ option_if (types.is_time_literal n unit) (code.literal (value.Moment (n * picoseconds_in unit))) }
{
    match picoseconds_of(n, unit) {
        None => None,
        Some(time) => Some(Expr::Literal(Value::Moment(time.0))),
    }
}

/// A time literal.
pub(crate) fn time_part(n: u64, unit: Unit) -> Coded
    ensures { spec.part_of result ≡ spec.time_part n unit }
{
    let time = if is_time_literal(n, unit) {
        Some(ExpressionType::Time)
    } else {
        None
    };
    Coded {
        seen: value_if(time),
        made: made_if(time_term(n, unit)),
    }
}
