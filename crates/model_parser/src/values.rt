ghost use Rattle.std.specs.Prelude.{◌≡◌, Some};
ghost use Rattle.parse_statements.specs.LogicValues.Digits.{digits};
ghost use Rattle.parse_statements.specs.ModelLexer.Tokens.{Tokens};
ghost use Rattle.parse_statements.specs.ParseExpressions.Parse.{Parses};
ghost use Rattle.model_parser.specs.ItemParse as spec;

use model_tree::{Constant, ConstantForm, ParseStop, Span, Symbol, Word};
use parse_statements::logic_values_api::Lv;
use parse_statements::parse_expressions_api::Cursor;
use parse_statements::sim_time_api::Unit;

/// A unit of time.
#[tactic(auto, unfolding(crate::specs::ItemParse::time_unit))]
fn time_unit(tokens: &mut Cursor<'_>) -> Result<Unit, ParseStop>
    ensures { Parses (λ u. u) spec.time_unit tokens.old result tokens.new }
{
    match tokens.unit() {
        Some(unit) => {
            let _line = tokens.skip()?;
            Ok(unit)
        }
        None => Err(ParseStop::Syntax {
            line: tokens.line(),
        }),
    }
}

/// A number and its unit.
#[tactic(auto, unfolding(crate::specs::ItemParse::time_span))]
pub fn time_span(tokens: &mut Cursor<'_>) -> Result<Span, ParseStop>
    ensures { Parses (λ t. t) spec.time_span tokens.old result tokens.new }
{
    let count = tokens.number()?;
    let unit = time_unit(tokens)?;
    Ok(Span { count, unit })
}

/// A number, with its unit where one comes.
#[tactic(auto, unfolding(crate::specs::ItemParse::number_constant))]
fn number_constant(tokens: &mut Cursor<'_>) -> Result<Constant, ParseStop>
    ensures { Parses (λ c. c) spec.number_constant tokens.old result tokens.new }
{
    let (line, number) = tokens.numbered()?;
    match tokens.unit() {
        Some(unit) => {
            let _line = tokens.skip()?;
            Ok(Constant {
                line,
                form: ConstantForm::Time(number, unit),
            })
        }
        None => Ok(Constant {
            line,
            form: ConstantForm::Number(number),
        }),
    }
}

/// A number behind a minus.
#[tactic(auto, unfolding(crate::specs::ItemParse::negative_constant))]
fn negative_constant(tokens: &mut Cursor<'_>) -> Result<Constant, ParseStop>
    ensures { Parses (λ c. c) spec.negative_constant tokens.old result tokens.new }
{
    let line = tokens.symbol(Symbol::Minus)?;
    let number = tokens.number()?;
    Ok(Constant {
        line,
        form: ConstantForm::Negative(number),
    })
}

/// `true` or `false`, by its word.
#[tactic(auto, unfolding(crate::specs::ItemParse::truth_constant))]
fn truth_constant(tokens: &mut Cursor<'_>, word: Word, value: bool) -> Result<Constant, ParseStop>
    ensures { Parses (λ c. c) (spec.truth_constant word value) tokens.old result tokens.new }
{
    let line = tokens.word(word)?;
    Ok(Constant {
        line,
        form: ConstantForm::Truth(value),
    })
}

/// The constant of a vector.
fn of_vector(line: u32, value: Lv) -> Constant
    ensures { (ts : Tokens) → spec.vector_constant (line, digits value) ts ≡ Some (result, ts) }
{
    Constant {
        line,
        form: ConstantForm::Logic(value),
    }
}

/// A logic literal.
#[tactic(auto, unfolding(crate::specs::ItemParse::logic_constant))]
fn logic_constant(tokens: &mut Cursor<'_>) -> Result<Constant, ParseStop>
    ensures { Parses (λ c. c) spec.logic_constant tokens.old result tokens.new }
{
    let (line, value) = tokens.logical()?;
    Ok(of_vector(line, value))
}

/// A constant of an item.
#[tactic(auto, unfolding(crate::specs::ItemParse::constant))]
pub fn constant(tokens: &mut Cursor<'_>) -> Result<Constant, ParseStop>
    ensures { Parses (λ c. c) spec.constant tokens.old result tokens.new }
{
    if tokens.sees_number() {
        return number_constant(tokens);
    }
    if tokens.sees_symbol(Symbol::Minus) {
        return negative_constant(tokens);
    }
    if tokens.sees_word(Word::True) {
        return truth_constant(tokens, Word::True, true);
    }
    if tokens.sees_word(Word::False) {
        return truth_constant(tokens, Word::False, false);
    }
    logic_constant(tokens)
}

/// A first value, if one is written.
#[tactic(auto, unfolding(crate::specs::ItemParse::first_value))]
pub fn first_value(tokens: &mut Cursor<'_>) -> Result<Option<Constant>, ParseStop>
    ensures { Parses (λ c. c) spec.first_value tokens.old result tokens.new }
{
    if tokens.sees_symbol(Symbol::Equal) {
        let _equal = tokens.symbol(Symbol::Equal)?;
        let value = constant(tokens)?;
        return Ok(Some(value));
    }
    Ok(None)
}
