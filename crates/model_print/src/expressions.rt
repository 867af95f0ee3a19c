ghost use Rattle.std.specs.Prelude.{◌≡◌, OnOk, map};
ghost use Rattle.model_tree.specs.Views.{expression_of, expressions_of};
ghost use Rattle.model_print.specs.Layout.{put_all};
ghost use Rattle.model_print.specs.Pieces as piece;
ghost use Rattle.model_print.specs.Printed as spec;

use super::leaves::{time, truth};
use crate::Page;
use model_tree::{
    Expression, Symbol, Word, binary_symbol, constant_word, conversion_word, unary_symbol,
};
use std::alloc::AllocError;

/// Writes an expression.
pub fn expression(page: &mut Page, e: &Expression) -> Result<(), AllocError>
    ensures { OnOk result (page.new ≡ put_all page.old (spec.expression (expression_of e.now))) }
{
    match e {
        Expression::Number(_, number) => page.number(*number),
        Expression::Time(_, count, unit) => time(page, *count, *unit),
        Expression::Logic(_, value) => page.logic(*value),
        Expression::Truth(_, value) => truth(page, *value),
        Expression::Now(_) => page.word(Word::Now),
        Expression::Myself(_) => page.word(Word::SelfProcess),
        Expression::Constant(_, constant) => page.word(constant_word(*constant)),
        Expression::Paren(_, inner) => {
            page.opening(Symbol::LeftParen)?;
            expression(page, inner)?;
            page.closing(Symbol::RightParen)
        }
        Expression::Convert(_, conversion, inner) => {
            page.type_word(conversion_word(*conversion))?;
            page.opening(Symbol::LeftParen)?;
            expression(page, inner)?;
            page.closing(Symbol::RightParen)
        }
        Expression::ToVector(_, width, inner) => {
            page.wide(Word::Lv, *width)?;
            page.opening(Symbol::LeftParen)?;
            expression(page, inner)?;
            page.closing(Symbol::RightParen)
        }
        Expression::Concat(_, upper, lower) => {
            page.type_word(Word::Concat)?;
            page.opening(Symbol::LeftParen)?;
            expression(page, upper)?;
            page.comma()?;
            expression(page, lower)?;
            page.closing(Symbol::RightParen)
        }
        Expression::Named(_, name) => page.name(name),
        Expression::Placed(_, name, place) => {
            page.name(name)?;
            page.joint(Symbol::At)?;
            page.number(*place)
        }
        Expression::PlacedBy(_, name, place) => {
            page.name(name)?;
            page.joint(Symbol::At)?;
            page.opening(Symbol::LeftParen)?;
            expression(page, place)?;
            page.closing(Symbol::RightParen)
        }
        Expression::Member(inner, name) => {
            expression(page, inner)?;
            page.joint(Symbol::Dot)?;
            page.name(name)
        }
        Expression::Element(inner, index) => {
            expression(page, inner)?;
            page.opening(Symbol::LeftBracket)?;
            expression(page, index)?;
            page.closing(Symbol::RightBracket)
        }
        Expression::Slice(inner, high, low) => {
            expression(page, inner)?;
            page.opening(Symbol::LeftBracket)?;
            page.number(*high)?;
            page.operator(Symbol::Colon)?;
            page.number(*low)?;
            page.closing(Symbol::RightBracket)
        }
        Expression::Unary(_, op, inner) => {
            page.prefix(unary_symbol(*op))?;
            expression(page, inner)
        }
        Expression::Binary(op, left, right) => {
            expression(page, left)?;
            page.operator(binary_symbol(*op))?;
            expression(page, right)
        }
    }
}

/// Writes each expression behind a comma.
fn more_expressions(page: &mut Page, es: &[Expression]) -> Result<(), AllocError>
    ensures { OnOk result (page.new ≡ put_all page.old (spec.more_expressions (expressions_of es.now))) }
{
    for e in es {
        page.comma()?;
        expression(page, e)?;
    }
    Ok(())
}

/// Writes expressions with commas between them.
fn listed(page: &mut Page, es: &[Expression]) -> Result<(), AllocError>
    ensures { OnOk result (page.new ≡ put_all page.old (piece.separated spec.expression (expressions_of es.now))) }
{
    match es {
        [] => Ok(()),
        [first, rest @ ..] => {
            expression(page, first)?;
            more_expressions(page, rest)
        }
    }
}

/// Writes expressions between round brackets.
pub fn arguments(page: &mut Page, es: &[Expression]) -> Result<(), AllocError>
    ensures { OnOk result (page.new ≡ put_all page.old (spec.arguments (expressions_of es.now))) }
{
    page.opening(Symbol::LeftParen)?;
    listed(page, es)?;
    page.closing(Symbol::RightParen)
}
