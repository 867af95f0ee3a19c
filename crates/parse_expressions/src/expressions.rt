ghost use Rattle.std.specs.Prelude.{◌≡◌, ℕ, ◌+◌, ◌<◌, ◌≤◌};
ghost use Rattle.model_tree.specs.Views.{expression_of};
ghost use Rattle.parse_expressions.specs.Parse as spec;

use super::building::boxed;
use super::cursor::Cursor;
use super::operands::{
    TOKEN_LIMIT, at_no_link, at_none_of, bounds, leaf_expression, literal, member, number_or_time,
    within_limit,
};
use super::starts::Start;
use model_tree::{Conversion, Expression, Name, ParseStop, Symbol, UnaryOp};
use std::alloc::Global;

/// The levels of binary operators.
const LEVELS: u8 = 10;

/// One turn more of a loop over the parts of an expression than it can take.
const TURNS: u16 = 257;

/// An expression in parentheses, and the line of the first. So many brackets may be opened in it.
#[cycle(expression)]
#[tactic(auto, unfolding(crate::specs::Parse::group))]
pub fn group(
    alloc: Global,
    tokens: &mut Cursor<'_>,
    depth: u8,
) -> Result<(u32, Expression), ParseStop>
    ensures { spec.Parses (λ x. (x.0, expression_of x.1)) (spec.group depth (spec.inside depth)) tokens.old result tokens.new }
{
    let line = tokens.opened(depth, Symbol::LeftParen)?;
    let inner = inside(alloc, tokens, depth)?;
    let _close = tokens.symbol(Symbol::RightParen)?;
    Ok((line, inner))
}

/// An operand in parentheses.
#[cycle(expression)]
#[tactic(auto, unfolding(crate::specs::Parse::paren))]
fn paren(alloc: Global, tokens: &mut Cursor<'_>, depth: u8) -> Result<Expression, ParseStop>
    ensures { spec.Parses expression_of (spec.paren depth (spec.inside depth)) tokens.old result tokens.new }
{
    let (line, inner) = group(alloc, tokens, depth)?;
    Ok(Expression::Paren(line, boxed(alloc, inner)?))
}

/// A conversion by a word, the next token.
#[cycle(expression)]
#[tactic(auto, unfolding(crate::specs::Parse::convert))]
fn convert(
    alloc: Global,
    tokens: &mut Cursor<'_>,
    depth: u8,
    conversion: Conversion,
) -> Result<Expression, ParseStop>
    ensures { spec.Parses expression_of (spec.convert depth (spec.inside depth) conversion) tokens.old result tokens.new }
{
    let line = tokens.skip()?;
    let (_paren_line, inner) = group(alloc, tokens, depth)?;
    Ok(Expression::Convert(line, conversion, boxed(alloc, inner)?))
}

/// A conversion to a vector, behind its word, the next token.
#[cycle(expression)]
#[tactic(auto, unfolding(crate::specs::Parse::vector))]
fn vector(alloc: Global, tokens: &mut Cursor<'_>, depth: u8) -> Result<Expression, ParseStop>
    ensures { spec.Parses expression_of (spec.vector depth (spec.inside depth)) tokens.old result tokens.new }
{
    let line = tokens.skip()?;
    let _less = tokens.symbol(Symbol::Less)?;
    let width = tokens.number()?;
    let _greater = tokens.symbol(Symbol::Greater)?;
    let (_paren_line, inner) = group(alloc, tokens, depth)?;
    Ok(Expression::ToVector(line, width, boxed(alloc, inner)?))
}

/// Two vectors joined, behind their word, the next token.
#[cycle(expression)]
#[tactic(auto, unfolding(crate::specs::Parse::concat))]
fn concat(alloc: Global, tokens: &mut Cursor<'_>, depth: u8) -> Result<Expression, ParseStop>
    ensures { spec.Parses expression_of (spec.concat depth (spec.inside depth)) tokens.old result tokens.new }
{
    let line = tokens.skip()?;
    let _open = tokens.opened(depth, Symbol::LeftParen)?;
    let upper = inside(alloc, tokens, depth)?;
    let _comma = tokens.symbol(Symbol::Comma)?;
    let lower = inside(alloc, tokens, depth)?;
    let _close = tokens.symbol(Symbol::RightParen)?;
    Ok(Expression::Concat(line, boxed(alloc, upper)?, boxed(alloc, lower)?))
}

/// The name at a place: its number, or an expression in parentheses.
#[cycle(expression)]
#[tactic(auto, unfolding(crate::specs::Parse::place))]
fn place(
    alloc: Global,
    tokens: &mut Cursor<'_>,
    depth: u8,
    line: u32,
    name: Name,
) -> Result<Expression, ParseStop>
    ensures { spec.Parses expression_of (spec.place depth (spec.inside depth) (line, name)) tokens.old result tokens.new }
{
    let _at = tokens.symbol(Symbol::At)?;
    if tokens.sees_number() {
        let number = tokens.number()?;
        return Ok(Expression::Placed(line, name, number));
    }
    let (_paren_line, inner) = group(alloc, tokens, depth)?;
    Ok(Expression::PlacedBy(line, name, boxed(alloc, inner)?))
}

/// A name, at a place or not.
#[cycle(expression)]
#[tactic(auto, unfolding(crate::specs::Parse::channel))]
fn channel(alloc: Global, tokens: &mut Cursor<'_>, depth: u8) -> Result<Expression, ParseStop>
    ensures { spec.Parses expression_of (spec.channel depth (spec.inside depth)) tokens.old result tokens.new }
{
    let (line, name) = tokens.named(alloc)?;
    if tokens.sees_symbol(Symbol::At) {
        return place(alloc, tokens, depth, line, name);
    }
    Ok(Expression::Named(line, name))
}

/// What was read with an index or with bounds.
#[cycle(expression)]
#[tactic(auto, unfolding(crate::specs::Parse::index))]
fn index(
    alloc: Global,
    tokens: &mut Cursor<'_>,
    depth: u8,
    of: Expression,
) -> Result<Expression, ParseStop>
    ensures { spec.Parses expression_of (spec.index depth (spec.inside depth) (expression_of of)) tokens.old result tokens.new }
{
    let _open = tokens.opened(depth, Symbol::LeftBracket)?;
    if tokens.sees_bounds() {
        return bounds(alloc, tokens, of);
    }
    let at = inside(alloc, tokens, depth)?;
    let _close = tokens.symbol(Symbol::RightBracket)?;
    Ok(Expression::Element(boxed(alloc, of)?, boxed(alloc, at)?))
}

/// What was read with the link that comes.
#[cycle(expression)]
#[tactic(auto, unfolding(crate::specs::Parse::link))]
fn link(
    alloc: Global,
    tokens: &mut Cursor<'_>,
    depth: u8,
    of: Expression,
) -> Result<Expression, ParseStop>
    ensures { spec.Parses expression_of (spec.link depth (spec.inside depth) (expression_of of)) tokens.old result tokens.new }
{
    if tokens.sees_symbol(Symbol::Dot) {
        return member(alloc, tokens, of);
    }
    index(alloc, tokens, depth, of)
}

/// A name and its links.
#[cycle(expression)]
#[tactic(auto, unfolding(crate::specs::Parse::chain))]
fn chain(alloc: Global, tokens: &mut Cursor<'_>, depth: u8) -> Result<Expression, ParseStop>
    ensures { spec.Parses expression_of (spec.chain depth (spec.inside depth)) tokens.old result tokens.new }
{
    let mut found = channel(alloc, tokens, depth)?;
    for turn in 0..TURNS {
        if at_no_link(tokens) {
            return Ok(found);
        }
        let longer = link(alloc, tokens, depth, found)?;
        found = longer;
    }
    Err(ParseStop::Syntax {
        line: tokens.line(),
    })
}

/// An operand without a prefix operator.
#[cycle(expression)]
#[tactic(auto, unfolding(crate::specs::Parse::primary))]
fn primary(alloc: Global, tokens: &mut Cursor<'_>, depth: u8) -> Result<Expression, ParseStop>
    ensures { spec.Parses expression_of (spec.primary depth (spec.inside depth)) tokens.old result tokens.new }
{
    match tokens.start() {
        Start::Number => number_or_time(tokens),
        Start::Logic => literal(tokens),
        Start::Name => chain(alloc, tokens, depth),
        Start::Paren => paren(alloc, tokens, depth),
        Start::Leaf(leaf) => leaf_expression(tokens, leaf),
        Start::Convert(conversion) => convert(alloc, tokens, depth, conversion),
        Start::Vector => vector(alloc, tokens, depth),
        Start::Concat => concat(alloc, tokens, depth),
        Start::Nothing => Err(ParseStop::Syntax {
            line: tokens.line(),
        }),
    }
}

/// An operand behind this prefix operator, the next token.
#[cycle(expression)]
#[tactic(auto, unfolding(crate::specs::Parse::unary))]
fn unary(
    alloc: Global,
    tokens: &mut Cursor<'_>,
    depth: u8,
    sign: UnaryOp,
) -> Result<Expression, ParseStop>
    ensures { spec.Parses expression_of (spec.unary depth (spec.inside depth) sign) tokens.old result tokens.new }
{
    let line = tokens.skip()?;
    let operand = primary(alloc, tokens, depth)?;
    Ok(Expression::Unary(line, sign, boxed(alloc, operand)?))
}

/// An operand.
#[cycle(expression)]
#[tactic(auto, unfolding(crate::specs::Parse::operand))]
fn operand(alloc: Global, tokens: &mut Cursor<'_>, depth: u8) -> Result<Expression, ParseStop>
    ensures { spec.Parses expression_of (spec.operand depth (spec.inside depth)) tokens.old result tokens.new }
{
    match tokens.sign() {
        None => primary(alloc, tokens, depth),
        Some(sign) => unary(alloc, tokens, depth, sign),
    }
}

/// What was read with the operator that comes and its right operand, of so many levels from the wanted one on.
#[cycle(expression)]
#[tactic(auto, unfolding(crate::specs::Parse::binary))]
fn binary(
    alloc: Global,
    tokens: &mut Cursor<'_>,
    depth: u8,
    levels: u8,
    wanted: u8,
    left: Expression,
) -> Result<Expression, ParseStop>
    requires { levels + wanted ≤ 10 }
    ensures { spec.Parses expression_of (spec.binary (spec.climb depth (spec.inside depth) levels wanted) (expression_of left)) tokens.old result tokens.new }
{
    let Some(operator) = tokens.operator() else {
        return Err(ParseStop::Syntax {
            line: tokens.line(),
        });
    };
    let _line = tokens.skip()?;
    let right = climb(alloc, tokens, depth, levels, wanted)?;
    Ok(Expression::Binary(operator, boxed(alloc, left)?, boxed(alloc, right)?))
}

/// Operands with operators of the wanted level between them. There are so many levels above it.
#[cycle(expression)]
#[tactic(auto, unfolding(crate::specs::Parse::levelled))]
fn levelled(
    alloc: Global,
    tokens: &mut Cursor<'_>,
    depth: u8,
    levels: u8,
    wanted: u8,
) -> Result<Expression, ParseStop>
    requires { levels + wanted < 10 }
    ensures { spec.Parses expression_of (spec.levelled wanted (spec.climb depth (spec.inside depth) levels (wanted + 1))) tokens.old result tokens.new }
{
    let mut found = climb(alloc, tokens, depth, levels, wanted + 1)?;
    for turn in 0..TURNS {
        if at_none_of(tokens, wanted) {
            return Ok(found);
        }
        let longer = binary(alloc, tokens, depth, levels, wanted + 1, found)?;
        found = longer;
    }
    Err(ParseStop::Syntax {
        line: tokens.line(),
    })
}

/// Operands with operators of so many levels between them, from the wanted one on.
#[cycle(expression)]
fn climb(
    alloc: Global,
    tokens: &mut Cursor<'_>,
    depth: u8,
    levels: u8,
    wanted: u8,
) -> Result<Expression, ParseStop>
    requires { levels + wanted ≤ 10 }
    ensures { spec.Parses expression_of (spec.climb depth (spec.inside depth) levels wanted) tokens.old result tokens.new }
{
    if levels == 0 {
        return operand(alloc, tokens, depth);
    }
    levelled(alloc, tokens, depth, levels - 1, wanted)
}

/// An expression of at most 256 tokens. So many brackets may be opened in it. A refusal names the line of the
/// token at which reading stops: one that no expression goes on with, or at the latest the one past the 256th.
#[cycle(expression)]
#[tactic(auto, unfolding(crate::specs::Parse::expression))]
pub fn expression(
    alloc: Global,
    tokens: &mut Cursor<'_>,
    depth: u8,
) -> Result<Expression, ParseStop>
    ensures { spec.Parses expression_of (spec.expression depth) tokens.old result tokens.new }
{
    let before = tokens.left();
    let limit_line = tokens.line_at(TOKEN_LIMIT);
    let found = climb(alloc, tokens, depth, LEVELS, 0);
    within_limit(found, before, tokens.left(), limit_line)
}

/// An expression in a bracket, which is one of so many that may be opened.
#[cycle(expression)]
pub fn inside(alloc: Global, tokens: &mut Cursor<'_>, depth: u8) -> Result<Expression, ParseStop>
    ensures { spec.Parses expression_of (spec.inside depth) tokens.old result tokens.new }
{
    if depth == 0 {
        return Err(ParseStop::Syntax {
            line: tokens.line(),
        });
    }
    expression(alloc, tokens, depth - 1)
}
