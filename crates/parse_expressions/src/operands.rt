ghost use Rattle.std.specs.Prelude.{◌≡◌, ℕ, ◌^◌, ◌<◌, length};
ghost use Rattle.model_tree.specs.Tree as tree;
ghost use Rattle.model_tree.specs.Views.{expression_of};
ghost use Rattle.model_lexer.specs.Tokens.{Tokens};
ghost use Rattle.parse_expressions.specs.Parse as spec;

use super::building::boxed;
use super::cursor::Cursor;
use super::starts::{Leaf, leaf_tree, level};
use model_tree::{Expression, ParseStop, Symbol};
use std::alloc::Global;

/// The most tokens of an expression.
pub const TOKEN_LIMIT: usize = 256;

/// A number, or a time where a unit comes behind it.
#[tactic(auto, unfolding(crate::specs::Parse::number_or_time))]
pub fn number_or_time(tokens: &mut Cursor<'_>) -> Result<Expression, ParseStop>
    ensures { spec.Parses expression_of spec.number_or_time tokens.old result tokens.new }
{
    let (line, number) = tokens.numbered()?;
    match tokens.unit() {
        None => Ok(Expression::Number(line, number)),
        Some(unit) => {
            let _unit_line = tokens.skip()?;
            Ok(Expression::Time(line, number, unit))
        }
    }
}

/// A logic literal.
#[tactic(auto, unfolding(crate::specs::Parse::literal))]
pub fn literal(tokens: &mut Cursor<'_>) -> Result<Expression, ParseStop>
    ensures { spec.Parses expression_of spec.literal tokens.old result tokens.new }
{
    let (line, value) = tokens.logical()?;
    Ok(Expression::Logic(line, value))
}

/// An operand that is the next token, a word.
#[tactic(auto, unfolding(crate::specs::Parse::leaf_expression))]
pub fn leaf_expression(tokens: &mut Cursor<'_>, leaf: Leaf) -> Result<Expression, ParseStop>
    ensures { spec.Parses expression_of (spec.leaf_expression leaf) tokens.old result tokens.new }
{
    let line = tokens.skip()?;
    Ok(leaf_tree(line, leaf))
}

/// The member of what was read.
#[tactic(auto, unfolding(crate::specs::Parse::member))]
pub fn member(
    alloc: Global,
    tokens: &mut Cursor<'_>,
    of: Expression,
) -> Result<Expression, ParseStop>
    ensures { spec.Parses expression_of (spec.member (expression_of of)) tokens.old result tokens.new }
{
    let _dot = tokens.symbol(Symbol::Dot)?;
    let name = tokens.name(alloc)?;
    Ok(Expression::Member(boxed(alloc, of)?, name))
}

/// The digits of what was read from the first bound down to the second one. The bracket before them was taken.
#[tactic(auto, unfolding(crate::specs::Parse::bounds))]
pub fn bounds(
    alloc: Global,
    tokens: &mut Cursor<'_>,
    of: Expression,
) -> Result<Expression, ParseStop>
    ensures { spec.Parses expression_of (spec.bounds (expression_of of)) tokens.old result tokens.new }
{
    let high = tokens.number()?;
    let _colon = tokens.symbol(Symbol::Colon)?;
    let low = tokens.number()?;
    let _close = tokens.symbol(Symbol::RightBracket)?;
    Ok(Expression::Slice(boxed(alloc, of)?, high, low))
}

/// Whether no `.` and no `[` comes.
pub fn at_no_link(tokens: &Cursor<'_>) -> bool
    ensures { result ≡ spec.at_no_link tokens.now }
{
    !tokens.sees_link()
}

/// Whether no operator of this level comes.
pub fn at_none_of(tokens: &Cursor<'_>, wanted: u8) -> bool
    ensures { result ≡ spec.at_none_of wanted tokens.now }
{
    match tokens.operator() {
        None => true,
        Some(operator) => level(operator) != wanted,
    }
}

/// What the descent found, within the limit of tokens. `before` tokens were there when it began, and `left` are
/// now. Where it took more than the limit, or as many and found nothing, the token past the limit is the one that
/// no expression goes on with, and Syntax names the line given for it.
pub fn within_limit(
    found: Result<Expression, ParseStop>,
    before: usize,
    left: usize,
    limit_line: u32,
) -> Result<Expression, ParseStop>
    requires { left < 2 ^ 63 }
    ensures { (p : spec.Parser tree.Expression) (ts rest : Tokens) → length ts ≡ before → length rest ≡ left → spec.Parses expression_of p ts found rest → spec.Parses expression_of (spec.short p) ts result rest }
{
    match found {
        Ok(expression) if before <= TOKEN_LIMIT + left => Ok(expression),
        Err(ParseStop::Syntax { line }) if before < TOKEN_LIMIT + left => {
            Err(ParseStop::Syntax { line })
        }
        Err(ParseStop::NoMemory) => Err(ParseStop::NoMemory),
        _ => Err(ParseStop::Syntax { line: limit_line }),
    }
}
