use super::leaves::Name;
use logic_values::Lv;
use sim_time::Unit;

/// A prefix operator.
#[derive(Clone, Copy)]
pub enum UnaryOp {
    /// `-`
    Negate,
    /// `!`
    Not,
    /// `~`
    Complement,
}

/// A binary operator. Those of one level group to the left.
#[derive(Clone, Copy)]
pub enum BinaryOp {
    /// `||`
    OrElse,
    /// `&&`
    AndThen,
    /// `|`
    BitOr,
    /// `^`
    BitXor,
    /// `&`
    BitAnd,
    /// `==`
    Equal,
    /// `!=`
    NotEqual,
    /// `<`
    Less,
    /// `<=`
    LessEqual,
    /// `>`
    Greater,
    /// `>=`
    GreaterEqual,
    /// `<<`
    ShiftLeft,
    /// `>>`
    ShiftRight,
    /// `+`
    Add,
    /// `-`
    Subtract,
    /// `*`
    Multiply,
    /// `/`
    Divide,
    /// `%`
    Remainder,
}

/// A conversion that is named by one word.
#[derive(Clone, Copy)]
pub enum Conversion {
    /// `int`
    Int,
    /// `uint`
    Uint,
    /// `bool`
    Bool,
    /// `logic`
    Logic,
}

/// A number of the payload's codes and phases, by its word.
#[derive(Clone, Copy)]
pub enum NamedConstant {
    /// `READ`, 0
    Read,
    /// `WRITE`, 1
    Write,
    /// `IGNORE`, 2
    Ignore,
    /// `OK`, 1
    OkResponse,
    /// `INCOMPLETE`, 0
    Incomplete,
    /// `GENERIC`, -1
    GenericError,
    /// `ADDRESS`, -2
    AddressError,
    /// `COMMAND`, -3
    CommandError,
    /// `BURST`, -4
    BurstError,
    /// `BYTE_ENABLE`, -5
    ByteEnableError,
    /// `BEGIN_REQ`, 1
    BeginReq,
    /// `END_REQ`, 2
    EndReq,
    /// `BEGIN_RESP`, 3
    BeginResp,
    /// `END_RESP`, 4
    EndResp,
    /// `ACCEPTED`, 0
    Accepted,
    /// `UPDATED`, 1
    Updated,
    /// `COMPLETED`, 2
    Completed,
}

/// An expression. The number in front is the line of its first token; where the first part is an
/// expression, its line serves. Parentheses are kept.
#[derive(Drop)]
pub enum Expression {
    /// A number.
    Number(u32, u64),
    /// A time: a number and its unit.
    Time(u32, u64, Unit),
    /// A logic literal: one digit is a logic, more are a vector.
    Logic(u32, Lv),
    /// `true` or `false`.
    Truth(u32, bool),
    /// `now`
    Now(u32),
    /// `self`
    Myself(u32),
    /// A number by its word.
    Constant(u32, NamedConstant),
    /// An expression in parentheses.
    Paren(u32, Box<Expression>),
    /// A conversion by a word.
    Convert(u32, Conversion, Box<Expression>),
    /// `lv<W>(e)`
    ToVector(u32, u64, Box<Expression>),
    /// `concat(a, b)`
    Concat(u32, Box<Expression>, Box<Expression>),
    /// A name.
    Named(u32, Name),
    /// The channel of a port at a place: `p@2`.
    Placed(u32, Name, u64),
    /// The channel of a port at a computed place: `p@(e)`.
    PlacedBy(u32, Name, Box<Expression>),
    /// A member: `e.name`.
    Member(Box<Expression>, Name),
    /// A digit or an element: `e[i]`.
    Element(Box<Expression>, Box<Expression>),
    /// Some digits: `e[high:low]`.
    Slice(Box<Expression>, u64, u64),
    /// A prefix operator before its operand.
    Unary(u32, UnaryOp, Box<Expression>),
    /// A binary operator between its operands.
    Binary(BinaryOp, Box<Expression>, Box<Expression>),
}
