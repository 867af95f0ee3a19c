use super::names::{Member, NameUse, PayloadBytes};
use super::value_types::ValueType;
use model_tree::logic_values_api::Value;
use model_tree::{BinaryOp, UnaryOp};

/// An expression of the code. Integers have 64 bits in it, and each operation knows the type of its operands: where
/// they are integers, their sign. Numbers after names are places among the names that the module declares.
#[derive(Drop)]
pub enum Expr {
    /// A value that is written out, or one of the named constants.
    Literal(Value),
    /// `now`
    Now,
    /// `self`
    Myself,
    /// A variable, a channel that is read, or a process.
    Name(NameUse),
    /// A port's channel at a place, read.
    Placed(u32, Box<Expr>),
    /// A member of an object.
    Member(NameUse, Member),
    /// A member of a port's channel at a place.
    PlacedMember(u32, Box<Expr>, Member),
    /// An element of a memory.
    Element(u32, Box<Expr>),
    /// A byte of a payload.
    PayloadByte(NameUse, PayloadBytes, Box<Expr>),
    /// A digit of a value of this type.
    Digit(ValueType, Box<Expr>, Box<Expr>),
    /// The digits of a value of this type from the first place down to the second.
    Digits(ValueType, Box<Expr>, u8, u8),
    /// A prefix operator before an operand of this type.
    Unary(UnaryOp, ValueType, Box<Expr>),
    /// A binary operator. The type is that of the left operand.
    Binary(BinaryOp, ValueType, Box<Expr>, Box<Expr>),
    /// A conversion to the first type from the second.
    Convert(ValueType, ValueType, Box<Expr>),
    /// Two vectors as one, the first as the upper part.
    Concat(Box<Expr>, Box<Expr>),
}
