ghost use Rattle.std.specs.Prelude.{◌≡◌};
ghost use Rattle.model_tree.specs.Spelling as spec;

use super::expressions::{BinaryOp, Conversion, NamedConstant, UnaryOp};
use super::items::{PlainKind, ProcessKind, SignalKind};
use super::statements::Control;
use super::vocabulary::{Symbol, Word};
use sim_time::Unit;

pub fn unit_name(unit: Unit) -> &'static str
    ensures { result.now ≡ spec.unit_name unit }
{
    match unit {
        Unit::Fs => "fs",
        Unit::Ps => "ps",
        Unit::Ns => "ns",
        Unit::Us => "us",
        Unit::Ms => "ms",
        Unit::S => "s",
    }
}

/// The symbol of a prefix operator.
pub fn unary_symbol(op: UnaryOp) -> Symbol
    ensures { result ≡ spec.unary_symbol op }
{
    match op {
        UnaryOp::Negate => Symbol::Minus,
        UnaryOp::Not => Symbol::Bang,
        UnaryOp::Complement => Symbol::Tilde,
    }
}

/// The symbol of a binary operator.
pub fn binary_symbol(op: BinaryOp) -> Symbol
    ensures { result ≡ spec.binary_symbol op }
{
    match op {
        BinaryOp::OrElse => Symbol::OrOr,
        BinaryOp::AndThen => Symbol::AndAnd,
        BinaryOp::BitOr => Symbol::Bar,
        BinaryOp::BitXor => Symbol::Caret,
        BinaryOp::BitAnd => Symbol::Ampersand,
        BinaryOp::Equal => Symbol::EqualEqual,
        BinaryOp::NotEqual => Symbol::NotEqual,
        BinaryOp::Less => Symbol::Less,
        BinaryOp::LessEqual => Symbol::LessEqual,
        BinaryOp::Greater => Symbol::Greater,
        BinaryOp::GreaterEqual => Symbol::GreaterEqual,
        BinaryOp::ShiftLeft => Symbol::ShiftLeft,
        BinaryOp::ShiftRight => Symbol::ShiftRight,
        BinaryOp::Add => Symbol::Plus,
        BinaryOp::Subtract => Symbol::Minus,
        BinaryOp::Multiply => Symbol::Star,
        BinaryOp::Divide => Symbol::Slash,
        BinaryOp::Remainder => Symbol::Percent,
    }
}

/// The word of a conversion.
pub fn conversion_word(conversion: Conversion) -> Word
    ensures { result ≡ spec.conversion_word conversion }
{
    match conversion {
        Conversion::Int => Word::Int,
        Conversion::Uint => Word::Uint,
        Conversion::Bool => Word::Bool,
        Conversion::Logic => Word::Logic,
    }
}

/// The word of a named number.
pub fn constant_word(constant: NamedConstant) -> Word
    ensures { result ≡ spec.constant_word constant }
{
    match constant {
        NamedConstant::Read => Word::ReadCommand,
        NamedConstant::Write => Word::WriteCommand,
        NamedConstant::Ignore => Word::IgnoreCommand,
        NamedConstant::OkResponse => Word::OkResponse,
        NamedConstant::Incomplete => Word::IncompleteResponse,
        NamedConstant::GenericError => Word::GenericResponse,
        NamedConstant::AddressError => Word::AddressResponse,
        NamedConstant::CommandError => Word::CommandResponse,
        NamedConstant::BurstError => Word::BurstResponse,
        NamedConstant::ByteEnableError => Word::ByteEnableResponse,
        NamedConstant::BeginReq => Word::BeginReq,
        NamedConstant::EndReq => Word::EndReq,
        NamedConstant::BeginResp => Word::BeginResp,
        NamedConstant::EndResp => Word::EndResp,
        NamedConstant::Accepted => Word::Accepted,
        NamedConstant::Updated => Word::Updated,
        NamedConstant::Completed => Word::Completed,
    }
}

/// The word of a control call.
pub fn control_word(control: Control) -> Word
    ensures { result ≡ spec.control_word control }
{
    match control {
        Control::Suspend => Word::Suspend,
        Control::Resume => Word::Resume,
        Control::Disable => Word::Disable,
        Control::Enable => Word::Enable,
        Control::Kill => Word::Kill,
        Control::Reset => Word::Reset,
    }
}

pub fn signal_word(kind: SignalKind) -> Word
    ensures { result ≡ spec.signal_word kind }
{
    match kind {
        SignalKind::Signal => Word::Signal,
        SignalKind::Buffer => Word::Buffer,
    }
}

pub fn plain_word(kind: PlainKind) -> Word
    ensures { result ≡ spec.plain_word kind }
{
    match kind {
        PlainKind::Mutex => Word::Mutex,
        PlainKind::Event => Word::Event,
        PlainKind::Keeper => Word::Keeper,
    }
}

pub fn process_word(kind: ProcessKind) -> Word
    ensures { result ≡ spec.process_word kind }
{
    match kind {
        ProcessKind::Thread => Word::Thread,
        ProcessKind::Method => Word::Method,
    }
}
