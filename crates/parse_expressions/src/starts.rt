ghost use Rattle.std.specs.Prelude.{◌≡◌};
ghost use Rattle.model_tree.specs.Views.{expression_of};
ghost use Rattle.model_tree.specs.Limits as limits;
ghost use Rattle.model_lexer.specs.Expressions as grammar;
ghost use Rattle.parse_expressions.specs.Parse as spec;

use model_lexer::sim_time_api::Unit;
use model_tree::{BinaryOp, Conversion, Expression, NamedConstant, Symbol, UnaryOp, Word};

/// An operand that is one word.
#[derive(Clone, Copy)]
pub enum Leaf {
    /// `true` or `false`
    Truth(bool),
    /// `now`
    Now,
    /// `self`
    Myself,
    /// A number by its word.
    Constant(NamedConstant),
}

/// What an operand is, by its first token.
#[derive(Clone, Copy)]
pub enum Start {
    /// A number or a time.
    Number,
    /// A logic literal.
    Logic,
    /// A name and what goes on with it.
    Name,
    /// An expression in parentheses.
    Paren,
    /// A word.
    Leaf(Leaf),
    /// A conversion by a word.
    Convert(Conversion),
    /// A conversion to a vector.
    Vector,
    /// Two vectors joined.
    Concat,
    /// No operand.
    Nothing,
}

/// The operand that begins with this word.
pub fn word_start(word: Word) -> Start
    ensures { result ≡ spec.word_start word }
{
    match word {
        Word::True => Start::Leaf(Leaf::Truth(true)),
        Word::False => Start::Leaf(Leaf::Truth(false)),
        Word::Now => Start::Leaf(Leaf::Now),
        Word::SelfProcess => Start::Leaf(Leaf::Myself),
        Word::ReadCommand => Start::Leaf(Leaf::Constant(NamedConstant::Read)),
        Word::WriteCommand => Start::Leaf(Leaf::Constant(NamedConstant::Write)),
        Word::IgnoreCommand => Start::Leaf(Leaf::Constant(NamedConstant::Ignore)),
        Word::OkResponse => Start::Leaf(Leaf::Constant(NamedConstant::OkResponse)),
        Word::IncompleteResponse => Start::Leaf(Leaf::Constant(NamedConstant::Incomplete)),
        Word::GenericResponse => Start::Leaf(Leaf::Constant(NamedConstant::GenericError)),
        Word::AddressResponse => Start::Leaf(Leaf::Constant(NamedConstant::AddressError)),
        Word::CommandResponse => Start::Leaf(Leaf::Constant(NamedConstant::CommandError)),
        Word::BurstResponse => Start::Leaf(Leaf::Constant(NamedConstant::BurstError)),
        Word::ByteEnableResponse => Start::Leaf(Leaf::Constant(NamedConstant::ByteEnableError)),
        Word::BeginReq => Start::Leaf(Leaf::Constant(NamedConstant::BeginReq)),
        Word::EndReq => Start::Leaf(Leaf::Constant(NamedConstant::EndReq)),
        Word::BeginResp => Start::Leaf(Leaf::Constant(NamedConstant::BeginResp)),
        Word::EndResp => Start::Leaf(Leaf::Constant(NamedConstant::EndResp)),
        Word::Accepted => Start::Leaf(Leaf::Constant(NamedConstant::Accepted)),
        Word::Updated => Start::Leaf(Leaf::Constant(NamedConstant::Updated)),
        Word::Completed => Start::Leaf(Leaf::Constant(NamedConstant::Completed)),
        Word::Int => Start::Convert(Conversion::Int),
        Word::Uint => Start::Convert(Conversion::Uint),
        Word::Bool => Start::Convert(Conversion::Bool),
        Word::Logic => Start::Convert(Conversion::Logic),
        Word::Lv => Start::Vector,
        Word::Concat => Start::Concat,
        _ => Start::Nothing,
    }
}

/// The operand that begins with this symbol.
pub fn symbol_start(symbol: Symbol) -> Start
    ensures { result ≡ spec.symbol_start symbol }
{
    match symbol {
        Symbol::LeftParen => Start::Paren,
        _ => Start::Nothing,
    }
}

/// The expression of a word at this line.
pub fn leaf_tree(line: u32, leaf: Leaf) -> Expression
    ensures { expression_of result ≡ spec.leaf_tree line leaf }
{
    match leaf {
        Leaf::Truth(value) => Expression::Truth(line, value),
        Leaf::Now => Expression::Now(line),
        Leaf::Myself => Expression::Myself(line),
        Leaf::Constant(constant) => Expression::Constant(line, constant),
    }
}

/// The prefix operator that the symbol is, if it is one.
pub fn sign_of(symbol: Symbol) -> Option<UnaryOp>
    ensures { result ≡ spec.sign_of symbol }
{
    match symbol {
        Symbol::Minus => Some(UnaryOp::Negate),
        Symbol::Bang => Some(UnaryOp::Not),
        Symbol::Tilde => Some(UnaryOp::Complement),
        _ => None,
    }
}

/// The binary operator that the symbol is, if it is one.
pub fn operator_of(symbol: Symbol) -> Option<BinaryOp>
    ensures { result ≡ grammar.operator_of symbol }
{
    match symbol {
        Symbol::OrOr => Some(BinaryOp::OrElse),
        Symbol::AndAnd => Some(BinaryOp::AndThen),
        Symbol::Bar => Some(BinaryOp::BitOr),
        Symbol::Caret => Some(BinaryOp::BitXor),
        Symbol::Ampersand => Some(BinaryOp::BitAnd),
        Symbol::EqualEqual => Some(BinaryOp::Equal),
        Symbol::NotEqual => Some(BinaryOp::NotEqual),
        Symbol::Less => Some(BinaryOp::Less),
        Symbol::LessEqual => Some(BinaryOp::LessEqual),
        Symbol::Greater => Some(BinaryOp::Greater),
        Symbol::GreaterEqual => Some(BinaryOp::GreaterEqual),
        Symbol::ShiftLeft => Some(BinaryOp::ShiftLeft),
        Symbol::ShiftRight => Some(BinaryOp::ShiftRight),
        Symbol::Plus => Some(BinaryOp::Add),
        Symbol::Minus => Some(BinaryOp::Subtract),
        Symbol::Star => Some(BinaryOp::Multiply),
        Symbol::Slash => Some(BinaryOp::Divide),
        Symbol::Percent => Some(BinaryOp::Remainder),
        _ => None,
    }
}

/// How tightly the operator binds: 0 is the weakest.
pub fn level(operator: BinaryOp) -> u8
    ensures { result ≡ limits.level operator }
{
    match operator {
        BinaryOp::OrElse => 0,
        BinaryOp::AndThen => 1,
        BinaryOp::BitOr => 2,
        BinaryOp::BitXor => 3,
        BinaryOp::BitAnd => 4,
        BinaryOp::Equal | BinaryOp::NotEqual => 5,
        BinaryOp::Less | BinaryOp::LessEqual | BinaryOp::Greater | BinaryOp::GreaterEqual => 6,
        BinaryOp::ShiftLeft | BinaryOp::ShiftRight => 7,
        BinaryOp::Add | BinaryOp::Subtract => 8,
        BinaryOp::Multiply | BinaryOp::Divide | BinaryOp::Remainder => 9,
    }
}

/// The unit that the word is, if it is one.
pub fn unit_word(word: Word) -> Option<Unit>
    ensures { result ≡ grammar.unit_word word }
{
    if word == Word::Fs {
        Some(Unit::Fs)
    } else {
        None
    }
}

/// The unit that these bytes name, if they name one.
pub fn unit_of(bytes: &[u8]) -> Option<Unit>
    ensures { result ≡ grammar.unit_of bytes.now }
{
    if bytes == "ps".as_bytes() {
        return Some(Unit::Ps);
    }
    if bytes == "ns".as_bytes() {
        return Some(Unit::Ns);
    }
    if bytes == "us".as_bytes() {
        return Some(Unit::Us);
    }
    if bytes == "ms".as_bytes() {
        return Some(Unit::Ms);
    }
    if bytes == "s".as_bytes() {
        return Some(Unit::S);
    }
    None
}
