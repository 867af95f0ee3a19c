ghost use Rattle.std.specs.Prelude.{◌≡◌};
ghost use Rattle.model_lexer.specs.Views.{token_of};
ghost use Rattle.model_lexer.specs.Expressions as grammar;
ghost use Rattle.parse_expressions.specs.Parse as spec;

use super::starts::{Start, operator_of, sign_of, symbol_start, unit_of, unit_word, word_start};
use model_lexer::TokenKind;
use model_lexer::sim_time_api::Unit;
use model_tree::{BinaryOp, Symbol, UnaryOp, Word};

/// Whether the token is this word.
pub fn is_the_word(kind: TokenKind<'_>, word: Word) -> bool
    ensures { result ≡ spec.is_the_word word (token_of kind.entry) }
{
    match kind {
        TokenKind::Word(found) => found == word,
        _ => false,
    }
}

/// Whether the token is this symbol.
pub fn is_the_symbol(kind: TokenKind<'_>, symbol: Symbol) -> bool
    ensures { result ≡ grammar.is_the_symbol symbol (token_of kind.entry) }
{
    match kind {
        TokenKind::Symbol(found) => found == symbol,
        _ => false,
    }
}

/// Whether the token is a number.
pub fn is_number(kind: TokenKind<'_>) -> bool
    ensures { result ≡ spec.is_number_in (token_of kind.entry) }
{
    match kind {
        TokenKind::Num(_) => true,
        _ => false,
    }
}

/// Whether the token is this number.
pub fn is_the_number(kind: TokenKind<'_>, number: u64) -> bool
    ensures { result ≡ spec.is_the_number number (token_of kind.entry) }
{
    match kind {
        TokenKind::Num(found) => found == number,
        _ => false,
    }
}

/// The unit that the token is, if it is one.
pub fn unit_in(kind: TokenKind<'_>) -> Option<Unit>
    ensures { result ≡ grammar.unit_in (token_of kind.entry) }
{
    match kind {
        TokenKind::Name(bytes) => unit_of(bytes),
        TokenKind::Word(word) => unit_word(word),
        _ => None,
    }
}

/// The binary operator that the token is, if it is one.
pub fn operator_in(kind: TokenKind<'_>) -> Option<BinaryOp>
    ensures { result ≡ grammar.operator_in (token_of kind.entry) }
{
    match kind {
        TokenKind::Symbol(symbol) => operator_of(symbol),
        _ => None,
    }
}

/// The prefix operator that the token is, if it is one.
pub fn sign_in(kind: TokenKind<'_>) -> Option<UnaryOp>
    ensures { result ≡ spec.sign_in (token_of kind.entry) }
{
    match kind {
        TokenKind::Symbol(symbol) => sign_of(symbol),
        _ => None,
    }
}

/// The operand that begins with the token.
pub fn token_start(kind: TokenKind<'_>) -> Start
    ensures { result ≡ spec.token_start (token_of kind.entry) }
{
    match kind {
        TokenKind::Name(_) => Start::Name,
        TokenKind::Num(_) => Start::Number,
        TokenKind::Logic(_) => Start::Logic,
        TokenKind::Text(_) => Start::Nothing,
        TokenKind::Word(word) => word_start(word),
        TokenKind::Symbol(symbol) => symbol_start(symbol),
    }
}

/// The word of the language that the token is, if it is one.
pub fn word_in(kind: TokenKind<'_>) -> Option<Word>
    ensures { result ≡ spec.word_in (token_of kind.entry) }
{
    match kind {
        TokenKind::Word(word) => Some(word),
        _ => None,
    }
}
