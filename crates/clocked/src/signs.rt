//! Tokens, as clocked threads tell them apart.
ghost use Rattle.std.specs.Prelude.{◌≡◌};
ghost use Rattle.model_lexer.specs.Views.{token_of};
ghost use Rattle.clocked.specs.Words as spec;
ghost use Rattle.clocked.specs.Views.{sign_in};

use super::words::{NewWord, new_word_of};
use model_lexer::TokenKind;
use model_tree::{Symbol, Word};

/// What a token is to a clocked thread.
#[derive(Clone, Copy)]
pub enum Sign<'a> {
    /// A new word.
    New(NewWord),
    /// Any other name.
    OldName(&'a [u8]),
    /// A number.
    Number(u64),
    /// `true` or `false`.
    Truth(bool),
    /// `{`
    LeftBrace,
    /// `}`
    RightBrace,
    /// `(`
    LeftParen,
    /// `)`
    RightParen,
    /// `.`
    Dot,
    /// `@`
    AtSign,
    /// `;`
    Semicolon,
    /// Any other token.
    Other,
}

fn sign_of_name(word: Option<NewWord>, bytes: &[u8]) -> Sign<'_>
    ensures { sign_in result ≡ spec.sign_of_name word bytes.now }
{
    match word {
        None => Sign::OldName(bytes),
        Some(word) => Sign::New(word),
    }
}

fn sign_of_word(word: Word) -> Sign<'static>
    ensures { sign_in result ≡ spec.sign_of_word word }
{
    match word {
        Word::True => Sign::Truth(true),
        Word::False => Sign::Truth(false),
        _ => Sign::Other,
    }
}

fn sign_of_symbol(symbol: Symbol) -> Sign<'static>
    ensures { sign_in result ≡ spec.sign_of_symbol symbol }
{
    match symbol {
        Symbol::LeftBrace => Sign::LeftBrace,
        Symbol::RightBrace => Sign::RightBrace,
        Symbol::LeftParen => Sign::LeftParen,
        Symbol::RightParen => Sign::RightParen,
        Symbol::Dot => Sign::Dot,
        Symbol::At => Sign::AtSign,
        Symbol::Semicolon => Sign::Semicolon,
        _ => Sign::Other,
    }
}

/// What the token is to a clocked thread.
pub fn sign_of(kind: TokenKind<'_>) -> Sign<'_>
    ensures { sign_in result ≡ spec.sign_of (token_of kind.entry) }
{
    match kind {
        TokenKind::Name(bytes) => sign_of_name(new_word_of(bytes), bytes),
        TokenKind::Num(value) => Sign::Number(value),
        TokenKind::Logic(_) => Sign::Other,
        TokenKind::Text(_) => Sign::Other,
        TokenKind::Word(word) => sign_of_word(word),
        TokenKind::Symbol(symbol) => sign_of_symbol(symbol),
    }
}
