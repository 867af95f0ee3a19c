ghost use Rattle.std.specs.Prelude.{◌≡◌, ◌^◌, ◌<◌, List, length, IfOk, IfErr, MatchResult};
ghost use Rattle.model_lexer.specs.Languages as spec;
ghost use Rattle.model_lexer.specs.Cut.{Lexeme, Cut, IsRefused};
ghost use Rattle.model_lexer.specs.Laws.{with_lines};
ghost use Rattle.model_lexer.specs.Views.{front_of, token_of, lexemes};

use super::lexing::{push, tokens};
use super::token::{Token, TokenKind, Tokens};
use model_tree::logic_values_api::Items;
use model_tree::{ParseStop, Symbol, Word, later_word_of};
use std::alloc::Global;

/// What stands in front of a token.
#[derive(Clone, Copy)]
pub enum Front {
    /// A number behind which a unit may stand.
    Number,
    /// An `@`.
    At,
    /// Anything else, or nothing.
    Other,
}

fn behind_symbol(symbol: Symbol) -> Front
    ensures { front_of result ≡ spec.behind_symbol symbol }
{
    match symbol {
        Symbol::At => Front::At,
        _ => Front::Other,
    }
}

/// The number behind an `@` is a place.
fn behind_number(front: Front) -> Front
    ensures { front_of result ≡ spec.number_behind (front_of front) }
{
    match front {
        Front::At => Front::Other,
        _ => Front::Number,
    }
}

fn behind(front: Front, kind: TokenKind<'_>) -> Front
    ensures { front_of result ≡ spec.behind (front_of front) (token_of kind.entry) }
{
    match kind {
        TokenKind::Num(_) => behind_number(front),
        TokenKind::Symbol(symbol) => behind_symbol(symbol),
        _ => Front::Other,
    }
}

fn later_name(bytes: &[u8]) -> TokenKind<'_>
    ensures { token_of result ≡ spec.later_name bytes.now }
{
    match later_word_of(bytes) {
        Some(word) => TokenKind::Word(word),
        None => TokenKind::Name(bytes),
    }
}

/// What a token of a text of language 2 is.
fn later_kind(front: Front, kind: TokenKind<'_>) -> TokenKind<'_>
    ensures { token_of result ≡ spec.later_token (front_of front) (token_of kind.entry) }
{
    match (kind, front) {
        (TokenKind::Name(bytes), Front::Number) if bytes == "fs".as_bytes() => {
            TokenKind::Word(Word::Fs)
        }
        (TokenKind::Name(bytes), _) => later_name(bytes),
        (other, _) => other,
    }
}

/// Whether the tokens are those of a text of language 2.
fn says_language(tokens: &[Token<'_>]) -> bool
    ensures { result ≡ spec.says_second (with_lines (lexemes tokens.now)) }
{
    match tokens {
        [first, ..] => match first.kind {
            TokenKind::Name(bytes) => bytes == "language".as_bytes(),
            _ => false,
        },
        [] => false,
    }
}

/// The tokens of a text of language 2.
fn in_second<'a>(alloc: Global, tokens: &[Token<'a>]) -> Result<Tokens<'a>, ParseStop>
    ensures ok { IfOk result (λ found. with_lines (lexemes found) ≡ spec.in_second spec.behind_other (with_lines (lexemes tokens.now))) }
    ensures err { IfErr result (λ e. e ≡ ParseStop.NoMemory) }
{
    let mut found = Items::new(alloc);
    let mut front = Front::Other;
    for token in tokens {
        let kind = later_kind(front, token.kind);
        push(&mut found, Token { kind, ..*token })?;
        front = behind(front, token.kind);
    }
    Ok(found)
}

/// The tokens of the text, as its language has them: where it begins with the name `language`, three names more are words, and
/// `fs` is a unit behind a number that is no place. Syntax exactly where a piece of the text is no token, or one past its limits,
/// with the line of the first such piece. The text is shorter than 2^32 bytes.
pub fn tokens_in_language(alloc: Global, text: &[u8]) -> Result<Tokens<'_>, ParseStop>
    requires { length text.now < 2 ^ 32 }
    ensures found { IfOk result (λ found. (ts : List Lexeme) × Cut text.now ts × (with_lines (lexemes found) ≡ spec.in_language (with_lines ts))) }
    ensures refused { IfErr result (IsRefused text.now) }
    ensures only { (ts : List Lexeme) → Cut text.now ts → MatchResult result (λ found. with_lines (lexemes found) ≡ spec.in_language (with_lines ts)) (λ e. e ≡ ParseStop.NoMemory) }
{
    let cut = tokens(alloc, text)?;
    if says_language(cut.as_slice()) {
        in_second(alloc, cut.as_slice())
    } else {
        Ok(cut)
    }
}
