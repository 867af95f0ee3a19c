ghost use Rattle.std.specs.Prelude.{◌≡◌, ℕ, ◌+◌, ◌==◌, ◌^◌, ◌<◌, ◌≤◌, length, count_by, List, [], ◌∷◌, ◌++◌, OnOk, IfOk, IfErr, MatchResult};
ghost use Rattle.model_lexer.specs.Cut.{Lexeme, Cut, IsRefused};
ghost use Rattle.model_lexer.specs.Views.{lexemes, IsNext};

use super::forms::is_passed;
use super::fronts::{front, past, piece_at};
use super::meanings::meaning;
use super::token::{Token, TokenKind, Tokens};
use model_tree::ParseStop;
use model_tree::logic_values_api::Items;
use std::alloc::Global;

/// What stands at the front of bytes.
#[derive(Clone, Copy)]
pub enum Next<'a> {
    /// A blank or a comment of so many bytes.
    Passed(usize),
    /// A token of so many bytes.
    Token(usize, TokenKind<'a>),
    /// No piece, or one past its limits.
    Nothing,
}

fn next_at(bytes: &[u8]) -> Next<'_>
    ensures { IsNext bytes.now result }
{
    let Some(piece) = piece_at(bytes) else {
        return Next::Nothing;
    };
    if is_passed(piece.form) {
        return Next::Passed(piece.len);
    }
    match meaning(piece.form, front(bytes, piece.len)) {
        Some(kind) => Next::Token(piece.len, kind),
        None => Next::Nothing,
    }
}

/// How many lines end in the bytes.
fn line_ends(bytes: &[u8]) -> u64
    ensures ends { result ≡ count_by (λ b. b == 10) bytes.now }
    ensures few { result ≤ length bytes.now }
{
    bytes.iter().filter(|byte| **byte == b'\n').count() as u64
}

/// Adds a token at the end, or answers out of memory.
pub(crate) fn push<'a>(found: &mut Tokens<'a>, token: Token<'a>) -> Result<(), ParseStop>
    ensures ok { OnOk result (found.new ≡ found.old ++ token.entry ∷ []) }
    ensures err { IfErr result (λ e. e ≡ ParseStop.NoMemory) }
{
    match found.push(token) {
        Ok(()) => Ok(()),
        Err(_refused) => Err(ParseStop::NoMemory),
    }
}

/// The tokens of the text, each as long as its form allows, with blanks and comments passed over. Syntax exactly
/// where a piece of the text is no token, or one past its limits, with the line of the first such piece. The text
/// is shorter than 2^32 bytes.
pub fn tokens(alloc: Global, text: &[u8]) -> Result<Tokens<'_>, ParseStop>
    requires { length text.now < 2 ^ 32 }
    ensures found { IfOk result (λ found. Cut text.now (lexemes found)) }
    ensures refused { IfErr result (IsRefused text.now) }
    ensures only { (ts : List Lexeme) → Cut text.now ts → MatchResult result (λ found. lexemes found ≡ ts) (λ e. e ≡ ParseStop.NoMemory) }
{
    let mut found = Items::new(alloc);
    let mut at = 0;
    let mut line: u64 = 1;
    while at < text.len() {
        let rest = past(text, at);
        match next_at(rest) {
            Next::Passed(len) => {
                line += line_ends(front(rest, len));
                at += len;
            }
            Next::Token(len, kind) => {
                let token = Token {
                    kind,
                    start: at as u32,
                    end: (at + len) as u32,
                    line: line as u32,
                };
                push(&mut found, token)?;
                line += line_ends(front(rest, len));
                at += len;
            }
            Next::Nothing => {
                return Err(ParseStop::Syntax { line: line as u32 });
            }
        }
    }
    Ok(found)
}
