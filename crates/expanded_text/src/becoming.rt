ghost use Rattle.std.specs.Prelude.{◌≡◌, ◌+◌, ◌==◌, ◌^◌, ◌<◌, ℕ, List, IfOk, IfSome, IsSome, MatchResult, count_by, length};
ghost use Rattle.model_lexer.specs.Views.{token_of};
ghost use Rattle.clocked.specs.Views.{tokens_in};
ghost use Rattle.expanded_text.specs.Becomes as spec;
ghost use Rattle.expanded_text.specs.Becomes.{Becomes};

use super::pages::page_of;
use clocked::expand;
use model_lexer::{Token, TokenKind, tokens};
use model_tree::logic_values_api::Text;
use model_tree::{ParseStop, Symbol};
use std::alloc::Global;

/// The most bytes that a text may have.
const TEXT_LIMIT: usize = 4_294_967_295;

fn is_language(kind: TokenKind<'_>) -> bool
    ensures { result ≡ spec.is_language (token_of kind.entry) }
{
    match kind {
        TokenKind::Name(bytes) => bytes == "language".as_bytes(),
        _ => false,
    }
}

fn is_three(kind: TokenKind<'_>) -> bool
    ensures { result ≡ spec.is_three (token_of kind.entry) }
{
    match kind {
        TokenKind::Num(number) => number == 3,
        _ => false,
    }
}

fn is_end(kind: TokenKind<'_>) -> bool
    ensures { result ≡ spec.is_end (token_of kind.entry) }
{
    matches!(kind, TokenKind::Symbol(Symbol::Semicolon))
}

/// Whether tokens begin with `language 3 ;`.
fn says_third(tokens: &[Token<'_>]) -> bool
    ensures { result ≡ spec.says_third (tokens_in tokens.now) }
{
    match tokens {
        [first, second, third, ..] => {
            is_language(first.kind) && is_three(second.kind) && is_end(third.kind)
        }
        _ => false,
    }
}

/// The line on which a text ends.
fn last_line(text: &[u8]) -> u64
    requires { length text.now < 2 ^ 32 }
    ensures { result ≡ count_by (λ b. b == 10) text.now + 1 }
{
    text.iter().filter(|byte| **byte == b'\n').count() as u64 + 1
}

/// The text without clocked threads that a text of language 3 becomes, each token on its line; it ends on the line on which that one
/// ends. Nothing, where the text does not begin with `language 3 ;`. Syntax exactly where one that does becomes no other. The text is
/// shorter than 2^32 bytes; where the other is not, memory is refused.
pub fn expand_text(alloc: Global, text: &[u8]) -> Result<Option<Text>, ParseStop>
    requires { length text.now < 2 ^ 32 }
    ensures becomes { IfOk result (λ found. IfSome found (Becomes text.now)) }
    ensures within { IfOk result (λ found. IfSome found (λ out. length out < 2 ^ 32)) }
    ensures only { (out : List ℕ) → Becomes text.now out → MatchResult result (λ found. IsSome found) (λ e. e ≡ ParseStop.NoMemory) }
{
    let cut = tokens(alloc, text)?;
    if !says_third(cut.as_slice()) {
        return Ok(None);
    }
    let expansion = match expand(alloc, cut.as_slice()) {
        Ok(expansion) => expansion,
        Err(stop) => return Err(stop),
    };
    let Ok(out) = page_of(alloc, expansion.as_slice(), last_line(text)) else {
        return Err(ParseStop::NoMemory);
    };
    if out.as_slice().len() > TEXT_LIMIT {
        return Err(ParseStop::NoMemory);
    }
    Ok(Some(out))
}
