//! Tokens on a page.
ghost use Rattle.std.specs.Prelude.{◌≡◌, ◌++◌, IfOk, OnOk, map, reverse};
ghost use Rattle.model_tree.specs.LogicValues.Digits.{digits};
ghost use Rattle.model_lexer.specs.Views.{token_of};
ghost use Rattle.clocked.specs.Views.{expansion_in, token_written};
ghost use Rattle.expanded_text.specs.Page as spec;

use clocked::{Placed, Written};
use model_lexer::TokenKind;
use model_tree::logic_values_api::{Lv, Text, Value, value_text};
use model_tree::{symbol_text, word_text};
use std::alloc::{AllocError, Global};

/// Adds so many ends of lines.
#[tactic(auto, using(crate::proofs::Putting::ends_more))]
fn push_line_ends(page: &mut Vec<u8>, count: u64) -> Result<(), AllocError>
    ensures { OnOk result (page.new.items ≡ page.old.items ++ spec.line_ends count) }
{
    for _ in 0..count {
        page.push(b'\n')?;
    }
    Ok(())
}

/// Adds bytes between two quotes.
#[tactic(auto, using(crate::proofs::Putting::put_between))]
fn push_between(page: &mut Vec<u8>, quote: u8, bytes: &[u8]) -> Result<(), AllocError>
    ensures { OnOk result (page.new.items ≡ page.old.items ++ spec.between quote bytes.now) }
{
    page.push(quote)?;
    page.extend_from_slice(bytes)?;
    page.push(quote)?;
    Ok(())
}

/// Adds a logic literal.
fn push_logic(alloc: Global, page: &mut Vec<u8>, value: Lv) -> Result<(), AllocError>
    ensures { OnOk result (page.new.items ≡ page.old.items ++ spec.spelled (token_of (TokenKind.Logic value))) }
{
    let text = value_text(alloc, Value::Vector(value))?;
    push_between(page, b'\'', text.as_slice())
}

fn push_number(alloc: Global, page: &mut Vec<u8>, number: u64) -> Result<(), AllocError>
    ensures { OnOk result (page.new.items ≡ page.old.items ++ spec.spelled (token_of (TokenKind.Num number))) }
{
    let text = format!(in alloc; "{number}")?;
    page.extend_from_slice(text.as_bytes())
}

/// Adds a token.
fn push_kind(alloc: Global, page: &mut Vec<u8>, kind: TokenKind<'_>) -> Result<(), AllocError>
    ensures { OnOk result (page.new.items ≡ page.old.items ++ spec.spelled (token_of kind.entry)) }
{
    match kind {
        TokenKind::Name(bytes) => page.extend_from_slice(bytes),
        TokenKind::Word(word) => page.extend_from_slice(word_text(word).as_bytes()),
        TokenKind::Num(number) => push_number(alloc, page, number),
        TokenKind::Logic(value) => push_logic(alloc, page, value),
        TokenKind::Text(bytes) => push_between(page, b'"', bytes),
        TokenKind::Symbol(symbol) => page.extend_from_slice(symbol_text(symbol).as_bytes()),
    }
}

/// Adds a token of an expansion.
fn push_written(alloc: Global, page: &mut Vec<u8>, written: Written<'_>) -> Result<(), AllocError>
    ensures { OnOk result (page.new.items ≡ page.old.items ++ spec.spelled (token_written written.entry)) }
{
    match written {
        Written::Kind(kind) => push_kind(alloc, page, kind),
        Written::ResetName(thread) => {
            page.extend_from_slice(thread)?;
            page.extend_from_slice(b"_areset")?;
            Ok(())
        }
    }
}

/// Adds a token of an expansion, on its line, behind what ends on that one.
#[tactic(auto, using(crate::proofs::Putting::put_placed))]
fn push_placed(
    alloc: Global,
    page: &mut Vec<u8>,
    from: u64,
    placed: Placed<'_>,
) -> Result<(), AllocError>
    ensures { OnOk result (page.new.items ≡ page.old.items ++ spec.token_at from (token_written placed.entry.written) placed.entry.line) }
{
    push_line_ends(page, u64::from(placed.line).saturating_sub(from))?;
    push_written(alloc, page, placed.written)?;
    page.push(b' ')?;
    Ok(())
}

/// The page of an expansion, which ends on this line.
pub(crate) fn page_of(
    alloc: Global,
    expansion: &[Placed<'_>],
    last: u64,
) -> Result<Text, AllocError>
    ensures { IfOk result (λ page. page ≡ spec.page last (expansion_in expansion.now)) }
{
    let mut page = Vec::new(alloc);
    let mut line = 1;
    for placed in expansion {
        push_placed(alloc, &mut page, line, *placed)?;
        line = u64::from(placed.line);
    }
    push_line_ends(&mut page, last.saturating_sub(line))?;
    Ok(Text::from_vec(page))
}
