//! The tokens of an expansion as text.

use clocked::{Placed, Written};
use model_lexer::TokenKind;
use model_tree::logic_values_api::{Value, value_text};
use model_tree::{symbol_text, word_text};
use std::alloc::{AllocError, Global};

fn push_bytes(shown: &mut String, bytes: &[u8]) -> Result<(), AllocError> {
    for byte in bytes {
        shown.push(*byte as char)?;
    }
    Ok(())
}

fn push_kind(alloc: Global, shown: &mut String, kind: TokenKind<'_>) -> Result<(), AllocError> {
    match kind {
        TokenKind::Name(bytes) => push_bytes(shown, bytes),
        TokenKind::Word(word) => shown.push_str(word_text(word)),
        TokenKind::Num(number) => write!(shown, "{number}"),
        TokenKind::Logic(value) => {
            shown.push('\'')?;
            push_bytes(shown, value_text(alloc, Value::Vector(value))?.as_slice())?;
            shown.push('\'')
        }
        TokenKind::Text(bytes) => {
            shown.push('"')?;
            push_bytes(shown, bytes)?;
            shown.push('"')
        }
        TokenKind::Symbol(symbol) => shown.push_str(symbol_text(symbol)),
    }
}

fn push_written(alloc: Global, shown: &mut String, written: Written<'_>) -> Result<(), AllocError> {
    match written {
        Written::Kind(kind) => push_kind(alloc, shown, kind),
        Written::ResetName(thread) => {
            push_bytes(shown, thread)?;
            shown.push_str("_areset")
        }
    }
}

/// Ends the line that is shown, if there is one, and begins this one.
fn begin_line(shown: &mut String, before: u32, line: u32) -> Result<(), AllocError> {
    if before > 0 {
        shown.push('\n')?;
    }
    write!(shown, "{line}:")
}

/// Appends the tokens of an expansion: each line that has some by its number, and behind it its tokens with a blank before each.
pub fn push_expansion(
    alloc: Global,
    shown: &mut String,
    expansion: &[Placed<'_>],
) -> Result<(), AllocError> {
    let mut line = 0;
    for placed in expansion {
        if placed.line != line {
            begin_line(shown, line, placed.line)?;
            line = placed.line;
        }
        shown.push(' ')?;
        push_written(alloc, shown, placed.written)?;
    }
    shown.push('\n')
}
