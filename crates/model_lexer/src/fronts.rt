ghost use Rattle.std.specs.Prelude.{◌≡◌, ℕ, ◌≤◌, length, slice_get, take, drop, Option};
ghost use Rattle.std.specs.List.{find, prefix_len};
ghost use Rattle.std.specs.Str.{bytes_eq};
ghost use Rattle.model_tree.specs.Vocabulary.{symbol_text};
ghost use Rattle.model_tree.specs.Leaves as leaf;
ghost use Rattle.model_lexer.specs.Tokens.{symbol_of};
ghost use Rattle.model_lexer.specs.Forms as kind;
ghost use Rattle.model_lexer.specs.Fronts as spec;

use super::forms::{
    Form, Piece, is_blank_byte, is_comment_byte, is_digit, is_hex_digit, is_logic_byte,
};
use model_tree::{SYMBOLS, Symbol, is_letter, is_print_byte, is_word_byte, symbol_text};

/// The first so many bytes, or all where there are no more.
pub fn front(bytes: &[u8], count: usize) -> &[u8]
    ensures { result.now ≡ take count bytes.now }
{
    if count < bytes.len() {
        &bytes[..count]
    } else {
        bytes
    }
}

/// The bytes behind the first so many; none where there are no more.
pub fn past(bytes: &[u8], count: usize) -> &[u8]
    ensures { result.now ≡ drop count bytes.now }
{
    if count < bytes.len() {
        &bytes[count..]
    } else {
        &[]
    }
}

/// The first of these symbols that the bytes spell, if they spell one.
fn spelled(symbols: &[Symbol], bytes: &[u8]) -> Option<Symbol>
    ensures { result ≡ find (λ s. bytes_eq (symbol_text s) bytes.now) symbols.now }
{
    for symbol in symbols {
        if symbol_text(*symbol).as_bytes() == bytes {
            return Some(*symbol);
        }
    }
    None
}

/// The symbol that the bytes spell, if they spell one.
#[tactic(auto, unfolding(crate::specs::Tokens::symbol_of))]
pub fn symbol_of(bytes: &[u8]) -> Option<Symbol>
    ensures { result ≡ symbol_of bytes.now }
{
    spelled(&SYMBOLS, bytes)
}

fn word_len(bytes: &[u8]) -> usize
    ensures { result ≡ prefix_len leaf.is_word_byte bytes.now }
{
    bytes.iter().take_while(|byte| is_word_byte(**byte)).count()
}

fn decimal_len(bytes: &[u8]) -> usize
    ensures { result ≡ prefix_len kind.is_digit bytes.now }
{
    bytes.iter().take_while(|byte| is_digit(**byte)).count()
}

fn hexadecimal_len(bytes: &[u8]) -> usize
    ensures run { result ≡ prefix_len kind.is_hex_digit bytes.now }
    ensures few { result ≤ length bytes.now }
{
    bytes.iter().take_while(|byte| is_hex_digit(**byte)).count()
}

fn comment_len(bytes: &[u8]) -> usize
    ensures run { result ≡ prefix_len kind.is_comment_byte bytes.now }
    ensures few { result ≤ length bytes.now }
{
    bytes
        .iter()
        .take_while(|byte| is_comment_byte(**byte))
        .count()
}

fn logic_len(bytes: &[u8]) -> usize
    ensures { result ≡ prefix_len kind.is_logic_byte bytes.now }
{
    bytes
        .iter()
        .take_while(|byte| is_logic_byte(**byte))
        .count()
}

fn text_len(bytes: &[u8]) -> usize
    ensures { result ≡ prefix_len leaf.is_print_byte bytes.now }
{
    bytes
        .iter()
        .take_while(|byte| is_print_byte(**byte))
        .count()
}

/// The number at the front: in hexadecimal if a digit comes behind `0x`.
fn number_at(bytes: &[u8]) -> Piece
    ensures { result ≡ spec.number_at bytes.now }
{
    match bytes {
        [b'0', b'x', digit, ..] if is_hex_digit(*digit) => Piece {
            form: Form::Hexadecimal,
            len: hexadecimal_len(past(bytes, 2)) + 2,
        },
        _ => Piece {
            form: Form::Decimal,
            len: decimal_len(bytes),
        },
    }
}

/// A piece of so many bytes between quotes, if the byte behind them is the quote.
fn closed_by(form: Form, quote: u8, bytes: &[u8], len: usize) -> Option<Piece>
    ensures { result ≡ spec.closed_by form quote len (slice_get bytes.now len) }
{
    match bytes.get(len) {
        Some(byte) if *byte == quote => Some(Piece { form, len: len + 2 }),
        _ => None,
    }
}

/// A symbol: one of two bytes, or else one of one.
fn symbol_at(long: Option<Symbol>, short: Option<Symbol>) -> Option<Piece>
    ensures { result ≡ spec.symbol_at long short }
{
    let symbol = match (long, short) {
        (Some(symbol), _) => symbol,
        (None, Some(symbol)) => symbol,
        (None, None) => return None,
    };
    Some(Piece {
        form: Form::Symbol,
        len: symbol_text(symbol).len(),
    })
}

/// The longest front that has a form, whatever its limits.
pub fn piece_at(bytes: &[u8]) -> Option<Piece>
    ensures { result ≡ spec.piece_at bytes.now }
{
    match bytes {
        [] => None,
        [first, ..] if is_letter(*first) => Some(Piece {
            form: Form::Word,
            len: word_len(bytes),
        }),
        [first, ..] if is_digit(*first) => Some(number_at(bytes)),
        [b'\'', behind @ ..] => closed_by(Form::Logic, b'\'', behind, logic_len(behind)),
        [b'"', behind @ ..] => closed_by(Form::Text, b'"', behind, text_len(behind)),
        [first, ..] if is_blank_byte(*first) => Some(Piece {
            form: Form::Blank,
            len: 1,
        }),
        [b'/', b'/', behind @ ..] => Some(Piece {
            form: Form::Comment,
            len: comment_len(behind) + 2,
        }),
        _ => symbol_at(symbol_of(front(bytes, 2)), symbol_of(front(bytes, 1))),
    }
}
