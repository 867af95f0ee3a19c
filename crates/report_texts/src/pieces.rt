//! Pieces of a text.
ghost use Rattle.std.specs.Prelude.{◌≡◌, ◌∷◌, ◌++◌, [], OnOk};
ghost use Rattle.std.specs.Fmt.{decimal, signed_decimal};
ghost use Rattle.kernel_state.specs.LogicValues.ValueText.{text_of};
ghost use Rattle.kernel_state.specs.SimModel.Texts.{with_number};

use itoa::Buffer;
use kernel_state::logic_values_api::{Value, value_text};
use std::alloc::{AllocError, Global};

/// Adds bytes.
pub(crate) fn push_bytes(text: &mut Vec<u8>, piece: &[u8]) -> Result<(), AllocError>
    ensures { OnOk result (text.new.items ≡ text.old.items ++ piece.now) }
{
    text.extend_from_slice(piece)
}

/// Adds one byte.
pub(crate) fn push_byte(text: &mut Vec<u8>, byte: u8) -> Result<(), AllocError>
    ensures { OnOk result (text.new.items ≡ text.old.items ++ byte ∷ []) }
{
    match text.push(byte) {
        Ok(()) => Ok(()),
        Err(_) => Err(AllocError),
    }
}

/// Adds a number in decimal, of however many digits.
fn push_digits(text: &mut Vec<u8>, number: u64) -> Result<(), AllocError>
    ensures { OnOk result (text.new.items ≡ text.old.items ++ decimal number) }
{
    let mut digits = Buffer::new();
    text.extend_from_slice(digits.format(number).as_bytes())
}

/// Adds a number in decimal. One digit is a byte.
#[inline(always)]
#[tactic(auto, using(std::proofs::lemmas::Fmt::decimal_digit))]
pub(crate) fn push_number(text: &mut Vec<u8>, number: u64) -> Result<(), AllocError>
    ensures { OnOk result (text.new.items ≡ text.old.items ++ decimal number) }
{
    if number < 10 {
        return push_byte(text, b'0' + number as u8);
    }
    push_digits(text, number)
}

/// Adds a signed number in decimal.
fn push_signed(text: &mut Vec<u8>, number: i64) -> Result<(), AllocError>
    ensures { OnOk result (text.new.items ≡ text.old.items ++ signed_decimal number) }
{
    let mut digits = Buffer::new();
    text.extend_from_slice(digits.format(number).as_bytes())
}

/// Adds the text of a value by way of a text of its own; a handle has none.
fn push_shown(alloc: Global, text: &mut Vec<u8>, value: Value) -> Result<(), AllocError>
    ensures { OnOk result (text.new.items ≡ text.old.items ++ text_of value) }
{
    match value {
        Value::Handle(_) | Value::Pay(_) => Ok(()),
        _ => {
            let shown = value_text(alloc, value)?;
            text.extend_from_slice(shown.as_slice())
        }
    }
}

/// Adds the text of a value; a handle has none. Truth values, numbers and times take no memory of their own.
#[inline(always)]
pub(crate) fn push_value(alloc: Global, text: &mut Vec<u8>, value: Value) -> Result<(), AllocError>
    ensures { OnOk result (text.new.items ≡ text.old.items ++ text_of value) }
{
    match value {
        Value::Bool(true) => push_byte(text, b'1'),
        Value::Bool(false) => push_byte(text, b'0'),
        Value::Int { bits, .. } => push_signed(text, bits.cast_signed()),
        Value::Uint { bits, .. } => push_number(text, bits),
        Value::Moment(picoseconds) => push_number(text, picoseconds),
        _ => push_shown(alloc, text, value),
    }
}

/// Adds a word and a number behind it.
pub(crate) fn push_word_and_number(
    text: &mut Vec<u8>,
    word: &[u8],
    number: u64,
) -> Result<(), AllocError>
    ensures { OnOk result (text.new.items ≡ text.old.items ++ with_number word.now number) }
{
    text.extend_from_slice(word)?;
    push_byte(text, b' ')?;
    push_number(text, number)
}

/// Adds a word and two numbers behind it.
pub(crate) fn push_word_and_numbers(
    text: &mut Vec<u8>,
    word: &[u8],
    first: u64,
    second: u64,
) -> Result<(), AllocError>
    ensures { OnOk result (text.new.items ≡ text.old.items ++ with_number (with_number word.now first) second) }
{
    push_word_and_number(text, word, first)?;
    push_word_and_number(text, b"", second)
}
