ghost use Rattle.std.specs.Prelude.{◌≡◌, ◌∷◌, [], map, reverse, IfOk};
ghost use Rattle.std.specs.Fmt.{decimal, signed_decimal};
ghost use Rattle.logic_values.specs.Digits.{digits};
ghost use Rattle.logic_values.specs.ValueText.{letter_of, text_of, HasText};

use super::byte_text::Text;
use super::kinds::{Digit, Value};
use super::planes::Lv;
use super::vectors::digit;
use std::alloc::{AllocError, Global};

impl Digit {
    /// The byte that the digit is written as: `0`, `1`, `Z` or `X`.
    pub fn letter(self) -> u8
        ensures { result ≡ letter_of self }
    {
        match self {
            Digit::Zero => b'0',
            Digit::One => b'1',
            Digit::Z => b'Z',
            Digit::X => b'X',
        }
    }
}

/// The text of a value: a truth value is `0` or `1`, numbers and times are in decimal, with `-` before a
/// negative one, and digits are `0`, `1`, `Z` and `X`, the highest first. The only error is being out of memory.
pub fn value_text(alloc: Global, v: Value) -> Result<Text, AllocError>
    requires { HasText v }
    ensures { IfOk result (λ text. text ≡ text_of v) }
{
    match v {
        Value::Bool(true) => letter_text(alloc, Digit::One),
        Value::Bool(false) => letter_text(alloc, Digit::Zero),
        Value::Int { bits, .. } => signed_text(alloc, bits.cast_signed()),
        Value::Uint { bits, .. } => unsigned_text(alloc, bits),
        Value::Logic(d) => letter_text(alloc, d),
        Value::Vector(lv) => vector_text(alloc, lv),
        Value::Moment(picoseconds) => unsigned_text(alloc, picoseconds),
        Value::Handle(_) | Value::Pay(_) => unreachable!(),
    }
}

fn letter_text(alloc: Global, d: Digit) -> Result<Text, AllocError>
    ensures { IfOk result (λ text. text ≡ letter_of d ∷ []) }
{
    let mut bytes = Vec::with_capacity(alloc, 1)?;
    bytes.push(d.letter())?;
    Ok(Text::from_vec(bytes))
}

fn unsigned_text(alloc: Global, n: u64) -> Result<Text, AllocError>
    ensures { IfOk result (λ text. text ≡ decimal n) }
{
    let text = format!(in alloc; "{n}")?;
    Ok(Text::from_vec(text.into_bytes()))
}

fn signed_text(alloc: Global, z: i64) -> Result<Text, AllocError>
    ensures { IfOk result (λ text. text ≡ signed_decimal z) }
{
    let text = format!(in alloc; "{z}")?;
    Ok(Text::from_vec(text.into_bytes()))
}

fn vector_text(alloc: Global, v: Lv) -> Result<Text, AllocError>
    ensures { IfOk result (λ text. text ≡ map letter_of (reverse (digits v))) }
{
    let mut bytes = Vec::with_capacity(alloc, v.width as usize)?;
    for place in (0..v.width).rev() {
        bytes.push(digit(v, place).letter())?;
    }
    Ok(Text::from_vec(bytes))
}
