ghost use Rattle.std.specs.Prelude.{◌≡◌, ℕ, ◌<◌, option_map};
ghost use Rattle.std.specs.Char.{digit_value};
ghost use Rattle.std.specs.Str.Parse.{digits_value};
ghost use Rattle.model_tree.specs.LogicValues.Digits.{digits};
ghost use Rattle.model_lexer.specs.Tokens as grammar;
ghost use Rattle.model_lexer.specs.Meanings as spec;
ghost use Rattle.model_lexer.specs.Views.{token_of};

use super::forms::Form;
use super::fronts::{past, symbol_of};
use super::token::TokenKind;
use model_tree::logic_values_api::{Digit, Lv, concat};
use model_tree::{Word, is_name, is_print_text, word_of};

/// The value of a digit in the bases up to 36, and 36 for any other byte.
fn digit_value(byte: u8) -> u64
    ensures { result ≡ digit_value byte }
{
    match byte {
        b'0'..=b'9' => (byte - b'0') as u64,
        b'A'..=b'Z' => (byte - b'A') as u64 + 10,
        b'a'..=b'z' => (byte - b'a') as u64 + 10,
        _ => 36,
    }
}

/// The number that digits write in a base, if it is below 2^64.
fn number_within(base: u64, digits: &[u8]) -> Option<u64>
    requires { 0 < base }
    ensures { result ≡ spec.number_within (digits_value base digits.now) }
{
    let mut value: u64 = 0;
    for digit in digits {
        value = value.checked_mul(base)?.checked_add(digit_value(*digit))?;
    }
    Some(value)
}

/// The logic digit that a byte writes.
fn logic_digit(byte: u8) -> Digit
    ensures { result ≡ spec.logic_digit byte }
{
    match byte {
        b'0' => Digit::Zero,
        b'1' => Digit::One,
        b'Z' => Digit::Z,
        _ => Digit::X,
    }
}

/// The vector that logic digits write, the highest first, if they are 1 to 64.
fn logic_within(bytes: &[u8]) -> Option<Lv>
    ensures { option_map digits result ≡ spec.logic_within bytes.now }
{
    let [first, more @ ..] = bytes else {
        return None;
    };
    if bytes.len() > 64 {
        return None;
    }
    let mut vector = Lv::single(logic_digit(*first));
    for byte in more {
        vector = concat(vector, Lv::single(logic_digit(*byte)));
    }
    Some(vector)
}

/// What stands between quotes.
fn inner(bytes: &[u8]) -> &[u8]
    ensures { result.now ≡ spec.inner bytes.now }
{
    match bytes {
        [_, inner @ .., _] => inner,
        _ => &[],
    }
}

/// A word is a reserved one, or a name within its limits.
fn word_or_name(word: Option<Word>, bytes: &[u8]) -> Option<TokenKind<'_>>
    ensures { option_map token_of result ≡ grammar.word_or_name word bytes.now }
{
    match word {
        Some(word) => Some(TokenKind::Word(word)),
        None if is_name(bytes) => Some(TokenKind::Name(bytes)),
        None => None,
    }
}

fn number(value: Option<u64>) -> Option<TokenKind<'static>>
    ensures { option_map token_of result ≡ option_map grammar.number value }
{
    match value {
        Some(value) => Some(TokenKind::Num(value)),
        None => None,
    }
}

fn logic(value: Option<Lv>) -> Option<TokenKind<'static>>
    ensures { option_map token_of result ≡ option_map grammar.logic (option_map digits value) }
{
    match value {
        Some(value) => Some(TokenKind::Logic(value)),
        None => None,
    }
}

fn text_within(bytes: &[u8]) -> Option<TokenKind<'_>>
    ensures { option_map token_of result ≡ spec.text_within bytes.now }
{
    if is_print_text(bytes) {
        Some(TokenKind::Text(bytes))
    } else {
        None
    }
}

fn symbol(bytes: &[u8]) -> Option<TokenKind<'static>>
    ensures { option_map token_of result ≡ option_map grammar.symbol (grammar.symbol_of bytes.now) }
{
    match symbol_of(bytes) {
        Some(symbol) => Some(TokenKind::Symbol(symbol)),
        None => None,
    }
}

/// What bytes of this form mean, if they keep the form's limits.
pub fn meaning(form: Form, bytes: &[u8]) -> Option<TokenKind<'_>>
    ensures { option_map token_of result ≡ spec.meaning form bytes.now }
{
    match form {
        Form::Blank | Form::Comment => None,
        Form::Word => word_or_name(word_of(bytes), bytes),
        Form::Decimal => number(number_within(10, bytes)),
        Form::Hexadecimal => number(number_within(16, past(bytes, 2))),
        Form::Logic => logic(logic_within(inner(bytes))),
        Form::Text => text_within(inner(bytes)),
        Form::Symbol => symbol(bytes),
    }
}
