//! Names, and numbers and bytes in their ranges.
ghost use Rattle.std.specs.Prelude.{◌≡◌, ◌+◌, ◌*◌, ◌<◌, ◌≤◌, true, option_copied, option_map, IfOk, IfSome};
ghost use Rattle.std.specs.Char.{digit_value};
ghost use Rattle.std.specs.List.{list_all};
ghost use Rattle.model_lexer.specs.Forms.{is_hex_digit};
ghost use Rattle.text_lines.specs.Words as spec;

use crate::{BusAction, Bytes, all_hex_digits, number_read};
use model_tree::is_word;
use model_tree::logic_values_api::{Items, Text};
use std::alloc::{AllocError, Global};

/// The longest name.
const NAME_LIMIT: usize = 64;

/// The greatest time.
const LAST_TIME: u64 = 0xff_ffff_ffff;

/// The greatest number of bytes of an access.
const LENGTH_LIMIT: u64 = 4096;

pub fn text_of(alloc: Global, bytes: &[u8]) -> Result<Text, AllocError>
    ensures { IfOk result (λ text. text ≡ bytes.now) }
{
    Ok(Text::from_vec(Vec::from_slice(alloc, bytes)?))
}

/// These bytes, where they are a name.
pub fn name_read(bytes: &[u8]) -> Option<&[u8]>
    ensures { option_copied result ≡ spec.name_read bytes.now }
{
    if is_word(bytes) && bytes.len() <= NAME_LIMIT {
        Some(bytes)
    } else {
        None
    }
}

fn number_between(low: u64, high: u64, bytes: &[u8]) -> Option<u64>
    ensures value { result ≡ spec.number_between low high bytes.now }
    ensures within { IfSome result (λ number. number ≤ high) }
{
    let number = number_read(bytes)?;
    if low <= number && number <= high {
        Some(number)
    } else {
        None
    }
}

pub fn delay_read(bytes: &[u8]) -> Option<u64>
    ensures { result ≡ spec.delay_read bytes.now }
{
    number_between(1, LAST_TIME, bytes)
}

pub fn time_read(bytes: &[u8]) -> Option<u64>
    ensures { result ≡ spec.time_read bytes.now }
{
    number_between(0, LAST_TIME, bytes)
}

pub fn size_read(bytes: &[u8]) -> Option<u64>
    ensures { result ≡ spec.size_read bytes.now }
{
    number_between(1, u64::MAX, bytes)
}

fn length_read(bytes: &[u8]) -> Option<u64>
    ensures value { result ≡ spec.length_read bytes.now }
    ensures within { IfSome result (λ length. length ≤ LENGTH_LIMIT) }
{
    number_between(1, LENGTH_LIMIT, bytes)
}

/// The value of a hexadecimal digit.
fn digit_of(byte: u8) -> u8
    requires { is_hex_digit byte ≡ true }
    ensures value { result ≡ digit_value byte }
    ensures small { result < 16 }
{
    match byte {
        b'0'..=b'9' => byte - b'0',
        b'A'..=b'F' => byte - b'A' + 10,
        _ => byte - b'a' + 10,
    }
}

/// The byte that two hexadecimal digits write.
fn byte_of(high: u8, low: u8) -> u8
    requires high { is_hex_digit high ≡ true }
    requires low { is_hex_digit low ≡ true }
    ensures { result ≡ digit_value high * 16 + digit_value low }
{
    digit_of(high) * 16 + digit_of(low)
}

/// The bytes that hexadecimal digits write, two digits each.
fn bytes_written(alloc: Global, digits: &[u8]) -> Result<Bytes, AllocError>
    requires { list_all is_hex_digit digits.now ≡ true }
    ensures { IfOk result (λ bytes. bytes ≡ spec.bytes_written digits.now) }
{
    let mut bytes = Items::new(alloc);
    let mut rest = digits;
    'pairs: while let [high, low, more @ ..] = rest {
        match bytes.push(byte_of(*high, *low)) {
            Ok(()) => {}
            Err(_) => return Err(AllocError),
        }
        rest = more;
    }
    Ok(bytes)
}

fn is_hex_text(digits: &[u8]) -> bool
    ensures { result ≡ spec.is_hex_text digits.now }
{
    2 <= digits.len() && digits.len() <= 8192 && digits.len() % 2 == 0 && all_hex_digits(digits)
}

fn put_read(alloc: Global, digits: &[u8]) -> Result<Option<BusAction>, AllocError>
    ensures { IfOk result (λ action. action ≡ option_map (λ bytes. BusAction.Put bytes) (spec.hex_read digits.now)) }
{
    if is_hex_text(digits) {
        let bytes = bytes_written(alloc, digits)?;
        Ok(Some(BusAction::Put { bytes }))
    } else {
        Ok(None)
    }
}

fn get_read(text: &[u8]) -> Option<BusAction>
    ensures { result ≡ option_map (λ len. BusAction.Get len) (spec.length_read text.now) }
{
    let len = length_read(text)?;
    Some(BusAction::Get { len: len as u16 })
}

/// What an access does, by its word and what stands behind the address.
pub fn action_read(alloc: Global, word: &[u8], what: &[u8]) -> Result<Option<BusAction>, AllocError>
    ensures { IfOk result (λ action. action ≡ spec.action_read word.now what.now) }
{
    if word == b"read".as_slice() {
        Ok(get_read(what))
    } else if word == b"write".as_slice() {
        put_read(alloc, what)
    } else {
        Ok(None)
    }
}
