ghost use Rattle.std.specs.Prelude.{◌≡◌, ◌+◌, ◌-◌, ◌^◌, ◌≤◌, option_map};
ghost use Rattle.std.specs.List.{list_all};
ghost use Rattle.sim_model.specs.LogicValues.Digits.{digits};
ghost use Rattle.text_lines.specs.ModelLexer.Forms as forms;
ghost use Rattle.text_lines.specs.ModelLexer.Meanings as meanings;
ghost use Rattle.script_text.specs.ValueTexts as spec;

use sim_model::flat_design_api::ValueType;
use sim_model::logic_values_api::{Digit, Lv, Value, concat, vector_of_digits};
use text_lines::decimal_read;

fn truth_read(text: &[u8]) -> Option<Value>
    ensures { result ≡ spec.truth_read text.now }
{
    if text == b"0".as_slice() {
        Some(Value::Bool(false))
    } else if text == b"1".as_slice() {
        Some(Value::Bool(true))
    } else {
        None
    }
}

fn is_width(width: u8) -> bool
    ensures { result ≡ spec.is_width width }
{
    0 < width && width <= 64
}

/// The greatest number of so many bits.
fn greatest(width: u8) -> u64
    requires some { 1 ≤ width }
    requires at_most_64 { width ≤ 64 }
    ensures { result + 1 ≡ 2 ^ width }
{
    u64::MAX >> (64 - width)
}

/// How many signed numbers of so many bits are below 0.
fn half(width: u8) -> u64
    requires some { 1 ≤ width }
    requires at_most_64 { width ≤ 64 }
    ensures { result ≡ 2 ^ (width - 1) }
{
    greatest(width) / 2 + 1
}

fn int_from_zero(width: u8, number: u64) -> Option<Value>
    requires some { 1 ≤ width }
    requires at_most_64 { width ≤ 64 }
    ensures { result ≡ spec.int_from_zero width number }
{
    if number < half(width) {
        Some(Value::Int {
            width,
            bits: number,
        })
    } else {
        None
    }
}

fn int_below_zero(width: u8, number: u64) -> Option<Value>
    requires some { 1 ≤ width }
    requires at_most_64 { width ≤ 64 }
    ensures { result ≡ spec.int_below_zero width number }
{
    if 0 < number && number <= half(width) {
        Some(Value::Int {
            width,
            bits: u64::MAX - number + 1,
        })
    } else {
        None
    }
}

fn int_read(width: u8, text: &[u8]) -> Option<Value>
    requires some { 1 ≤ width }
    requires at_most_64 { width ≤ 64 }
    ensures { result ≡ spec.int_read width text.now }
{
    match text {
        [b'-', digits @ ..] => int_below_zero(width, decimal_read(digits)?),
        _ => int_from_zero(width, decimal_read(text)?),
    }
}

fn uint_read(width: u8, text: &[u8]) -> Option<Value>
    requires some { 1 ≤ width }
    requires at_most_64 { width ≤ 64 }
    ensures { result ≡ spec.uint_read width text.now }
{
    let number = decimal_read(text)?;
    if number <= greatest(width) {
        Some(Value::Uint {
            width,
            bits: number,
        })
    } else {
        None
    }
}

fn is_logic_byte(byte: u8) -> bool
    ensures { result ≡ forms.is_logic_byte byte }
{
    byte == b'0' || byte == b'1' || byte == b'Z' || byte == b'X'
}

/// The logic digit that a byte writes.
fn logic_digit(byte: u8) -> Digit
    ensures { result ≡ meanings.logic_digit byte }
{
    match byte {
        b'0' => Digit::Zero,
        b'1' => Digit::One,
        b'Z' => Digit::Z,
        _ => Digit::X,
    }
}

fn logic_read(text: &[u8]) -> Option<Value>
    ensures { result ≡ spec.logic_read text.now }
{
    match text {
        [byte] if is_logic_byte(*byte) => Some(Value::Logic(logic_digit(*byte))),
        _ => None,
    }
}

fn all_logic_bytes(text: &[u8]) -> bool
    ensures { result ≡ list_all forms.is_logic_byte text.now }
{
    text.iter().all(|byte| is_logic_byte(*byte))
}

/// The vector that logic digits write, the highest first, if they are 1 to 64.
fn logic_within(bytes: &[u8]) -> Option<Lv>
    ensures { option_map digits result ≡ meanings.logic_within bytes.now }
{
    let [first, more @ ..] = bytes else {
        return None;
    };
    if bytes.len() > 64 {
        return None;
    }
    let mut vector = Lv::single(logic_digit(*first));
    for byte in more {
        vector = concat(vector, Lv::single(logic_digit(*byte)));
    }
    Some(vector)
}

fn vector_read(width: u8, text: &[u8]) -> Option<Value>
    ensures { result ≡ spec.vector_read width text.now }
{
    if !all_logic_bytes(text) || text.len() != width as usize {
        return None;
    }
    vector_of_digits();
    match logic_within(text) {
        Some(vector) => Some(Value::Vector(vector)),
        None => None,
    }
}

/// The value that bytes spell for a type.
pub(crate) fn value_read(value_type: ValueType, text: &[u8]) -> Option<Value>
    ensures { result ≡ spec.value_read value_type text.now }
{
    match value_type {
        ValueType::Bool => truth_read(text),
        ValueType::Int(width) if is_width(width) => int_read(width, text),
        ValueType::Uint(width) if is_width(width) => uint_read(width, text),
        ValueType::Logic => logic_read(text),
        ValueType::Vector(width) => vector_read(width, text),
        _ => None,
    }
}
