ghost use Rattle.std.specs.Prelude.{◌≡◌, ◌<◌};
ghost use Rattle.std.specs.List.{list_all};
ghost use Rattle.std.specs.Char.{digit_value};
ghost use Rattle.std.specs.Str.Parse.{digits_value};
ghost use Rattle.model_lexer.specs.Forms as forms;
ghost use Rattle.model_lexer.specs.Meanings.{number_within};
ghost use Rattle.text_lines.specs.Lines as spec;

fn all_digits(bytes: &[u8]) -> bool
    ensures { result ≡ list_all forms.is_digit bytes.now }
{
    bytes.iter().all(|byte| byte.is_ascii_digit())
}

/// Whether these bytes are hexadecimal digits.
pub fn all_hex_digits(bytes: &[u8]) -> bool
    ensures { result ≡ list_all forms.is_hex_digit bytes.now }
{
    bytes.iter().all(|byte| byte.is_ascii_hexdigit())
}

fn is_decimal(bytes: &[u8]) -> bool
    ensures { result ≡ forms.is_decimal bytes.now }
{
    match bytes {
        [first, more @ ..] => first.is_ascii_digit() && all_digits(more),
        [] => false,
    }
}

fn is_hexadecimal(bytes: &[u8]) -> bool
    ensures { result ≡ forms.is_hexadecimal bytes.now }
{
    match bytes {
        [b'0', b'x', digit, more @ ..] => digit.is_ascii_hexdigit() && all_hex_digits(more),
        _ => false,
    }
}

/// The value of a digit in the bases up to 36, and 36 for any other byte.
fn digit_value(byte: u8) -> u64
    ensures { result ≡ digit_value byte }
{
    match byte {
        b'0'..=b'9' => (byte - b'0') as u64,
        b'A'..=b'Z' => (byte - b'A') as u64 + 10,
        b'a'..=b'z' => (byte - b'a') as u64 + 10,
        _ => 36,
    }
}

/// The number that digits write in a base, if it is below 2^64.
fn number_within(base: u64, digits: &[u8]) -> Option<u64>
    requires { 0 < base }
    ensures { result ≡ number_within (digits_value base digits.now) }
{
    let mut value: u64 = 0;
    for digit in digits {
        value = value.checked_mul(base)?.checked_add(digit_value(*digit))?;
    }
    Some(value)
}

/// The number that bytes write in decimal, if it is below 2^64.
pub fn decimal_read(bytes: &[u8]) -> Option<u64>
    ensures { result ≡ spec.decimal_read bytes.now }
{
    if is_decimal(bytes) {
        number_within(10, bytes)
    } else {
        None
    }
}

/// The number that bytes write as a number of a model does, in decimal or in hexadecimal behind `0x`.
pub fn number_read(bytes: &[u8]) -> Option<u64>
    ensures { result ≡ spec.number_read bytes.now }
{
    if is_hexadecimal(bytes) {
        number_within(16, &bytes[2..])
    } else {
        decimal_read(bytes)
    }
}

/// The number of a line in 32 bits.
pub fn line_number(number: u64) -> u32
    ensures { result ≡ spec.line_number number }
{
    u32::try_from(number).unwrap_or(u32::MAX)
}
