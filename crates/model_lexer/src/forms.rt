ghost use Rattle.std.specs.Prelude.{◌≡◌};
ghost use Rattle.model_lexer.specs.Forms as spec;

/// The form of a piece of a text, whatever its limits on length and range.
#[derive(Clone, Copy)]
pub enum Form {
    /// A byte 9, 10, 13 or 32.
    Blank,
    /// `//` and the rest of the line.
    Comment,
    /// A name or a reserved word.
    Word,
    /// A number in decimal.
    Decimal,
    /// A number in hexadecimal.
    Hexadecimal,
    /// A logic literal.
    Logic,
    /// A text between double quotes.
    Text,
    /// A symbol.
    Symbol,
}

/// The longest front of bytes that has a form.
#[derive(Clone, Copy)]
pub struct Piece {
    /// Its form.
    pub form: Form,
    /// How many bytes it takes.
    pub len: usize,
}

/// Whether the byte is a blank.
pub fn is_blank_byte(byte: u8) -> bool
    ensures { result ≡ spec.is_blank_byte byte }
{
    byte == b'\t' || byte == b'\n' || byte == b'\r' || byte == b' '
}

/// Whether a comment may hold the byte: any byte of a text but the end of a line.
pub fn is_comment_byte(byte: u8) -> bool
    ensures { result ≡ spec.is_comment_byte byte }
{
    byte == b'\t' || byte == b'\r' || (byte >= 32 && byte <= 126)
}

/// Whether the byte is a decimal digit.
pub fn is_digit(byte: u8) -> bool
    ensures { result ≡ spec.is_digit byte }
{
    byte.is_ascii_digit()
}

/// Whether the byte is a hexadecimal digit of either case.
pub fn is_hex_digit(byte: u8) -> bool
    ensures { result ≡ spec.is_hex_digit byte }
{
    byte.is_ascii_hexdigit()
}

/// Whether the byte is a digit of a logic literal.
pub fn is_logic_byte(byte: u8) -> bool
    ensures { result ≡ spec.is_logic_byte byte }
{
    byte == b'0' || byte == b'1' || byte == b'Z' || byte == b'X'
}

/// Whether pieces of this form are passed over.
pub fn is_passed(form: Form) -> bool
    ensures { result ≡ spec.is_passed form }
{
    match form {
        Form::Blank | Form::Comment => true,
        _ => false,
    }
}
