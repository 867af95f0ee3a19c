ghost use Rattle.std.specs.Prelude.{◌≡◌, ◌↔◌, ◌≤◌, List, ℕ, Bool, IsTrue, IsSome, IfOk, IfSome, length};
ghost use Rattle.std.specs.List.{list_all};
ghost use Rattle.model_tree.specs.Leaves as spec;

use super::vocabulary::word_of;
use std::alloc::{AllocError, Global};
use std::marker::Model;

/// The greatest number of bytes of a name.
pub const NAME_LIMIT: usize = 64;

/// The greatest number of bytes of a text between double quotes.
pub const PRINT_LIMIT: usize = 120;

/// A name of a model: a letter or `_`, then letters, digits and `_`; at most 64 bytes; no reserved word.
/// Contracts see the list of its bytes.
#[derive(Drop)]
pub struct Name {
    bytes: Vec<u8>,
}

impl Model for Name {
    ghost use Rattle.std.specs.Prelude.{List, ℕ, IsTrue};
    ghost use Rattle.model_tree.specs.Leaves.{is_name};

    ghost Value = { List ℕ };

    ghost view = { λ n. n.bytes.items };

    ghost invariant = { λ n. IsTrue (is_name n.bytes.items) };
}

impl Name {
    /// The name of these bytes, if they have the form of one.
    pub fn try_new(bytes: Vec<u8>) -> Option<Name>
        ensures form { IsSome result ↔ IsTrue (spec.is_name bytes.items) }
        ensures value { IfSome result (λ name. name ≡ bytes.items) }
    {
        if is_name(bytes.as_slice()) {
            Some(Name { bytes })
        } else {
            None
        }
    }

    /// The bytes of the name.
    pub fn bytes(&self) -> &[u8]
        ensures value { result.now ≡ self.now }
        ensures form { IsTrue (spec.is_name self.now) }
    {
        self.bytes.as_slice()
    }

    /// The same name in memory of its own, or out of memory.
    pub fn try_clone(&self, alloc: Global) -> Result<Name, AllocError>
        ensures { IfOk result (λ name. name ≡ self.now) }
    {
        let bytes = Vec::from_slice(alloc, self.bytes.as_slice())?;
        Ok(Name { bytes })
    }
}

/// Whether the byte is a letter or `_`.
pub fn is_letter(byte: u8) -> bool
    ensures { result ≡ spec.is_letter byte }
{
    byte.is_ascii_alphabetic() || byte == b'_'
}

/// Whether the byte may stand in a name behind its first.
pub fn is_word_byte(byte: u8) -> bool
    ensures { result ≡ spec.is_word_byte byte }
{
    byte.is_ascii_alphanumeric() || byte == b'_'
}

fn all_word_bytes(bytes: &[u8]) -> bool
    ensures { result ≡ list_all spec.is_word_byte bytes.now }
{
    bytes.iter().all(|byte| is_word_byte(*byte))
}

/// Whether these bytes are a letter or `_` and then letters, digits and `_`.
pub fn is_word(bytes: &[u8]) -> bool
    ensures { result ≡ spec.is_word bytes.now }
{
    match bytes {
        [] => false,
        [first, rest @ ..] => is_letter(*first) && all_word_bytes(rest),
    }
}

/// Whether these bytes have the form of a name and are no reserved word.
pub fn is_name(bytes: &[u8]) -> bool
    ensures { result ≡ spec.is_name bytes.now }
{
    is_word(bytes) && bytes.len() <= NAME_LIMIT && word_of(bytes).is_none()
}

/// A text that a model prints: at most 120 bytes from 32 to 126 without the double quote.
/// Contracts see the list of its bytes.
#[derive(Drop)]
pub struct PrintText {
    bytes: Vec<u8>,
}

impl Model for PrintText {
    ghost use Rattle.std.specs.Prelude.{List, ℕ, IsTrue};
    ghost use Rattle.model_tree.specs.Leaves.{is_print_text};

    ghost Value = { List ℕ };

    ghost view = { λ t. t.bytes.items };

    ghost invariant = { λ t. IsTrue (is_print_text t.bytes.items) };
}

impl PrintText {
    /// The text of these bytes, if they have the form of one.
    pub fn try_new(bytes: Vec<u8>) -> Option<PrintText>
        ensures form { IsSome result ↔ IsTrue (spec.is_print_text bytes.items) }
        ensures value { IfSome result (λ text. text ≡ bytes.items) }
    {
        if is_print_text(bytes.as_slice()) {
            Some(PrintText { bytes })
        } else {
            None
        }
    }

    /// The bytes of the text.
    pub fn bytes(&self) -> &[u8]
        ensures value { result.now ≡ self.now }
        ensures form { IsTrue (spec.is_print_text self.now) }
    {
        self.bytes.as_slice()
    }
}

/// Whether the byte may stand in a text between double quotes.
pub fn is_print_byte(byte: u8) -> bool
    ensures { result ≡ spec.is_print_byte byte }
{
    byte >= 32 && byte <= 126 && byte != b'"'
}

fn all_print_bytes(bytes: &[u8]) -> bool
    ensures { result ≡ list_all spec.is_print_byte bytes.now }
{
    bytes.iter().all(|byte| is_print_byte(*byte))
}

/// Whether these bytes have the form of a text between double quotes.
pub fn is_print_text(bytes: &[u8]) -> bool
    ensures { result ≡ spec.is_print_text bytes.now }
{
    all_print_bytes(bytes) && bytes.len() <= PRINT_LIMIT
}
