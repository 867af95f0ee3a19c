use model_tree::logic_values_api::{Items, Lv};
use model_tree::{Symbol, Word};

/// Which token it is, with what it means. A name is the bytes of the text that spell it, and a text is those between its quotes.
#[derive(Clone, Copy)]
pub enum TokenKind<'a> {
    /// A name: at most 64 bytes.
    Name(&'a [u8]),
    /// A reserved word.
    Word(Word),
    /// A number below 2^64, decimal or hexadecimal.
    Num(u64),
    /// A logic literal of 1 to 64 digits.
    Logic(Lv),
    /// A text of at most 120 bytes.
    Text(&'a [u8]),
    /// A symbol.
    Symbol(Symbol),
}

/// A token of a text.
#[derive(Clone, Copy)]
pub struct Token<'a> {
    /// Which token it is.
    pub kind: TokenKind<'a>,
    /// The place of its first byte, counted from 0.
    pub start: u32,
    /// The place behind its last byte.
    pub end: u32,
    /// Its line, counted from 1.
    pub line: u32,
}

/// The tokens of a text, in its order.
pub type Tokens<'a> = Items<Token<'a>>;
