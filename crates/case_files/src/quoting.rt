//! Texts between double quotes.
//!
//! A text is one or more quoted pieces with blanks between them, and stands for all of them joined.
//! `N * "PIECE"` stands for the piece N times. In a piece `\n`, `\t`, `\\`, `\"` and `\xNN` stand for one byte.

use super::reading::LineError;
use std::alloc::{AllocError, Global};

/// The most times that a piece is repeated.
const MOST_TIMES: u32 = 10_000_000;

/// Where a reader stands in a text.
#[derive(Clone, Copy)]
enum Place {
    Between,
    Inside,
    Escape,
    FirstDigit,
    SecondDigit { high: u8 },
}

/// What was read of a text so far.
#[derive(Drop)]
struct Pieces {
    joined: Vec<u8>,
    piece: Vec<u8>,
    times: Option<u32>,
    place: Place,
}

fn hex_value(byte: u8) -> Result<u8, LineError> {
    match byte {
        b'0'..=b'9' => Ok(byte - b'0'),
        b'a'..=b'f' => Ok(byte - b'a' + 10),
        _ => Err(LineError::Form),
    }
}

impl Pieces {
    fn new(alloc: Global) -> Pieces {
        Pieces {
            joined: Vec::new(alloc),
            piece: Vec::new(alloc),
            times: None,
            place: Place::Between,
        }
    }

    fn add_digit(&mut self, digit: u8) -> Result<(), LineError> {
        let times = self.times.unwrap_or(0);
        if times > MOST_TIMES {
            return Err(LineError::Form);
        }
        self.times = Some(times * 10 + u32::from(digit));
        Ok(())
    }

    fn take_between(&mut self, byte: u8) -> Result<(), LineError> {
        match byte {
            b' ' | b'*' => Ok(()),
            b'"' => {
                self.place = Place::Inside;
                Ok(())
            }
            b'0'..=b'9' => self.add_digit(byte - b'0'),
            _ => Err(LineError::Form),
        }
    }

    /// Ends a piece.
    fn close(&mut self) -> Result<(), LineError> {
        for _ in 0..self.times.unwrap_or(1) {
            self.joined.extend_from_slice(self.piece.as_slice())?;
        }
        self.piece.clear();
        self.times = None;
        self.place = Place::Between;
        Ok(())
    }

    /// Adds a byte to the piece.
    fn add(&mut self, byte: u8) -> Result<(), LineError> {
        self.piece.push(byte)?;
        self.place = Place::Inside;
        Ok(())
    }

    fn take_inside(&mut self, byte: u8) -> Result<(), LineError> {
        match byte {
            b'"' => self.close(),
            b'\\' => {
                self.place = Place::Escape;
                Ok(())
            }
            _ => self.add(byte),
        }
    }

    fn take_escape(&mut self, byte: u8) -> Result<(), LineError> {
        match byte {
            b'n' => self.add(b'\n'),
            b't' => self.add(b'\t'),
            b'\\' | b'"' => self.add(byte),
            b'x' => {
                self.place = Place::FirstDigit;
                Ok(())
            }
            _ => Err(LineError::Form),
        }
    }

    fn take_digit(&mut self, byte: u8) -> Result<(), LineError> {
        let high = hex_value(byte)?;
        self.place = Place::SecondDigit { high };
        Ok(())
    }

    fn take(&mut self, byte: u8) -> Result<(), LineError> {
        match self.place {
            Place::Between => self.take_between(byte),
            Place::Inside => self.take_inside(byte),
            Place::Escape => self.take_escape(byte),
            Place::FirstDigit => self.take_digit(byte),
            Place::SecondDigit { high } => {
                let low = hex_value(byte)?;
                self.add((high << 4) | low)
            }
        }
    }

    fn finish(self) -> Result<Vec<u8>, LineError> {
        match (self.place, self.times) {
            (Place::Between, None) => Ok(self.joined),
            _ => Err(LineError::Form),
        }
    }
}

/// The bytes that a text stands for.
pub fn text_bytes(alloc: Global, source: &str) -> Result<Vec<u8>, LineError> {
    let mut pieces = Pieces::new(alloc);
    for byte in source.bytes() {
        pieces.take(byte)?;
    }
    pieces.finish()
}

fn push_byte(shown: &mut String, byte: u8) -> Result<(), AllocError> {
    match byte {
        b'\n' => shown.push_str("\\n"),
        b'\t' => shown.push_str("\\t"),
        b'\\' => shown.push_str("\\\\"),
        b'"' => shown.push_str("\\\""),
        32..=126 => shown.push(byte as char),
        _ => write!(shown, "\\x{byte:02x}"),
    }
}

/// Appends bytes as quoted pieces, one for each line, below one another.
pub fn push_quoted(shown: &mut String, bytes: &[u8]) -> Result<(), AllocError> {
    shown.push('"')?;
    for (place, byte) in bytes.iter().enumerate() {
        push_byte(shown, *byte)?;
        if *byte == b'\n' && place + 1 < bytes.len() {
            shown.push_str("\"\n        \"")?;
        }
    }
    shown.push('"')
}
