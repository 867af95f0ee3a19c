ghost use Rattle.std.specs.Prelude.{◌≡◌, ◌++◌, OnOk, codes};
ghost use Rattle.std.specs.Fmt.{decimal};
ghost use Rattle.model_tree.specs.LogicValues.Digits.{digits};
ghost use Rattle.model_tree.specs.Vocabulary.{word_text};
ghost use Rattle.model_print.specs.Layout as spec;
ghost use Rattle.model_print.specs.Pieces as piece;

use super::shapes::{Shape, ends_line, is_spaced};
use model_tree::logic_values_api::{Lv, Text, Value, value_text};
use model_tree::{Name, PrintText, Symbol, Word, symbol_text, word_text};
use std::alloc::{AllocError, Global};
use std::marker::Model;

/// A page that is being written.
#[derive(Drop)]
pub struct Page {
    alloc: Global,
    // What is written.
    text: Vec<u8>,
    // The last token.
    last: Shape,
    // Two blanks for each brace that is open.
    margin: Vec<u8>,
}

impl Model for Page {
    ghost use Rattle.model_print.specs.Layout.{Page as Written, page_code};
    ghost use Rattle.model_print.specs.contracts.shapes.Shape.{the_row};

    ghost Value = { Written };

    ghost coded = { page_code the_row.coded };

    ghost view = { λ p. record { text = p.text.items; last = p.last; margin = p.margin.items } };
}

impl Page {
    /// A page with nothing on it.
    pub fn new(alloc: Global) -> Page
        ensures { result ≡ spec.blank }
    {
        Page {
            alloc,
            text: Vec::new(alloc),
            last: Shape::Semicolon,
            margin: Vec::new(alloc),
        }
    }

    /// What is written.
    pub fn into_text(self) -> Text
        ensures { result ≡ self.text }
    {
        let Page { text, .. } = self;
        Text::from_vec(text)
    }

    /// Writes the margin of a line that begins with this token.
    fn indent(&mut self, shape: Shape) -> Result<(), AllocError>
        ensures { OnOk result (self.new ≡ record self.old { text = self.old.text ++ spec.margin_before self.old.margin shape }) }
    {
        let margin = self.margin.as_slice();
        let wanted = match shape {
            Shape::RightBrace => &margin[..margin.len().saturating_sub(2)],
            _ => margin,
        };
        self.text.extend_from_slice(wanted)
    }

    /// Writes what stands before this token.
    fn space(&mut self, shape: Shape) -> Result<(), AllocError>
        ensures { OnOk result (self.new ≡ record self.old { text = self.old.text ++ spec.gap self.old shape }) }
    {
        if ends_line(self.last) {
            return self.indent(shape);
        }
        if is_spaced(self.last, shape) {
            self.text.push(b' ')?;
        }
        Ok(())
    }

    /// Ends the line behind a token that does so.
    fn end_line(&mut self, shape: Shape) -> Result<(), AllocError>
        ensures { OnOk result (self.new ≡ record self.old { text = self.old.text ++ spec.line_end shape }) }
    {
        if ends_line(shape) {
            self.text.push(b'\n')?;
        }
        Ok(())
    }

    /// Opens or closes the margin behind a brace.
    fn shift(&mut self, shape: Shape) -> Result<(), AllocError>
        ensures { OnOk result (self.new ≡ record self.old { margin = spec.margin_after self.old.margin shape }) }
    {
        match shape {
            Shape::LeftBrace => self.margin.extend_from_slice(b"  "),
            Shape::RightBrace => {
                self.margin.truncate(self.margin.len().saturating_sub(2));
                Ok(())
            }
            _ => Ok(()),
        }
    }

    /// Writes a token.
    fn put(&mut self, shape: Shape, bytes: &[u8]) -> Result<(), AllocError>
        ensures { OnOk result (self.new ≡ spec.put self.old (record { shape = shape; bytes = bytes.now })) }
    {
        self.space(shape)?;
        self.text.extend_from_slice(bytes)?;
        self.end_line(shape)?;
        self.shift(shape)?;
        self.last = shape;
        Ok(())
    }

    /// Writes a word of the language that is no type and no conversion.
    pub fn word(&mut self, word: Word) -> Result<(), AllocError>
        ensures { OnOk result (self.new ≡ spec.put self.old (piece.word word)) }
    {
        self.put(Shape::Word, word_text(word).as_bytes())
    }

    /// Writes a name.
    pub fn name(&mut self, name: &Name) -> Result<(), AllocError>
        ensures { OnOk result (self.new ≡ spec.put self.old (piece.name name.now)) }
    {
        self.put(Shape::Plain, name.bytes())
    }

    /// Writes the word of a unit.
    pub fn unit(&mut self, bytes: &[u8]) -> Result<(), AllocError>
        ensures { OnOk result (self.new ≡ spec.put self.old (piece.name bytes.now)) }
    {
        self.put(Shape::Plain, bytes)
    }

    /// Writes a number in decimal.
    pub fn number(&mut self, number: u64) -> Result<(), AllocError>
        ensures { OnOk result (self.new ≡ spec.put self.old (piece.number number)) }
    {
        let text = format!(in self.alloc; "{number}")?;
        self.put(Shape::Plain, text.as_bytes())
    }

    /// Writes a logic literal.
    pub fn logic(&mut self, value: Lv) -> Result<(), AllocError>
        ensures { OnOk result (self.new ≡ spec.put self.old (piece.logic (digits value))) }
    {
        let digits = value_text(self.alloc, Value::Vector(value))?;
        let mut text = Vec::new(self.alloc);
        text.extend_from_slice(b"'")?;
        text.extend_from_slice(digits.as_slice())?;
        text.extend_from_slice(b"'")?;
        self.put(Shape::Plain, text.as_slice())
    }

    /// Writes a text between double quotes.
    pub fn quoted(&mut self, words: &PrintText) -> Result<(), AllocError>
        ensures { OnOk result (self.new ≡ spec.put self.old (piece.quoted words.now)) }
    {
        let mut text = Vec::new(self.alloc);
        text.extend_from_slice(b"\"")?;
        text.extend_from_slice(words.bytes())?;
        text.extend_from_slice(b"\"")?;
        self.put(Shape::Quoted, text.as_slice())
    }

    /// Writes the word of a conversion or of a type that has no width.
    pub fn type_word(&mut self, word: Word) -> Result<(), AllocError>
        ensures { OnOk result (self.new ≡ spec.put self.old (piece.type_word word)) }
    {
        self.put(Shape::Plain, word_text(word).as_bytes())
    }

    /// Writes a type that has a width.
    pub fn wide(&mut self, word: Word, width: u64) -> Result<(), AllocError>
        ensures { OnOk result (self.new ≡ spec.put self.old (piece.wide word width)) }
    {
        let number = format!(in self.alloc; "{width}")?;
        let mut text = Vec::new(self.alloc);
        text.extend_from_slice(word_text(word).as_bytes())?;
        text.extend_from_slice(b"<")?;
        text.extend_from_slice(number.as_bytes())?;
        text.extend_from_slice(b">")?;
        self.put(Shape::Plain, text.as_slice())
    }

    /// Writes an operator between two tokens.
    pub fn operator(&mut self, symbol: Symbol) -> Result<(), AllocError>
        ensures { OnOk result (self.new ≡ spec.put self.old (piece.operator symbol)) }
    {
        self.put(Shape::Operator, symbol_text(symbol).as_bytes())
    }

    /// Writes an operator before its operand.
    pub fn prefix(&mut self, symbol: Symbol) -> Result<(), AllocError>
        ensures { OnOk result (self.new ≡ spec.put self.old (piece.prefix symbol)) }
    {
        self.put(Shape::Prefix, symbol_text(symbol).as_bytes())
    }

    /// Writes `.` or `@`.
    pub fn joint(&mut self, symbol: Symbol) -> Result<(), AllocError>
        ensures { OnOk result (self.new ≡ spec.put self.old (piece.joint symbol)) }
    {
        self.put(Shape::Joint, symbol_text(symbol).as_bytes())
    }

    /// Writes an opening round or square bracket.
    pub fn opening(&mut self, symbol: Symbol) -> Result<(), AllocError>
        ensures { OnOk result (self.new ≡ spec.put self.old (piece.opening symbol)) }
    {
        self.put(Shape::Open, symbol_text(symbol).as_bytes())
    }

    /// Writes a closing one.
    pub fn closing(&mut self, symbol: Symbol) -> Result<(), AllocError>
        ensures { OnOk result (self.new ≡ spec.put self.old (piece.closing symbol)) }
    {
        self.put(Shape::Close, symbol_text(symbol).as_bytes())
    }

    /// Writes `,`.
    pub fn comma(&mut self) -> Result<(), AllocError>
        ensures { OnOk result (self.new ≡ spec.put self.old piece.comma) }
    {
        self.put(Shape::Comma, symbol_text(Symbol::Comma).as_bytes())
    }

    /// Writes `;`.
    pub fn semicolon(&mut self) -> Result<(), AllocError>
        ensures { OnOk result (self.new ≡ spec.put self.old piece.semicolon) }
    {
        self.put(Shape::Semicolon, symbol_text(Symbol::Semicolon).as_bytes())
    }

    /// Writes `{`.
    pub fn left_brace(&mut self) -> Result<(), AllocError>
        ensures { OnOk result (self.new ≡ spec.put self.old piece.left_brace) }
    {
        self.put(Shape::LeftBrace, symbol_text(Symbol::LeftBrace).as_bytes())
    }

    /// Writes `}`.
    pub fn right_brace(&mut self) -> Result<(), AllocError>
        ensures { OnOk result (self.new ≡ spec.put self.old piece.right_brace) }
    {
        self.put(
            Shape::RightBrace,
            symbol_text(Symbol::RightBrace).as_bytes(),
        )
    }
}
