ghost use Rattle.std.specs.Prelude.{◌≡◌, ◌≢◌, ℕ, ◌^◌, ◌<◌, ◌≤◌, List, [], length, IsTrue, OnOk, OnErr};
ghost use Rattle.model_lexer.specs.Tokens.{are_limited};
ghost use Rattle.model_lexer.specs.LogicValues.Digits.{digits};
ghost use Rattle.parse_expressions.specs.Cursor.{tokens_view};
ghost use Rattle.model_lexer.specs.Expressions as grammar;
ghost use Rattle.parse_expressions.specs.Parse as spec;

use super::kinds::{
    is_number, is_the_number, is_the_symbol, is_the_word, operator_in, sign_in, token_start,
    unit_in, word_in,
};
use super::starts::Start;
use model_lexer::logic_values_api::Lv;
use model_lexer::sim_time_api::Unit;
use model_lexer::{Token, TokenKind};
use model_tree::{BinaryOp, Name, ParseStop, PrintText, Symbol, UnaryOp, Word};
use std::alloc::Global;
use std::marker::Model;

/// A place in the tokens of a text. Contracts see the tokens that are left.
#[derive(Drop)]
pub struct Cursor<'a> {
    rest: &'a [Token<'a>],
    last_line: u32,
}

impl<'a> Model for Cursor<'a> {
    ghost use Rattle.std.specs.Prelude.{IsTrue};
    ghost use Rattle.model_lexer.specs.Tokens.{Tokens, are_limited};
    ghost use Rattle.parse_expressions.specs.Cursor.{tokens_view};

    ghost Value = { Tokens };

    ghost view = { λ c. tokens_view c.rest.now };

    ghost invariant = { λ c. IsTrue (are_limited (tokens_view c.rest.now)) };
}

impl<'a> Cursor<'a> {
    /// The place before these tokens. At their end the line is the given one.
    pub fn new(tokens: &'a [Token<'a>], last_line: u32) -> Self
        requires { IsTrue (are_limited (tokens_view tokens.now)) }
        ensures { result ≡ tokens_view tokens.now }
    {
        Cursor {
            rest: tokens,
            last_line,
        }
    }

    /// The line of the token so many places on; past the end, that which was given for it.
    pub(crate) fn line_at(&self, place: usize) -> u32 {
        match self.rest.get(place) {
            Some(token) => token.line,
            None => self.last_line,
        }
    }

    /// The line of the next token.
    pub fn line(&self) -> u32 {
        self.line_at(0)
    }

    /// How many tokens are left.
    pub fn left(&self) -> usize
        ensures count { result ≡ length self.now }
        ensures small { result < 2 ^ 63 }
    {
        self.rest.len()
    }

    /// Whether the next token is this symbol.
    pub fn sees_symbol(&self, symbol: Symbol) -> bool
        ensures { result ≡ grammar.sees (grammar.is_the_symbol symbol) self.now }
    {
        match self.rest {
            [] => false,
            [first, ..] => is_the_symbol(first.kind, symbol),
        }
    }

    /// Whether the next token is this word.
    pub fn sees_word(&self, word: Word) -> bool
        ensures { result ≡ grammar.sees (spec.is_the_word word) self.now }
    {
        match self.rest {
            [] => false,
            [first, ..] => is_the_word(first.kind, word),
        }
    }

    /// Whether a number comes.
    pub fn sees_number(&self) -> bool
        ensures { result ≡ spec.sees_number self.now }
    {
        match self.rest {
            [] => false,
            [first, ..] => is_number(first.kind),
        }
    }

    /// Whether a number and a colon come.
    pub(crate) fn sees_bounds(&self) -> bool
        ensures { result ≡ spec.sees_bounds self.now }
    {
        match self.rest {
            [first, second, ..] => {
                is_number(first.kind) && is_the_symbol(second.kind, Symbol::Colon)
            }
            _ => false,
        }
    }

    /// Whether a `.` or a `[` comes.
    pub(crate) fn sees_link(&self) -> bool
        ensures { result ≡ grammar.sees grammar.is_link self.now }
    {
        match self.rest {
            [] => false,
            [first, ..] => {
                is_the_symbol(first.kind, Symbol::Dot)
                    || is_the_symbol(first.kind, Symbol::LeftBracket)
            }
        }
    }

    /// Whether the token behind the next one is this symbol.
    pub fn sees_second_symbol(&self, symbol: Symbol) -> bool
        ensures { result ≡ spec.sees_second (grammar.is_the_symbol symbol) self.now }
    {
        match self.rest {
            [_first, second, ..] => is_the_symbol(second.kind, symbol),
            _ => false,
        }
    }

    /// The word of the language that comes, if one does.
    pub fn word_ahead(&self) -> Option<Word>
        ensures { result ≡ spec.word_ahead self.now }
    {
        match self.rest {
            [] => None,
            [first, ..] => word_in(first.kind),
        }
    }

    /// The unit that comes, if one does.
    pub fn unit(&self) -> Option<Unit>
        ensures { result ≡ spec.unit_ahead self.now }
    {
        match self.rest {
            [] => None,
            [first, ..] => unit_in(first.kind),
        }
    }

    /// The binary operator that comes, if one does.
    pub(crate) fn operator(&self) -> Option<BinaryOp>
        ensures { result ≡ spec.operator_ahead self.now }
    {
        match self.rest {
            [] => None,
            [first, ..] => operator_in(first.kind),
        }
    }

    /// The prefix operator that comes, if one does.
    pub(crate) fn sign(&self) -> Option<UnaryOp>
        ensures { result ≡ spec.sign_ahead self.now }
    {
        match self.rest {
            [] => None,
            [first, ..] => sign_in(first.kind),
        }
    }

    /// What operand comes.
    pub(crate) fn start(&self) -> Start
        ensures { result ≡ spec.start_of self.now }
    {
        match self.rest {
            [] => Start::Nothing,
            [first, ..] => token_start(first.kind),
        }
    }

    /// Whether no token is left; Syntax, at the next token's line, where one is.
    pub fn end(&self) -> Result<(), ParseStop>
        ensures ended { OnOk result (self.now ≡ []) }
        ensures more { OnErr result (self.now ≢ []) }
    {
        match self.rest {
            [] => Ok(()),
            [first, ..] => Err(ParseStop::Syntax { line: first.line }),
        }
    }

    /// Takes the next token, whatever it is. The answer is its line.
    #[tactic(auto, unfolding(crate::specs::Parse::skip))]
    pub fn skip(&mut self) -> Result<u32, ParseStop>
        ensures { spec.Parses (λ line. line) spec.skip self.old result self.new }
    {
        match self.rest {
            [first, after @ ..] => {
                self.rest = after;
                Ok(first.line)
            }
            _ => Err(ParseStop::Syntax { line: self.line() }),
        }
    }

    /// Takes this symbol. The answer is its line.
    #[tactic(auto, unfolding(crate::specs::Parse::symbol))]
    pub fn symbol(&mut self, symbol: Symbol) -> Result<u32, ParseStop>
        ensures { spec.Parses (λ line. line) (spec.symbol symbol) self.old result self.new }
    {
        match self.rest {
            [first, after @ ..] if is_the_symbol(first.kind, symbol) => {
                self.rest = after;
                Ok(first.line)
            }
            _ => Err(ParseStop::Syntax { line: self.line() }),
        }
    }

    /// Takes this symbol, a bracket, where so many brackets may still be opened: Syntax at it where none may.
    /// The answer is its line.
    pub fn opened(&mut self, depth: u8, symbol: Symbol) -> Result<u32, ParseStop>
        ensures { spec.Parses (λ line. line) (spec.opened depth symbol) self.old result self.new }
    {
        if depth == 0 {
            return Err(ParseStop::Syntax { line: self.line() });
        }
        self.symbol(symbol)
    }

    /// Takes this word. The answer is its line.
    #[tactic(auto, unfolding(crate::specs::Parse::word))]
    pub fn word(&mut self, word: Word) -> Result<u32, ParseStop>
        ensures { spec.Parses (λ line. line) (spec.word word) self.old result self.new }
    {
        match self.rest {
            [first, after @ ..] if is_the_word(first.kind, word) => {
                self.rest = after;
                Ok(first.line)
            }
            _ => Err(ParseStop::Syntax { line: self.line() }),
        }
    }

    /// Takes this word where it comes. The answer is whether it came.
    #[tactic(auto, unfolding(crate::specs::Parse::flag))]
    pub fn flag(&mut self, word: Word) -> Result<bool, ParseStop>
        ensures { spec.Parses (λ flag. flag) (spec.flag word) self.old result self.new }
    {
        if self.sees_word(word) {
            let _line = self.word(word)?;
            return Ok(true);
        }
        Ok(false)
    }

    /// Takes a text.
    #[tactic(auto, unfolding(crate::specs::Parse::text))]
    pub fn text(&mut self, alloc: Global) -> Result<PrintText, ParseStop>
        ensures { spec.Parses (λ text. text) spec.text self.old result self.new }
    {
        let [first, after @ ..] = self.rest else {
            return Err(ParseStop::Syntax { line: self.line() });
        };
        let TokenKind::Text(bytes) = first.kind else {
            return Err(ParseStop::Syntax { line: self.line() });
        };
        let owned = Vec::from_slice(alloc, bytes)?;
        let text = PrintText::try_new(owned).unwrap();
        self.rest = after;
        Ok(text)
    }

    /// Takes a name. The answer is its line and the name.
    #[tactic(auto, unfolding(crate::specs::Parse::named))]
    pub fn named(&mut self, alloc: Global) -> Result<(u32, Name), ParseStop>
        ensures { spec.Parses (λ named. named) spec.named self.old result self.new }
    {
        let [first, after @ ..] = self.rest else {
            return Err(ParseStop::Syntax { line: self.line() });
        };
        let TokenKind::Name(bytes) = first.kind else {
            return Err(ParseStop::Syntax { line: self.line() });
        };
        let line = first.line;
        let owned = Vec::from_slice(alloc, bytes)?;
        let name = Name::try_new(owned).unwrap();
        self.rest = after;
        Ok((line, name))
    }

    /// Takes a name.
    #[tactic(auto, unfolding(crate::specs::Parse::name))]
    pub fn name(&mut self, alloc: Global) -> Result<Name, ParseStop>
        ensures { spec.Parses (λ name. name) spec.name self.old result self.new }
    {
        let (_line, name) = self.named(alloc)?;
        Ok(name)
    }

    /// Takes a number. The answer is its line and the number.
    #[tactic(auto, unfolding(crate::specs::Parse::numbered))]
    pub fn numbered(&mut self) -> Result<(u32, u64), ParseStop>
        ensures { spec.Parses (λ numbered. numbered) spec.numbered self.old result self.new }
    {
        let [first, after @ ..] = self.rest else {
            return Err(ParseStop::Syntax { line: self.line() });
        };
        let TokenKind::Num(number) = first.kind else {
            return Err(ParseStop::Syntax { line: self.line() });
        };
        self.rest = after;
        Ok((first.line, number))
    }

    /// Takes a number.
    #[tactic(auto, unfolding(crate::specs::Parse::number))]
    pub fn number(&mut self) -> Result<u64, ParseStop>
        ensures { spec.Parses (λ number. number) spec.number self.old result self.new }
    {
        let (_line, number) = self.numbered()?;
        Ok(number)
    }

    /// Takes this number. The answer is its line.
    #[tactic(auto, unfolding(crate::specs::Parse::this_number))]
    pub fn this_number(&mut self, number: u64) -> Result<u32, ParseStop>
        ensures { spec.Parses (λ line. line) (spec.this_number number) self.old result self.new }
    {
        match self.rest {
            [first, after @ ..] if is_the_number(first.kind, number) => {
                self.rest = after;
                Ok(first.line)
            }
            _ => Err(ParseStop::Syntax { line: self.line() }),
        }
    }

    /// Takes a logic literal. The answer is its line and its digits.
    #[tactic(auto, unfolding(crate::specs::Parse::logical))]
    pub fn logical(&mut self) -> Result<(u32, Lv), ParseStop>
        ensures { spec.Parses (λ found. (found.0, digits found.1)) spec.logical self.old result self.new }
    {
        let [first, after @ ..] = self.rest else {
            return Err(ParseStop::Syntax { line: self.line() });
        };
        let TokenKind::Logic(value) = first.kind else {
            return Err(ParseStop::Syntax { line: self.line() });
        };
        self.rest = after;
        Ok((first.line, value))
    }
}
