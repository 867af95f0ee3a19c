//! The tokens of an expansion.
ghost use Rattle.std.specs.Prelude.{◌≡◌, [], ◌∷◌, ◌++◌, map};
ghost use Rattle.model_lexer.specs.Views.{token_of};
ghost use Rattle.model_lexer.specs.Tokens as t;
ghost use Rattle.clocked.specs.Words as words;
ghost use Rattle.clocked.specs.Parts as parts;
ghost use Rattle.clocked.specs.Expanded as spec;
ghost use Rattle.clocked.specs.Views.{expansion_in, kinds_in, Adds};

use super::words::{NewWord, new_word_text};
use model_lexer::TokenKind;
use model_tree::logic_values_api::Items;
use model_tree::{ParseStop, Word};

/// What a token of an expansion is: a token as the lexer has them, or the name of the method that resets a thread of this name.
#[derive(Clone, Copy)]
pub enum Written<'a> {
    /// A token, of the text or put in.
    Kind(TokenKind<'a>),
    /// The name of this thread with `_areset` behind it.
    ResetName(&'a [u8]),
}

/// A token of an expansion.
#[derive(Clone, Copy)]
pub struct Placed<'a> {
    /// What it is.
    pub written: Written<'a>,
    /// Its line, counted from 1.
    pub line: u32,
}

/// The tokens of an expansion, in its order.
pub type Expansion<'a> = Items<Placed<'a>>;

/// Adds a token at the end, or answers out of memory.
#[tactic(auto, using(crate::proofs::Adding::added))]
fn push<'a>(out: &mut Expansion<'a>, placed: Placed<'a>) -> Result<(), ParseStop>
    ensures { Adds result out.old out.new (expansion_in (placed.entry ∷ [])) }
{
    match out.push(placed) {
        Ok(()) => Ok(()),
        Err(_refused) => Err(ParseStop::NoMemory),
    }
}

/// Adds a token on a line.
pub fn add<'a>(out: &mut Expansion<'a>, kind: TokenKind<'a>, line: u32) -> Result<(), ParseStop>
    ensures { Adds result out.old out.new ((token_of kind.entry, line) ∷ []) }
{
    push(
        out,
        Placed {
            written: Written::Kind(kind),
            line,
        },
    )
}

/// Adds the name of the method that resets a thread.
pub fn add_reset_name<'a>(
    out: &mut Expansion<'a>,
    thread: &'a [u8],
    line: u32,
) -> Result<(), ParseStop>
    ensures { Adds result out.old out.new (spec.put line (t.name (parts.reset_name thread.now) ∷ [])) }
{
    push(
        out,
        Placed {
            written: Written::ResetName(thread),
            line,
        },
    )
}

/// Adds tokens on a line.
#[tactic(auto, using(crate::proofs::Adding::put_more))]
pub fn put<'a>(out: &mut Expansion<'a>, kinds: &[TokenKind<'a>], line: u32) -> Result<(), ParseStop>
    ensures { Adds result out.old out.new (spec.put line (kinds_in kinds.now)) }
{
    for kind in kinds {
        add(out, *kind, line)?;
    }
    Ok(())
}

/// The token that a new word is.
pub fn new_word(word: NewWord) -> TokenKind<'static>
    ensures { token_of result ≡ words.new_word word }
{
    TokenKind::Name(new_word_text(word).as_bytes())
}

/// `true` or `false`.
pub fn truth(level: bool) -> TokenKind<'static>
    ensures { token_of result ≡ parts.truth level }
{
    if level {
        TokenKind::Word(Word::True)
    } else {
        TokenKind::Word(Word::False)
    }
}
