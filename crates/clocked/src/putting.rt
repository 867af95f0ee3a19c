//! The tokens that are put in, on one line each time.
ghost use Rattle.std.specs.Prelude.{◌≡◌, [], ◌∷◌, ◌++◌};
ghost use Rattle.model_lexer.specs.Tokens as t;
ghost use Rattle.clocked.specs.Expanded as spec;
ghost use Rattle.clocked.specs.Views.{reset_in, reset_if, Adds};

use super::expansion::{Expansion, add_reset_name, new_word, put, truth};
use super::words::NewWord;
use model_lexer::TokenKind;
use model_tree::{ParseStop, Symbol, Word};

/// A reset of a clocked thread: a signal, and the level at which it resets.
#[derive(Clone, Copy)]
pub struct Reset<'a> {
    /// The name of the signal.
    pub signal: &'a [u8],
    /// The level.
    pub level: bool,
}

/// What stands before the number of a tick.
pub fn tick_before(out: &mut Expansion<'_>, line: u32) -> Result<(), ParseStop>
    ensures { Adds result out.old out.new (spec.put line spec.tick_before) }
{
    put(
        out,
        &[
            TokenKind::Word(Word::If),
            TokenKind::Word(Word::True),
            TokenKind::Symbol(Symbol::LeftBrace),
            TokenKind::Word(Word::Var),
            TokenKind::Word(Word::Uint),
            TokenKind::Symbol(Symbol::Less),
            TokenKind::Num(32),
            TokenKind::Symbol(Symbol::Greater),
            new_word(NewWord::TickCount),
            TokenKind::Symbol(Symbol::Equal),
        ],
        line,
    )
}

/// What stands behind the `;` of a tick, before the tests of resets.
fn wait_before(out: &mut Expansion<'_>, line: u32) -> Result<(), ParseStop>
    ensures { Adds result out.old out.new (spec.put line spec.wait_before) }
{
    put(
        out,
        &[
            TokenKind::Word(Word::While),
            new_word(NewWord::TickCount),
            TokenKind::Symbol(Symbol::Greater),
            TokenKind::Num(0),
            TokenKind::Symbol(Symbol::LeftBrace),
            TokenKind::Word(Word::Wait),
            TokenKind::Symbol(Symbol::Semicolon),
        ],
        line,
    )
}

/// What stands behind these tests.
fn wait_behind(out: &mut Expansion<'_>, line: u32) -> Result<(), ParseStop>
    ensures { Adds result out.old out.new (spec.put line spec.wait_behind) }
{
    put(
        out,
        &[
            new_word(NewWord::TickCount),
            TokenKind::Symbol(Symbol::Equal),
            new_word(NewWord::TickCount),
            TokenKind::Symbol(Symbol::Minus),
            TokenKind::Num(1),
            TokenKind::Symbol(Symbol::Semicolon),
            TokenKind::Symbol(Symbol::RightBrace),
            TokenKind::Symbol(Symbol::RightBrace),
        ],
        line,
    )
}

/// The test of a reset, if there is one.
fn test<'a>(out: &mut Expansion<'a>, reset: Option<Reset<'a>>, line: u32) -> Result<(), ParseStop>
    ensures { Adds result out.old out.new (spec.put line (spec.test_of (reset_if reset.entry))) }
{
    let Some(reset) = reset else {
        return Ok(());
    };
    put(
        out,
        &[
            TokenKind::Word(Word::If),
            TokenKind::Name(reset.signal),
            TokenKind::Symbol(Symbol::EqualEqual),
            truth(reset.level),
            TokenKind::Symbol(Symbol::LeftBrace),
            TokenKind::Word(Word::Throw),
            new_word(NewWord::TickReset),
            TokenKind::Symbol(Symbol::Semicolon),
            TokenKind::Symbol(Symbol::RightBrace),
        ],
        line,
    )
}

/// What stands behind the `;` of a tick: it waits, tests the resets, and counts.
pub fn tick_behind<'a>(
    out: &mut Expansion<'a>,
    asynchronous: Option<Reset<'a>>,
    synchronous: Option<Reset<'a>>,
    line: u32,
) -> Result<(), ParseStop>
    ensures { Adds result out.old out.new (spec.put line (spec.tick_behind (reset_if asynchronous.entry, reset_if synchronous.entry))) }
{
    wait_before(out, line)?;
    test(out, asynchronous, line)?;
    test(out, synchronous, line)?;
    wait_behind(out, line)
}

/// What stands before the statements of a block.
pub fn body_before(out: &mut Expansion<'_>, line: u32) -> Result<(), ParseStop>
    ensures { Adds result out.old out.new (spec.put line spec.body_before) }
{
    put(
        out,
        &[
            TokenKind::Word(Word::Var),
            TokenKind::Word(Word::Bool),
            new_word(NewWord::TickAgain),
            TokenKind::Symbol(Symbol::Equal),
            TokenKind::Word(Word::True),
            TokenKind::Symbol(Symbol::Semicolon),
            TokenKind::Word(Word::While),
            new_word(NewWord::TickAgain),
            TokenKind::Symbol(Symbol::LeftBrace),
            TokenKind::Word(Word::Try),
            TokenKind::Symbol(Symbol::LeftBrace),
        ],
        line,
    )
}

/// What stands behind them.
pub fn body_behind(out: &mut Expansion<'_>, line: u32) -> Result<(), ParseStop>
    ensures { Adds result out.old out.new (spec.put line spec.body_behind) }
{
    put(
        out,
        &[
            new_word(NewWord::TickAgain),
            TokenKind::Symbol(Symbol::Equal),
            TokenKind::Word(Word::False),
            TokenKind::Symbol(Symbol::Semicolon),
            TokenKind::Symbol(Symbol::RightBrace),
            TokenKind::Word(Word::Catch),
            new_word(NewWord::TickReset),
            TokenKind::Symbol(Symbol::LeftBrace),
            TokenKind::Symbol(Symbol::RightBrace),
            TokenKind::Symbol(Symbol::RightBrace),
        ],
        line,
    )
}

/// What stands behind the name of the method that resets a thread.
fn reset_body<'a>(
    out: &mut Expansion<'a>,
    thread: &'a [u8],
    reset: Reset<'a>,
    line: u32,
) -> Result<(), ParseStop>
    ensures { Adds result out.old out.new (spec.put line (spec.reset_body thread.now (reset_in reset.entry))) }
{
    put(
        out,
        &[
            TokenKind::Word(Word::Sensitive),
            TokenKind::Name(reset.signal),
            TokenKind::Word(Word::DontInitialize),
            TokenKind::Symbol(Symbol::LeftBrace),
            TokenKind::Word(Word::If),
            TokenKind::Name(reset.signal),
            TokenKind::Symbol(Symbol::EqualEqual),
            truth(reset.level),
            TokenKind::Symbol(Symbol::LeftBrace),
            TokenKind::Word(Word::Reset),
            TokenKind::Name(thread),
            TokenKind::Symbol(Symbol::Semicolon),
            TokenKind::Symbol(Symbol::RightBrace),
            TokenKind::Symbol(Symbol::RightBrace),
        ],
        line,
    )
}

/// The method that resets a thread at once, if it has such a reset.
pub fn reset_method<'a>(
    out: &mut Expansion<'a>,
    thread: &'a [u8],
    reset: Option<Reset<'a>>,
    line: u32,
) -> Result<(), ParseStop>
    ensures { Adds result out.old out.new (spec.put line (spec.reset_method thread.now (reset_if reset.entry))) }
{
    let Some(reset) = reset else {
        return Ok(());
    };
    put(out, &[TokenKind::Word(Word::Method)], line)?;
    add_reset_name(out, thread, line)?;
    reset_body(out, thread, reset, line)
}
