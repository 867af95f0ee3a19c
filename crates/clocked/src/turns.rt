//! What becomes of one token, where it stands.
ghost use Rattle.std.specs.Prelude.{◌≡◌};
ghost use Rattle.model_lexer.specs.Views.{token_of};
ghost use Rattle.clocked.specs.Parts as parts;
ghost use Rattle.clocked.specs.Expanded as expanded;
ghost use Rattle.clocked.specs.Turns as spec;
ghost use Rattle.clocked.specs.Views.{sign_in, head_in, state_in, Adds, Turned};

use super::expansion::{Expansion, add};
use super::putting::{Reset, body_before, body_behind, reset_method, tick_before, tick_behind};
use super::signs::Sign;
use super::states::{Head, State, head_of};
use super::words::NewWord;
use model_lexer::{Token, TokenKind};
use model_tree::{ParseStop, Word};

/// Keeps the token.
fn keep<'a>(
    next: State<'a>,
    token: Token<'a>,
    out: &mut Expansion<'a>,
) -> Result<State<'a>, ParseStop>
    ensures { Turned (spec.keeps (state_in next.entry) (token_of token.entry.kind) token.entry.line) result out.old out.new token.entry.line }
{
    add(out, token.kind, token.line)?;
    Ok(next)
}

/// Refuses the token.
fn refuse<'a>(token: Token<'a>) -> Result<State<'a>, ParseStop>
    ensures { result ≡ Err (ParseStop.Syntax token.entry.line) }
{
    Err(ParseStop::Syntax { line: token.line })
}

fn language<'a>(
    sign: Sign<'a>,
    token: Token<'a>,
    out: &mut Expansion<'a>,
) -> Result<State<'a>, ParseStop>
    ensures { Turned (spec.turn_language (sign_in sign.entry) (token_of token.entry.kind) token.entry.line) result out.old out.new token.entry.line }
{
    match sign {
        Sign::OldName(bytes) => {
            if bytes != "language".as_bytes() {
                return refuse(token);
            }
            keep(State::Version, token, out)
        }
        _ => refuse(token),
    }
}

fn version<'a>(
    sign: Sign<'a>,
    token: Token<'a>,
    out: &mut Expansion<'a>,
) -> Result<State<'a>, ParseStop>
    ensures { Turned (spec.turn_version (sign_in sign.entry) token.entry.line) result out.old out.new token.entry.line }
{
    match sign {
        Sign::Number(value) => {
            if value != 3 {
                return refuse(token);
            }
            add(out, TokenKind::Num(2), token.line)?;
            Ok(State::LineEnd)
        }
        _ => refuse(token),
    }
}

fn line_end<'a>(
    sign: Sign<'a>,
    token: Token<'a>,
    out: &mut Expansion<'a>,
) -> Result<State<'a>, ParseStop>
    ensures { Turned (spec.turn_line_end (sign_in sign.entry) (token_of token.entry.kind) token.entry.line) result out.old out.new token.entry.line }
{
    match sign {
        Sign::Semicolon => keep(State::Outside, token, out),
        _ => refuse(token),
    }
}

fn outside<'a>(
    sign: Sign<'a>,
    token: Token<'a>,
    out: &mut Expansion<'a>,
) -> Result<State<'a>, ParseStop>
    ensures { Turned (spec.turn_outside (sign_in sign.entry) (token_of token.entry.kind) token.entry.line) result out.old out.new token.entry.line }
{
    match sign {
        Sign::New(NewWord::Cthread) => {
            add(out, TokenKind::Word(Word::Thread), token.line)?;
            Ok(State::Named)
        }
        Sign::New(_) => refuse(token),
        _ => keep(State::Outside, token, out),
    }
}

#[tactic(auto, using(crate::proofs::Adding::added_both))]
fn named<'a>(
    sign: Sign<'a>,
    token: Token<'a>,
    out: &mut Expansion<'a>,
) -> Result<State<'a>, ParseStop>
    ensures { Turned (spec.turn_named (sign_in sign.entry) (token_of token.entry.kind) token.entry.line) result out.old out.new token.entry.line }
{
    match sign {
        Sign::OldName(thread) => {
            add(out, token.kind, token.line)?;
            add(out, TokenKind::Word(Word::Sensitive), token.line)?;
            Ok(State::Channel(thread))
        }
        _ => refuse(token),
    }
}

fn channel<'a>(
    thread: &'a [u8],
    sign: Sign<'a>,
    token: Token<'a>,
    out: &mut Expansion<'a>,
) -> Result<State<'a>, ParseStop>
    ensures { Turned (spec.turn_channel thread.now (sign_in sign.entry) (token_of token.entry.kind) token.entry.line) result out.old out.new token.entry.line }
{
    match sign {
        Sign::OldName(_) => keep(State::Place(thread), token, out),
        _ => refuse(token),
    }
}

fn place<'a>(
    thread: &'a [u8],
    sign: Sign<'a>,
    token: Token<'a>,
    out: &mut Expansion<'a>,
) -> Result<State<'a>, ParseStop>
    ensures { Turned (spec.turn_place thread.now (sign_in sign.entry) (token_of token.entry.kind) token.entry.line) result out.old out.new token.entry.line }
{
    match sign {
        Sign::Dot => keep(State::Edge(thread), token, out),
        Sign::AtSign => keep(State::Number(thread), token, out),
        _ => refuse(token),
    }
}

fn placed<'a>(
    thread: &'a [u8],
    sign: Sign<'a>,
    token: Token<'a>,
    out: &mut Expansion<'a>,
) -> Result<State<'a>, ParseStop>
    ensures { Turned (spec.turn_placed thread.now (sign_in sign.entry) (token_of token.entry.kind) token.entry.line) result out.old out.new token.entry.line }
{
    match sign {
        Sign::Number(_) => keep(State::Dotted(thread), token, out),
        Sign::LeftParen => keep(State::Inner(thread, 0), token, out),
        _ => refuse(token),
    }
}

/// One less bracket that is open, where there is one.
#[tactic(auto, using(crate::proofs::Adding::one_less_some))]
fn one_less(depth: u64) -> Option<u64>
    ensures { result ≡ parts.one_less depth }
{
    if depth == 0 { None } else { Some(depth - 1) }
}

/// Behind a parenthesis that closes.
fn inner_closed(thread: &[u8], left: Option<u64>) -> State<'_>
    ensures { state_in result ≡ spec.inner_closed thread.now left }
{
    match left {
        None => State::Dotted(thread),
        Some(left) => State::Inner(thread, left),
    }
}

fn inner<'a>(
    thread: &'a [u8],
    depth: u64,
    sign: Sign<'a>,
    token: Token<'a>,
    out: &mut Expansion<'a>,
) -> Result<State<'a>, ParseStop>
    ensures { Turned (spec.turn_inner thread.now depth (sign_in sign.entry) (token_of token.entry.kind) token.entry.line) result out.old out.new token.entry.line }
{
    match sign {
        Sign::RightParen => keep(inner_closed(thread, one_less(depth)), token, out),
        Sign::LeftParen => {
            // no list has so many tokens
            if depth == u64::MAX {
                return Err(ParseStop::NoMemory);
            }
            keep(State::Inner(thread, depth + 1), token, out)
        }
        Sign::New(_) => refuse(token),
        _ => keep(State::Inner(thread, depth), token, out),
    }
}

fn dotted<'a>(
    thread: &'a [u8],
    sign: Sign<'a>,
    token: Token<'a>,
    out: &mut Expansion<'a>,
) -> Result<State<'a>, ParseStop>
    ensures { Turned (spec.turn_dotted thread.now (sign_in sign.entry) (token_of token.entry.kind) token.entry.line) result out.old out.new token.entry.line }
{
    match sign {
        Sign::Dot => keep(State::Edge(thread), token, out),
        _ => refuse(token),
    }
}

/// Whether the name is `pos` or `neg`.
fn is_edge(bytes: &[u8]) -> bool
    ensures { result ≡ parts.is_edge bytes.now }
{
    bytes == "pos".as_bytes() || bytes == "neg".as_bytes()
}

#[tactic(auto, using(crate::proofs::Adding::added_both))]
fn edge<'a>(
    thread: &'a [u8],
    sign: Sign<'a>,
    token: Token<'a>,
    out: &mut Expansion<'a>,
) -> Result<State<'a>, ParseStop>
    ensures { Turned (spec.turn_edge thread.now (sign_in sign.entry) (token_of token.entry.kind) token.entry.line) result out.old out.new token.entry.line }
{
    match sign {
        Sign::OldName(bytes) => {
            if !is_edge(bytes) {
                return refuse(token);
            }
            add(out, token.kind, token.line)?;
            add(out, TokenKind::Word(Word::DontInitialize), token.line)?;
            Ok(State::Resets(head_of(thread)))
        }
        _ => refuse(token),
    }
}

/// The `{` of a clocked thread's block, and what is put in behind it.
fn block_begins<'a>(token: Token<'a>, out: &mut Expansion<'a>) -> Result<(), ParseStop>
    ensures { Adds result out.old out.new (spec.block_begins (token_of token.entry.kind) token.entry.line) }
{
    add(out, token.kind, token.line)?;
    body_before(out, token.line)
}

fn resets<'a>(
    head: Head<'a>,
    sign: Sign<'a>,
    token: Token<'a>,
    out: &mut Expansion<'a>,
) -> Result<State<'a>, ParseStop>
    ensures { Turned (spec.turn_resets (head_in head.entry) (sign_in sign.entry) (token_of token.entry.kind) token.entry.line) result out.old out.new token.entry.line }
{
    match sign {
        Sign::LeftBrace => {
            block_begins(token, out)?;
            Ok(State::Inside(head, 0, token.line))
        }
        Sign::New(NewWord::AsyncReset) => {
            if !head.may_be_asynchronous() {
                return refuse(token);
            }
            Ok(State::Signal(head, true))
        }
        Sign::New(NewWord::SyncReset) => {
            if !head.may_be_synchronous() {
                return refuse(token);
            }
            Ok(State::Signal(head, false))
        }
        _ => refuse(token),
    }
}

fn signal<'a>(
    head: Head<'a>,
    at_once: bool,
    sign: Sign<'a>,
    token: Token<'a>,
    out: &mut Expansion<'a>,
) -> Result<State<'a>, ParseStop>
    ensures { Turned (spec.turn_signal (head_in head.entry) at_once (sign_in sign.entry)) result out.old out.new token.entry.line }
{
    let _ = &out;
    match sign {
        Sign::OldName(bytes) => Ok(State::Level(head, at_once, bytes)),
        _ => refuse(token),
    }
}

fn level<'a>(
    head: Head<'a>,
    at_once: bool,
    signal: &'a [u8],
    sign: Sign<'a>,
    token: Token<'a>,
    out: &mut Expansion<'a>,
) -> Result<State<'a>, ParseStop>
    ensures { Turned (spec.turn_level (head_in head.entry) at_once signal.now (sign_in sign.entry)) result out.old out.new token.entry.line }
{
    let _ = &out;
    match sign {
        Sign::Truth(level) => Ok(State::Resets(head.with_reset(at_once, Reset { signal, level }))),
        _ => refuse(token),
    }
}

/// The end of a clocked thread: what is put in behind its statements, its `}`, and the method that resets it.
fn thread_end<'a>(
    head: Head<'a>,
    at: u32,
    token: Token<'a>,
    out: &mut Expansion<'a>,
) -> Result<(), ParseStop>
    ensures { Adds result out.old out.new (spec.thread_end (head_in head.entry) at (token_of token.entry.kind) token.entry.line) }
{
    body_behind(out, at)?;
    add(out, token.kind, token.line)?;
    reset_method(out, head.thread, head.asynchronous, token.line)
}

/// A brace that closes: the block's own, or one inside.
fn closed<'a>(
    head: Head<'a>,
    left: Option<u64>,
    at: u32,
    token: Token<'a>,
    out: &mut Expansion<'a>,
) -> Result<State<'a>, ParseStop>
    ensures { Turned (spec.turn_closed (head_in head.entry) left at (token_of token.entry.kind) token.entry.line) result out.old out.new token.entry.line }
{
    match left {
        None => {
            thread_end(head, at, token, out)?;
            Ok(State::Outside)
        }
        Some(left) => keep(State::Inside(head, left, token.line), token, out),
    }
}

fn inside<'a>(
    head: Head<'a>,
    depth: u64,
    at: u32,
    sign: Sign<'a>,
    token: Token<'a>,
    out: &mut Expansion<'a>,
) -> Result<State<'a>, ParseStop>
    ensures { Turned (spec.turn_inside (head_in head.entry) depth at (sign_in sign.entry) (token_of token.entry.kind) token.entry.line) result out.old out.new token.entry.line }
{
    match sign {
        Sign::RightBrace => closed(head, one_less(depth), at, token, out),
        Sign::LeftBrace => {
            // no list has so many tokens
            if depth == u64::MAX {
                return Err(ParseStop::NoMemory);
            }
            keep(State::Inside(head, depth + 1, token.line), token, out)
        }
        Sign::New(NewWord::Tick) => Ok(State::Ticked(head, depth, token.line)),
        Sign::New(_) => refuse(token),
        _ => keep(State::Inside(head, depth, token.line), token, out),
    }
}

/// The `;` of a tick, and what is put in behind it.
fn tick_end<'a>(head: Head<'a>, token: Token<'a>, out: &mut Expansion<'a>) -> Result<(), ParseStop>
    ensures { Adds result out.old out.new (spec.tick_end (head_in head.entry) (token_of token.entry.kind) token.entry.line) }
{
    add(out, token.kind, token.line)?;
    tick_behind(out, head.asynchronous, head.synchronous, token.line)
}

/// The number of a tick, and what is put in before it.
fn tick_number<'a>(at: u32, token: Token<'a>, out: &mut Expansion<'a>) -> Result<(), ParseStop>
    ensures { Adds result out.old out.new (spec.tick_number at (token_of token.entry.kind) token.entry.line) }
{
    tick_before(out, at)?;
    add(out, token.kind, token.line)
}

/// What is put in where a tick has no number.
fn tick_one(at: u32, out: &mut Expansion<'_>) -> Result<(), ParseStop>
    ensures { Adds result out.old out.new (expanded.put at spec.tick_one) }
{
    tick_before(out, at)?;
    add(out, TokenKind::Num(1), at)
}

/// A tick without a number, at its `;`.
fn tick_alone<'a>(
    head: Head<'a>,
    at: u32,
    token: Token<'a>,
    out: &mut Expansion<'a>,
) -> Result<(), ParseStop>
    ensures { Adds result out.old out.new (spec.tick_alone (head_in head.entry) at (token_of token.entry.kind) token.entry.line) }
{
    tick_one(at, out)?;
    tick_end(head, token, out)
}

/// Whether a tick may have the number.
fn is_count(value: u64) -> bool
    ensures { result ≡ parts.is_count value }
{
    value >= 1 && value <= 4_294_967_295
}

fn ticked<'a>(
    head: Head<'a>,
    depth: u64,
    at: u32,
    sign: Sign<'a>,
    token: Token<'a>,
    out: &mut Expansion<'a>,
) -> Result<State<'a>, ParseStop>
    ensures { Turned (spec.turn_ticked (head_in head.entry) depth at (sign_in sign.entry) (token_of token.entry.kind) token.entry.line) result out.old out.new token.entry.line }
{
    match sign {
        Sign::Number(value) => {
            if !is_count(value) {
                return refuse(token);
            }
            tick_number(at, token, out)?;
            Ok(State::Counted(head, depth))
        }
        Sign::Semicolon => {
            tick_alone(head, at, token, out)?;
            Ok(State::Inside(head, depth, token.line))
        }
        _ => refuse(token),
    }
}

fn counted<'a>(
    head: Head<'a>,
    depth: u64,
    sign: Sign<'a>,
    token: Token<'a>,
    out: &mut Expansion<'a>,
) -> Result<State<'a>, ParseStop>
    ensures { Turned (spec.turn_counted (head_in head.entry) depth (sign_in sign.entry) (token_of token.entry.kind) token.entry.line) result out.old out.new token.entry.line }
{
    match sign {
        Sign::Semicolon => {
            tick_end(head, token, out)?;
            Ok(State::Inside(head, depth, token.line))
        }
        _ => refuse(token),
    }
}

/// Takes the token, which has this sign: where the next one stands. A token that may not stand there is refused, with its line.
pub fn turn<'a>(
    state: State<'a>,
    sign: Sign<'a>,
    token: Token<'a>,
    out: &mut Expansion<'a>,
) -> Result<State<'a>, ParseStop>
    ensures { Turned (spec.turn (state_in state.entry) (sign_in sign.entry) (token_of token.entry.kind) token.entry.line) result out.old out.new token.entry.line }
{
    match state {
        State::Language => language(sign, token, out),
        State::Version => version(sign, token, out),
        State::LineEnd => line_end(sign, token, out),
        State::Outside => outside(sign, token, out),
        State::Named => named(sign, token, out),
        State::Channel(thread) => channel(thread, sign, token, out),
        State::Place(thread) => place(thread, sign, token, out),
        State::Number(thread) => placed(thread, sign, token, out),
        State::Inner(thread, depth) => inner(thread, depth, sign, token, out),
        State::Dotted(thread) => dotted(thread, sign, token, out),
        State::Edge(thread) => edge(thread, sign, token, out),
        State::Resets(head) => resets(head, sign, token, out),
        State::Signal(head, at_once) => signal(head, at_once, sign, token, out),
        State::Level(head, at_once, name) => level(head, at_once, name, sign, token, out),
        State::Inside(head, depth, at) => inside(head, depth, at, sign, token, out),
        State::Ticked(head, depth, at) => ticked(head, depth, at, sign, token, out),
        State::Counted(head, depth) => counted(head, depth, sign, token, out),
    }
}
