ghost use Rattle.std.specs.Prelude.{◌≡◌};
ghost use Rattle.model_tree.specs.Views as views;
ghost use Rattle.parse_expressions.specs.Parse.{Parses};
ghost use Rattle.parse_actions.specs.Operations as spec;

use super::commas::{next_expression, next_name};
use crate::{arguments, channel};
use model_tree::{Operation, ParseStop, Word};
use parse_expressions::Cursor;
use std::alloc::Global;

/// An operation, by its word.
#[derive(Clone, Copy)]
pub enum OperationStart {
    /// `call`
    Call,
    /// `read`
    Read,
    /// `nb_read`
    NbRead,
    /// `nb_write`
    NbWrite,
    /// `trylock`
    Trylock,
    /// `unlock`
    Unlock,
    /// `sem_trywait`
    SemTrywait,
    /// `nb_transport`
    NbTransport,
    /// No operation.
    Nothing,
}

/// The operation that begins with this word.
pub fn operation_start(word: Word) -> OperationStart
    ensures { result ≡ spec.operation_start word }
{
    match word {
        Word::Call => OperationStart::Call,
        Word::Read => OperationStart::Read,
        Word::NbRead => OperationStart::NbRead,
        Word::NbWrite => OperationStart::NbWrite,
        Word::Trylock => OperationStart::Trylock,
        Word::Unlock => OperationStart::Unlock,
        Word::SemTrywait => OperationStart::SemTrywait,
        Word::NbTransport => OperationStart::NbTransport,
        _ => OperationStart::Nothing,
    }
}

/// Whether an operation begins with this word.
pub fn begins_operation(word: Word) -> bool
    ensures { result ≡ spec.begins_operation word }
{
    match operation_start(word) {
        OperationStart::Nothing => false,
        _ => true,
    }
}

/// A call's function and arguments.
#[tactic(auto, unfolding(crate::specs::Operations::call))]
fn call(alloc: Global, tokens: &mut Cursor<'_>, depth: u8) -> Result<Operation, ParseStop>
    ensures { Parses views.operation_of (spec.call depth) tokens.old result tokens.new }
{
    let name = tokens.name(alloc)?;
    let given = arguments(alloc, tokens, depth)?;
    Ok(Operation::Call(name, given))
}

/// The fifo that is read without waiting, and the variable that gets the value.
#[tactic(auto, unfolding(crate::specs::Operations::nb_read))]
fn nb_read(alloc: Global, tokens: &mut Cursor<'_>, depth: u8) -> Result<Operation, ParseStop>
    ensures { Parses views.operation_of (spec.nb_read depth) tokens.old result tokens.new }
{
    let fifo = channel(alloc, tokens, depth)?;
    let name = next_name(alloc, tokens)?;
    Ok(Operation::NbRead(fifo, name))
}

/// The fifo that is written without waiting, and the value.
#[tactic(auto, unfolding(crate::specs::Operations::nb_write))]
fn nb_write(alloc: Global, tokens: &mut Cursor<'_>, depth: u8) -> Result<Operation, ParseStop>
    ensures { Parses views.operation_of (spec.nb_write depth) tokens.old result tokens.new }
{
    let fifo = channel(alloc, tokens, depth)?;
    let value = next_expression(alloc, tokens, depth)?;
    Ok(Operation::NbWrite(fifo, value))
}

/// A hop's socket, payload, phase and delay.
#[tactic(auto, unfolding(crate::specs::Operations::nb_transport))]
fn nb_transport(alloc: Global, tokens: &mut Cursor<'_>) -> Result<Operation, ParseStop>
    ensures { Parses views.operation_of spec.nb_transport tokens.old result tokens.new }
{
    let socket = tokens.name(alloc)?;
    let payload = next_name(alloc, tokens)?;
    let phase = next_name(alloc, tokens)?;
    let delay = next_name(alloc, tokens)?;
    Ok(Operation::NbTransport(socket, payload, phase, delay))
}

/// The operation that begins so, behind its word, which is on this line.
#[tactic(auto, unfolding(crate::specs::Operations::started_operation))]
pub fn started_operation(
    alloc: Global,
    tokens: &mut Cursor<'_>,
    depth: u8,
    start: OperationStart,
    line: u32,
) -> Result<Operation, ParseStop>
    ensures { Parses views.operation_of (spec.started_operation depth start) tokens.old result tokens.new }
{
    match start {
        OperationStart::Call => call(alloc, tokens, depth),
        OperationStart::Read => Ok(Operation::Read(channel(alloc, tokens, depth)?)),
        OperationStart::NbRead => nb_read(alloc, tokens, depth),
        OperationStart::NbWrite => nb_write(alloc, tokens, depth),
        OperationStart::Trylock => Ok(Operation::Trylock(channel(alloc, tokens, depth)?)),
        OperationStart::Unlock => Ok(Operation::Unlock(channel(alloc, tokens, depth)?)),
        OperationStart::SemTrywait => Ok(Operation::SemTrywait(channel(alloc, tokens, depth)?)),
        OperationStart::NbTransport => nb_transport(alloc, tokens),
        OperationStart::Nothing => Err(ParseStop::Syntax { line }),
    }
}
