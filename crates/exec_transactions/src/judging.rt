//! Transport calls and their returns, as their hops judge them.
ghost use Rattle.std.specs.Prelude.{◌≡◌, OnOk, OnErr};
ghost use Rattle.exec_calls.specs.TransportPhases.Phases as phases;
ghost use Rattle.exec_calls.specs.TransportPhases.History.{Call, Return};
ghost use Rattle.exec_calls.specs.SimModel.Configuration.{Config};
ghost use Rattle.exec_calls.specs.SimModel.Transport.{int_of};
ghost use Rattle.exec_calls.specs.KernelTransactions.Board.{StandsForTransactions, Moves, SameQuantum, StaysWithin, IsRegisteredAt, entered};
ghost use Rattle.exec_calls.specs.KernelTransactions.Answers.{complete_in, Judges, JudgesReturn};
ghost use Rattle.exec_transactions.specs.Entries.{entry_of, JudgesOrLacks};

use crate::sockets::path_of_call;
use exec_calls::expr_eval_api::bits;
use exec_calls::kernel_state_api::StatementStop;
use exec_calls::kernel_transactions_api::TransactionBoard;
use exec_calls::logic_values_api::Value;
use exec_calls::sim_model_api::Via;
use exec_calls::transport_phases_api::Path;
use flat_design::RunFault;

/// A number of 32 bits that is the same phase and the same answer as an integer value, or is none as well.
fn code_of(v: Value) -> i32
    ensures phase { phases.phase_of result ≡ phases.phase_of (int_of v) }
    ensures answer { phases.answer_of result ≡ phases.answer_of (int_of v) }
{
    match bits(v) {
        0 => 0,
        1 => 1,
        2 => 2,
        3 => 3,
        4 => 4,
        _ => -1,
    }
}

/// Judges an `nb_transport` call with a phase that is a value, and takes it into the history of its hop (IEEE 1666-2011, 11.1.2).
///
/// # Errors
/// The first rule that the call breaks, and then nothing changes.
fn nb_call(
    board: &mut TransactionBoard,
    hop: u32,
    path: Path,
    t: u32,
    phase: Value,
    handled: bool,
) -> Result<(), RunFault>
    requires { IsRegisteredAt board.old hop t }
    ensures answer { (c : Config) → StandsForTransactions board.old c.transactions → Judges result c hop (Call t path (int_of phase) (complete_in c.transactions t) handled) t }
    ensures moves { OnOk result (Moves board.old board.new (λ x. entered x hop (Call t path (int_of phase) (complete_in x t) handled))) }
    ensures within { StaysWithin board.old board.new }
    ensures quantum { SameQuantum board.old board.new }
    ensures refused { OnErr result (board.new ≡ board.old) }
{
    board.call(hop, path, t, code_of(phase), handled)
}

/// Judges the return of an `nb_transport` call with an answer and a phase that are values, and takes it into the history of its
/// hop (IEEE 1666-2011, 11.1.2.7).
///
/// # Errors
/// The first rule that the return breaks, or that the payload was freed where a response is missing; then nothing changes.
pub(crate) fn nb_returned(
    board: &mut TransactionBoard,
    hop: u32,
    t: u32,
    status: Value,
    phase: Value,
) -> Result<(), RunFault>
    ensures answer { (c : Config) → StandsForTransactions board.old c.transactions → JudgesReturn result c hop (Return t (int_of status) (int_of phase) (complete_in c.transactions t)) t }
    ensures moves { OnOk result (Moves board.old board.new (λ x. entered x hop (Return t (int_of status) (int_of phase) (complete_in x t)))) }
    ensures within { StaysWithin board.old board.new }
    ensures quantum { SameQuantum board.old board.new }
    ensures refused { OnErr result (board.new ≡ board.old) }
{
    board.returned(hop, t, code_of(status), code_of(phase))
}

/// A transport call that is to be judged.
#[derive(Clone, Copy)]
pub(crate) struct Asked {
    /// Its hop, its way and its payload.
    pub via: Via,
    /// Its phase; a blocking call has none, and any value stands here.
    pub phase: Value,
}

/// Judges a call and takes it into the history of its hop.
///
/// # Errors
/// The first rule that the call breaks, and then nothing changes.
fn judge_registered(
    board: &mut TransactionBoard,
    asked: Asked,
    handled: bool,
) -> Result<(), RunFault>
    requires { IsRegisteredAt board.old asked.via.hop asked.via.payload }
    ensures answer { (c : Config) → StandsForTransactions board.old c.transactions → Judges result c asked.via.hop (entry_of asked.via asked.phase (complete_in c.transactions asked.via.payload) handled) asked.via.payload }
    ensures moves { OnOk result (Moves board.old board.new (λ x. entered x asked.via.hop (entry_of asked.via asked.phase (complete_in x asked.via.payload) handled))) }
    ensures within { StaysWithin board.old board.new }
    ensures quantum { SameQuantum board.old board.new }
    ensures refused { OnErr result (board.new ≡ board.old) }
{
    let via = asked.via;
    if via.blocking {
        board.b_call(via.hop, via.payload, handled)
    } else {
        let path = path_of_call(via.forward);
        nb_call(board, via.hop, path, via.payload, asked.phase, handled)
    }
}

/// The same of a call for which the hop may have no room yet.
///
/// # Errors
/// No memory for its row on the hop; the first rule that the call breaks. Then nothing changes.
pub(crate) fn judge(
    board: &mut TransactionBoard,
    asked: Asked,
    handled: bool,
) -> Result<(), StatementStop>
    ensures answer { (c : Config) → StandsForTransactions board.old c.transactions → JudgesOrLacks result c asked.via.hop (entry_of asked.via asked.phase (complete_in c.transactions asked.via.payload) handled) asked.via.payload }
    ensures moves { OnOk result (Moves board.old board.new (λ x. entered x asked.via.hop (entry_of asked.via asked.phase (complete_in x asked.via.payload) handled))) }
    ensures stays { OnErr result (Moves board.old board.new (λ x. x)) }
    ensures within { StaysWithin board.old board.new }
    ensures quantum { SameQuantum board.old board.new }
{
    match board.register(asked.via.hop, asked.via.payload) {
        Ok(()) => {}
        Err(_) => return Err(StatementStop::NoMemory),
    }
    match judge_registered(board, asked, handled) {
        Ok(()) => Ok(()),
        Err(fault) => Err(StatementStop::Fault(fault)),
    }
}
