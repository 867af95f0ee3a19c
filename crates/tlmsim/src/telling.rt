//! What is told on `err` of a refusal, and of a session that was cut.
ghost use Rattle.std.specs.Prelude.{◌≡◌, ◌≤◌};
ghost use Rattle.session.specs.Course.{IsEnd};
ghost use Rattle.session.specs.Fronts.{WroteFront};
ghost use Rattle.tlmsim.specs.Telling.{Tells, TellsStop, TellsWithout};

use super::statuses::refusal_status;
use command_line::WordsStop;
use command_line::sim_model_api::Stop;
use run_input::result_texts_api::{Refusal, memory_line, refusal_line, write_line};
use session::sim_io_api::{Sink, Trouble, write_all};
use std::alloc::Global;

/// The status of a write that failed.
const WRITE_FAULT: u8 = 7;

/// The status of want of memory.
const NO_MEMORY: u8 = 8;

/// Tries to write a line; where that fails, a front of it was written.
pub fn try_line<E: Sink>(err: &mut E, line: &[u8])
    ensures front { WroteFront (E.holds err.old) (E.holds err.new) line.now }
    ensures later { E.faults err.old ≤ E.faults err.new }
{
    let _ = write_all(err, line);
}

/// Writes the line of a refusal. The status is that of the refusal; or, where the line could not be written, that of what
/// cut it, whose own line is then tried.
pub fn tell_refusal<E: Sink>(alloc: Global, refusal: &Refusal, err: &mut E) -> u8
    ensures told { Tells refusal.now (E.holds err.old) (E.holds err.new) (E.faults err.old) (E.faults err.new) result }
    ensures later { E.faults err.old ≤ E.faults err.new }
{
    let Ok(line) = refusal_line(alloc, refusal) else {
        try_line(err, memory_line());
        return NO_MEMORY;
    };
    match write_all(err, line.as_slice()) {
        Ok(()) => refusal_status(refusal),
        Err(Trouble::Failed) => {
            try_line(err, write_line());
            WRITE_FAULT
        }
        Err(Trouble::NoMemory) => {
            try_line(err, memory_line());
            NO_MEMORY
        }
    }
}

/// Ends a program whose words cannot be had. That a word is no text is told as words that are refused: `err` gets the line of
/// usage, and the status is 1; or 7 where a write of that line failed, or 8 for want of memory. Where memory was refused before,
/// the status is 8, and the line that says so is tried.
#[tactic(auto, using(crate::proofs::Lines::told_bound))]
pub fn end_without_words<E: Sink>(alloc: Global, stop: WordsStop, err: &mut E) -> u8
    ensures told { TellsWithout stop (E.holds err.old) (E.holds err.new) (E.faults err.old) (E.faults err.new) result }
    ensures later { E.faults err.old ≤ E.faults err.new }
    ensures bound { result ≤ 10 }
{
    match stop {
        WordsStop::Usage => tell_refusal(alloc, &Refusal::Usage, err),
        WordsStop::NoMemory => {
            try_line(err, memory_line());
            NO_MEMORY
        }
    }
}

/// Tries the line of a session that was cut; any other leaves `err` alone.
pub fn tell_stop<E: Sink>(stop: Stop, err: &mut E)
    ensures told { TellsStop stop (E.holds err.old) (E.holds err.new) }
    ensures silent { IsEnd stop → err.new ≡ err.old }
    ensures later { E.faults err.old ≤ E.faults err.new }
{
    match stop {
        Stop::WriteFault => try_line(err, write_line()),
        Stop::NoMemory => try_line(err, memory_line()),
        Stop::Done | Stop::Stopped | Stop::Budget | Stop::Replay { place: _ } | Stop::Fault(_) => {}
    }
}
