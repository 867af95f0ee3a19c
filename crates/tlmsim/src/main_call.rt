ghost use Rattle.std.specs.Prelude.{◌≡◌, ℕ, List};
ghost use Rattle.command_line.specs.Line.{line_of};
ghost use Rattle.run_input.specs.Loaded.{TookOnePast};
ghost use Rattle.tlmsim.specs.Requests.{IsLimitOf};
ghost use Rattle.tlmsim.specs.Call.{outside_of};
ghost use Rattle.tlmsim.specs.Headline.{Answers, IsRunStatus};

use super::statuses::stop_status;
use super::telling::{tell_refusal, tell_stop, try_line};
use super::working::{WorkStop, work};
use command_line::Words;
use flat_design::Choices;
use run_input::one_source;
use run_input::result_texts_api::memory_line;
use session::sim_io_api::{Shelf, Sink};
use std::alloc::Global;

/// The status of a call that was refused memory.
const NO_MEMORY: u8 = 8;

/// What the top call answers.
#[derive(Drop)]
pub struct Ended {
    /// The exit status.
    pub status: u8,
    /// The serials that were taken, in order of taking.
    pub choices: Choices,
    /// How many steps were made.
    pub steps: u64,
}

/// Does what the words ask for, and writes the report to `out`.
///
/// `MODEL SCRIPT` runs the model under the script, with any of `--budget N`, the most steps, from 1 to 67,108,864;
/// `--order first|last|seed`, which of the runnable processes is taken; `--seed N`; `--replay FILE`, a file that lists the
/// processes to be taken; `--log prints|turns`, what the report tells; `--vcd FILE`, the file of the trace; `--choices FILE`,
/// the file of the processes that were taken. `--format MODEL` writes the model laid out. `--order-free MODEL` writes
/// `order free yes` where the model keeps a rule of five parts on what its processes share, and else `order free no K`, K being the
/// first part that is broken. `--bus FILE` runs the accesses of a traffic file through a router, and writes what came of each.
/// `--generate N`, from 1 to 1,000, with any of budget, order and seed, runs the generated model of that size, and writes `steps K`
/// behind its report.
///
/// The statuses: 0, the script was carried out or the model stopped it, or a page was written; 1, the words are refused; 2, a
/// file could not be read; 3, the model is refused: it does not read, or it breaks a rule; or the traffic file is; 4, the script
/// or the replay file is refused; 5, a run fault; 6, the step budget is used up; 7, a write failed, or a file was not created; 8,
/// memory was refused; 9, a listed choice could not be taken; 10, a file is too large.
///
/// `err` gets one line for a refusal of the input, which are 1, 2, 3, 4 and 10, and a line is tried there for 7 and 8:
/// `usage: tlmsim MODEL SCRIPT [options]`; `read fault FILE`; `model LINE KIND NAME` or `model LINE Syntax`; the same two
/// for `script` and for `bus`; `replay LINE Syntax`; `too large FILE`; `write fault`; `no memory`. A refusal whose line cannot be
/// written is 7, or 8 for want of memory. With 0, 5, 6 and 9 `err` is left alone.
///
/// Files are created once all is judged, the trace's before that of the choices. A run that is cut leaves fronts of its texts. Of a
/// file that is too large just one byte past its limit was taken.
pub fn sim_main<S: Shelf, O: Sink, E: Sink>(
    alloc: Global,
    words: &Words,
    shelf: &mut S,
    out: &mut O,
    err: &mut E,
) -> Ended
    ensures answers { Answers (record {
      words = words.now;
      before = outside_of S.files S.reads S.writes O.holds O.faults shelf.old out.old (E.holds err.old) (E.faults err.old);
      after = outside_of S.files S.reads S.writes O.holds O.faults shelf.new out.new (E.holds err.new) (E.faults err.new);
    }) result.status result.choices result.steps }
    ensures silent { IsRunStatus result.status → err.new ≡ err.old }
    ensures no_more { result.status ≡ 10 → (file : List ℕ) × TookOnePast S.reading S.left shelf.new (S.files shelf.old) (S.files shelf.new) (IsLimitOf (line_of words.now)) file }
{
    one_source();
    let choices = Choices::new(alloc);
    match work(alloc, words, shelf, out) {
        Ok(outcome) => {
            tell_stop(outcome.stop, err);
            Ended {
                status: stop_status(outcome.stop),
                choices: outcome.choices,
                steps: outcome.steps,
            }
        }
        Err(WorkStop::Refused(refusal)) => Ended {
            status: tell_refusal(alloc, &refusal, err),
            choices,
            steps: 0,
        },
        Err(WorkStop::NoMemory) => {
            try_line(err, memory_line());
            Ended {
                status: NO_MEMORY,
                choices,
                steps: 0,
            }
        }
    }
}
