//! The work that the words ask for.
ghost use Rattle.std.specs.Prelude.{◌≡◌, ◌≤◌, ℕ, List, Option, IfErr};
ghost use Rattle.session.specs.SimIo.Contents.{AfterTold};
ghost use Rattle.command_line.specs.Line as line;
ghost use Rattle.run_input.specs.Loaded.{TookOnePast};
ghost use Rattle.tlmsim.specs.Requests.{IsLimitOf};
ghost use Rattle.tlmsim.specs.Call.{OnlyThese, names_if, outside_of};
ghost use Rattle.tlmsim.specs.Worked.{IfLarge, Works};

use super::generating::generate;
use super::pages::page;
use super::simulating::simulate;
use command_line::{
    Mode, Words, WordsStop, budgets_are_limited, read_line, simulations_write_apart,
};
use run_input::result_texts_api::Refusal;
use session::Outcome;
use session::sim_io_api::{Shelf, Sink};
use std::alloc::Global;

/// Why nothing was begun.
#[derive(Drop)]
pub enum WorkStop {
    /// The input is refused.
    Refused(Refusal),
    /// Memory was refused.
    NoMemory,
}

/// The work in its order: the words, the files, the model, the script, the replay text, the files that are written, the session; or
/// a page of a model; or the run of a generated model. What `err` holds has no part in it; a refusal has what is to be
/// said there.
pub(crate) fn work<S: Shelf, O: Sink>(
    alloc: Global,
    words: &Words,
    shelf: &mut S,
    out: &mut O,
) -> Result<Outcome, WorkStop>
    ensures works { (err err' : Option (List ℕ)) (faults faults' : ℕ) → Works (record {
      words = words.entry.now;
      before = outside_of S.files S.reads S.writes O.holds O.faults shelf.old out.old err faults;
      after = outside_of S.files S.reads S.writes O.holds O.faults shelf.new out.new err' faults';
    }) result }
    ensures no_more { IfErr result (λ stop. IfLarge stop (TookOnePast S.reading S.left shelf.new (S.files shelf.old) (S.files shelf.new) (IsLimitOf (line.line_of words.entry.now)))) }
    ensures files { AfterTold (S.files shelf.old) (S.files shelf.new) (OnlyThese (names_if (line.line_of words.entry.now))) }
    ensures reads { S.reads shelf.old ≤ S.reads shelf.new }
    ensures writes { S.writes shelf.old ≤ S.writes shelf.new }
    ensures out_faults { O.faults out.old ≤ O.faults out.new }
{
    simulations_write_apart();
    budgets_are_limited();
    match read_line(alloc, words) {
        Ok(Mode::Simulate(simulation)) => simulate(alloc, simulation, shelf, out),
        Ok(Mode::Page(kind, model)) => page(alloc, kind, model, shelf, out),
        Ok(Mode::Generate(generated)) => generate(alloc, generated, shelf, out),
        Err(WordsStop::Usage) => Err(WorkStop::Refused(Refusal::Usage)),
        Err(WordsStop::NoMemory) => Err(WorkStop::NoMemory),
    }
}
