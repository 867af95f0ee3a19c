//! The simulation of a model under a script.
ghost use Rattle.std.specs.Prelude.{◌≡◌, ◌≤◌, ◌^◌, ℕ, List, Option, Some, ⊤, IfErr, option_copied};
ghost use Rattle.session.specs.SimIo.Contents.{AfterTold};
ghost use Rattle.command_line.specs.Line as line;
ghost use Rattle.command_line.specs.Views.{rule_of as seen_rule, simulation_of};
ghost use Rattle.session.specs.Outputs.{AreApart};
ghost use Rattle.run_input.specs.Loaded.{TookOnePast};
ghost use Rattle.run_input.specs.Together.{Together};
ghost use Rattle.tlmsim.specs.Held.{ForEach};
ghost use Rattle.tlmsim.specs.Requests.{IsLimitIn, IsRule, PlansRun, replay_of};
ghost use Rattle.tlmsim.specs.Call.{OnlyThese, names_in, outside_of};
ghost use Rattle.tlmsim.specs.Worked as spec;
ghost use Rattle.tlmsim.specs.Worked.{IfLarge, Works};

use super::running::{rule_of, run};
use super::working::WorkStop;
use crate::{Created, create_files};
use command_line::sim_model_api::Rule;
use command_line::{ChoiceRule, Simulation};
use flat_design::Choices;
use run_input::result_texts_api::Refusal;
use run_input::{JudgeStop, Judged, LoadStop, judge, load};
use session::sim_io_api::{Shelf, Sink};
use session::{Outcome, Plan};
use std::alloc::Global;

/// The replay file that is named, if there is one.
fn replay_file<'a>(rule: ChoiceRule<'a>) -> Option<&'a str>
    ensures { option_copied result ≡ replay_of (seen_rule rule.entry) }
{
    match rule {
        ChoiceRule::Ordered(_) => None,
        ChoiceRule::Replayed(file) => Some(file),
    }
}

/// Why nothing was begun where a file was not read.
pub(crate) fn unread(stop: LoadStop) -> WorkStop
    ensures { result ≡ spec.unread stop }
{
    match stop {
        LoadStop::Failed(file) => WorkStop::Refused(Refusal::Read(file)),
        LoadStop::TooLarge(file) => WorkStop::Refused(Refusal::TooLarge(file)),
        LoadStop::NoMemory => WorkStop::NoMemory,
    }
}

/// Why nothing was begun where a text was not accepted.
pub(crate) fn unfit(stop: JudgeStop) -> WorkStop
    ensures { result ≡ spec.unfit stop }
{
    match stop {
        JudgeStop::Model(fault) => WorkStop::Refused(Refusal::Model(fault)),
        JudgeStop::Script(fault) => WorkStop::Refused(Refusal::Script(fault)),
        JudgeStop::Replay(line) => WorkStop::Refused(Refusal::Replay(line)),
        JudgeStop::NoMemory => WorkStop::NoMemory,
    }
}

/// The rule of choices: an order, or the list of the replay file.
fn rule_by(rule: ChoiceRule<'_>, replay: Option<Choices>) -> Rule
    requires { Together (replay_of (seen_rule rule)) replay (λ name list. ⊤) }
    ensures { IsRule (seen_rule rule.entry) replay result }
{
    match (rule, replay) {
        (ChoiceRule::Ordered(order), None) => rule_of(order),
        (ChoiceRule::Replayed(_), Some(list)) => Rule::Replay(list),
        (ChoiceRule::Ordered(_), Some(_)) | (ChoiceRule::Replayed(_), None) => unreachable!(),
    }
}

/// How a simulation is to be run, whose files were created.
fn plan_of(simulation: Simulation<'_>, replay: Option<Choices>, made: Created) -> Plan
    requires replay { Together (replay_of (simulation_of simulation).rule) replay (λ name list. ⊤) }
    requires trace { ForEach (simulation_of simulation).vcd made.trace }
    requires choices { ForEach (simulation_of simulation).choices made.choices }
    ensures plans { PlansRun (simulation_of simulation.entry) replay result }
    ensures vcd { result.vcd ≡ made.trace }
    ensures choices { result.choices ≡ made.choices }
{
    Plan {
        rule: rule_by(simulation.rule, replay),
        budget: simulation.budget,
        log: simulation.log,
        vcd: made.trace,
        choices: made.choices,
    }
}

/// Runs a model under a script: reads the files, judges the texts, creates the files that are to be written, and runs the session.
pub(crate) fn simulate<S: Shelf, O: Sink>(
    alloc: Global,
    simulation: Simulation<'_>,
    shelf: &mut S,
    out: &mut O,
) -> Result<Outcome, WorkStop>
    requires apart { AreApart (simulation_of simulation).vcd (simulation_of simulation).choices }
    requires budget { simulation.budget ≤ 2 ^ 26 }
    ensures works { (words : List (List ℕ)) (err err' : Option (List ℕ)) (faults faults' : ℕ) → line.line_of words ≡ Some (line.Simulate (simulation_of simulation.entry)) → Works (record {
      words = words;
      before = outside_of S.files S.reads S.writes O.holds O.faults shelf.old out.old err faults;
      after = outside_of S.files S.reads S.writes O.holds O.faults shelf.new out.new err' faults';
    }) result }
    ensures no_more { IfErr result (λ stop. IfLarge stop (TookOnePast S.reading S.left shelf.new (S.files shelf.old) (S.files shelf.new) (IsLimitIn (line.Simulate (simulation_of simulation.entry))))) }
    ensures files { AfterTold (S.files shelf.old) (S.files shelf.new) (OnlyThese (names_in (line.Simulate (simulation_of simulation.entry)))) }
    ensures reads { S.reads shelf.old ≤ S.reads shelf.new }
    ensures writes { S.writes shelf.old ≤ S.writes shelf.new }
    ensures out_faults { O.faults out.old ≤ O.faults out.new }
{
    let texts = match load(
        alloc,
        shelf,
        simulation.model,
        simulation.script,
        replay_file(simulation.rule),
    ) {
        Ok(texts) => texts,
        Err(stop) => return Err(unread(stop)),
    };
    let Judged {
        design,
        script,
        replay,
    } = match judge(alloc, &texts) {
        Ok(judged) => judged,
        Err(stop) => return Err(unfit(stop)),
    };
    let made = match create_files(shelf, simulation.vcd, simulation.choices) {
        Ok(made) => made,
        Err(trouble) => return Ok(Outcome::cut(trouble, Choices::new(alloc), 0)),
    };
    let plan = plan_of(simulation, replay, made);
    Ok(run(alloc, design, &script, plan, shelf, out))
}
