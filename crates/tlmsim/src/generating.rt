//! The run of a generated model.
ghost use Rattle.std.specs.Prelude.{◌≡◌, ◌≤◌, ◌^◌, ℕ, List, Option, IfErr, IfOk, None, Some, length};
ghost use Rattle.session.specs.SimIo.Contents.{AfterTold, Same};
ghost use Rattle.session.specs.SimIo.Cause.{RoseIf};
ghost use Rattle.command_line.specs.Line as line;
ghost use Rattle.model_gen.specs.Generated as spec;
ghost use Rattle.tlmsim.specs.Requests.{IsPlan};
ghost use Rattle.tlmsim.specs.Call.{outside_of};
ghost use Rattle.tlmsim.specs.WrittenTexts.{steps_line};
ghost use Rattle.tlmsim.specs.Worked.{IfLarge, IsCutAs, TellsSteps, CutNow, Works};

use super::running::{rule_of, run};
use super::simulating::unfit;
use super::working::WorkStop;
use command_line::Generated;
use command_line::sim_model_api::{Log, Stop};
use model_gen::logic_values_api::Text;
use run_input::{Judged, judge_text};
use session::sim_io_api::{Shelf, Sink, Trouble, write_all};
use session::{Outcome, Plan};
use std::alloc::{AllocError, Global};

/// The most bytes that a text may have.
const TEXT_LIMIT: usize = 4_294_967_295;

/// The text of the generated model of a size.
fn model_of(alloc: Global, size: u64) -> Result<Text, AllocError>
    ensures model { IfOk result (λ text. text ≡ spec.generated size) }
    ensures within { IfOk result (λ text. length text ≤ 4294967295) }
{
    let Ok(size) = u32::try_from(size) else {
        return Err(AllocError);
    };
    let text = model_gen::generate(alloc, size)?;
    if text.as_slice().len() > TEXT_LIMIT {
        return Err(AllocError);
    }
    Ok(text)
}

/// How the run of a generated model is to go.
fn plan_of(generated: Generated) -> Plan
    ensures { IsPlan (line.Generate generated) None result }
{
    Plan {
        rule: rule_of(generated.order),
        budget: generated.budget,
        log: Log::Prints,
        vcd: None,
        choices: None,
    }
}

/// The line that tells how many steps were made.
fn steps_text(alloc: Global, steps: u64) -> Result<Text, AllocError>
    ensures { IfOk result (λ text. text ≡ steps_line steps) }
{
    let line = format!(in alloc; "steps {steps}\n")?;
    Ok(Text::from_vec(Vec::from_slice(alloc, line.as_bytes())?))
}

/// Whether a run was cut.
fn is_cut(stop: Stop) -> bool
    ensures { IsCutAs stop result }
{
    match stop {
        Stop::WriteFault | Stop::NoMemory => true,
        Stop::Done | Stop::Stopped | Stop::Budget | Stop::Replay { place: _ } | Stop::Fault(_) =>
            false,
    }
}

/// Writes the line of the steps behind the report of a run that had ended; what cuts it cuts the run.
fn tell_steps<O: Sink>(alloc: Global, outcome: Outcome, out: &mut O) -> Outcome
    ensures tells { TellsSteps (O.holds out.old) (O.holds out.new) outcome result }
    ensures cause { RoseIf (O.faults out.old) (O.faults out.new) (CutNow outcome result) }
{
    if is_cut(outcome.stop) {
        return outcome;
    }
    let Outcome {
        stop,
        choices,
        steps,
    } = outcome;
    let Ok(line) = steps_text(alloc, steps) else {
        return Outcome::cut(Trouble::NoMemory, choices, steps);
    };
    match write_all(out, line.as_slice()) {
        Ok(()) => Outcome {
            stop,
            choices,
            steps,
        },
        Err(trouble) => Outcome::cut(trouble, choices, steps),
    }
}

/// Runs the generated model of a size once, and tells how many steps that took.
pub(crate) fn generate<S: Shelf, O: Sink>(
    alloc: Global,
    generated: Generated,
    shelf: &mut S,
    out: &mut O,
) -> Result<Outcome, WorkStop>
    requires budget { generated.budget ≤ 2 ^ 26 }
    ensures works { (words : List (List ℕ)) (err err' : Option (List ℕ)) (faults faults' : ℕ) → line.line_of words ≡ Some (line.Generate generated) → Works (record {
      words = words;
      before = outside_of S.files S.reads S.writes O.holds O.faults shelf.old out.old err faults;
      after = outside_of S.files S.reads S.writes O.holds O.faults shelf.new out.new err' faults';
    }) result }
    ensures no_more { IfErr result (λ stop. IfLarge stop (λ file. ⊥)) }
    ensures files { AfterTold (S.files shelf.old) (S.files shelf.new) Same }
    ensures reads { S.reads shelf.old ≤ S.reads shelf.new }
    ensures writes { S.writes shelf.old ≤ S.writes shelf.new }
    ensures out_faults { O.faults out.old ≤ O.faults out.new }
{
    let Ok(model) = model_of(alloc, generated.size) else {
        return Err(WorkStop::NoMemory);
    };
    let Judged {
        design,
        script,
        replay: _,
    } = match judge_text(alloc, model.as_slice(), b"run") {
        Ok(judged) => judged,
        Err(stop) => return Err(unfit(stop)),
    };
    let outcome = run(alloc, design, &script, plan_of(generated), shelf, out);
    Ok(tell_steps(alloc, outcome, out))
}
