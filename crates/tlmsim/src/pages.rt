//! Pages: what is told of one file.
ghost use Rattle.std.specs.Prelude.{◌≡◌, ◌≤◌, ◌<◌, ◌^◌, ℕ, List, Option, Some, IfErr, IfOk, length};
ghost use Rattle.session.specs.SimIo.Contents.{AfterTold, Same};
ghost use Rattle.command_line.specs.Line as line;
ghost use Rattle.laws_order.specs.OrderFree.Free.{Says};
ghost use Rattle.run_input.specs.Acceptance.{HasModelFault};
ghost use Rattle.run_input.specs.Loaded.{TookOnePast};
ghost use Rattle.run_input.specs.Refused.{IfModelFault};
ghost use Rattle.tlmsim.specs.Requests.{IsLimitIn};
ghost use Rattle.tlmsim.specs.Call.{outside_of};
ghost use Rattle.tlmsim.specs.Pages as spec;
ghost use Rattle.tlmsim.specs.Pages.{IsPageOf, IsVerdictOf, Means};
ghost use Rattle.tlmsim.specs.Worked as worked;
ghost use Rattle.tlmsim.specs.Worked.{HasNoPage, IfLarge, Works};

use super::simulating::unread;
use super::working::WorkStop;
use bus_runs::traffic_text;
use command_line::PageKind;
use command_line::sim_model_api::Stop;
use flat_design::{Choices, Design};
use laws_order::order_does_not_matter;
use laws_order::order_free_api::{Verdict, order_free};
use model_tree::logic_values_api::Text;
use run_input::result_texts_api::Refusal;
use run_input::{ModelStop, judge_model, laid_out, load_model};
use session::Outcome;
use session::sim_io_api::{Shelf, Sink, write_all};
use std::alloc::{AllocError, Global};
use traffic_file::BusStop;

/// Why nothing was begun where a model was not accepted.
fn unformed(stop: ModelStop) -> WorkStop
    ensures { result ≡ worked.unformed stop }
{
    match stop {
        ModelStop::Fault(fault) => WorkStop::Refused(Refusal::Model(fault)),
        ModelStop::NoMemory => WorkStop::NoMemory,
    }
}

/// The same where a traffic file was not.
fn unserved(stop: BusStop) -> WorkStop
    ensures { result ≡ worked.unserved stop }
{
    match stop {
        BusStop::Syntax { line } => WorkStop::Refused(Refusal::Bus(BusStop::Syntax { line })),
        BusStop::Refused { kind, line, name } => {
            WorkStop::Refused(Refusal::Bus(BusStop::Refused { kind, line, name }))
        }
        BusStop::NoMemory => WorkStop::NoMemory,
    }
}

/// The line of a verdict.
fn verdict_line(alloc: Global, verdict: Verdict) -> Result<Text, AllocError>
    ensures { IfOk result (λ text. text ≡ spec.verdict_line verdict) }
{
    match verdict {
        Verdict::Yes => {
            let text = Vec::from_slice(alloc, b"order free yes\n")?;
            Ok(Text::from_vec(text))
        }
        Verdict::No { rule } => {
            let text = format!(in alloc; "order free no {rule}\n")?;
            Ok(Text::from_vec(text.into_bytes()))
        }
    }
}

/// The verdict on a design, and with it what it means for all runs of that.
fn verdict_on(alloc: Global, design: &Design) -> Result<Verdict, AllocError>
    ensures says { IfOk result (Says design.now) }
    ensures means { IfOk result (Means design.now) }
{
    order_does_not_matter();
    order_free(alloc, design)
}

/// The verdict on a model, which is judged as one that is to be run.
fn verdict_page(alloc: Global, model: &[u8]) -> Result<Text, ModelStop>
    requires { length model.now < 2 ^ 32 }
    ensures page { IfOk result (IsVerdictOf model.now) }
    ensures fault { IfErr result (λ stop. IfModelFault stop (HasModelFault model.now)) }
{
    let design = match judge_model(alloc, model) {
        Ok(design) => design,
        Err(stop) => return Err(stop),
    };
    let verdict = match verdict_on(alloc, &design) {
        Ok(verdict) => verdict,
        Err(_) => return Err(ModelStop::NoMemory),
    };
    match verdict_line(alloc, verdict) {
        Ok(page) => Ok(page),
        Err(_) => Err(ModelStop::NoMemory),
    }
}

/// A page of a text: a refusal has what is wrong with it.
fn page_of(alloc: Global, kind: PageKind, text: &[u8]) -> Result<Text, WorkStop>
    requires { length text.now < 2 ^ 32 }
    ensures page { IfOk result (IsPageOf kind text.now) }
    ensures refused { IfErr result (HasNoPage kind text.now) }
{
    match kind {
        PageKind::Layout => match laid_out(alloc, text) {
            Ok(page) => Ok(page),
            Err(stop) => Err(unformed(stop)),
        },
        PageKind::Verdict => match verdict_page(alloc, text) {
            Ok(page) => Ok(page),
            Err(stop) => Err(unformed(stop)),
        },
        PageKind::Traffic => match traffic_text(alloc, text) {
            Ok(page) => Ok(Text::from_vec(page)),
            Err(stop) => Err(unserved(stop)),
        },
    }
}

/// Tells a page: reads the file, judges it, and writes what is asked of it to `out`.
pub(crate) fn page<S: Shelf, O: Sink>(
    alloc: Global,
    kind: PageKind,
    file: &str,
    shelf: &mut S,
    out: &mut O,
) -> Result<Outcome, WorkStop>
    ensures works { (words : List (List ℕ)) (err err' : Option (List ℕ)) (faults faults' : ℕ) → line.line_of words ≡ Some (line.Page kind file.now) → Works (record {
      words = words;
      before = outside_of S.files S.reads S.writes O.holds O.faults shelf.old out.old err faults;
      after = outside_of S.files S.reads S.writes O.holds O.faults shelf.new out.new err' faults';
    }) result }
    ensures no_more { IfErr result (λ stop. IfLarge stop (TookOnePast S.reading S.left shelf.new (S.files shelf.old) (S.files shelf.new) (IsLimitIn (line.Page kind file.now)))) }
    ensures files { AfterTold (S.files shelf.old) (S.files shelf.new) Same }
    ensures reads { S.reads shelf.old ≤ S.reads shelf.new }
    ensures writes { S.writes shelf.new ≡ S.writes shelf.old }
    ensures out_faults { O.faults out.old ≤ O.faults out.new }
{
    let text = match load_model(alloc, shelf, file) {
        Ok(text) => text,
        Err(stop) => return Err(unread(stop)),
    };
    let page = match page_of(alloc, kind, text.as_slice()) {
        Ok(page) => page,
        Err(stop) => return Err(stop),
    };
    let choices = Choices::new(alloc);
    match write_all(out, page.as_slice()) {
        Ok(()) => Ok(Outcome {
            stop: Stop::Done,
            choices,
            steps: 0,
        }),
        Err(trouble) => Ok(Outcome::cut(trouble, choices, 0)),
    }
}
