ghost use Rattle.std.specs.Prelude.{◌≡◌, option_map, bytes_eq, codes, is_none};
ghost use Rattle.command_line.specs.Line as spec;
ghost use Rattle.command_line.specs.Views as seen;

use super::given::{Given, given_by};
use super::modes::{ChoiceRule, Generated, Mode, Order, PageKind, Simulation, WordsStop};
use super::numbers::{BUDGET_LIMIT, DEFAULT_BUDGET, GENERATED_LIMIT, number_in, number_or};
use super::words::Words;
use sim_model::Log;
use std::alloc::Global;

fn budget_in(text: Option<&str>) -> Option<u64>
    ensures { result ≡ spec.budget_in (seen.text_of text.entry) }
{
    number_or(DEFAULT_BUDGET, 1, BUDGET_LIMIT, text)
}

fn seed_in(text: Option<&str>) -> Option<u64>
    ensures { result ≡ spec.seed_in (seen.text_of text.entry) }
{
    number_or(0, 0, u64::MAX, text)
}

fn order_called(name: &str, seed: u64) -> Option<Order>
    ensures { result ≡ spec.order_called name.now seed }
{
    if name == "first" {
        Some(Order::First)
    } else if name == "last" {
        Some(Order::Last)
    } else if name == "seed" {
        Some(Order::Seed(seed))
    } else {
        None
    }
}

fn order_in(given: &Given<'_>) -> Option<Order>
    ensures { result ≡ spec.order_in (seen.given_of given.now) }
{
    let seed = seed_in(given.seed)?;
    match given.order {
        Some(name) => order_called(name, seed),
        None => Some(Order::First),
    }
}

fn log_in(text: Option<&str>) -> Option<Log>
    ensures { result ≡ spec.log_in (seen.text_of text.entry) }
{
    let Some(name) = text else {
        return Some(Log::Prints);
    };
    if name == "prints" {
        Some(Log::Prints)
    } else if name == "turns" {
        Some(Log::Turns)
    } else {
        None
    }
}

fn rule_in<'a>(given: &Given<'a>) -> Option<ChoiceRule<'a>>
    ensures { option_map seen.rule_of result ≡ spec.rule_in (seen.given_of given.now) }
{
    let order = order_in(given)?;
    match given.replay {
        None => Some(ChoiceRule::Ordered(order)),
        Some(file) if given.order.is_none() && given.choices.is_none() => {
            Some(ChoiceRule::Replayed(file))
        }
        Some(_) => None,
    }
}

fn are_apart(trace: Option<&str>, choices: Option<&str>) -> bool
    ensures { result ≡ spec.are_apart (seen.text_of trace.entry) (seen.text_of choices.entry) }
{
    match (trace, choices) {
        (Some(trace), Some(choices)) => trace != choices,
        _ => true,
    }
}

fn names_no_run(given: &Given<'_>) -> bool
    ensures { result ≡ spec.names_no_run (seen.given_of given.now) }
{
    given.model.is_none()
        && given.script.is_none()
        && given.vcd.is_none()
        && given.choices.is_none()
        && given.replay.is_none()
        && given.log.is_none()
}

fn steers_no_run(given: &Given<'_>) -> bool
    ensures { result ≡ spec.steers_no_run (seen.given_of given.now) }
{
    given.budget.is_none() && given.order.is_none() && given.seed.is_none()
}

fn simulation_named<'a>(model: &'a str, script: &'a str, given: &Given<'a>) -> Option<Mode<'a>>
    ensures { option_map seen.mode_of result
        ≡ spec.simulation_named (Some model.entry.now) (Some script.entry.now) (seen.given_of given.now) }
{
    if !are_apart(given.vcd, given.choices) {
        return None;
    }
    let budget = budget_in(given.budget)?;
    let rule = rule_in(given)?;
    let log = log_in(given.log)?;
    Some(Mode::Simulate(Simulation {
        model,
        script,
        vcd: given.vcd,
        choices: given.choices,
        budget,
        rule,
        log,
    }))
}

fn page_alone<'a>(kind: PageKind, file: &'a str, given: &Given<'a>) -> Option<Mode<'a>>
    ensures { option_map seen.mode_of result ≡ spec.page_alone kind file.entry.now (seen.given_of given.now) }
{
    if names_no_run(given) && steers_no_run(given) {
        Some(Mode::Page(kind, file))
    } else {
        None
    }
}

fn generated_alone<'a>(size: &str, given: &Given<'a>) -> Option<Mode<'a>>
    ensures { option_map seen.mode_of result ≡ spec.generated_alone size.now (seen.given_of given.now) }
{
    if !names_no_run(given) {
        return None;
    }
    let size = number_in(1, GENERATED_LIMIT, size)?;
    let budget = budget_in(given.budget)?;
    let order = order_in(given)?;
    Some(Mode::Generate(Generated {
        size,
        budget,
        order,
    }))
}

fn mode_in<'a>(given: &Given<'a>) -> Option<Mode<'a>>
    ensures { option_map seen.mode_of result ≡ spec.mode_in (seen.given_of given.now) }
{
    match (given.format, given.order_free, given.bus, given.generate) {
        (None, None, None, None) => match (given.model, given.script) {
            (Some(model), Some(script)) => simulation_named(model, script, given),
            _ => None,
        },
        (Some(model), None, None, None) => page_alone(PageKind::Layout, model, given),
        (None, Some(model), None, None) => page_alone(PageKind::Verdict, model, given),
        (None, None, Some(file), None) => page_alone(PageKind::Traffic, file, given),
        (None, None, None, Some(size)) => generated_alone(size, given),
        _ => None,
    }
}

/// What words ask for, of the modes of the program.
///
/// `MODEL SCRIPT` runs a model under a script, `--format MODEL` prints a model, `--order-free MODEL` tells whether it keeps
/// the rule on the order of its processes, `--bus FILE` tells what comes of the traffic of a bus, and `--generate N` runs a
/// generated model of a size from 1 to 1,000. With a run stand `--budget N`, from 1 to 67,108,864, `--order first|last|seed`
/// and `--seed N`, a u64; with a model and a script also `--vcd F`, `--choices F`, `--replay F` and `--log prints|turns`.
/// Each option stands once at most, as `--x v` or `--x=v`, and `--` ends the options. A number is decimal digits alone.
/// `--replay` stands with neither `--choices` nor `--order`, and the files of `--vcd` and `--choices` differ.
///
/// Words that ask for nothing are `Usage`, and no others are.
pub fn read_line<'a>(alloc: Global, words: &'a Words) -> Result<Mode<'a>, WordsStop>
    ensures { seen.Reads (spec.line_of words.entry.now) result }
{
    let given = match given_by(alloc, words) {
        Ok(given) => given,
        Err(stop) => return Err(stop),
    };
    match mode_in(&given) {
        Some(mode) => Ok(mode),
        None => Err(WordsStop::Usage),
    }
}
