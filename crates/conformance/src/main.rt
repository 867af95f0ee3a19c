//! Runs cases that are given as data over files and sinks in memory, and tells of each that did not give what it says. Then it runs
//! models of many instances, given as data, and traffic files of many lines, and prints of each run its status, its number of steps
//! and the end of its report; and at last it makes one small run over an outside that tells nothing.
#![tactic(auto)]

mod running;
mod silent;
mod traffic;

use anyhow::Result;
use case_files::{Case, Counts, Outcome, Outside, difference, outside_of, read_cases};
use running::{run_model, run_traffic};
use silent::run_silently;
use std::alloc::{AllocError, Global};
use std::process::ExitCode;
use std::rt::{Env, Files};
use std::{env, fs};
use tlmsim::{Ended, Words, sim_main};
use traffic::large_text;

/// The status where a case came out otherwise than it says.
const WRONG: u8 = 1;

fn words_of(alloc: Global, given: &[String]) -> Result<Words, AllocError> {
    let mut words = Words::new(alloc);
    for word in given {
        words.push(word.as_str())?;
    }
    Ok(words)
}

/// Runs the whole program. This function alone calls it, and has no goal that a tactic would have to try: what stands
/// around the call is checked with the whole of the call's contract at hand.
#[tactic(none)]
fn run_program(alloc: Global, words: &Words, mut outside: Outside) -> Outcome {
    let Ended {
        status,
        choices,
        steps,
    } = sim_main(
        alloc,
        words,
        &mut outside.shelf,
        &mut outside.out,
        &mut outside.err,
    );
    Outcome {
        status,
        steps,
        choices,
        outside,
    }
}

/// Runs a case.
fn run_case(alloc: Global, case: &Case) -> Result<Outcome, AllocError> {
    let words = words_of(alloc, case.words.as_slice())?;
    let outside = outside_of(alloc, case)?;
    Ok(run_program(alloc, &words, outside))
}

/// Runs the cases of one file, in order.
fn run_file(rt: &(impl Files + Print + AllocGlobal), name: &str) -> Result<Counts> {
    let text = fs::read_to_string(rt, name)?;
    let cases = read_cases(rt.alloc(), text.as_str())?;
    let mut counts = Counts::new();
    for case in &cases {
        let outcome = run_case(rt.alloc(), case)?;
        let told = difference(rt.alloc(), case, &outcome)?;
        counts.add(told.is_none());
        if let Some(shown) = told {
            rt.print(shown.as_str())?;
        }
    }
    println!(rt; "{name}: {counts}")?;
    Ok(counts)
}

/// Runs the model of one file.
fn run_large(rt: &(impl Files + Print + AllocGlobal), name: &str) -> Result<()> {
    let model = fs::read_to_string(rt, name)?;
    let ran = run_model(rt.alloc(), model.as_str())?;
    let (status, steps) = (ran.status, ran.steps);
    println!(rt; "{name}: status {status}, {steps} steps")?;
    rt.print(ran.end.as_str())?;
    Ok(())
}

/// Runs 4,096 accesses between so many initiators and targets.
fn run_accesses(rt: &(impl Print + AllocGlobal), names: u32) -> Result<()> {
    let text = large_text(rt.alloc(), names)?;
    let ran = run_traffic(rt.alloc(), text.as_str())?;
    let (status, last) = (ran.status, ran.end.as_str().lines().last().unwrap_or(""));
    println!(rt; "4096 accesses on {names} of each: status {status}, {last}")?;
    Ok(())
}

/// Makes the run that nobody sees.
fn run_unseen(rt: &(impl Print + AllocGlobal)) -> Result<()> {
    let ran = run_silently(rt.alloc())?;
    let (status, steps) = (ran.status, ran.steps);
    println!(rt; "silent: status {status}, {steps} steps")?;
    Ok(())
}

/// Runs the cases, or the model, of each of the files that the words name. The status is 0 where each case came out as it says.
fn main(rt: HostRuntime) -> Result<ExitCode> {
    let mut counts = Counts::new();
    for name in env::args(&rt)?.skip(1) {
        if name.as_str().ends_with(".cases") {
            counts.add_all(run_file(&rt, name.as_str())?);
        } else {
            run_large(&rt, name.as_str())?;
        }
    }
    run_accesses(&rt, 1)?;
    run_accesses(&rt, 256)?;
    run_unseen(&rt)?;
    println!(rt; "{counts}")?;
    if counts.wrong == 0 {
        return Ok(ExitCode::SUCCESS);
    }
    Ok(ExitCode::from(WRONG))
}
