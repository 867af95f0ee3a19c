//! Tells of texts with clocked threads, which are given as data, which tokens they become, line by line; or on which line they
//! become none.
//!
//! A line of a file that begins with `--- ` begins a text and has its title behind that; the lines behind it are the text.
#![tactic(auto)]

mod showing;

use anyhow::Result;
use clocked::expand;
use model_lexer::tokens;
use model_tree::ParseStop;
use showing::push_expansion;
use std::alloc::{AllocError, Global};
use std::rt::{Env, Files};
use std::{env, fs};

/// What a line begins with that begins a text.
const TITLE: &str = "--- ";

/// The most bytes of a text.
const TEXT_LIMIT: u64 = 1_048_576;

/// A text with its title.
#[derive(Drop)]
struct Case {
    title: String,
    text: String,
}

/// Adds a line to the last text, or begins another one.
fn take_line(alloc: Global, cases: &mut Vec<Case>, line: &str) -> Result<(), AllocError> {
    if let Some(title) = line.strip_prefix(TITLE) {
        cases.push(Case {
            title: String::from_str(alloc, title)?,
            text: String::new(alloc),
        })?;
        return Ok(());
    }
    if let Some(case) = cases.last_mut() {
        case.text.push_str(line)?;
        case.text.push('\n')?;
    }
    Ok(())
}

/// The texts of a file.
fn cases_of(alloc: Global, file: &str) -> Result<Vec<Case>, AllocError> {
    let mut cases = Vec::new(alloc);
    for line in file.lines() {
        take_line(alloc, &mut cases, line)?;
    }
    Ok(cases)
}

/// Tells that a text becomes nothing.
fn push_stop(shown: &mut String, stop: ParseStop) -> Result<(), AllocError> {
    match stop {
        ParseStop::Syntax { line } => writeln!(shown, "refused {line}"),
        ParseStop::NoMemory => Err(AllocError),
    }
}

/// Tells what a text becomes.
fn push_text(alloc: Global, shown: &mut String, text: &[u8]) -> Result<(), AllocError> {
    if text.len() as u64 > TEXT_LIMIT {
        return shown.push_str("too long\n");
    }
    let cut = match tokens(alloc, text) {
        Ok(cut) => cut,
        Err(stop) => return push_stop(shown, stop),
    };
    match expand(alloc, cut.as_slice()) {
        Ok(expansion) => push_expansion(alloc, shown, expansion.as_slice()),
        Err(stop) => push_stop(shown, stop),
    }
}

/// The title of a text, and what it becomes.
fn told(alloc: Global, case: &Case) -> Result<String, AllocError> {
    let mut shown = String::from_str(alloc, TITLE)?;
    shown.push_str(case.title.as_str())?;
    shown.push('\n')?;
    push_text(alloc, &mut shown, case.text.as_bytes())?;
    Ok(shown)
}

/// Tells of the texts of one file.
fn run_file(rt: &(impl Files + Print + AllocGlobal), name: &str) -> Result<()> {
    let file = fs::read_to_string(rt, name)?;
    let cases = cases_of(rt.alloc(), file.as_str())?;
    for case in &cases {
        let shown = told(rt.alloc(), case)?;
        rt.print(shown.as_str())?;
    }
    Ok(())
}

/// Tells of the texts of the files that the words name, in order.
fn main(rt: HostRuntime) -> Result<()> {
    for name in env::args(&rt)?.skip(1) {
        run_file(&rt, name.as_str())?;
    }
    Ok(())
}
