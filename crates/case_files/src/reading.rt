//! The text of a file of cases.
//!
//! A line is empty, a comment that begins with `#`, or a word and what follows it:
//! `case NAME` begins a case; `words WORD..`, `model TEXT`, `script TEXT`, `file NAME TEXT`,
//! `shelf fails NUMBER..`, `shelf lacks NUMBER..`, `out room NUMBER`, `out fails NUMBER..`, `out lacks NUMBER..`, and the same
//! three for `err` say what the case has: calls that fail, and calls that are refused memory. `quoting` has the form of a TEXT;
//! `first NUMBER TEXT` stands for so many of its first bytes.
//!
//! `each FIRST LAST NAME` begins a range of cases, one for each number from FIRST to LAST. The lines below it are those of each of
//! them, and `N` stands there for its number.
//!
//! Behind a line `gives` stands what is wanted, each as the program tells it: `status NUMBER`, `steps NUMBER`,
//! `choices none`, `choices SERIAL..` or, of more than a thousand, `choices NUMBER in all`, `out TEXT`, `err TEXT`,
//! `file NAME STATE` for each file that is given and each word that names none, and `holds NAME TEXT` for each of these
//! that is changed or made. A line that begins with a double quote goes on with the TEXT before it. A case is right where
//! just these facts come: one that is left out is told as wrong.

use super::cases::{Case, File, MODEL, SCRIPT, SinkForm};
use super::facts::{Fact, Value};
use super::quoting::text_bytes;
use std::alloc::{AllocError, Global};
use thiserror::Error;

/// Why a line says nothing of a case.
#[derive(Debug, Drop, Error)]
pub enum LineError {
    /// It has none of the forms.
    #[error("no form of a case")]
    Form,
    /// Memory was refused.
    #[error(transparent)]
    Memory(#[from(alloc)] AllocError),
}

/// Why a file has no cases.
#[derive(Debug, Drop, Error)]
pub enum CaseError {
    /// A line is refused, by its number from 1.
    #[error("line {line}: {error}")]
    Line {
        /// The number.
        line: u32,
        /// The cause.
        error: LineError,
    },
}

/// The most cases of a range.
const MOST_OF_RANGE: u64 = 10_000;

/// A number in a case that has this number itself.
fn number(word: &str, own: Option<u64>) -> Result<u64, LineError> {
    if word == "N" {
        return own.ok_or(LineError::Form);
    }
    match word.parse::<u64>() {
        Ok(value) => Ok(value),
        Err(_) => Err(LineError::Form),
    }
}

fn numbers(alloc: Global, text: &str, own: Option<u64>) -> Result<Vec<u64>, LineError> {
    let mut all = Vec::new(alloc);
    for word in text.split_whitespace() {
        all.push(number(word, own)?)?;
    }
    Ok(all)
}

fn words(alloc: Global, text: &str) -> Result<Vec<String>, LineError> {
    let mut all = Vec::new(alloc);
    for word in text.split_whitespace() {
        all.push(String::from_str(alloc, word)?)?;
    }
    Ok(all)
}

/// The first word of a text and the rest of it.
fn first_word(text: &str) -> (&str, &str) {
    match text.split_once(' ') {
        Some((word, rest)) => (word, rest.trim()),
        None => (text, ""),
    }
}

/// The first bytes of a list, so many of them.
fn front(mut bytes: Vec<u8>, count: u64) -> Result<Vec<u8>, LineError> {
    match usize::try_from(count) {
        Ok(count) if count <= bytes.len() => {
            bytes.truncate(count);
            Ok(bytes)
        }
        _ => Err(LineError::Form),
    }
}

/// The bytes that a text, or a front of it, stands for in a case that has this number.
fn bytes_told(alloc: Global, source: &str, own: Option<u64>) -> Result<Vec<u8>, LineError> {
    match first_word(source) {
        ("first", rest) => {
            let (count, text) = first_word(rest);
            front(text_bytes(alloc, text)?, number(count, own)?)
        }
        _ => text_bytes(alloc, source),
    }
}

fn add_file(alloc: Global, case: &mut Case, name: &str, text: &str) -> Result<(), LineError> {
    let name = String::from_str(alloc, name)?;
    let bytes = bytes_told(alloc, text, case.number)?;
    case.files.push(File { name, bytes })?;
    Ok(())
}

fn add_named_file(alloc: Global, case: &mut Case, rest: &str) -> Result<(), LineError> {
    let (name, text) = first_word(rest);
    add_file(alloc, case, name, text)
}

fn add_faults(alloc: Global, case: &mut Case, rest: &str) -> Result<(), LineError> {
    match first_word(rest) {
        ("fails", list) => {
            case.failing = numbers(alloc, list, case.number)?;
            Ok(())
        }
        ("lacks", list) => {
            case.wanting = numbers(alloc, list, case.number)?;
            Ok(())
        }
        _ => Err(LineError::Form),
    }
}

fn add_to_sink(
    alloc: Global,
    sink: &mut SinkForm,
    rest: &str,
    own: Option<u64>,
) -> Result<(), LineError> {
    match first_word(rest) {
        ("room", bound) => {
            sink.room = Some(number(bound, own)?);
            Ok(())
        }
        ("fails", list) => {
            sink.failing = numbers(alloc, list, own)?;
            Ok(())
        }
        ("lacks", list) => {
            sink.wanting = numbers(alloc, list, own)?;
            Ok(())
        }
        _ => Err(LineError::Form),
    }
}

/// Adds what a line says of what the case has.
fn add_given(alloc: Global, case: &mut Case, word: &str, rest: &str) -> Result<(), LineError> {
    match word {
        "words" => {
            case.words = words(alloc, rest)?;
            Ok(())
        }
        "model" => add_file(alloc, case, MODEL, rest),
        "script" => add_file(alloc, case, SCRIPT, rest),
        "file" => add_named_file(alloc, case, rest),
        "shelf" => add_faults(alloc, case, rest),
        "out" => add_to_sink(alloc, &mut case.out, rest, case.number),
        "err" => add_to_sink(alloc, &mut case.err, rest, case.number),
        "gives" => {
            case.is_given = true;
            Ok(())
        }
        _ => Err(LineError::Form),
    }
}

/// What a line says that a file holds.
fn held(alloc: Global, rest: &str, own: Option<u64>) -> Result<Fact, LineError> {
    let (name, text) = first_word(rest);
    let bytes = bytes_told(alloc, text, own)?;
    Ok(Fact::of_file(alloc, name, bytes)?)
}

/// Adds what a line says of what is wanted.
fn add_wanted(alloc: Global, case: &mut Case, word: &str, rest: &str) -> Result<(), LineError> {
    let fact = match word {
        "out" | "err" => Fact::in_bytes(alloc, word, bytes_told(alloc, rest, case.number)?)?,
        "holds" => held(alloc, rest, case.number)?,
        _ => Fact::in_words(alloc, word, String::from_str(alloc, rest)?)?,
    };
    case.wanted.push(fact)?;
    Ok(())
}

/// Goes on with the text of the last fact that is wanted.
fn add_to_text(alloc: Global, case: &mut Case, source: &str) -> Result<(), LineError> {
    let more = text_bytes(alloc, source)?;
    match case.wanted.last_mut() {
        Some(
            Fact {
                value: Value::Bytes(bytes),
                ..
            },
        ) => {
            bytes.extend_from_slice(more.as_slice())?;
            Ok(())
        }
        _ => Err(LineError::Form),
    }
}

/// Adds what a line says to the case that it stands in.
fn add(alloc: Global, case: &mut Case, line: &str) -> Result<(), LineError> {
    if line.starts_with('"') {
        return add_to_text(alloc, case, line);
    }
    let (word, rest) = first_word(line);
    if case.is_given {
        return add_wanted(alloc, case, word, rest);
    }
    add_given(alloc, case, word, rest)
}

/// Begins a range of cases.
fn begin_range(alloc: Global, cases: &mut Vec<Case>, rest: &str) -> Result<(), LineError> {
    let (first, rest) = first_word(rest);
    let (last, name) = first_word(rest);
    let (first, last) = (number(first, None)?, number(last, None)?);
    if last < first || last - first >= MOST_OF_RANGE {
        return Err(LineError::Form);
    }
    for number in first..=last {
        cases.push(Case::of_range(alloc, name, number)?)?;
    }
    Ok(())
}

/// Adds what a line says to the cases from this one on.
fn add_to_all(
    alloc: Global,
    cases: &mut Vec<Case>,
    from: usize,
    line: &str,
) -> Result<(), LineError> {
    if cases.is_empty() {
        return Err(LineError::Form);
    }
    for place in from..cases.len() {
        if let Some(case) = cases.get_mut(place) {
            add(alloc, case, line)?;
        }
    }
    Ok(())
}

/// Begins a case or a range of them, or adds to the last one, which stands from a place on.
fn read_line(
    alloc: Global,
    cases: &mut Vec<Case>,
    from: &mut usize,
    line: &str,
) -> Result<(), LineError> {
    if line.is_empty() || line.starts_with('#') {
        return Ok(());
    }
    let (word, rest) = first_word(line);
    match word {
        "case" => {
            *from = cases.len();
            cases.push(Case::new(alloc, rest)?)?;
            Ok(())
        }
        "each" => {
            *from = cases.len();
            begin_range(alloc, cases, rest)
        }
        _ => add_to_all(alloc, cases, *from, line),
    }
}

/// The cases of a text, in order.
pub fn read_cases(alloc: Global, text: &str) -> Result<Vec<Case>, CaseError> {
    let mut cases = Vec::new(alloc);
    let mut from = 0;
    let mut line = 0u32;
    for source in text.lines() {
        line = line.saturating_add(1);
        match read_line(alloc, &mut cases, &mut from, source.trim()) {
            Ok(()) => {}
            Err(error) => return Err(CaseError::Line { line, error }),
        }
    }
    Ok(cases)
}
