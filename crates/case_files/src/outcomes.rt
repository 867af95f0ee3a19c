//! What came of a case, as facts.

use super::cases::{Case, File, bytes_of};
use super::facts::Fact;
use super::outside::Outside;
use sim_io::MemoryShelf;
use sim_io::logic_values_api::Items;
use std::alloc::{AllocError, Global};

/// What came of a run of the whole program.
#[derive(Drop)]
pub struct Outcome {
    /// The status that it ended with.
    pub status: u8,
    /// The number of its steps.
    pub steps: u64,
    /// The serials that were chosen, in order.
    pub choices: Items<u32>,
    /// The outside after it.
    pub outside: Outside,
}

/// Adds a fact that is told in words.
fn add_words(
    alloc: Global,
    facts: &mut Vec<Fact>,
    subject: &str,
    words: String,
) -> Result<(), AllocError> {
    facts.push(Fact::in_words(alloc, subject, words)?)?;
    Ok(())
}

/// The most choices that are told one by one.
const MOST_TOLD: usize = 1_000;

/// The serials that were chosen, in order; of a longer list only how many there are.
fn choices_text(alloc: Global, choices: &[u32]) -> Result<String, AllocError> {
    let count = choices.len();
    if count > MOST_TOLD {
        return format!(in alloc; "{count} in all");
    }
    let mut shown = String::new(alloc);
    if choices.is_empty() {
        shown.push_str("none")?;
    }
    for (place, serial) in choices.iter().enumerate() {
        if place > 0 {
            shown.push(' ')?;
        }
        write!(shown, "{serial}")?;
    }
    Ok(shown)
}

/// Adds how many steps were made, and what was chosen in them.
fn add_steps(
    alloc: Global,
    facts: &mut Vec<Fact>,
    steps: u64,
    choices: &[u32],
) -> Result<(), AllocError> {
    add_words(alloc, facts, "steps", format!(in alloc; "{steps}")?)?;
    add_words(alloc, facts, "choices", choices_text(alloc, choices)?)
}

/// Adds what a sink took.
fn add_sink(
    alloc: Global,
    facts: &mut Vec<Fact>,
    name: &str,
    bytes: &[u8],
) -> Result<(), AllocError> {
    let taken = Vec::from_slice(alloc, bytes)?;
    facts.push(Fact::in_bytes(alloc, name, taken)?)?;
    Ok(())
}

/// Adds what a file is now, and what it holds where that is told.
fn add_state(
    alloc: Global,
    facts: &mut Vec<Fact>,
    name: &str,
    state: &str,
    held: Option<&[u8]>,
) -> Result<(), AllocError> {
    add_words(alloc, facts, "file", format!(in alloc; "{name} {state}")?)?;
    if let Some(bytes) = held {
        let bytes = Vec::from_slice(alloc, bytes)?;
        facts.push(Fact::of_file(alloc, name, bytes)?)?;
    }
    Ok(())
}

/// Adds what the shelf has now of a file that was given.
fn add_given(
    alloc: Global,
    facts: &mut Vec<Fact>,
    file: &File,
    shelf: &MemoryShelf,
) -> Result<(), AllocError> {
    let name = file.name.as_str();
    match shelf.file(name) {
        None => add_state(alloc, facts, name, "gone", None),
        Some(bytes) if bytes == file.bytes.as_slice() => {
            add_state(alloc, facts, name, "as before", None)
        }
        Some(bytes) => add_state(alloc, facts, name, "changed", Some(bytes)),
    }
}

/// Adds what the shelf has now under a word that named no file.
fn add_other(
    alloc: Global,
    facts: &mut Vec<Fact>,
    name: &str,
    shelf: &MemoryShelf,
) -> Result<(), AllocError> {
    match shelf.file(name) {
        None => add_state(alloc, facts, name, "none", None),
        Some(bytes) => add_state(alloc, facts, name, "made", Some(bytes)),
    }
}

/// Adds of each file that was given, and of each word that names none, what the shelf has now.
fn add_files(
    alloc: Global,
    facts: &mut Vec<Fact>,
    case: &Case,
    shelf: &MemoryShelf,
) -> Result<(), AllocError> {
    for file in &case.files {
        add_given(alloc, facts, file, shelf)?;
    }
    for word in &case.words {
        if bytes_of(case.files.as_slice(), word.as_str()).is_none() {
            add_other(alloc, facts, word.as_str(), shelf)?;
        }
    }
    Ok(())
}

/// What came of a case, fact by fact.
pub(crate) fn facts_of(
    alloc: Global,
    case: &Case,
    outcome: &Outcome,
) -> Result<Vec<Fact>, AllocError> {
    let mut facts = Vec::new(alloc);
    let status = outcome.status;
    add_words(alloc, &mut facts, "status", format!(in alloc; "{status}")?)?;
    add_steps(alloc, &mut facts, outcome.steps, outcome.choices.as_slice())?;
    let outside = &outcome.outside;
    add_sink(alloc, &mut facts, "out", outside.out.below().bytes())?;
    add_sink(alloc, &mut facts, "err", outside.err.below().bytes())?;
    add_files(alloc, &mut facts, case, outside.shelf.below())?;
    Ok(facts)
}
