//! What a case has.

use super::facts::Fact;
use std::alloc::{AllocError, Global};

/// A file that lies on the shelf before the run.
#[derive(Drop)]
pub struct File {
    /// Its name.
    pub name: String,
    /// Its bytes.
    pub bytes: Vec<u8>,
}

/// What a sink is given.
#[derive(Drop)]
pub struct SinkForm {
    /// The most bytes that it takes, where there is a bound.
    pub room: Option<u64>,
    /// The numbers of the calls that fail, from 0.
    pub failing: Vec<u64>,
    /// The numbers of the calls that are refused memory, from 0. The numbers of those that fail leave these out.
    pub wanting: Vec<u64>,
}

impl SinkForm {
    /// A sink that takes all.
    pub fn new(alloc: Global) -> SinkForm {
        SinkForm {
            room: None,
            failing: Vec::new(alloc),
            wanting: Vec::new(alloc),
        }
    }
}

/// One case: a run of the whole program.
#[derive(Drop)]
pub struct Case {
    /// What it shows.
    pub name: String,
    /// Its number, where it is one of a range of cases.
    pub number: Option<u64>,
    /// The words of the command line.
    pub words: Vec<String>,
    /// The files on the shelf.
    pub files: Vec<File>,
    /// The numbers of the shelf's calls that fail, from 0.
    pub failing: Vec<u64>,
    /// The numbers of the shelf's calls that are refused memory, from 0. The numbers of those that fail leave these out.
    pub wanting: Vec<u64>,
    /// The sink for the report.
    pub out: SinkForm,
    /// The sink for messages.
    pub err: SinkForm,
    /// Whether its further lines say what is wanted.
    pub is_given: bool,
    /// What is wanted to come of it.
    pub wanted: Vec<Fact>,
}

/// The name of the model's file, where a case does not say otherwise.
pub const MODEL: &str = "m.tlm";

/// The name of the script's file, where a case does not say otherwise.
pub const SCRIPT: &str = "s.txt";

/// The words that a case has where it does not give its own.
fn usual_words(alloc: Global) -> Result<Vec<String>, AllocError> {
    let mut words = Vec::new(alloc);
    words.push(String::from_str(alloc, MODEL)?)?;
    words.push(String::from_str(alloc, SCRIPT)?)?;
    Ok(words)
}

impl Case {
    /// A case of this name with the usual words, no files, and an outside that never fails.
    pub fn new(alloc: Global, name: &str) -> Result<Case, AllocError> {
        Ok(Case {
            name: String::from_str(alloc, name)?,
            number: None,
            words: usual_words(alloc)?,
            files: Vec::new(alloc),
            failing: Vec::new(alloc),
            wanting: Vec::new(alloc),
            out: SinkForm::new(alloc),
            err: SinkForm::new(alloc),
            is_given: false,
            wanted: Vec::new(alloc),
        })
    }

    /// That of this number of a range of cases of this name.
    pub fn of_range(alloc: Global, name: &str, number: u64) -> Result<Case, AllocError> {
        let name = format!(in alloc; "{name}, N = {number}")?;
        let mut case = Case::new(alloc, name.as_str())?;
        case.number = Some(number);
        Ok(case)
    }
}

/// The bytes of the first file of this name.
pub fn bytes_of<'a>(files: &'a [File], name: &str) -> Option<&'a [u8]> {
    for file in files {
        if file.name.as_str() == name {
            return Some(file.bytes.as_slice());
        }
    }
    None
}
