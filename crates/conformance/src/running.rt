//! One run over files and sinks in memory, and what is told of it.

use std::alloc::{AllocError, Global};
use tlmsim::sim_io_api::{MemoryShelf, MemorySink};
use tlmsim::{Words, sim_main};

/// The most bytes of a report's end that are told.
const END: usize = 200;

/// What is told of a run.
#[derive(Drop)]
pub struct Ran {
    /// Its status.
    pub status: u8,
    /// How many steps it made.
    pub steps: u64,
    /// The end of its report.
    pub end: String,
}

/// The last bytes of a report.
fn end_of(alloc: Global, report: &[u8]) -> Result<String, AllocError> {
    let mut end = String::new(alloc);
    for byte in report.iter().skip(report.len().saturating_sub(END)) {
        end.push(*byte as char)?;
    }
    Ok(end)
}

/// The words and the files of a run.
#[derive(Drop)]
struct Given {
    words: Words,
    files: Vec<(String, Vec<u8>)>,
}

impl Given {
    fn new(alloc: Global) -> Given {
        Given {
            words: Words::new(alloc),
            files: Vec::new(alloc),
        }
    }

    /// One more word, which names a file of these bytes.
    fn add_file(&mut self, alloc: Global, name: &str, bytes: &[u8]) -> Result<(), AllocError> {
        self.words.push(name)?;
        let bytes = Vec::from_slice(alloc, bytes)?;
        self.files.push((String::from_str(alloc, name)?, bytes))?;
        Ok(())
    }
}

fn run(alloc: Global, given: Given) -> Result<Ran, AllocError> {
    let Given { words, files } = given;
    let mut shelf = MemoryShelf::new(alloc, files, Vec::new(alloc));
    let mut out = MemorySink::new(alloc, None, Vec::new(alloc));
    let mut err = MemorySink::new(alloc, None, Vec::new(alloc));
    let ended = sim_main(alloc, &words, &mut shelf, &mut out, &mut err);
    Ok(Ran {
        status: ended.status,
        steps: ended.steps,
        end: end_of(alloc, out.bytes())?,
    })
}

/// Runs a model under a script of one run without an end.
pub fn run_model(alloc: Global, model: &str) -> Result<Ran, AllocError> {
    let mut given = Given::new(alloc);
    given.add_file(alloc, "model", model.as_bytes())?;
    given.add_file(alloc, "script", b"run\n")?;
    run(alloc, given)
}

/// Runs a traffic file.
pub fn run_traffic(alloc: Global, traffic: &str) -> Result<Ran, AllocError> {
    let mut given = Given::new(alloc);
    given.words.push("--bus")?;
    given.add_file(alloc, "traffic", traffic.as_bytes())?;
    run(alloc, given)
}
