//! The outside that a case is run over.

use super::cases::{Case, File, SinkForm};
use super::wanting::{WantingShelf, WantingSink};
use sim_io::{MemoryShelf, MemorySink};
use std::alloc::{AllocError, Global};

/// Files and sinks in memory.
#[derive(Drop)]
pub struct Outside {
    /// The shelf.
    pub shelf: WantingShelf,
    /// The sink of the report.
    pub out: WantingSink,
    /// The sink of messages.
    pub err: WantingSink,
}

fn copies(alloc: Global, files: &[File]) -> Result<Vec<(String, Vec<u8>)>, AllocError> {
    let mut all = Vec::new(alloc);
    for file in files {
        let name = String::from_str(alloc, file.name.as_str())?;
        let bytes = Vec::from_slice(alloc, file.bytes.as_slice())?;
        all.push((name, bytes))?;
    }
    Ok(all)
}

fn sink_of(alloc: Global, form: &SinkForm) -> Result<WantingSink, AllocError> {
    let failing = Vec::from_slice(alloc, form.failing.as_slice())?;
    let wanting = Vec::from_slice(alloc, form.wanting.as_slice())?;
    let below = MemorySink::new(alloc, form.room, failing);
    Ok(WantingSink::new(below, wanting))
}

fn shelf_of(alloc: Global, case: &Case) -> Result<WantingShelf, AllocError> {
    let files = copies(alloc, case.files.as_slice())?;
    let failing = Vec::from_slice(alloc, case.failing.as_slice())?;
    let wanting = Vec::from_slice(alloc, case.wanting.as_slice())?;
    let below = MemoryShelf::new(alloc, files, failing);
    Ok(WantingShelf::new(below, wanting))
}

/// The outside of a case before its run.
pub fn outside_of(alloc: Global, case: &Case) -> Result<Outside, AllocError> {
    Ok(Outside {
        shelf: shelf_of(alloc, case)?,
        out: sink_of(alloc, &case.out)?,
        err: sink_of(alloc, &case.err)?,
    })
}
