//! A run over the silent outside: a shelf whose calls never fail, and sinks that drop what they are given.

use sim_io::{NullSink, SoundFile, SoundShelf};
use std::alloc::{AllocError, Global};
use tlmsim::{Words, sim_main};

/// What the shelf has: a model of one signal, and a script that runs it once and shows the signal.
const FILES: [(&str, &str); 2] = [
    ("model", "module M { signal bool a; } top M m;"),
    ("script", "run\nshow m.a\n"),
];

/// The status and the number of steps of a run whose report nobody sees.
#[derive(Clone, Copy)]
pub struct Silent {
    /// Its status.
    pub status: u8,
    /// How many steps it made.
    pub steps: u64,
}

/// The shelf with its files.
fn silent_shelf(alloc: Global) -> Result<SoundShelf, AllocError> {
    let mut files = Vec::new(alloc);
    for (name, text) in FILES {
        let name = String::from_str(alloc, name)?;
        let bytes = Vec::from_slice(alloc, text.as_bytes())?;
        files.push(SoundFile::new(name, bytes))?;
    }
    if files.len() > FILES.len() {
        return Err(AllocError);
    }
    Ok(SoundShelf::new(files))
}

/// Runs the model.
pub fn run_silently(alloc: Global) -> Result<Silent, AllocError> {
    let mut words = Words::new(alloc);
    words.push("model")?;
    words.push("script")?;
    let mut shelf = silent_shelf(alloc)?;
    let ended = sim_main(
        alloc,
        &words,
        &mut shelf,
        &mut NullSink::new(),
        &mut NullSink::new(),
    );
    Ok(Silent {
        status: ended.status,
        steps: ended.steps,
    })
}
