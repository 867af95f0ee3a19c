//! The outside of the simulator: a shelf of files and a sink for bytes, as traits whose contracts
//! say all that a caller may rely on, and loops over them that read or write whole texts.
//!
//! The silent forms of the outside: a shelf whose calls never fail and take no memory, for callers
//! that have all files in memory and want nothing written, and a sink that drops what it is given.
//!
//! Bytes that are to be written, held back until so many of them have come that they are written together.
#![tactic(auto)]

mod held;
mod host;
mod memory_shelf;
mod memory_sink;
mod null_sink;
mod outside;
mod sound_file;
mod sound_shelf;
mod transfer;

pub use held::Held;
pub use host::{HostShelf, HostSink};
pub use logic_values::Bytes;
pub use memory_shelf::MemoryShelf;
pub use memory_sink::MemorySink;
pub use null_sink::NullSink;
pub use outside::{Shelf, Sink, Trouble};
pub use sound_file::SoundFile;
pub use sound_shelf::SoundShelf;
pub use transfer::{ReadStop, read_all, read_opened, write_all, write_file};

/// What is passed on of logic_values.
pub mod logic_values_api {
    pub use logic_values::Items;
}
