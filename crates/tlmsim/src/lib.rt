//! The simulator: the words of a command line, and the one call that does what they ask for.
#![tactic(auto)]

mod creating;
mod generating;
mod main_call;
mod pages;
mod running;
mod simulating;
mod statuses;
mod telling;
mod working;

pub use command_line::{Words, WordsStop};
pub use creating::{Created, create_files};
pub use flat_design::Choices;
pub use main_call::{Ended, sim_main};
pub use run_input::{MODEL_LIMIT, SCRIPT_LIMIT, one_cause};
pub use telling::end_without_words;

/// What is passed on of sim_io.
pub mod sim_io_api {
    pub use session::sim_io_api::{HostShelf, HostSink, MemoryShelf, MemorySink};
}
