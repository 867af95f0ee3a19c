//! A session: a script carried out over a design, with its report.
#![tactic(auto)]

mod buffers;
mod ends;
mod finishing;
mod laws;
mod looping;
mod plans;
mod recording;
mod tellings;
mod traces;

pub use looping::run_session;
pub use plans::{Outcome, Plan};

/// What is passed on of sim_io.
pub mod sim_io_api {
    pub use sim_io::{
        HostShelf, HostSink, MemoryShelf, MemorySink, Shelf, Sink, SoundShelf, Trouble, write_all,
    };
}
