//! Cases of whole runs of the program, given as text: what a case has, what is wanted to come of it, and whether just
//! that came. What runs them is handed what a case has, and hands back what came.
#![tactic(auto)]

mod cases;
mod facts;
mod judging;
mod outcomes;
mod outside;
mod quoting;
mod reading;
mod wanting;

pub use cases::{Case, File, SinkForm};
pub use facts::{Fact, Value};
pub use judging::{Counts, difference};
pub use outcomes::Outcome;
pub use outside::{Outside, outside_of};
pub use reading::{CaseError, LineError, read_cases};
pub use wanting::{WantingShelf, WantingSink};
