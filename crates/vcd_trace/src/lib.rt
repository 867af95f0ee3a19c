//! The text of a trace, in the form of a value change dump (IEEE 1364-2005, 18): the header of a design, and the values of its
//! objects at the points of time of a run.
//!
//! The texts of the files that a session writes beside its report: the trace, piece by piece while the session runs, and the list
//! of its choices.
#![tactic(auto)]

mod choices;
mod header_texts;
mod headers;
mod ids;
mod laws;
mod lines;
mod points;
mod tables;
mod takings;
mod tracing;
mod values;
mod visible;
mod walks;

pub use choices::choices_text;
pub use header_texts::header_text;
pub use headers::header;
pub use laws::header_and_points_are_the_trace;
pub use points::point;
pub use takings::takings_add_no_text;
pub use tracing::Tracing;

/// What is passed on of laws_runs.
pub mod laws_runs_api {
    pub use laws_runs::{steps_add_snapshots, takings_add_none};
}

/// What is passed on of sim_model.
pub mod sim_model_api {
    pub use laws_runs::sim_model_api::{Command, Log, Phase, Rule, Stop};
}
