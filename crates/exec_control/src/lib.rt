//! Guards, tries and exceptions, and what becomes of an instance whose body has ended or whose unwinding has reached its goal.
//!
//! Process control by statements (IEEE 1666-2011, 5.6.6): suspend, resume, disable, enable, kill, reset and exceptions for others.
//! None of it takes memory but the list of those that a call reaches that is for descendants too.
#![tactic(auto)]

mod controls;
mod endings;
mod exceptions;
mod flags;
mod goals;
mod guards;
mod instances;
mod owing;
mod shown;
mod suspending;
mod targets;
mod throws;

pub use controls::{control, control_owed};
pub use endings::body_ends;
pub use exceptions::{throw_it, throw_owed};
pub use goals::reach_goal;
pub use guards::{begin_guard, begin_try};
pub use instances::is_thread;
pub use throws::{catches, raise_at, throw};

/// What is passed on of exec_data.
pub mod exec_data_api {
    pub use exec_data::{assign, if_then, print, return_value, var, while_do, write};
}
