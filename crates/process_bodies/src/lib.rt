//! What is left of a process's body where its statement in place may be a control call that is owed to several instances, one after
//! the other: the saved frames of the body, and whom it owes the call. Each of its calls makes of what is left what the definitions of
//! a run make of that residual.
//!
//! The descendants of an instance: those that it spawned, those that these spawned, and so on (IEEE 1666-2011, 5.6.6, control with
//! SC_INCLUDE_DESCENDANTS). They are found by the list of parents alone, in which each parent is a smaller serial.
#![tactic(auto)]

mod body;
mod owing;
mod parents;
mod shown;
mod starting;
mod unwind;

pub use body::{Body, Owed};
pub use parents::with_descendants;
pub use process_state::EnterStop;

/// What is passed on of kernel_bodies.
pub mod kernel_bodies_api {
    pub use process_state::kernel_bodies_api::{Frame, Next, Program, locals_in, many_locals};
}
