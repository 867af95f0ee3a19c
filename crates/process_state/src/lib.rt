//! What is left of a process's body, as a coroutine that is set aside: a frame for each open call, with its local variables, its
//! cursor and what stands open in it. It stands for a residual, and each call makes of it what the definitions of a run make of that residual.
#![tactic(auto)]

mod body;
mod laws;
mod shown;
mod starting;
mod unwind;

pub use body::Body;
pub use kernel_bodies::{Frame, Next};
pub use laws::{stands_for_one_residual, stands_without_numbers};
pub use starting::EnterStop;

/// What is passed on of kernel_bodies.
pub mod kernel_bodies_api {
    pub use kernel_bodies::{Frame, Next, Program, locals_in, many_locals};
}
