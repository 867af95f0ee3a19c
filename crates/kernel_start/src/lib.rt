//! The kernel that a run goes on with: its type states that the kernel is sound.
//!
//! The kernel of a design before the first command: it stands for the configuration that a run starts with.
#![tactic(auto)]

mod laws;
mod making;
mod parts;
mod processes;
mod sound;

pub use laws::parts_are_clean;
pub use making::{SplitDesign, apart, first_kernel};
pub use sound::SoundKernel;

/// What is passed on of kernel_bodies.
pub mod kernel_bodies_api {
    pub use kernel_state::kernel_bodies_api::Program;
}

/// What is passed on of kernel_state.
pub mod kernel_state_api {
    pub use kernel_state::Kernel;
}
