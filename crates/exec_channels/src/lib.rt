//! Statements on mutexes, semaphores and fifos (IEEE 1666-2011, 6.23, 6.27 and 6.29), whole: their expressions are evaluated,
//! and then the channel is tried; what cannot be done at once is answered, or blocks the instance.
#![tactic(auto)]

mod fifos;
mod mutexes;
mod semaphores;
mod slots;
mod uses;

pub use fifos::{nb_read, nb_write, read};
pub use mutexes::{lock, trylock, unlock};
pub use semaphores::{post, sem_trywait, sem_wait};

/// What is passed on of kernel_bodies.
pub mod kernel_bodies_api {
    pub use kernel_view::kernel_bodies_api::{Next, Program};
}

/// What is passed on of kernel_state.
pub mod kernel_state_api {
    pub use kernel_view::kernel_state_api::{Kernel, StatementStop, Way, move_on, pass, top_lives};
}

/// What is passed on of kernel_view.
pub mod kernel_view_api {
    pub use kernel_view::{eval_at, eval_if_at};
}

/// What is passed on of logic_values.
pub mod logic_values_api {
    pub use kernel_view::logic_values_api::Value;
}

/// What is passed on of model_tree.
pub mod model_tree_api {
    pub use kernel_view::model_tree_api::{Control, PrintText};
}

/// What is passed on of sim_model.
pub mod sim_model_api {
    pub use kernel_view::sim_model_api::Goal;
}
