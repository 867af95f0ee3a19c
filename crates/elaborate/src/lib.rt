//! The flat design of a tree that breaks no rule on single modules: its objects, what their bindings give, and its code; or
//! what is wrong with its instances or its bindings.
//!
//! The flat design of a tree that breaks no rule on its modules, which is sound, or what is wrong with its instances or bindings.
#![tactic(auto)]

mod bound;
mod elaborated;
mod exceptions;
mod making;
mod objects;

pub use bound::{BoundObjects, bound_objects};
pub use elaborated::elaborate;
pub use making::sound_design;

/// What is passed on of laws_design.
pub mod laws_design_api {
    pub use laws_design::{designs_are_few, semaphores_start_low};
}

/// What is passed on of model_check.
pub mod model_check_api {
    pub use model_check::{check, judge_source};
}
