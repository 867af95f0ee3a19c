//! Residuals without the numbers of their guards, which is what a body keeps of them, and that each definition on
//! residuals is the same without these numbers. It has definitions and laws alone.
//!
//! The code of a design as bodies go through it: blocks statement by statement, what stands around an inner block, and how
//! deep blocks nest.
//!
//! Calls as they are saved between two steps of a body: each with its local variables and what stands open in it; what of
//! that falls away, what comes next, what an unwinding leaves of it, and the room that it needs.
#![tactic(auto)]

mod around;
mod changes;
mod frames;
mod landing;
mod layers;
mod program;
mod sought;
mod statements;
mod stripped;
mod unwinding;

pub use around::{Around, Cursor};
pub use changes::{begin_in, drop_block, end_in, fill, set_local_in, take_frame};
pub use frames::{add_layers, add_locals, body_begins, depth_in, locals_in, many_locals, place};
pub use landing::{comes_in, land, next_shown, under_goal};
pub use layers::{Comes, Frame, Landing, Next, Open, Saved, Stand};
pub use program::Program;
pub use sought::{
    last_call, last_exit, last_handler, last_try, last_via, many_calls, some_nonblocking,
    some_unwinds,
};
pub use stripped::{numbers_change_nothing, numbers_show_nowhere};
pub use unwinding::{left_by, raise_in, unwind_frames};

/// What is passed on of flat_design.
pub mod flat_design_api {
    pub use sim_model::flat_design_api::{
        BlockId, Code, CodeId, Handler, Local, NameId, Statement, StmtId,
    };
}

/// What is passed on of logic_values.
pub mod logic_values_api {
    pub use sim_model::logic_values_api::{Items, Value};
}

/// What is passed on of sim_model.
pub mod sim_model_api {
    pub use sim_model::{Goal, Via};
}
