//! Laws over the rules of a model: what is so of a model that breaks none.
//!
//! Laws over the code of a model that breaks no rule: that it is there.
//!
//! Laws over the code of expressions of a model: that it is typed.
//!
//! Laws over the code of statements that hold no others: that it is typed.
//!
//! Laws over the code of a model that breaks no rule: that it is typed.
//!
//! Laws over the code of a model that breaks no rule: what bodies reach.
#![tactic(auto)]

mod codes;
mod reached_bodies;
mod rules;
mod standing_statements;
mod standing_terms;
mod typed_bodies;

pub use codes::{models_have_code, statements_have_code, types_are_known};
pub use reached_bodies::{
    handlers_do_not_block, methods_do_not_block, threads_set_no_trigger, unwinding_is_plain,
};
pub use rules::{
    expressions_have_types, first_fault_is_first, typed_expressions_have_code, uses_are_met,
};
pub use standing_statements::statements_are_typed;
pub use standing_terms::terms_are_typed;
pub use typed_bodies::code_is_typed;
