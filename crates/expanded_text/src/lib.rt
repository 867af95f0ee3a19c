//! Clocked threads as trees: the form of such a thread, and of the ticks in its block.
//!
//! The text that a text with clocked threads becomes.
#![tactic(auto)]

mod becoming;
mod form_laws;
mod pages;
mod text_laws;

pub use becoming::expand_text;
pub use form_laws::one_form;
pub use text_laws::{none_as_it_stands, one_reading};
