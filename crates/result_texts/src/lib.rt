//! The text of the traffic of a bus when it is over.
//!
//! What is wrong with input that is refused, and the line that says so.
#![tactic(auto)]

mod bus_lines;
mod bus_refusals;
mod err_lines;
mod kinds;
mod laws;
mod order;
mod refusals;
mod texts;

pub use bus_refusals::bus_refusal_line;
pub use err_lines::{memory_line, refusal_line, write_line};
pub use kinds::kind_word;
pub use laws::one_text;
pub use refusals::{ModelFault, Refusal, ScriptFault};
pub use texts::text_of;
