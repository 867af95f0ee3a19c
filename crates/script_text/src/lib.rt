//! Scripts over a design, and lists of choices: what their texts say, and what a script's commands name in a design.
#![tactic(auto)]

mod choices;
mod forms;
mod naming;
mod paths;
mod reading;
mod values;

pub use choices::choice_list;
pub use forms::{CommandForm, TextCommand};
pub use naming::{Script, name_all};
pub use reading::{COMMAND_LIMIT, Commands, commands};
