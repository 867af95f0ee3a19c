//! Texts of lines: their lines, words and comments, and the numbers that words write.
//!
//! The words of a traffic file: names, numbers in their ranges, and bytes; and what an access does.
//!
//! What each line of a traffic file says.
#![tactic(auto)]

mod actions;
mod cuts;
mod forms;
mod lines;
mod text_numbers;
mod traffic_numbers;

pub use actions::{BusAction, Bytes};
pub use cuts::{cut, is_comment, next_word, without_return};
pub use forms::LineForm;
pub use lines::line_form;
pub use text_numbers::{all_hex_digits, decimal_read, line_number, number_read};
pub use traffic_numbers::{action_read, delay_read, name_read, size_read, text_of, time_read};

/// What is passed on of model_tree.
pub mod model_tree_api {
    pub use model_lexer::model_tree_api::{CheckStop, Fault, Kind, ParseStop};
}
