//! Clocked threads: the tokens of a text with them, and those of the language without them that they become.
#![tactic(auto)]

mod expanding;
mod expansion;
mod laws;
mod putting;
mod signs;
mod states;
mod turns;
mod words;

pub use expanding::expand;
pub use expansion::{Expansion, Placed, Written};
pub use laws::one_expansion;
pub use words::{NEW_WORDS, NewWord, new_word_of, new_word_text};
