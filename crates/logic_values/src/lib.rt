//! Values in order, in memory of their own: the one list type behind texts, bytes, lines and choices.
//!
//! Four-valued logic, vectors of it, integers, and the values of a model.
#![tactic(auto)]

mod byte_text;
mod conversions;
mod equality;
mod integers;
mod kinds;
mod laws;
mod lists;
mod planes;
mod tables;
mod texts;
mod vectors;

pub use byte_text::Text;
pub use equality::is_same;
pub use integers::{add, cut, div, lt, mul, rem, shl, shr, sub};
pub use kinds::{Digit, Sign, Value};
pub use laws::same_values_are_equal;
pub use lists::{Bytes, Items};
pub use planes::Lv;
pub use tables::resolve;
pub use texts::value_text;
pub use vectors::{and, concat, digit, not, or, slice, vector_of_digits, xor};
