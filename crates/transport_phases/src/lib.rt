//! The base protocol of one hop, from an initiator socket to a target socket (IEEE 1666-2011, 15.2): which call and which return of a transport call comes next.
//!
//! Which histories a hop may have, by the words of each transaction and by what may not overlap, and that this is what
//! the rules of the base protocol ask for.
#![tactic(auto)]

mod hop;
mod lawful;
mod laws;
mod phases;
mod rows;
mod seats;
mod transaction;

pub use hop::Hop;
pub use lawful::{lawful_exactly, states_by_words};
pub use laws::{one_at_a_time, open_calls_have_rows};
pub use phases::{Answer, Path, Phase, Rule};
pub use transaction::{Kept, Open, State};
