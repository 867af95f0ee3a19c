//! What the statements of a design use, as far as the rule on the order of processes asks: by the names of a module, and block by
//! block.
//!
//! A rule of five parts on what the processes of a design share, which is to keep their order from showing in its runs, and the
//! search that judges a design by it. That it does keep it is no clause here.
#![tactic(auto)]

mod blocks;
mod checking;
mod laws;
mod notes;
mod roots;
mod spreading;
mod statements;
mod tables;
mod terms;
mod users;
mod uses;
mod verdicts;

pub use blocks::{BlockPart, block_parts};
pub use checking::order_free;
pub use laws::yes_and_no_exclude_each_other;
pub use uses::{Deed, Use};
pub use verdicts::Verdict;
