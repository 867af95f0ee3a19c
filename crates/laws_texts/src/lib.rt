//! That the printed text of a tree reads as the same tree but for line numbers.
//!
//! Laws of the sites of a tree, at which first faults are judged: each production has one, and their lines never fall.
//!
//! Laws of the tree of ticks: of that of a tree of language 1, and of its literals that are no time.
#![tactic(auto)]

mod print_laws;
mod site_laws;
mod tick_laws;

pub use print_laws::{
    lines_are_not_printed, print_is_bounded, print_is_short, print_of_a_tree_reads_back,
    print_prints_again, print_reads_back,
};
pub use site_laws::{lines_never_fall, sites_are_productions};
pub use tick_laws::{language_1_has_its_times, late_literals_are_unfit_times};
