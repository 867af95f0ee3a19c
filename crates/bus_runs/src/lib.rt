//! What is called and returned on each hop of a router, and that nothing of it breaks a rule of the base protocol.
//!
//! Runs of traffic through a router, and laws of them: what direct access leaves as it is.
#![tactic(auto)]

mod entries;
mod entry_laws;
mod hop_laws;
mod hops;
mod run_laws;
mod runs;
mod texts;
mod traffic_laws;

pub use entries::{BusEntry, BusHop, BusHops};
pub use entry_laws::{each_access_has_its_entries, no_entry_breaks_a_rule, one_list_of_hops};
pub use hop_laws::no_rule_is_broken;
pub use hops::hops_of;
pub use run_laws::{one_run, one_run_text, one_written_text};
pub use runs::{BusRun, run_bus};
pub use texts::{bus_text, traffic_text};
pub use traffic_laws::{
    all_is_routed_without_marks, answers_go_by_the_order, direct_is_as_routed, hops_take_turns,
    none_is_left_without_marks, ok_where_whole, same_text_without_marks,
};

/// What is passed on of result_texts.
pub mod result_texts_api {
    pub use result_texts::bus_refusal_line;
}
