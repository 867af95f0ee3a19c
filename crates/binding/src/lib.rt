//! The bindings of a design: the channels of each port and what each hop joins, or the first fault of a binding.
#![tactic(auto)]

mod binds;
mod ends;
mod fits;
mod forms;
mod judge;
mod kinds;
mod known;
mod leading;
mod links;
mod order;
mod paths;
mod rows;
mod twice;

pub use binds::bind;

/// What is passed on of design_rules.
pub mod design_rules_api {
    pub use design_rules::Bindings;
}
