//! Definitions of the objects of a model: each item of each instance in object order, the bindings between them, and the
//! first fault of the instances.
//!
//! Definitions of bindings: which ends fit, where paths of bindings lead, and the first fault of the objects of a design.
//!
//! Definitions of the design of a model: its objects by kind, what names stand for in each instance, static sensitivities,
//! ports with their channels, and hops.
#![tactic(auto)]

mod binding_laws;
mod bindings;
mod counts;
mod made;
mod object_laws;
mod worked;
mod worked_bindings;
mod worked_objects;

pub use binding_laws::{
    channels_are_reached, ends_follow_bindings, leaders_follow_bindings, leaders_reach_sockets,
    targets_are_reached,
};
pub use bindings::{Bindings, BoundPort, Joined};
pub use counts::Counts;
pub use made::Made;
pub use object_laws::modules_are_had_by_a_path;
pub use worked::{
    a_design_is_that_of_its_tree, kinds_are_numbered_apart, ports_stand_for_their_channels,
    sockets_are_ends_of_hops,
};
pub use worked_bindings::{
    bindings_are_judged_first, bound_rules_of_a_port, channels_of_a_port, exports_in_a_row,
    initiators_and_targets, kinds_of_ends, other_channels_fit_by_word, signals_fit_by_type,
    sockets_that_pass, three_bindings_in_order, two_exports_of_a_child,
};
pub use worked_objects::{
    children_stand_at_their_place, first_values_fit_their_types, memories_are_counted_together,
    modules_are_not_among_their_instances,
};

/// What is passed on of flat_design.
pub mod flat_design_api {
    pub use code_rules::flat_design_api::{
        Binding, LeadsTo, Object, ObjectForm, Objects, ValueType,
    };
}

/// What is passed on of logic_values.
pub mod logic_values_api {
    pub use code_rules::logic_values_api::{Items, Text};
}

/// What is passed on of model_tree.
pub mod model_tree_api {
    pub use code_rules::model_tree_api::{BoundRule, CheckStop, Fault, Kind};
}
