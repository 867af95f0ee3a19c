//! Laws over the objects of a model: what bindings ask of the objects that a model without a fault gives.
//!
//! Laws over the objects of a model that breaks no rule: each instance has those of its module's items.
//!
//! Laws over the objects of models that break no rule: their bindings have forms, and so they are formed.
//!
//! Laws of hops: where no binding has a fault, each socket without `pass` is an end of one.
//!
//! Laws on the paths of the objects that names stand for, as functions that do nothing and whose clauses are the laws.
//!
//! Laws over the parts of a design that is a model's: what they say of each other, whatever rule the model breaks.
//!
//! Laws over what names stand for in a design that is a model's.
//!
//! Laws over the design of a model that breaks no rule: what a sound design has of its objects and its parts.
//!
//! Numbers that the design of an accepted model keeps within: how many processes and events it has, and from where its
//! semaphores start. The functions do nothing, and their clauses are the laws.
//!
//! Laws of the designs of accepted models: what their sockets, their names and their handlers stand for.
//!
//! Laws of the designs of accepted models: their ports, processes and hops are what sound designs ask.
//!
//! Law: designs of accepted models are sound.
#![tactic(auto)]

mod accepted_models;
mod binding_forms;
mod first_values;
mod fitting_fields;
mod formed_bindings;
mod formed_objects;
mod hops;
mod limits;
mod numbered_parts;
mod paths;
mod sound_designs;
mod standing_names;

pub use accepted_models::{handlers_are_functions, names_stand, sockets_are_ends_of_hops};
pub use binding_forms::{bindings_have_forms, models_are_formed};
pub use first_values::{fifos_have_room, first_values_have_their_types, objects_are_inside};
pub use fitting_fields::{hops_fit, ports_fit, processes_fit};
pub use formed_bindings::{
    bound_models_are_formed, no_instance_is_left_out, objects_are_few, objects_are_those_declared,
    sizes_are_in_range,
};
pub use formed_objects::objects_are_those_of_items;
pub use hops::{initiators_begin_hops, targets_end_hops};
pub use limits::{designs_are_few, semaphores_start_low};
pub use numbered_parts::{channels_have_their_events, names_stand_for_what_is_there};
pub use paths::{names_denote_the_objects_of_their_paths, names_have_the_paths_of_their_instances};
pub use sound_designs::accepted_designs_are_sound;
pub use standing_names::names_stand_for_what_they_are_declared_as;
