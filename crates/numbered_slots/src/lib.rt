//! Values under numbers that rise by one and are never given twice.
//!
//! A mark for each number below a size, with the marked ones listed, so that who takes them looks at no others.
//!
//! The phases of a scheduler ask so for the channels with an update request and the events with a pending delta notification
//! (IEEE 1666-2011, 4.2.1.3 and 4.2.1.4).
//!
//! Facts about finite maps from numbers, told key by key: lemmas alone, which proofs of other crates cite.
#![tactic(auto)]

mod flags;
mod mark_laws;
mod marks;
mod slots;

pub use mark_laws::{marked_places_are_those_of_the_marks, only_marked_places_rise};
pub use marks::Marks;
pub use slots::Slots;
