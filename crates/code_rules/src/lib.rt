//! Definitions of the code of a model: what code reads back as the bodies of its tree and the threads of its clocks.
//!
//! The room of bodies: how many events a wait can have that a body, or what it calls, begins.
//!
//! Laws of code that differs from other code in the rooms of its bodies alone.
#![tactic(auto)]

mod events;
mod raised;
mod raised_designs;
mod rooms_suffice;
mod tables;

pub use raised::raise_rooms;
pub use raised_designs::{code_stays, fields_stay, raised_designs_are_sound};
pub use rooms_suffice::{blocks_stay, bodies_stay, calls_have_room, waits_have_room};

/// What is passed on of flat_design.
pub mod flat_design_api {
    pub use model_rules::flat_design_api::{
        Binding, LeadsTo, Object, ObjectForm, Objects, ValueType,
    };
}

/// What is passed on of logic_values.
pub mod logic_values_api {
    pub use model_rules::logic_values_api::{Items, Lv, Text, Value, digit, vector_of_digits};
}

/// What is passed on of model_rules.
pub mod model_rules_api {
    pub use model_rules::{Destination, ExpressionType, Meaning, Need, Row, Seen, ValueMember};
}

/// What is passed on of model_tree.
pub mod model_tree_api {
    pub use model_rules::model_tree_api::{BoundRule, CheckStop, Fault, Kind};
}

/// What is passed on of sim_time.
pub mod sim_time_api {
    pub use model_rules::sim_time_api::{Unit, picoseconds_of};
}
