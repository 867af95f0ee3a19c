//! Names in order, and the place of each, found in the same time however many there are.
//!
//! Modules that have themselves among their instances.
//!
//! The objects that each module gives its instances, made once for all of them.
//!
//! The objects of a model in object order.
#![tactic(auto)]

mod cycles;
mod forms;
mod found;
mod frames;
mod limits;
mod list;
mod made;
mod modules;
mod names;
mod row_names;
mod rows;
mod settled;
mod turns;
mod values;
mod walks;

pub use cycles::judge_cycles;
pub use list::list_objects;
pub use modules::ModulePlaces;
pub use names::NamePlaces;
pub use rows::{ObjectRow, rows_of};

/// What is passed on of check_names.
pub mod check_names_api {
    pub use check_names::{ModuleNames, NameTable, event_member, item_name, row_of};
}

/// What is passed on of design_rules.
pub mod design_rules_api {
    pub use design_rules::{Bindings, BoundPort, Counts, Joined};
}

/// What is passed on of event_core.
pub mod event_core_api {
    pub use check_names::event_core_api::Ev;
}

/// What is passed on of flat_design.
pub mod flat_design_api {
    pub use check_names::flat_design_api::{
        Binding, ChannelId, Code, CodeId, Denoted, Design, EventMember, FifoPart, Hop,
        InstancePart, MemoryPart, Object, ObjectForm, Objects, PortPart, ProcessPart, ResolvedPart,
        SemaphorePart, SignalPart, StaticUse, ValueType, VariablePart, Visible, VisibleId,
    };
}

/// What is passed on of logic_values.
pub mod logic_values_api {
    pub use check_names::logic_values_api::{Items, Text, Value};
}

/// What is passed on of model_tree.
pub mod model_tree_api {
    pub use check_names::model_tree_api::{
        End, Event, Item, Module, Name, Place, ProcessKind, SignalKind, Top, Tree,
    };
}
