//! Tables of the names that a module declares and of what is visible at a place of a model, so that a look-up costs no walk
//! over all names, and the types that declarations give.
#![tactic(auto)]

mod lists;
mod locals;
mod meanings;
mod members;
mod model_names;
mod module_names;
mod name_table;
mod places;
mod types;

pub use locals::{Locals, Visible};
pub use meanings::{item_meaning, item_name};
pub use members::{event_member, has_edges, member_type, row_of, value_member};
pub use model_names::ModelNames;
pub use module_names::ModuleNames;
pub use name_table::NameTable;
pub use places::Place;
pub use types::{
    form_type, hands_on, is_width, plain_meaning, port_meaning, port_size, signal_type, takes_over,
    variable_type,
};

/// What is passed on of event_core.
pub mod event_core_api {
    pub use model_rules::event_core_api::Ev;
}

/// What is passed on of flat_design.
pub mod flat_design_api {
    pub use model_rules::flat_design_api::{
        Binding, ChannelId, Code, CodeId, Denoted, Design, EventMember, FifoPart, Hop,
        InstancePart, LeadsTo, MemoryPart, Object, ObjectForm, Objects, PortPart, ProcessPart,
        ResolvedPart, SemaphorePart, SignalPart, StaticUse, ValueType, VariablePart, Visible,
        VisibleId, default_value,
    };
}

/// What is passed on of logic_values.
pub mod logic_values_api {
    pub use model_rules::logic_values_api::{Digit, Items, Lv, Sign, Text, Value, cut, digit, sub};
}

/// What is passed on of model_rules.
pub mod model_rules_api {
    pub use model_rules::{
        Destination, EndMeaning, ExpressionType, LeftEnd, Meaning, Need, Row, Seen, ValueMember,
        blocking_is_least, reached_is_least,
    };
}

/// What is passed on of model_tree.
pub mod model_tree_api {
    pub use model_rules::model_tree_api::{
        BoundRule, CheckStop, ClockItem, Constant, ConstantForm, End, Event, Fault, InitiatorRole,
        Interface, Item, Kind, Module, Name, Place, PlainKind, PortSize, ProcessItem, ProcessKind,
        SignalItem, SignalKind, SignalType, Span, TargetRole, Top, Tree, VarType, item_line,
    };
}

/// What is passed on of sim_time.
pub mod sim_time_api {
    pub use model_rules::sim_time_api::{Time, Unit, picoseconds_of};
}
