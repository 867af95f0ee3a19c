//! Definitions of what names stand for at a place of a model, and of the types of its expressions.
//!
//! Definitions of the first broken rule of a model: its constructs in text order, one rule a kind, and the passes.
#![tactic(auto)]

mod ends;
mod laws;
mod meanings;
mod needs;

pub use ends::{EndMeaning, LeftEnd};
pub use laws::{
    blocking_is_least, fault_is_first, first_of_two, names_differ, no_fault_nothing_broken,
    reached_is_least,
};
pub use meanings::{Destination, ExpressionType, Meaning, Row, Seen, ValueMember};
pub use needs::Need;

/// What is passed on of event_core.
pub mod event_core_api {
    pub use flat_design::event_core_api::Ev;
}

/// What is passed on of flat_design.
pub mod flat_design_api {
    pub use flat_design::{
        Await, Binding, BlockId, BodyKind, ChannelId, Code, CodeBody, CodeId, Denoted, Design,
        EventMember, FifoPart, Handler, Hop, InstancePart, LeadsTo, Member, MemoryPart, Object,
        ObjectForm, Objects, PayloadBytes, PayloadField, PortPart, ProcessPart, ResolvedPart,
        SemaphorePart, SignalPart, Statement, StaticUse, StmtId, ValueType, VariablePart, Visible,
        VisibleId, default_value,
    };
}

/// What is passed on of logic_values.
pub mod logic_values_api {
    pub use flat_design::logic_values_api::{
        Digit, Items, Lv, Sign, Text, Value, cut, digit, sub, vector_of_digits,
    };
}

/// What is passed on of model_tree.
pub mod model_tree_api {
    pub use flat_design::model_tree_api::{
        BoundRule, CheckStop, ClockItem, Constant, ConstantForm, End, Event, Fault, FunctionItem,
        InitiatorRole, Interface, Item, Kind, Module, Name, Place, PlainKind, PortSize,
        ProcessItem, ProcessKind, SignalItem, SignalKind, SignalType, Span, TargetRole, Top, Tree,
        TypeForm, VarType, item_line,
    };
}

/// What is passed on of sim_time.
pub mod sim_time_api {
    pub use flat_design::sim_time_api::{Time, Unit, picoseconds_of};
}
