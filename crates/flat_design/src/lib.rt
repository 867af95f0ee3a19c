//! The flat design of a model: its objects, each kind of them by number, what names stand for, and the code of all
//! bodies; and what a run of it answers.
#![tactic(auto)]

mod code;
mod design;
mod faults;
mod names;
mod objects;
mod runs;
mod terms;
mod value_types;

pub use code::{
    Argument, Await, BlockId, BodyKind, ChannelUse, Code, CodeBody, CodeId, Controlled,
    Destination, EventUse, Handler, Local, SpawnForm, Statement, StaticUse, StmtId, Store,
};
pub use design::{
    ChannelId, Denoted, Design, FifoPart, Hop, InstancePart, MemoryPart, PortPart, ProcessPart,
    ResolvedPart, SemaphorePart, SignalPart, VariablePart, Visible, VisibleId,
};
pub use faults::RunFault;
pub use names::{EventMember, Member, NameId, NameUse, PayloadBytes, PayloadField};
pub use objects::{Binding, LeadsTo, Object, ObjectForm, Objects};
pub use runs::{Choices, Line};
pub use terms::Expr;
pub use value_types::{ValueType, default_value};

/// What is passed on of event_core.
pub mod event_core_api {
    pub use event_core::{Effect, Ev, Events, Pending, When, same_event};
}

/// What is passed on of logic_values.
pub mod logic_values_api {
    pub use model_tree::logic_values_api::{
        Digit, Items, Lv, Sign, Text, Value, cut, digit, sub, vector_of_digits,
    };
}

/// What is passed on of model_tree.
pub mod model_tree_api {
    pub use model_tree::{
        BinaryOp, BoundRule, CheckStop, ClockItem, Constant, ConstantForm, Control, End, Event,
        Fault, FunctionItem, InitiatorRole, Interface, Item, Kind, Module, Name, Place, PlainKind,
        PortSize, PrintText, ProcessItem, ProcessKind, SignalItem, SignalKind, SignalType, Span,
        TargetRole, Top, Tree, TypeForm, UnaryOp, VarType, item_line,
    };
}

/// What is passed on of sim_time.
pub mod sim_time_api {
    pub use event_core::sim_time_api::{Resolution, Time, Unit, picoseconds_of};
}
