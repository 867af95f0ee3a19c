use super::code::CodeId;
use super::value_types::ValueType;
use event_core::sim_time_api::Time;
use model_tree::logic_values_api::{Items, Text, Value};
use model_tree::{BoundRule, ProcessKind, SignalKind};

/// What a port or an export leads to.
#[derive(Clone, Copy, Debug, PartialEq, Eq)]
pub enum LeadsTo {
    /// Signals that are read.
    In(ValueType),
    /// Signals that are written.
    Out(ValueType),
    /// Fifos that are read.
    FifoIn(ValueType),
    /// Fifos that are written.
    FifoOut(ValueType),
    /// Mutexes.
    Mutex,
    /// Semaphores.
    Semaphore,
}

/// What an object of the design was declared as.
#[derive(Clone, Copy)]
pub enum ObjectForm {
    /// An instance of a module, by the module's place in the text.
    Instance {
        /// Which module.
        module: u32,
    },
    /// A signal or a buffer.
    Signal {
        /// Which of the two.
        kind: SignalKind,
        /// Whether more than one process may write it.
        many: bool,
        /// The type of its values.
        value_type: ValueType,
        /// Its first value.
        initial: Value,
    },
    /// A resolved signal.
    Resolved,
    /// A clock.
    Clock {
        /// The time from one posedge to the next.
        period: Time,
        /// How long it is 1.
        high: Time,
        /// When the first posedge comes.
        start: Time,
        /// The body of its thread.
        code: CodeId,
    },
    /// A fifo.
    Fifo {
        /// The type of its values.
        value_type: ValueType,
        /// How many values it holds.
        size: u32,
    },
    /// A mutex.
    Mutex,
    /// An event.
    Event,
    /// A quantum keeper.
    Keeper,
    /// A semaphore.
    Semaphore {
        /// Its first value.
        start: u64,
    },
    /// A memory.
    Memory {
        /// Its number of bytes.
        size: u64,
    },
    /// A variable of a module.
    Variable {
        /// The type of its values.
        value_type: ValueType,
        /// Its first value.
        initial: Value,
    },
    /// A port.
    Port {
        /// What it leads to.
        leads_to: LeadsTo,
        /// The greatest number of its channels.
        size: u64,
        /// How many have to be bound.
        rule: BoundRule,
    },
    /// An export.
    Export {
        /// What it leads to.
        leads_to: LeadsTo,
    },
    /// An initiator socket.
    Initiator {
        /// Whether it hands calls on to another socket.
        pass: bool,
        /// The handler of the backward path.
        backward: Option<CodeId>,
    },
    /// A target socket.
    Target {
        /// Whether it hands calls on to another socket.
        pass: bool,
        /// The handler of blocking calls.
        blocking: Option<CodeId>,
        /// The handler of the forward path.
        forward: Option<CodeId>,
    },
    /// A thread or a method.
    Process {
        /// Which of the two.
        kind: ProcessKind,
        /// Its body.
        code: CodeId,
        /// Whether initialization leaves it out.
        dont_initialize: bool,
    },
}

/// An object of the design.
#[derive(Drop)]
pub struct Object {
    /// Its own name.
    pub name: Text,
    /// The line of its item; for the top instance that of `top`.
    pub line: u32,
    /// The number, among the objects, of the instance that it is in; the top instance is in itself.
    pub parent: u32,
    /// What it was declared as.
    pub form: ObjectForm,
}

/// A binding, between objects by their numbers among the objects.
#[derive(Clone, Copy, Debug, PartialEq, Eq)]
pub struct Binding {
    /// The line of its item.
    pub line: u32,
    /// The instance that it is in.
    pub instance: u32,
    /// The port, export or socket that is bound.
    pub left: u32,
    /// What it is bound to.
    pub right: u32,
}

/// The objects of a design in object order, numbered from 0, and its bindings in that order.
#[derive(Drop)]
pub struct Objects {
    /// The top instance, and then each item at its place, that of an instance followed by its own items.
    pub list: Items<Object>,
    /// The bindings of each instance in text order.
    pub binds: Items<Binding>,
}
