use super::code::{Code, CodeId};
use super::objects::{LeadsTo, Objects};
use super::value_types::ValueType;
use event_core::Ev;
use event_core::sim_time_api::Resolution;
use model_tree::logic_values_api::{Items, Text, Value};
use model_tree::{ProcessKind, SignalKind};

/// A channel, by its number among the channels of its kind in object order, and its first event.
#[derive(Clone, Copy, Debug, PartialEq, Eq)]
pub enum ChannelId {
    /// A signal, a buffer or a clock. Its events are value changed, a change to 1, and a change to 0.
    Signal {
        /// Its number among the signals, buffers and clocks.
        number: u32,
        /// Its first event.
        events: u32,
    },
    /// A resolved signal, with the same events.
    Resolved {
        /// Its number among the resolved signals.
        number: u32,
        /// Its first event.
        events: u32,
    },
    /// A fifo. Its events are data written and data read.
    Fifo {
        /// Its number among the fifos.
        number: u32,
        /// Its first event.
        events: u32,
    },
    /// A mutex. Its event is that it was unlocked.
    Mutex {
        /// Its number among the mutexes.
        number: u32,
        /// Its event.
        events: u32,
    },
    /// A semaphore. Its event is that it was given to.
    Semaphore {
        /// Its number among the semaphores.
        number: u32,
        /// Its event.
        events: u32,
    },
}

/// What a name that a module declares stands for in an instance of it: each kind of object is numbered by its own place
/// in object order.
#[derive(Clone, Copy, Debug, PartialEq, Eq)]
pub enum Denoted {
    /// Nothing that a body can use: an instance, a function, an export, or a socket that hands calls on.
    Nothing,
    /// A channel.
    Channel(ChannelId),
    /// An event.
    Event(u32),
    /// A quantum keeper, by its number among the keepers.
    Keeper(u32),
    /// A memory, by its number among the memories.
    Memory(u32),
    /// A variable, by its number among the variables.
    Variable(u32),
    /// A port, by its number among the ports.
    Port(u32),
    /// A process, by its serial.
    Process(u32),
    /// A socket that is an end of a hop.
    Socket {
        /// The hop's number.
        hop: u32,
        /// Whether its calls go forward: it is the hop's initiator.
        forward: bool,
    },
}

/// An instance of a module. Instances are numbered from 0 in object order.
#[derive(Drop)]
pub struct InstancePart {
    /// Its number among the objects.
    pub object: u32,
    /// The place of its module in the text.
    pub module_place: u32,
    /// What each name that the module declares stands for here, by the name's place in the module.
    pub names: Items<Denoted>,
}

/// A signal, a buffer or a clock.
#[derive(Clone, Copy)]
pub struct SignalPart {
    /// Its number among the objects.
    pub object: u32,
    /// Whether it is a buffer.
    pub kind: SignalKind,
    /// Whether more than one process may write it.
    pub many: bool,
    /// The type of its values.
    pub value_type: ValueType,
    /// Its first value.
    pub initial: Value,
    /// Its first event.
    pub events: u32,
}

/// A resolved signal.
#[derive(Clone, Copy, Debug, PartialEq, Eq)]
pub struct ResolvedPart {
    /// Its number among the objects.
    pub object: u32,
    /// Its first event.
    pub events: u32,
}

/// A fifo.
#[derive(Clone, Copy, Debug, PartialEq, Eq)]
pub struct FifoPart {
    /// Its number among the objects.
    pub object: u32,
    /// The type of its values.
    pub value_type: ValueType,
    /// How many values it holds.
    pub size: u32,
    /// Its first event.
    pub events: u32,
}

/// A semaphore.
#[derive(Clone, Copy, Debug, PartialEq, Eq)]
pub struct SemaphorePart {
    /// Its number among the objects.
    pub object: u32,
    /// Its first value.
    pub start: u64,
}

/// A memory.
#[derive(Clone, Copy, Debug, PartialEq, Eq)]
pub struct MemoryPart {
    /// Its number among the objects.
    pub object: u32,
    /// Its number of bytes.
    pub size: u64,
}

/// A variable of an instance of a module.
#[derive(Clone, Copy)]
pub struct VariablePart {
    /// Its number among the objects.
    pub object: u32,
    /// The type of its values.
    pub value_type: ValueType,
    /// Its first value.
    pub initial: Value,
}

/// A port.
#[derive(Drop)]
pub struct PortPart {
    /// Its number among the objects.
    pub object: u32,
    /// What it leads to.
    pub leads_to: LeadsTo,
    /// Its channels, in the order of its bindings.
    pub channels: Items<ChannelId>,
}

/// A process of the design, or the thread of a clock. Processes are numbered from 0 in object order: these are their
/// serials.
#[derive(Drop)]
pub struct ProcessPart {
    /// Its number among the objects.
    pub object: u32,
    /// Which kind of process it is.
    pub kind: ProcessKind,
    /// The number, among the instances of modules, of the one that it is in.
    pub home: u32,
    /// Its body.
    pub code: CodeId,
    /// Its static sensitivity.
    pub sensitive: Items<Ev>,
    /// Whether initialization leaves it out.
    pub dont_initialize: bool,
}

/// A hop: an initiator socket with the target socket to which it leads.
#[derive(Clone, Copy, Debug, PartialEq, Eq)]
pub struct Hop {
    /// The initiator socket, by its number among the objects.
    pub initiator: u32,
    /// The target socket, by its number among the objects.
    pub target: u32,
    /// The number, among the instances of modules, of the one that the initiator is in.
    pub initiator_home: u32,
    /// The number, among the instances of modules, of the one that the target is in.
    pub target_home: u32,
    /// The initiator's handler of the backward path.
    pub backward: Option<CodeId>,
    /// The target's handler of blocking calls.
    pub blocking: Option<CodeId>,
    /// The target's handler of the forward path.
    pub forward: Option<CodeId>,
}

/// An object that has values to be seen: a signal, buffer or clock, or a resolved signal, by its number among these.
#[derive(Clone, Copy, Debug, PartialEq, Eq)]
pub enum VisibleId {
    /// A signal, a buffer or a clock.
    Signal(u32),
    /// A resolved signal.
    Resolved(u32),
}

/// An object that has values to be seen.
#[derive(Clone, Copy, Debug, PartialEq, Eq)]
pub struct Visible {
    /// Its number among the objects.
    pub object: u32,
    /// What it is.
    pub id: VisibleId,
}

/// A design that can be run: the objects as they were declared, and each kind of them in object order, numbered from 0.
#[derive(Drop)]
pub struct Design {
    /// The resolution of its times.
    pub resolution: Resolution,
    /// Its objects, with their names and places.
    pub objects: Objects,
    /// The instances of modules.
    pub instances: Items<InstancePart>,
    /// The signals, buffers and clocks.
    pub signals: Items<SignalPart>,
    /// The resolved signals.
    pub resolved: Items<ResolvedPart>,
    /// The fifos.
    pub fifos: Items<FifoPart>,
    /// How many mutexes there are.
    pub mutexes: u32,
    /// The semaphores.
    pub semaphores: Items<SemaphorePart>,
    /// How many quantum keepers there are.
    pub keepers: u32,
    /// The memories.
    pub memories: Items<MemoryPart>,
    /// The variables of instances of modules.
    pub variables: Items<VariablePart>,
    /// The ports.
    pub ports: Items<PortPart>,
    /// The processes, by their serials.
    pub processes: Items<ProcessPart>,
    /// The hops.
    pub hops: Items<Hop>,
    /// How many events the objects have: they are numbered from 0.
    pub events: u32,
    /// The objects that have values to be seen, in object order: scripts and traces number them by their places here.
    pub visible: Items<Visible>,
    /// The names of exceptions, by their numbers.
    pub exceptions: Items<Text>,
    /// The bodies.
    pub code: Code,
}
