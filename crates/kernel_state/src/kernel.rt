//! The kernel: the parts that keep a configuration.
use kernel_channels::ChannelBoard;
use kernel_channels::kernel_events_api::EventBoard;
use kernel_processes::event_core_api::Ev;
use kernel_processes::flat_design_api::{CodeId, Design};
use kernel_processes::instance_table_api::ProcessKind;
use kernel_processes::logic_values_api::{Bytes, Items, Value};
use kernel_processes::sim_model_api::Phase;
use kernel_processes::sim_time_api::Time;
use kernel_processes::{Schedule, Trigger};
use kernel_transactions::TransactionBoard;
use process_bodies::Body;
use process_bodies::kernel_bodies_api::Program;

/// What the path of an instance is made of.
#[derive(Clone, Copy, Debug, PartialEq, Eq)]
pub enum PathOf {
    /// It is that of an object, by its number.
    Object(u32),
    /// It is made of the path of the instance of a module, the name of the body and this serial.
    Spawned(u32),
}

/// What is kept of an instance beside its waits and marks.
#[derive(Drop)]
pub struct Kept {
    /// The number, among the instances of modules, of the one that it is in.
    pub home: u32,
    /// Its path.
    pub path: PathOf,
    /// Its body: the code, the first arguments and what is left.
    pub body: Body,
    /// How it waits after its return, where a next trigger was set (IEEE 1666-2011, 5.2.17).
    pub trigger: Option<Trigger>,
}

/// Where a run stands in the scheduler's cycle (IEEE 1666-2011, 4.2.1).
#[derive(Clone, Copy)]
pub struct Cycle {
    /// The phase that comes next.
    pub phase: Phase,
    /// Whether a run has begun.
    pub begun: bool,
    /// The simulated time.
    pub now: Time,
    /// When the run ends, where it has an end.
    pub end: Option<Time>,
    /// Whether the model asked to stop since the run began.
    pub stop_asked: bool,
    /// Whether the session is stopped.
    pub stopped: bool,
}

/// The parts that keep a configuration, but for the script and what was seen of the run.
#[derive(Drop)]
pub struct Kernel<'d> {
    /// The design; its code is in `program`.
    pub design: Design,
    /// The code of the design, which is read while the kernel is changed.
    pub program: &'d Program,
    /// Where the run stands.
    pub cycle: Cycle,
    /// The processes.
    pub schedule: Schedule<Kept>,
    /// Which instance spawned each, also one that has ended, by serial; none where it is a process of the design.
    pub parents: Vec<Option<u32>>,
    /// What is pending for each event of the design's objects.
    pub events: EventBoard,
    /// The channels.
    pub channels: ChannelBoard,
    /// The payloads, what is open on each hop, and the quantum keepers.
    pub transactions: TransactionBoard,
    /// The variables of instances of modules.
    pub variables: Vec<Value>,
    /// The bytes of memories.
    pub memories: Vec<Bytes>,
    /// How often an instance was spawned, a payload made or one held once more: serials, the numbers of payloads and the counts
    /// of their holders are within it.
    pub made: u32,
}

/// What a spawned instance is made of.
#[derive(Drop)]
pub struct Offspring {
    /// Whether it is a thread or a method.
    pub kind: ProcessKind,
    /// The number, among the instances of modules, of the one that it is in.
    pub home: u32,
    /// The number of its body.
    pub code: CodeId,
    /// Its first arguments.
    pub arguments: Vec<Value>,
    /// Its static sensitivity.
    pub sensitive: Items<Ev>,
    /// Whether it waits for that, and is not runnable at once.
    pub waits: bool,
}
