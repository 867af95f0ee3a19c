use instance_table::{Deadline, Table};
use ready_set::ReadySet;
use sim_model::logic_values_api::Items;
use timed_queue::TimedQueue;
use wait_lists::WaitLists;
use wait_lists::event_core_api::Ev;

/// Which events an instance waits for.
#[derive(Drop)]
pub enum Wait {
    /// Any of its static sensitivity (IEEE 1666-2011, 5.2.14).
    Static,
    /// Any of these (IEEE 1666-2011, 5.2.18); with none, no event ends the wait.
    Any(Items<Ev>),
    /// All of these (IEEE 1666-2011, 5.8).
    All(Items<Ev>),
}

/// How an instance waits: for which events, and until when.
#[derive(Drop)]
pub struct Trigger {
    /// The events.
    pub wait: Wait,
    /// When the wait ends by time.
    pub deadline: Deadline,
}

/// What is kept of a process beside its marks: its static sensitivity, and what the caller keeps for it.
#[derive(Drop)]
pub struct Process<B> {
    /// The events that it waits for where it waits for no others (IEEE 1666-2011, 5.2.14).
    pub sensitive: Items<Ev>,
    /// What the caller keeps.
    pub body: B,
}

/// The processes of a run by their serials: who waits for what and until when, who is runnable, and who is active
/// (IEEE 1666-2011, 4.2.1).
#[derive(Drop)]
pub struct Schedule<B> {
    /// The live instances.
    pub table: Table<Process<B>>,
    /// Who waits for which event.
    pub lists: WaitLists,
    /// When waits end by time.
    pub deadlines: TimedQueue,
    /// The waits that end in the next delta notification phase.
    pub zero: ReadySet,
    /// The runnable instances.
    pub ready: ReadySet,
    /// The active instances, the top last.
    pub stack: Vec<u32>,
    /// Room for those that an event wakes.
    pub woken: Vec<u32>,
    /// Those whose time is over, and who have not met their wakes yet.
    pub due: Vec<u32>,
}
