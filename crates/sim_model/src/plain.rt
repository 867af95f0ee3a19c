use flat_design::{Choices, RunFault};
use quantum_keeper::sim_time_api::Time;
use signal_channel::logic_values_api::Value;

/// Where a run stands in the scheduler's cycle (IEEE 1666-2011, 4.2.1).
#[derive(Clone, Copy, Debug, PartialEq, Eq)]
pub enum Phase {
    /// Between commands of the script.
    Idle,
    /// Before initialization.
    Start,
    /// Evaluation, whose end is the update phase.
    Evaluate,
    /// Before the delta notification phase.
    Notify,
    /// Before the timed notification phase.
    Timed,
}

/// A command of the script over a design. Objects are numbered by their places among those that have values to be seen.
#[derive(Clone, Copy)]
pub enum Command {
    /// Run for this time, or to the end of all that is pending.
    Run(Option<Time>),
    /// Ask for an update of a signal or a buffer with a value.
    Set(u32, Value),
    /// Report the value of an object.
    Show(u32),
}

/// What an unwinding ends in.
#[derive(Clone, Copy, Debug, PartialEq, Eq)]
pub enum Goal {
    /// The instance ends.
    End,
    /// Its body starts again.
    Restart,
    /// It goes on in the handler of an exception that it threw.
    Thrown,
    /// It goes on in the handler of an exception that another instance threw at it.
    Injected,
}

/// A transport call: its hop, whether it goes forward, whether it blocks, and its payload.
#[derive(Clone, Copy, Debug, PartialEq, Eq)]
pub struct Via {
    /// The hop, by its number.
    pub hop: u32,
    /// Whether it goes from the initiator to the target.
    pub forward: bool,
    /// Whether it is a blocking call.
    pub blocking: bool,
    /// The payload, by its number.
    pub payload: u32,
}

/// Which of the runnable processes is taken next.
#[derive(Drop)]
pub enum Rule {
    /// The least serial.
    First,
    /// The greatest serial.
    Last,
    /// The one that the next word of a generator points at, which is made by this seed.
    Seed(u64),
    /// These, one after another.
    Replay(Choices),
}

/// What a report tells of a run.
#[derive(Clone, Copy, Debug, PartialEq, Eq)]
pub enum Log {
    /// What the model prints and the script shows.
    Prints,
    /// That, and each taking of a process.
    Turns,
}

/// How a session ended.
#[derive(Clone, Copy)]
pub enum Stop {
    /// The script was carried out.
    Done,
    /// The model stopped it.
    Stopped,
    /// As many steps were made as the budget allows.
    Budget,
    /// A listed choice is missing or not runnable.
    Replay {
        /// Which, counted from 1.
        place: u64,
    },
    /// The next step is a run fault.
    Fault(RunFault),
    /// A write failed before a text was whole.
    WriteFault,
    /// Memory was refused.
    NoMemory,
}
