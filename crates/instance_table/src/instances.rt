//! What is kept of an instance.
ghost use Rattle.std.specs.Prelude.{◌≡◌};
ghost use Rattle.instance_table.specs.Instances.{new_instance};

/// Whether a process goes on where it waited, or runs from its start at each turn (IEEE 1666-2011, 5.2.10 and 5.2.11).
#[derive(Clone, Copy, PartialEq, Eq, Debug)]
pub enum ProcessKind {
    /// It goes on where it waited.
    Thread,
    /// It runs from its start at each turn.
    Method,
}

/// In which way an instance waits. The events of a list are kept elsewhere.
#[derive(Clone, Copy, PartialEq, Eq, Debug)]
pub enum Waiting {
    /// It waits for no event.
    None,
    /// It waits for any event of its static list.
    Static,
    /// It waits for any of a list of events.
    Any,
    /// It waits for all of a list of events.
    All,
}

/// When a wait is over whatever happens.
#[derive(Clone, Copy, PartialEq, Eq, Debug)]
pub enum Deadline {
    /// It has no deadline.
    None,
    /// In the next delta cycle.
    Delta,
    /// At this time.
    At(u64),
}

/// One process of the model, with the body that the caller keeps for it.
#[derive(Drop)]
pub struct Instance<B> {
    pub kind: ProcessKind,
    /// What the caller keeps for it.
    pub body: B,
    /// In which way it waits.
    pub wait: Waiting,
    /// When its wait is over at the latest.
    pub deadline: Deadline,
    /// It is suspended: it does not run until it is resumed.
    pub suspended: bool,
    /// It was woken while it was suspended, and runs once it is resumed.
    pub kept: bool,
    /// It is disabled: events do not wake it.
    pub disabled: bool,
    /// Its body has begun to run.
    pub started: bool,
    /// Its unwind blocks are being run.
    pub unwinding: bool,
}

impl<B> Instance<B> {
    /// An instance that has not started, waits for nothing and has no mark.
    pub fn new(kind: ProcessKind, body: B) -> Instance<B>
        ensures { result ≡ new_instance kind body }
    {
        Instance {
            kind,
            body,
            wait: Waiting::None,
            deadline: Deadline::None,
            suspended: false,
            kept: false,
            disabled: false,
            started: false,
            unwinding: false,
        }
    }
}
