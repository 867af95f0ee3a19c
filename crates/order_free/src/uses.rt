/// What a statement does that the rule on the order of processes asks for, by a name of the module that it stands in. Names are given by
/// their places among those that the module declares.
#[derive(Clone, Copy)]
pub enum Deed {
    /// It acts on others at once, or on what is shared by nature.
    Unfit,
    /// It asks for a member of a process, or for what is available or free in a fifo.
    Watches,
    /// It uses the global quantum or a quantum keeper.
    Quantum,
    /// It uses the variable, the memory or the keeper of this name, if it is one.
    Keeps(u32),
    /// It writes the channel of this name, or the channels of this port.
    Writes(u32),
    /// It reads the fifo of this name, or the fifos of this port.
    Reads(u32),
    /// It notifies the event of this name, at the next delta or after a time.
    Notifies(u32),
    /// It cancels the event of this name.
    Cancels(u32),
}

/// What a process uses in a design, as far as the rule on the order of processes asks. Objects are given by their numbers among
/// those of their kind, as the design has them.
#[derive(Clone, Copy)]
pub enum Use {
    /// What acts at once on others, or is shared by nature: an immediate notification, spawn, stop, a control call, a mutex
    /// or a semaphore, a payload statement, a transport call.
    Unfit,
    /// A member of a process, or what is available or free in a fifo.
    Watches,
    /// The quantum keepers and the global quantum, all together.
    Quantum,
    /// A variable.
    Variable(u32),
    /// A memory.
    Memory(u32),
    /// A write of a signal, a buffer or a clock.
    WritesSignal(u32),
    /// A read of a fifo.
    ReadsFifo(u32),
    /// A write of a fifo.
    WritesFifo(u32),
    /// A delta notification or a timed one of an event.
    Notifies(u32),
    /// A cancellation of an event.
    Cancels(u32),
}
