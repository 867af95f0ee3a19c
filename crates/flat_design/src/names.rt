/// The number of an exception's name, by its spelling over the whole tree.
pub type NameId = u32;

/// What a name of a variable, a channel or a process is in the code of a body.
#[derive(Clone, Copy, Debug, PartialEq, Eq)]
pub enum NameUse {
    /// A parameter or a local variable, by its number in the body: the parameters come first.
    Local(u32),
    /// A name that the module declares, by its place among the names that the module declares, in text order.
    Declared(u32),
}

/// A member that is a value.
#[derive(Clone, Copy, Debug, PartialEq, Eq)]
pub enum Member {
    /// `.changed` of a signal, buffer, resolved signal, clock or a port of one.
    Changed,
    /// `.available` of a fifo or a port of one.
    Available,
    /// `.free` of a fifo or a port of one.
    Free,
    /// `.value` of a semaphore or a port of one.
    Value,
    /// `.valid` of a process.
    Valid,
    /// `.terminated` of a process.
    Terminated,
    /// `.live` of a payload.
    Live,
    /// A field of a payload that is assigned too.
    Field(PayloadField),
    /// `.length` of a payload.
    Length,
    /// `.enable_length` of a payload.
    EnableLength,
    /// `.local` of a quantum keeper.
    Local,
    /// `.next` of a quantum keeper.
    Next,
    /// `.need_sync` of a quantum keeper.
    NeedSync,
}

/// A field of a payload that can be assigned.
#[derive(Clone, Copy, Debug, PartialEq, Eq)]
pub enum PayloadField {
    /// `.command`
    Command,
    /// `.status`
    Status,
    /// `.address`
    Address,
    /// `.width`
    Width,
}

/// The bytes of a payload.
#[derive(Clone, Copy, Debug, PartialEq, Eq)]
pub enum PayloadBytes {
    /// `.data`
    Data,
    /// `.byte_enable`
    ByteEnable,
}

/// Which event of an object.
#[derive(Clone, Copy, Debug, PartialEq, Eq)]
pub enum EventMember {
    /// The event itself, or the value-changed event of a signal, buffer, resolved signal or clock.
    Own,
    /// `.pos`
    Posedge,
    /// `.neg`
    Negedge,
    /// `.data_written` of a fifo.
    DataWritten,
    /// `.data_read` of a fifo.
    DataRead,
    /// `.terminated_event` of a process.
    Terminated,
    /// `.reset_event` of a process.
    Reset,
}
