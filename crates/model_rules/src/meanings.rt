use flat_design::{Member, PayloadBytes, PayloadField, ValueType};

/// What a declared name stands for, as far as the rules ask. A type is none where its declaration has a width out of
/// range; the number of a port is its size.
#[derive(Clone, Copy)]
pub enum Meaning {
    /// A signal or a buffer.
    Signal(Option<ValueType>),
    /// A resolved signal.
    Resolved,
    /// A clock.
    Clock,
    /// A fifo.
    Fifo(Option<ValueType>),
    /// A mutex.
    Mutex,
    /// An event.
    Event,
    /// A quantum keeper.
    Keeper,
    /// A semaphore.
    Semaphore,
    /// A memory.
    Memory,
    /// A variable of the module, a local variable or a parameter.
    Variable(Option<ValueType>),
    /// A port of signals that are read.
    In(Option<ValueType>, u64),
    /// A port of signals that are written.
    Out(Option<ValueType>, u64),
    /// A port of fifos that are read.
    FifoIn(Option<ValueType>, u64),
    /// A port of fifos that are written.
    FifoOut(Option<ValueType>, u64),
    /// A port of mutexes.
    MutexPort(u64),
    /// A port of semaphores.
    SemaphorePort(u64),
    /// An export.
    Export,
    /// An initiator socket, and whether it hands calls on.
    Initiator(bool),
    /// A target socket, and whether it hands calls on.
    Target(bool),
    /// An instance of a module.
    Instance,
    /// A function.
    Function,
    /// A process.
    Process,
}

/// The type of an expression. An integer has 64 bits in it; numbers that are written out are free to take the sign
/// of the other operand.
#[derive(Clone, Copy, Debug, PartialEq, Eq)]
pub enum ExpressionType {
    /// An integer without a sign of its own.
    Free,
    /// An integer with a sign.
    Signed,
    /// An integer without a sign.
    Unsigned,
    /// A truth value.
    Bool,
    /// A logic digit.
    Logic,
    /// A vector of so many digits.
    Vector(u8),
    /// A time.
    Time,
    /// A handle of a process.
    Process,
    /// A handle of a payload.
    Payload,
}

/// A row of the table of members: a kind of object that has some. That of signals has their type, none where it is not
/// known.
#[derive(Clone, Copy)]
pub enum Row {
    /// Signals, buffers, resolved signals, clocks, and ports of these.
    Signals(Option<ValueType>),
    /// Fifos and ports of these.
    Fifos,
    /// Semaphores and ports of these.
    Semaphores,
    /// Processes, and variables that hold the handle of one.
    Processes,
    /// Variables that hold the handle of a payload.
    Payloads,
    /// Quantum keepers.
    Keepers,
}

/// A member that is a value, or bytes that are reached by an index.
#[derive(Clone, Copy)]
pub enum ValueMember {
    /// A value.
    One(Member),
    /// Bytes.
    Many(PayloadBytes),
}

/// What an expression stands for.
#[derive(Clone, Copy)]
pub enum Seen {
    /// Nothing: a part of it breaks a rule of its own.
    Nothing,
    /// An object, or a port's channel.
    Object(Meaning),
    /// The bytes of a payload.
    Bytes(PayloadBytes),
    /// A value.
    Value(ExpressionType),
}

/// What gets an assigned value.
#[derive(Clone, Copy)]
pub enum Destination {
    /// Nothing: the target breaks a rule on its names.
    Nowhere,
    /// A variable.
    Variable(Option<ValueType>),
    /// A field of a payload.
    Field(PayloadField),
    /// A byte of a payload.
    Byte(PayloadBytes),
    /// A byte of a memory.
    Element,
}
