/// What a construct needs a name to stand for.
#[derive(Clone, Copy)]
pub enum Need {
    /// A value that is read.
    Readable,
    /// An object whose member is used.
    Object,
    /// A memory, or a value with digits, before an index.
    Indexed,
    /// A signal or a fifo that is written.
    Written,
    /// A fifo that is written.
    Put,
    /// A fifo that is read.
    Taken,
    /// A mutex.
    Mutex,
    /// A semaphore.
    Semaphore,
    /// An event, or what has a value-changed event.
    Event,
    /// The same in a static sensitivity.
    StaticEvent,
    /// An object whose member is used in a static sensitivity: no variable.
    StaticObject,
    /// An event alone.
    PlainEvent,
    /// A variable.
    Variable,
    /// A variable of a payload.
    Payload,
    /// A process, or a variable of one.
    Process,
    /// A function.
    Function,
    /// A quantum keeper.
    Keeper,
    /// A memory.
    Memory,
    /// A socket.
    Socket,
    /// An initiator socket.
    Initiator,
}
