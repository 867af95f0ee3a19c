use super::names::{EventMember, NameId, NameUse, PayloadBytes, PayloadField};
use super::terms::Expr;
use super::value_types::ValueType;
use model_tree::logic_values_api::{Items, Text};
use model_tree::{Control, PrintText, ProcessKind};

/// The number of the body of a function, a process or a clock.
pub type CodeId = u32;

/// The number of a block of the code.
pub type BlockId = u32;

/// The number of a statement of the code.
pub type StmtId = u32;

/// A channel that the module declares, or a port's channel at a place.
#[derive(Drop)]
pub struct ChannelUse {
    /// The place of the channel's or the port's name among those that the module declares.
    pub name: u32,
    /// The place of the port's channel, where one is written.
    pub place: Option<Expr>,
}

/// An event that a statement names.
#[derive(Drop)]
pub struct EventUse {
    /// The event, the channel, the port or the process.
    pub name: NameUse,
    /// The place of a port's channel, where one is written.
    pub place: Option<Expr>,
    /// Which event of it.
    pub event: EventMember,
}

/// An event of a static sensitivity. A port without a place stands for all its channels.
#[derive(Clone, Copy, Debug, PartialEq, Eq)]
pub struct StaticUse {
    /// The place of the name among those that the module declares.
    pub name: u32,
    /// The place of a port's channel, where one is written.
    pub place: Option<u64>,
    /// Which event of it.
    pub event: EventMember,
}

/// What a wait or a next trigger waits for (IEEE 1666-2011, 5.2.17 and 5.2.18).
#[derive(Drop)]
pub enum Await {
    /// The static sensitivity.
    Static,
    /// The next delta notification phase.
    Delta,
    /// A time.
    For(Expr),
    /// Any of these events, with a time-out where one is written.
    Any(Vec<EventUse>, Option<Expr>),
    /// All of these events, with a time-out where one is written.
    All(Vec<EventUse>, Option<Expr>),
}

/// An argument of a call.
#[derive(Drop)]
pub enum Argument {
    /// A value that is passed, cut to the parameter's type.
    Value(Expr),
    /// A variable of exactly the parameter's type, which gets the parameter's final value.
    Inout(NameUse),
}

/// A variable that gets a value, cut to the variable's type.
#[derive(Clone, Copy, Debug, PartialEq, Eq)]
pub struct Store {
    /// The variable.
    pub name: NameUse,
    /// Its type.
    pub value_type: ValueType,
}

/// What gets an assigned value.
#[derive(Drop)]
pub enum Destination {
    /// A variable.
    Name(Store),
    /// A field of a payload.
    Field(NameUse, PayloadField),
    /// An element of a memory.
    Element(u32, Expr),
    /// A byte of a payload.
    PayloadByte(NameUse, PayloadBytes, Expr),
}

/// The process that a control call is for.
#[derive(Clone, Copy, Debug, PartialEq, Eq)]
pub enum Controlled {
    /// A process or a variable of one.
    Named(NameUse),
    /// The instance itself.
    Myself,
}

/// A new instance of a function (IEEE 1666-2011, 5.5).
#[derive(Drop)]
pub struct SpawnForm {
    /// The variable that gets the handle.
    pub handle: Option<NameUse>,
    /// Which kind of process it is.
    pub kind: ProcessKind,
    /// The function that it runs.
    pub function: CodeId,
    /// The first arguments, each cut to its parameter's type.
    pub arguments: Vec<Expr>,
    /// The static sensitivity.
    pub sensitive: Items<StaticUse>,
    /// Whether it is not made runnable.
    pub dont_initialize: bool,
}

/// A handler of a `try`: the exception, and its block.
#[derive(Clone, Copy, Debug, PartialEq, Eq)]
pub struct Handler {
    /// The exception.
    pub exception: NameId,
    /// What is carried out then.
    pub block: BlockId,
}

/// A statement of the code. Blocks are numbers, so that no statement holds another. A number after a channel's, a
/// memory's, an event's, a keeper's or a socket's place is the place of its name among those that the module declares.
#[derive(Drop)]
pub enum Statement {
    /// A local variable, and its first value where one is written.
    Var(u32, ValueType, Option<Expr>),
    /// An assignment.
    Assign(Destination, Expr),
    /// A call, and the variable that gets the answer.
    Call(Option<Store>, CodeId, Vec<Argument>),
    /// A read of a fifo.
    Read(Option<Store>, ChannelUse),
    /// A read of a fifo that does not block, and the variable that gets the value.
    NbRead(Option<Store>, ChannelUse, Store),
    /// A write of a fifo of this type that does not block.
    NbWrite(Option<Store>, ChannelUse, ValueType, Expr),
    /// A try to lock a mutex.
    Trylock(Option<Store>, ChannelUse),
    /// An unlock of a mutex.
    Unlock(Option<Store>, ChannelUse),
    /// A try to take from a semaphore.
    SemTrywait(Option<Store>, ChannelUse),
    /// A non-blocking transport call: socket, payload, phase and delay.
    NbTransport(Option<Store>, u32, NameUse, NameUse, NameUse),
    /// A write of a signal, a resolved signal or a fifo of this type.
    Write(ChannelUse, ValueType, Expr),
    /// A printed line.
    Print(PrintText, Option<Expr>),
    /// An immediate notification.
    Notify(u32),
    /// A delta notification.
    NotifyDelta(u32),
    /// A timed notification.
    NotifyAfter(u32, Expr),
    /// A pending notification is taken back.
    Cancel(u32),
    /// A wait.
    Wait(Await),
    /// How a method waits after its return.
    NextTrigger(Await),
    /// A lock of a mutex.
    Lock(ChannelUse),
    /// A take from a semaphore.
    SemWait(ChannelUse),
    /// A give to a semaphore.
    Post(ChannelUse),
    /// A new payload, with its numbers of bytes and of enables.
    Make(NameUse, Expr, Option<Expr>),
    /// One reference more to a payload.
    Acquire(NameUse),
    /// One reference less to a payload.
    Release(NameUse),
    /// Bytes between a payload and a memory.
    Carry(NameUse, u32),
    /// A blocking transport call: socket, payload and delay.
    BTransport(u32, NameUse, NameUse),
    /// The global quantum.
    QkGlobal(Expr),
    /// A time more in a keeper.
    QkInc(u32, Expr),
    /// The local time of a keeper.
    QkSet(u32, Expr),
    /// A keeper begins anew.
    QkReset(u32),
    /// A new instance.
    Spawn(SpawnForm),
    /// A control call, and whether it reaches the descendants of its target.
    Control(Control, Controlled, bool),
    /// An exception for another process, and whether it reaches the descendants of its target.
    ThrowIt(Controlled, NameId, bool),
    /// An exception.
    Throw(NameId),
    /// A return.
    Return(Option<Expr>),
    /// The end of the session.
    Stop,
    /// A choice of two blocks.
    If(Expr, BlockId, Option<BlockId>),
    /// A block again and again.
    While(Expr, BlockId),
    /// A block, and its unwind block.
    Guard(BlockId, BlockId),
    /// A block, and its handlers in order.
    Try(BlockId, Items<Handler>),
}

/// What a body is that of.
#[derive(Clone, Copy, Debug, PartialEq, Eq)]
pub enum BodyKind {
    /// A function.
    Function,
    /// A thread.
    Thread,
    /// A method.
    Method,
    /// The thread of a clock.
    Clock,
}

/// A parameter or a local variable of a body.
#[derive(Drop)]
pub struct Local {
    /// Its name.
    pub name: Text,
    /// Its type.
    pub value_type: ValueType,
    /// Whether it is a parameter whose final value goes back to the caller's variable.
    pub inout: bool,
}

/// A body of the code: that of a function, a process or a clock.
#[derive(Drop)]
pub struct CodeBody {
    /// What it is that of.
    pub kind: BodyKind,
    /// The place in the text of the module that declares it.
    pub module_place: u32,
    /// The name of the function, the process or the clock.
    pub name: Text,
    /// Its parameters in order, and then its local variables in text order, numbered together from 0.
    pub locals: Items<Local>,
    /// How many of these are parameters.
    pub parameters: u32,
    /// The type of a function's answer, where it has one.
    pub answer: Option<ValueType>,
    /// Its block.
    pub block: BlockId,
    /// A number that is not below the events of any wait that it or what it calls can begin.
    pub room: u32,
}

/// The bodies of a tree in text order, as numbered blocks of numbered statements, an inner one before its outer one.
#[derive(Drop)]
pub struct Code {
    /// The bodies, by their numbers.
    pub bodies: Items<CodeBody>,
    /// The blocks, by their numbers: the numbers of their statements.
    pub blocks: Items<Items<StmtId>>,
    /// The statements, by their numbers.
    pub statements: Items<Statement>,
}
