use super::leaves::Name;
use super::statements::{Event, Statement};
use super::types::{Constant, End, Interface, Parameter, PortSize, SignalType, Span, VarType};

/// Which kind of signal (IEEE 1666-2011, 6.4 and 6.6).
#[derive(Clone, Copy)]
pub enum SignalKind {
    /// `signal`
    Signal,
    /// `buffer`
    Buffer,
}

/// Which object that has nothing but a name.
#[derive(Clone, Copy)]
pub enum PlainKind {
    /// `mutex`
    Mutex,
    /// `event`
    Event,
    /// `keeper`
    Keeper,
}

/// Which kind of process (IEEE 1666-2011, 5.2).
#[derive(Clone, Copy)]
pub enum ProcessKind {
    /// `thread`
    Thread,
    /// `method`
    Method,
}

/// A signal or a buffer.
#[derive(Drop)]
pub struct SignalItem {
    /// Which of the two.
    pub kind: SignalKind,
    /// Whether more than one process may write it.
    pub many: bool,
    /// The type of its values.
    pub value_type: SignalType,
    /// Its name.
    pub name: Name,
    /// Its first value, where one is written.
    pub initial: Option<Constant>,
}

/// A clock.
#[derive(Drop)]
pub struct ClockItem {
    /// Its name.
    pub name: Name,
    /// The time from one posedge to the next.
    pub period: Span,
    /// How long it is 1.
    pub high: Span,
    /// When the first posedge comes, where one is written.
    pub start: Option<Span>,
}

/// The handlers of an initiator socket.
#[derive(Drop)]
pub enum InitiatorRole {
    /// `pass`: it hands calls on to another socket.
    Pass,
    /// The handler of the backward path, where one is written.
    Own(Option<Name>),
}

/// The handlers of a target socket.
#[derive(Drop)]
pub enum TargetRole {
    /// `pass`: it hands calls on to another socket.
    Pass,
    /// The handlers of blocking calls and of the forward path, where they are written.
    Own(Option<Name>, Option<Name>),
}

/// A function.
#[derive(Drop)]
pub struct FunctionItem {
    /// Its name.
    pub name: Name,
    /// Its parameters in order.
    pub parameters: Vec<Parameter>,
    /// The type of its answer, where it has one.
    pub answer: Option<VarType>,
    /// Its body.
    pub body: Vec<Statement>,
}

/// A process of the design.
#[derive(Drop)]
pub struct ProcessItem {
    /// Which kind.
    pub kind: ProcessKind,
    /// Its name.
    pub name: Name,
    /// The static sensitivity; empty where none is written.
    pub sensitive: Vec<Event>,
    /// Whether initialization leaves it out.
    pub dont_initialize: bool,
    /// Its body.
    pub body: Vec<Statement>,
}

/// An item of a module. The number in front is the line of its first token.
#[derive(Drop)]
pub enum Item {
    /// A signal or a buffer.
    Signal(u32, SignalItem),
    /// A resolved signal.
    Resolved(u32, Name),
    /// A clock.
    Clock(u32, ClockItem),
    /// A fifo and its size, where one is written.
    Fifo(u32, SignalType, Name, Option<u64>),
    /// A mutex, an event or a quantum keeper.
    Plain(u32, PlainKind, Name),
    /// A semaphore and its first value.
    Semaphore(u32, Name, Constant),
    /// A memory and its number of bytes.
    Memory(u32, Name, u64),
    /// A variable and its first value, where one is written.
    Variable(u32, VarType, Name, Option<Constant>),
    /// A port and its size, where one is written.
    Port(u32, Interface, Name, Option<PortSize>),
    /// An export.
    Export(u32, Interface, Name),
    /// An initiator socket.
    Initiator(u32, Name, InitiatorRole),
    /// A target socket.
    Target(u32, Name, TargetRole),
    /// An instance of the first name's module.
    Instance(u32, Name, Name),
    /// A binding of the left end to the right end.
    Bind(u32, End, End),
    /// A function.
    Function(u32, FunctionItem),
    /// A thread or a method.
    Process(u32, ProcessItem),
}

/// A module.
#[derive(Drop)]
pub struct Module {
    /// The line of its first token.
    pub line: u32,
    /// Its name.
    pub name: Name,
    /// Its items in text order.
    pub items: Vec<Item>,
}

/// The instance at the top of the design.
#[derive(Drop)]
pub struct Top {
    /// The line of `top`.
    pub line: u32,
    /// The name of its module.
    pub module: Name,
    /// Its own name.
    pub name: Name,
}

/// The resolution of time that a text asks for (IEEE 1666-2011, 5.11.3).
#[derive(Clone, Copy)]
pub struct ResolutionLine {
    /// The line of the word `resolution`.
    pub line: u32,
    /// How long it is.
    pub span: Span,
}

/// What a text says of its language before its modules.
#[derive(Clone, Copy)]
pub enum Head {
    /// Nothing: it is a text of language 1.
    First,
    /// `language 2;`, and its resolution, where one is written.
    Second(Option<ResolutionLine>),
}
