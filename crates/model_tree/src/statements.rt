use super::expressions::Expression;
use super::leaves::{Name, PrintText};
use super::types::VarType;

/// The place of a port's channel.
#[derive(Drop)]
pub enum Place {
    /// None is written.
    First,
    /// `@2`
    Number(u64),
    /// `@(e)`
    Computed(Expression),
}

/// A channel, or a port's channel at a place.
#[derive(Drop)]
pub struct Channel {
    /// The line of its name.
    pub line: u32,
    /// The channel's or the port's name.
    pub name: Name,
    /// Which of the port's channels.
    pub place: Place,
}

/// An event: a channel's own, or a member's.
#[derive(Drop)]
pub struct Event {
    /// The channel or the object that has the event.
    pub channel: Channel,
    /// The member's name, as `pos`.
    pub member: Option<Name>,
}

/// What a wait or a next trigger waits for.
#[derive(Drop)]
pub enum Waiting {
    /// Nothing is written: the static sensitivity.
    Static,
    /// `delta`
    Delta,
    /// `for t`
    For(Expression),
    /// One event, with a time-out where one is written.
    One(Event, Option<Expression>),
    /// `any` of these.
    Any(Vec<Event>, Option<Expression>),
    /// `all` of these.
    All(Vec<Event>, Option<Expression>),
}

/// When a notification comes.
#[derive(Drop)]
pub enum Notification {
    /// At once.
    Immediate,
    /// In the next delta notification phase.
    Delta,
    /// After a time.
    After(Expression),
}

/// The process that a control call is for.
#[derive(Drop)]
pub enum Who {
    /// A process or a variable of one.
    Named(u32, Name),
    /// `self`
    Myself(u32),
}

/// A control call without an operand of its own (IEEE 1666-2011, 5.6.6).
#[derive(Clone, Copy)]
pub enum Control {
    /// `suspend`
    Suspend,
    /// `resume`
    Resume,
    /// `disable`
    Disable,
    /// `enable`
    Enable,
    /// `kill`
    Kill,
    /// `reset`
    Reset,
}

/// The target of an assignment.
#[derive(Drop)]
pub struct Target {
    /// The variable, payload or memory.
    pub name: Name,
    /// The member's name, as `data`.
    pub member: Option<Name>,
    /// The index, where one is written.
    pub index: Option<Expression>,
}

/// A statement that may give a value to a variable.
#[derive(Drop)]
pub enum Operation {
    /// `call f(..)`
    Call(Name, Vec<Expression>),
    /// `read c`
    Read(Channel),
    /// `nb_read c, x`
    NbRead(Channel, Name),
    /// `nb_write c, e`
    NbWrite(Channel, Expression),
    /// `trylock m`
    Trylock(Channel),
    /// `unlock m`
    Unlock(Channel),
    /// `sem_trywait s`
    SemTrywait(Channel),
    /// `nb_transport s, p, phase, delay`
    NbTransport(Name, Name, Name, Name),
}

/// A new instance of a function.
#[derive(Drop)]
pub struct Spawn {
    /// The variable that gets the handle.
    pub handle: Option<Name>,
    /// Whether it is a method.
    pub method: bool,
    /// The function that it runs.
    pub function: Name,
    /// The first arguments.
    pub arguments: Vec<Expression>,
    /// The static sensitivity; empty where none is written.
    pub sensitive: Vec<Event>,
    /// Whether it is not made runnable.
    pub dont_initialize: bool,
}

/// A statement that gives no value.
#[derive(Drop)]
pub enum Action {
    /// `write c e`
    Write(Channel, Expression),
    /// `print "text" e`
    Print(PrintText, Option<Expression>),
    /// `notify e ..`
    Notify(Name, Notification),
    /// `cancel e`
    Cancel(Name),
    /// `wait ..`
    Wait(Waiting),
    /// `next_trigger ..`
    NextTrigger(Waiting),
    /// `lock m`
    Lock(Channel),
    /// `sem_wait s`
    SemWait(Channel),
    /// `post s`
    Post(Channel),
    /// `make p, n, m`
    Make(Name, Expression, Option<Expression>),
    /// `acquire p`
    Acquire(Name),
    /// `release p`
    Release(Name),
    /// `carry p, m`
    Carry(Name, Name),
    /// `b_transport s, p, delay`
    BTransport(Name, Name, Name),
    /// `qk_global t`
    QkGlobal(Expression),
    /// `qk_inc k t`
    QkInc(Name, Expression),
    /// `qk_set k t`
    QkSet(Name, Expression),
    /// `qk_reset k`
    QkReset(Name),
    /// `qk_sync k`
    QkSync(Name),
    /// `spawn ..`
    Spawn(Spawn),
    /// A control call, and whether it reaches the descendants of its target.
    Control(Control, Who, bool),
    /// `throw_it p E`, and whether it reaches the descendants of its target.
    ThrowIt(Who, Name, bool),
    /// `throw E`
    Throw(Name),
    /// `return e`
    Return(Option<Expression>),
    /// `stop`
    Stop,
}

/// A statement. The number in front is the line of its first token.
#[derive(Drop)]
pub enum Statement {
    /// A local variable.
    Var(u32, VarType, Name, Option<Expression>),
    /// An assignment.
    Assign(u32, Target, Expression),
    /// An operation, the variable that gets its value, and the line of the operation's own word.
    Operate(u32, Option<Name>, u32, Operation),
    /// A statement that gives no value.
    Act(u32, Action),
    /// `if e { .. } else { .. }`
    If(u32, Expression, Vec<Statement>, Option<Vec<Statement>>),
    /// `while e { .. }`
    While(u32, Expression, Vec<Statement>),
    /// `guard { .. } unwind { .. }`
    Guard(u32, Vec<Statement>, Vec<Statement>),
    /// `try { .. } catch E { .. } ..`
    Try(u32, Vec<Statement>, Vec<(Name, Vec<Statement>)>),
}
