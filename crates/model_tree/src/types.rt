use super::leaves::Name;
use logic_values::Lv;
use sim_time::Unit;

/// The form of a type of signals. A width is kept as it is written; 1 to 64 are right.
#[derive(Clone, Copy)]
pub enum TypeForm {
    /// `bool`
    Bool,
    /// `logic`
    Logic,
    /// `int<W>`
    Int(u64),
    /// `uint<W>`
    Uint(u64),
    /// `lv<W>`
    Vector(u64),
}

/// A type of signals where it stands.
#[derive(Clone, Copy)]
pub struct SignalType {
    /// The line of its first token.
    pub line: u32,
    /// Which type.
    pub form: TypeForm,
}

/// A type of variables.
#[derive(Clone, Copy)]
pub enum VarType {
    /// A type that signals may have too.
    Plain(SignalType),
    /// `time`
    Time,
    /// `process`
    Process,
    /// `payload`
    Payload,
}

/// What a port or an export leads to.
#[derive(Clone, Copy)]
pub enum Interface {
    /// `in T`
    In(SignalType),
    /// `out T`
    Out(SignalType),
    /// `fifo_in T`
    FifoIn(SignalType),
    /// `fifo_out T`
    FifoOut(SignalType),
    /// `mutex_port`
    Mutex,
    /// `semaphore_port`
    Semaphore,
}

/// A constant of an item.
#[derive(Clone, Copy)]
pub enum ConstantForm {
    /// A number.
    Number(u64),
    /// A number with `-` before it.
    Negative(u64),
    /// A time.
    Time(u64, Unit),
    /// A logic literal.
    Logic(Lv),
    /// `true` or `false`.
    Truth(bool),
}

/// A constant where it stands.
#[derive(Clone, Copy)]
pub struct Constant {
    /// The line of its first token.
    pub line: u32,
    /// Which constant.
    pub form: ConstantForm,
}

/// A time of an item: a number and its unit.
#[derive(Clone, Copy)]
pub struct Span {
    /// How many units.
    pub count: u64,
    /// Of which unit.
    pub unit: Unit,
}

/// How many of a port's channels have to be bound.
#[derive(Clone, Copy)]
pub enum BoundRule {
    /// At least one.
    One,
    /// `zero`: none need be.
    Zero,
    /// `all_bound`: as many as its size.
    All,
}

/// The size of a port.
#[derive(Clone, Copy)]
pub struct PortSize {
    /// The greatest number of its channels.
    pub count: u64,
    /// How many have to be bound.
    pub rule: BoundRule,
}

/// A parameter of a function.
#[derive(Drop)]
pub struct Parameter {
    /// The line of its first token.
    pub line: u32,
    /// Whether the final value goes back to the caller's variable.
    pub inout: bool,
    /// Its type.
    pub var_type: VarType,
    /// Its name.
    pub name: Name,
}

/// One end of a binding: an object, or a child's object.
#[derive(Drop)]
pub struct End {
    /// The line of its first token.
    pub line: u32,
    /// The object, or the child.
    pub name: Name,
    /// The child's object.
    pub member: Option<Name>,
}
