ghost use Rattle.std.specs.Prelude.{◌≡◌};
ghost use Rattle.parse_statements.specs.ModelLexer.Items as grammar;
ghost use Rattle.model_parser.specs.Starts as spec;

use model_tree::{Interface, PlainKind, ProcessKind, SignalKind, SignalType, Word};

/// A direction of a port that leads to values of a type.
#[derive(Clone, Copy)]
pub enum Direction {
    /// `in`
    In,
    /// `out`
    Out,
    /// `fifo_in`
    FifoIn,
    /// `fifo_out`
    FifoOut,
}

/// What a port or an export leads to, by its first word.
#[derive(Clone, Copy)]
pub enum PortStart {
    /// Values of a type.
    Typed(Direction),
    /// A mutex.
    Mutex,
    /// A semaphore.
    Semaphore,
    /// No port.
    Nothing,
}

/// What an item is, by its first word.
#[derive(Clone, Copy)]
pub enum ItemStart {
    /// A signal or a buffer.
    Signal(SignalKind),
    /// A resolved signal.
    Resolved,
    /// A clock.
    Clock,
    /// A fifo.
    Fifo,
    /// An item that has a name alone.
    Plain(PlainKind),
    /// A semaphore.
    Semaphore,
    /// A memory.
    Memory,
    /// A variable.
    Variable,
    /// A port.
    Port,
    /// An export.
    Export,
    /// An initiator socket.
    Initiator,
    /// A target socket.
    Target,
    /// An instance of a module.
    Instance,
    /// A binding.
    Bind,
    /// A function.
    Function,
    /// A thread or a method.
    Process(ProcessKind),
    /// No item.
    Nothing,
}

/// The word of the direction.
pub fn direction_word(direction: Direction) -> Word
    ensures { result ≡ spec.direction_word direction }
{
    match direction {
        Direction::In => Word::In,
        Direction::Out => Word::Out,
        Direction::FifoIn => Word::FifoIn,
        Direction::FifoOut => Word::FifoOut,
    }
}

/// What a port of the direction and the type leads to.
pub fn leading(direction: Direction, value_type: SignalType) -> Interface
    ensures { result ≡ spec.leading direction value_type }
{
    match direction {
        Direction::In => Interface::In(value_type),
        Direction::Out => Interface::Out(value_type),
        Direction::FifoIn => Interface::FifoIn(value_type),
        Direction::FifoOut => Interface::FifoOut(value_type),
    }
}

/// The port or export that begins with this word.
pub fn port_start(word: Word) -> PortStart
    ensures { result ≡ spec.port_start word }
{
    match word {
        Word::In => PortStart::Typed(Direction::In),
        Word::Out => PortStart::Typed(Direction::Out),
        Word::FifoIn => PortStart::Typed(Direction::FifoIn),
        Word::FifoOut => PortStart::Typed(Direction::FifoOut),
        Word::MutexPort => PortStart::Mutex,
        Word::SemaphorePort => PortStart::Semaphore,
        _ => PortStart::Nothing,
    }
}

/// The item that begins with this word.
pub fn item_start(word: Word) -> ItemStart
    ensures { result ≡ spec.item_start word }
{
    match word {
        Word::Signal => ItemStart::Signal(SignalKind::Signal),
        Word::Buffer => ItemStart::Signal(SignalKind::Buffer),
        Word::Resolved => ItemStart::Resolved,
        Word::Clock => ItemStart::Clock,
        Word::Fifo => ItemStart::Fifo,
        Word::Mutex => ItemStart::Plain(PlainKind::Mutex),
        Word::Event => ItemStart::Plain(PlainKind::Event),
        Word::Keeper => ItemStart::Plain(PlainKind::Keeper),
        Word::Semaphore => ItemStart::Semaphore,
        Word::Memory => ItemStart::Memory,
        Word::Var => ItemStart::Variable,
        Word::In
        | Word::Out
        | Word::FifoIn
        | Word::FifoOut
        | Word::MutexPort
        | Word::SemaphorePort => ItemStart::Port,
        Word::Export => ItemStart::Export,
        Word::Initiator => ItemStart::Initiator,
        Word::Target => ItemStart::Target,
        Word::Inst => ItemStart::Instance,
        Word::Bind => ItemStart::Bind,
        Word::Func => ItemStart::Function,
        Word::Thread => ItemStart::Process(ProcessKind::Thread),
        Word::Method => ItemStart::Process(ProcessKind::Method),
        _ => ItemStart::Nothing,
    }
}
