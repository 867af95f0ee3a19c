ghost use Rattle.model_tree.specs.declared.faults.ParseStop.TheVariants as parse_stop;
ghost use Rattle.std.specs.Prelude.{◌≡◌};

use logic_values::Text;
use std::alloc::AllocError;
use thiserror::Error;

/// Why a text was not read.
#[derive(Debug, Drop, Error)]
pub enum ParseStop {
    /// The text has no tree, command list or serial list.
    #[error("line {line} does not read")]
    Syntax {
        /// The line that says so, counted from 1.
        line: u32,
    },
    /// Memory was refused.
    #[error("no memory")]
    NoMemory,
}

impl From<AllocError> for ParseStop {
    ghost from_gives = { λ _ e. e ≡ parse_stop.NoMemory };

    fn from(_refusal: AllocError) -> ParseStop {
        ParseStop::NoMemory
    }
}

/// Which rule of a model or a script is broken.
#[derive(Clone, Copy)]
pub enum Kind {
    /// Two names that are visible at one place are equal.
    DoubleName,
    /// A name is used that is not declared.
    UnknownName,
    /// A name is of another kind than the construct needs.
    WrongKind,
    /// The type of an operand, target, argument or condition does not fit.
    TypeDiffers,
    /// A width, a slice bound or a literal place is out of range.
    WidthRange,
    /// A time literal is 2^64 resolutions or more.
    LiteralRange,
    /// A blocking statement is reached from a method.
    WaitInMethod,
    /// A next trigger is reached from a thread or a socket's handler.
    TriggerInThread,
    /// A blocking statement is reached from a handler of non-blocking calls.
    BlockingInNonblocking,
    /// A blocking statement is reached from an unwind block.
    WaitInUnwind,
    /// A throw is reached from an unwind block.
    ThrowInUnwind,
    /// A spawn is reached from an unwind block.
    SpawnInUnwind,
    /// A transport call is reached from an unwind block.
    TransportInUnwind,
    /// A handler has another signature than its socket needs.
    BadHandler,
    /// A spawned function has an inout parameter.
    BadSpawn,
    /// The number of arguments is wrong, or an inout argument is no variable of the type.
    ArgumentCount,
    /// A value is returned where the function has no type, or none where it has one.
    ReturnDiffers,
    /// Not 0 < high < period.
    BadClock,
    /// A fifo's size is not from 1 to 65,536.
    FifoSize,
    /// A semaphore's start is not from 0 to 2,147,483,647.
    SemaphoreRange,
    /// A port's size is not from 1 to 64.
    PortSize,
    /// The ends of a binding have no right form, or a pass socket is used in a transport call.
    BadBinding,
    /// A module has itself among its instances.
    ModuleCycle,
    /// The design has more objects or bytes of memories than the limits.
    TooManyObjects,
    /// A port, export or socket has too few bindings.
    Unbound,
    /// A port, export or socket is bound twice to one thing, or twice at all where once is right.
    DoubleBound,
    /// The ends of a binding do not fit each other.
    KindDiffers,
    /// A port has more channels than its size.
    TooMany,
    /// A value of a script is out of form or range.
    BadValue,
    /// The resolution is not 1, 10 or 100 of fs, ps, ns, us or ms, nor 1 s.
    BadResolution,
    /// A time literal is no whole number of resolutions.
    InexactTime,
}

/// The first broken rule of a model or a script.
#[derive(Drop)]
pub struct Fault {
    /// Which rule.
    pub kind: Kind,
    /// The line of the construct that breaks it, counted from 1.
    pub line: u32,
    /// The name concerned.
    pub name: Text,
}

/// Why a model or a script was not accepted.
#[derive(Drop)]
pub enum CheckStop {
    /// A rule is broken.
    Refused(Fault),
    /// Memory was refused.
    NoMemory,
}
