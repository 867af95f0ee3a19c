use super::names::NameId;

/// A fault of a run: it ends the session at its step, which changes nothing.
#[derive(Clone, Copy)]
pub enum RunFault {
    /// Another process stands as the writer of a signal.
    WriterConflict {
        /// The serial that stands.
        first: u32,
        /// The serial that writes.
        second: u32,
    },
    /// A division by zero.
    DivideByZero,
    /// An index, a place or a size out of range.
    IndexRange {
        /// The number that is out of range.
        index: u64,
        /// The first number past the range.
        size: u64,
    },
    /// A time past 2^64 - 1 resolutions.
    TimeOverflow,
    /// An exception that no handler catches.
    Uncaught {
        /// The exception.
        name: NameId,
    },
    /// A kill, reset or throw of an instance that is on the active stack below the top.
    ControlOnActive {
        /// The instance.
        serial: u32,
    },
    /// A use of an empty handle.
    EmptyHandle,
    /// A use of a payload that was freed.
    PayloadFreed {
        /// The payload.
        serial: u32,
    },
    /// As many payloads are live as there may be.
    TooManyPayloads,
    /// As many instances are live as there may be.
    TooManyInstances,
    /// As many frames of an instance are open as there may be.
    FrameDepth,
    /// A call or a return breaks the base protocol.
    Protocol {
        /// The rule, from 1 to 10.
        rule: u8,
        /// The hop.
        hop: u32,
        /// The payload.
        serial: u32,
    },
}
