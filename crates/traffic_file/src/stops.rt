use model_tree::logic_values_api::Text;

/// What is wrong with a line that has one of the forms.
#[derive(Clone, Copy, PartialEq, Eq, Debug)]
pub enum BusKind {
    /// Its name is that of an earlier line, or it is a second `delay`.
    DoubleName,
    /// No earlier line has its initiator.
    UnknownName,
    /// It is one more than there may be, passes the last of the 2^64 addresses, or gives targets too many bytes.
    TooMany,
    /// It shares an address with an earlier target.
    Overlap,
}

/// Why a text gives no bus.
#[derive(Drop)]
pub enum BusStop {
    /// A line has none of the forms.
    Syntax {
        /// The first such line, counted from 1.
        line: u32,
    },
    /// A line has a fault.
    Refused {
        /// What is wrong with it.
        kind: BusKind,
        /// The first such line, counted from 1.
        line: u32,
        /// The name that it is wrong with.
        name: Text,
    },
    /// There is no memory.
    NoMemory,
}
