//! The times of one access.
use traffic_file::logic_values_api::Items;

/// The times of one access, in picoseconds.
#[derive(Clone, Copy)]
pub struct BusRow {
    /// When its initiator begins it.
    pub b: u64,
    /// When it arrives at the router.
    pub a: u64,
    /// When its target begins to serve it.
    pub s: u64,
    /// When its target has served it.
    pub e: u64,
    /// When its response is back at the initiator.
    pub r: u64,
    /// Whether it goes to the memory directly, without the router.
    pub direct: bool,
}

/// The times of accesses, in the order of the file.
pub type BusRows = Items<BusRow>;
