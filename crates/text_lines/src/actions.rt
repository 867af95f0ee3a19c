//! The words of a traffic file: names, numbers in their ranges, and bytes; and what an access does.
use model_tree::logic_values_api::Items;

/// Bytes in order.
pub type Bytes = Items<u8>;

/// What an access does.
#[derive(Drop)]
pub enum BusAction {
    /// It reads.
    Get {
        /// So many bytes.
        len: u16,
    },
    /// It writes.
    Put {
        /// These bytes.
        bytes: Bytes,
    },
}
