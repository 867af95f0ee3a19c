use crate::BusAction;
use model_tree::logic_values_api::Text;

/// What a line of a traffic file says.
#[derive(Drop)]
pub enum LineForm {
    /// Nothing: it has no words, or is a comment.
    Blank,
    /// How long each way over a hop takes.
    Delay(u64),
    /// A target.
    Target {
        /// Its name.
        name: Text,
        /// Its first address.
        low: u64,
        /// How many bytes it has.
        size: u64,
        /// How long an access takes there.
        latency: u64,
    },
    /// An initiator.
    Initiator {
        /// Its name.
        name: Text,
        /// Whether it keeps grants.
        dmi: bool,
    },
    /// An access.
    Access {
        /// When it may begin at the earliest.
        time: u64,
        /// The name of its initiator.
        name: Text,
        /// The address of its first byte.
        address: u64,
        /// What it does.
        action: BusAction,
    },
    /// An end to grants.
    Invalidate {
        /// When.
        time: u64,
        /// The first address.
        low: u64,
        /// The last address.
        high: u64,
    },
    /// None of the forms that a line may have.
    Unreadable,
}
