//! Places in the order of the ranks that stand at them.
//!
//! Which target has which addresses: ranges that share none, and the look-up of an address.
//!
//! Direct access to memories: the regions that initiators were granted, and an access to a memory without the router.
#![tactic(auto)]

mod accesses;
mod grants;
mod order;
mod order_laws;
mod ranges;

pub use accesses::direct;
pub use grants::{Grants, Region};
pub use order::{Rank, put_in_order};
pub use order_laws::one_order;
pub use ranges::{AddressMap, MapStop, TargetRange};

/// What is passed on of payload_pool.
pub mod payload_pool_api {
    pub use payload_pool::{ADDRESS, Bytes, INCOMPLETE, MakeStop, OK, Payload, Pool, READ, WRITE};
}
