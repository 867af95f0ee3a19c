//! A router between initiators and memory targets: the times of each access on each of its hops.
//!
//! The grants of direct access that stand when all traffic is over.
//!
//! What the accesses of a bus read and write.
//!
//! The payloads of accesses in a pool.
#![tactic(auto)]

mod answers;
mod asking;
mod grant_laws;
mod granting;
mod holding;
mod homes;
mod laws;
mod places;
mod plan;
mod pools;
mod rows;
mod serving;
mod table_laws;
mod tables;

pub use answers::answers_of;
pub use grant_laws::one_set_of_grants;
pub use granting::grants_of;
pub use homes::{homes_of, order_at, ranks_of};
pub use laws::{one_list_of_answers, one_service_order};
pub use places::{holds_all, initiator_at, line_at, reaches, target_at};
pub use pools::{live_payload, pool_of};
pub use rows::{BusRow, BusRows};
pub use table_laws::one_table;
pub use tables::times_of;

/// What is passed on of dmi_map.
pub mod dmi_map_api {
    pub use traffic_file::dmi_map_api::{Grants, Rank, TargetRange, put_in_order};
}

/// What is passed on of logic_values.
pub mod logic_values_api {
    pub use traffic_file::logic_values_api::Items;
}

/// What is passed on of payload_pool.
pub mod payload_pool_api {
    pub use traffic_file::payload_pool_api::{OK, Payload, Pool, READ};
}

/// What is passed on of traffic_file.
pub mod traffic_file_api {
    pub use traffic_file::{
        Bus, BusInitiator, BusKind, BusLine, BusStop, BusTarget, Invalidate, read_bus,
    };
}
