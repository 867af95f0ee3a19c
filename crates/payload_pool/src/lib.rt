//! The payloads of transactions (IEEE 1666-2011, clause 14): how many hold each of them, and how one carries its bytes to a memory or from it.
#![tactic(auto)]

mod laws;
mod payload;
mod pool;
mod transfer;

pub use laws::{
    each_byte_has_a_place, ignore_moves_nothing, read_takes_the_byte_at_its_address,
    refused_moves_nothing, write_leaves_the_last_byte,
};
pub use logic_values::Bytes;
pub use payload::{
    ADDRESS, BURST, BYTE_ENABLE, COMMAND, IGNORE, INCOMPLETE, OK, Payload, READ, WRITE,
};
pub use pool::{Freed, MAX_BYTES, MAX_LIVE, MakeStop, Pool};
pub use transfer::carry;

/// What is passed on of logic_values.
pub mod logic_values_api {
    pub use logic_values::{
        Bytes, Digit, Items, Lv, Sign, Text, Value, add, and, concat, cut, digit, div, is_same, lt,
        mul, not, or, rem, shl, shr, slice, sub, value_text, vector_of_digits, xor,
    };
}

/// What is passed on of numbered_slots.
pub mod numbered_slots_api {
    pub use numbered_slots::{Marks, only_marked_places_rise};
}
