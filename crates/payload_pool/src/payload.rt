//! What a transaction carries.
use logic_values::Bytes;

/// The command to bring bytes from the memory into the payload.
pub const READ: i32 = 0;
/// The command to bring the payload's bytes into the memory.
pub const WRITE: i32 = 1;
/// The command to move nothing.
pub const IGNORE: i32 = 2;

/// The status of a transfer that was done.
pub const OK: i32 = 1;
/// The status of a payload that was not carried yet.
pub const INCOMPLETE: i32 = 0;
/// The status where a byte has no place in the memory.
pub const ADDRESS: i32 = -2;
/// The status where the command is none of the three.
pub const COMMAND: i32 = -3;
/// The status where the streaming width is 0.
pub const BURST: i32 = -4;
/// The status where an enable byte is neither `0x00` nor `0xff`.
pub const BYTE_ENABLE: i32 = -5;

/// A payload (IEEE 1666-2011, clause 14).
#[derive(Drop)]
pub struct Payload {
    /// `READ`, `WRITE` or `IGNORE`; another number is a command that no memory carries out.
    pub command: i32,
    /// Where the first byte goes, or comes from.
    pub address: u64,
    /// The data.
    pub bytes: Bytes,
    /// Which bytes take part, `0xff` or `0x00` for each, used over and over where there are fewer than bytes. All take part where there are none.
    pub enables: Bytes,
    /// After so many bytes the addresses begin again at the first.
    pub width: u32,
    /// How the transfer went.
    pub status: i32,
}
