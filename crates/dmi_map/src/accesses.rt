//! An access to a memory.
ghost use Rattle.std.specs.Prelude.{◌≡◌, ◌≤◌, length};
ghost use Rattle.dmi_map.specs.Accesses.{accessed, memory_accessed, status_there};

use payload_pool::{Payload, carry};

/// Carries the payload's bytes to a memory whose first byte has the address `low`, or from it, and answers the status, which it sets too.
///
/// It is `carry` of the payload with its address less `low`. The payload's address stays.
pub fn direct(p: &mut Payload, memory: &mut [u8], low: u64) -> i32
    requires { low ≤ p.old.address }
    ensures answer { result ≡ status_there low p.old (length memory.old) }
    ensures payload { p.new ≡ accessed low p.old memory.old }
    ensures memory { memory.new ≡ memory_accessed low p.old memory.old }
{
    let address = p.address;
    p.address = address - low;
    let status = carry(p, memory);
    p.address = address;
    status
}
