//! The payloads of accesses in a pool.
ghost use Rattle.std.specs.Prelude.{◌≡◌, ◌<◌, ◌-◌, ◌^◌, ◌≤◌, IfOk, OnOk, length};
ghost use Rattle.traffic_file.specs.PayloadPool.Payloads.{with_made, with_payload};
ghost use Rattle.bus_router.specs.Pools.{payload_with, IsLive, IsPoolOf};

use std::alloc::{AllocError, Global};
use traffic_file::payload_pool_api::{Payload, Pool};

// Adds a payload under the next number.
fn add_payload(pool: &mut Pool, payload: Payload) -> Result<(), AllocError>
    requires { pool.old.next < 2 ^ 32 - 1 }
    ensures { OnOk result (pool.new ≡ with_payload (with_made pool.old 1 0) pool.old.next payload) }
{
    let t = match pool.make(1, 0) {
        Ok(t) => t,
        Err(_) => return Err(AllocError),
    };
    match pool.get_mut(t) {
        Ok(made) => {
            *made = payload;
            Ok(())
        }
        Err(_) => Err(AllocError),
    }
}

/// A pool with these payloads, each live under its place, counted from 0.
pub fn pool_of(alloc: Global, payloads: Vec<Payload>) -> Result<Pool, AllocError>
    requires { length payloads.items ≤ 4096 }
    ensures { IfOk result (IsPoolOf payloads.items) }
{
    let mut pool = Pool::new(alloc);
    for payload in payloads {
        add_payload(&mut pool, payload)?;
    }
    Ok(pool)
}

/// The live payload of this number.
pub fn live_payload(pool: &Pool, k: u32) -> &Payload
    requires { IsLive pool.now k }
    ensures { result.now ≡ payload_with pool.now k }
{
    match pool.get(k) {
        Ok(payload) => payload,
        Err(_) => unreachable!(),
    }
}
