//! What accesses ask for.
ghost use Rattle.std.specs.Prelude.{◌≡◌, ◌<◌, ◌≤◌, IfOk, length, replicate};
ghost use Rattle.traffic_file.specs.TextLines.Words.{length_of};
ghost use Rattle.traffic_file.specs.Traffic.{range_of_line, CanRun};
ghost use Rattle.bus_router.specs.Answers.{asked_by, AreHomes};
ghost use Rattle.bus_router.specs.Serving.{first_by, AreFirst};

use crate::line_at;
use std::alloc::{AllocError, Global};
use traffic_file::Bus;
use traffic_file::dmi_map_api::TargetRange;
use traffic_file::payload_pool_api::{ADDRESS, Bytes, INCOMPLETE, Payload, READ, WRITE};
use traffic_file::text_lines_api::BusAction;

fn zeros(alloc: Global, len: u16) -> Result<Bytes, AllocError>
    ensures { IfOk result (λ bytes. bytes ≡ replicate len 0) }
{
    let bytes = vec![in alloc; 0; len as usize]?;
    Ok(Bytes::from_vec(bytes))
}

/// The payload of an access before it is carried out.
fn asked_by(alloc: Global, address: u64, action: &BusAction) -> Result<Payload, AllocError>
    requires { length_of action.now ≤ 4096 }
    ensures { IfOk result (λ p. p ≡ asked_by address action.now) }
{
    match action {
        BusAction::Get { len } => Ok(Payload {
            command: READ,
            address,
            bytes: zeros(alloc, *len)?,
            enables: Bytes::new(alloc),
            width: u32::from(*len),
            status: INCOMPLETE,
        }),
        BusAction::Put { bytes } => Ok(Payload {
            command: WRITE,
            address,
            bytes: bytes.clone()?,
            enables: Bytes::new(alloc),
            width: bytes.as_slice().len() as u32,
            status: INCOMPLETE,
        }),
    }
}

/// The same of access k, with the answer of the router where no memory has its address.
fn first_payload(
    alloc: Global,
    bus: &Bus,
    k: usize,
    home: Option<TargetRange>,
) -> Result<Payload, AllocError>
    requires can { CanRun bus.now }
    requires there { k < length bus.now.lines }
    ensures { IfOk result (λ p. p ≡ first_by bus.now k home) }
{
    let line = line_at(bus, k);
    let mut payload = asked_by(alloc, line.address, &line.action)?;
    if home.is_none() {
        payload.status = ADDRESS;
    }
    Ok(payload)
}

/// The payloads of all accesses before the memories are reached, in the order of the file.
pub(crate) fn first_payloads(
    alloc: Global,
    bus: &Bus,
    homes: &[Option<TargetRange>],
) -> Result<Vec<Payload>, AllocError>
    requires can { CanRun bus.now }
    requires homes { AreHomes bus.now homes.now }
    ensures many { IfOk result (λ payloads. length payloads.items ≡ length bus.now.lines) }
    ensures first { IfOk result (λ payloads. AreFirst bus.now payloads.items) }
{
    let mut payloads = Vec::with_capacity(alloc, homes.len())?;
    for k in 0..homes.len() {
        payloads.push(first_payload(alloc, bus, k, homes[k])?)?;
    }
    Ok(payloads)
}
