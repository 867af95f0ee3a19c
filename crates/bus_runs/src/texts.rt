//! The text of a run.
ghost use Rattle.std.specs.Prelude.{◌≡◌, IfOk, IfErr, IsOkUnless};
ghost use Rattle.bus_router.specs.Pools.{payload_with};
ghost use Rattle.bus_router.specs.TrafficFile.BusText.{bus_of};
ghost use Rattle.bus_router.specs.TrafficFile.Stops.{IfSyntax, IfRefused, IsRefusedSo};
ghost use Rattle.bus_router.specs.TrafficFile.Traffic.{CanRun};
ghost use Rattle.result_texts.specs.Lines.{IsTextOf};
ghost use Rattle.bus_runs.specs.Runs.{IsRunOf, IsRunText, IsWrittenFor};

use crate::runs::{BusRun, run_bus};
use bus_router::traffic_file_api::{Bus, BusStop, read_bus};
use result_texts::text_of;
use std::alloc::{AllocError, Global};

/// The text of a run of this bus: a line for each access in the order of responses, and the last time.
pub fn bus_text(alloc: Global, bus: &Bus, run: &BusRun) -> Result<Vec<u8>, AllocError>
    requires can { CanRun bus.now }
    requires ran { IsRunOf bus.now run.now }
    ensures { IfOk result (λ text. IsTextOf bus.now run.now.rows (payload_with run.now.pool) text.items) }
{
    text_of(alloc, bus, run.rows.as_slice(), &run.pool)
}

fn run_text(alloc: Global, bus: &Bus) -> Result<Vec<u8>, AllocError>
    requires { CanRun bus.now }
    ensures { IfOk result (λ text. IsRunText bus.now text.items) }
{
    let run = run_bus(alloc, bus)?;
    bus_text(alloc, bus, &run)
}

/// What is written for the text of a traffic file, or why it is refused.
///
/// The refusals are those of `read_bus`. The text is that of `bus_text` for a run of the bus.
pub fn traffic_text(alloc: Global, text: &[u8]) -> Result<Vec<u8>, BusStop>
    ensures written { IfOk result (λ out. IsWrittenFor text.now out.items) }
    ensures syntax { IfErr result (λ stop. IfSyntax stop (λ line. bus_of text.now ≡ Err (BusStop.Syntax line))) }
    ensures refused { IfErr result (λ stop. IfRefused stop (λ kind line name. bus_of text.now ≡ Err (BusStop.Refused kind line name))) }
    ensures accepted { IfOk (bus_of text.now) (λ bus. IsOkUnless result BusStop.NoMemory) }
    ensures comes { IfErr (bus_of text.now) (IsRefusedSo result) }
{
    let bus = match read_bus(alloc, text) {
        Ok(bus) => bus,
        Err(stop) => return Err(stop),
    };
    match run_text(alloc, &bus) {
        Ok(out) => Ok(out),
        Err(_) => Err(BusStop::NoMemory),
    }
}
