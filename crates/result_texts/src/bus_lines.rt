//! The line of an access.
ghost use Rattle.std.specs.Prelude.{◌≡◌, ◌∷◌, [], ◌++◌, ◌<◌, OnOk, length};
ghost use Rattle.std.specs.Fmt.{decimal};
ghost use Rattle.std.specs.List.{flat_map};
ghost use Rattle.bus_router.specs.TrafficFile.Traffic.{CanRun};
ghost use Rattle.result_texts.specs.Lines as spec;

use bus_router::payload_pool_api::{OK, Payload, READ};
use bus_router::traffic_file_api::Bus;
use bus_router::{BusRow, initiator_at, line_at};
use std::alloc::{AllocError, Global};

/// Adds a number in decimal.
pub(crate) fn push_number(alloc: Global, text: &mut Vec<u8>, number: u64) -> Result<(), AllocError>
    ensures { OnOk result (text.new.items ≡ text.old.items ++ decimal number) }
{
    let digits = format!(in alloc; "{number}")?;
    text.extend_from_slice(digits.as_bytes())
}

fn hex_digit(digit: u8) -> u8
    requires { digit < 16 }
    ensures { result ≡ spec.hex_digit digit }
{
    if digit < 10 {
        b'0' + digit
    } else {
        b'a' - 10 + digit
    }
}

/// Adds a byte as two hexadecimal digits.
fn push_hex(text: &mut Vec<u8>, byte: u8) -> Result<(), AllocError>
    ensures { OnOk result (text.new.items ≡ text.old.items ++ spec.hex_of byte) }
{
    text.extend_from_slice(&[hex_digit(byte / 16), hex_digit(byte % 16)])
}

fn push_all_hex(text: &mut Vec<u8>, bytes: &[u8]) -> Result<(), AllocError>
    ensures { OnOk result (text.new.items ≡ text.old.items ++ flat_map spec.hex_of bytes.now) }
{
    for byte in bytes {
        push_hex(text, *byte)?;
    }
    Ok(())
}

fn push_status(text: &mut Vec<u8>, done: bool) -> Result<(), AllocError>
    ensures { OnOk result (text.new.items ≡ text.old.items ++ spec.status_word done) }
{
    if done {
        text.extend_from_slice(b" OK")
    } else {
        text.extend_from_slice(b" ADDRESS")
    }
}

fn push_data(text: &mut Vec<u8>, done: bool, payload: &Payload) -> Result<(), AllocError>
    ensures { OnOk result (text.new.items ≡ text.old.items ++ spec.data_text done payload.now) }
{
    if done && payload.command == READ {
        text.extend_from_slice(b" ")?;
        push_all_hex(text, payload.bytes.as_slice())?;
    }
    Ok(())
}

fn push_mark(text: &mut Vec<u8>, direct: bool) -> Result<(), AllocError>
    ensures { OnOk result (text.new.items ≡ text.old.items ++ spec.mark_text direct) }
{
    if direct {
        text.extend_from_slice(b" dmi\n")
    } else {
        text.extend_from_slice(b"\n")
    }
}

/// Adds the time, the initiator and the number of the line of access k.
fn push_head(
    alloc: Global,
    text: &mut Vec<u8>,
    bus: &Bus,
    time: u64,
    k: usize,
) -> Result<(), AllocError>
    requires can { CanRun bus.now }
    requires there { k < length bus.now.lines }
    ensures { OnOk result (text.new.items ≡ text.old.items ++ spec.access_head bus.now time k) }
{
    let line = line_at(bus, k);
    let initiator = initiator_at(bus, line.initiator as usize);
    push_number(alloc, text, time)?;
    text.extend_from_slice(b" ")?;
    text.extend_from_slice(initiator.name.as_slice())?;
    text.extend_from_slice(b" ")?;
    push_number(alloc, text, u64::from(line.line))
}

/// Adds the line of access k.
pub(crate) fn push_line(
    alloc: Global,
    text: &mut Vec<u8>,
    bus: &Bus,
    row: BusRow,
    k: usize,
    payload: &Payload,
) -> Result<(), AllocError>
    requires can { CanRun bus.now }
    requires there { k < length bus.now.lines }
    ensures { OnOk result (text.new.items ≡ text.old.items ++ spec.access_line bus.now row k payload.now) }
{
    let done = payload.status == OK;
    push_head(alloc, text, bus, row.r, k)?;
    push_status(text, done)?;
    push_data(text, done, payload)?;
    push_mark(text, row.direct)
}
