//! The fault of a line, or what lines say with it.
ghost use Rattle.std.specs.Prelude.{◌≡◌, ◌+◌, ◌≤◌, ◌<◌, length};
ghost use Rattle.std.specs.List.{list_any};
ghost use Rattle.dmi_map.specs.Ranges.{refusal};
ghost use Rattle.text_lines.specs.Lines.{line_number};
ghost use Rattle.traffic_file.specs.BusText as spec;
ghost use Rattle.traffic_file.specs.Stops.{IsJudgedAs};

use super::stops::{BusKind, BusStop};
use super::{Bus, BusInitiator, BusLine, BusTarget, Invalidate};
use dmi_map::{AddressMap, MapStop};
use model_tree::logic_values_api::{Items, Text};
use std::alloc::Global;
use text_lines::{BusAction, LineForm, line_number, text_of};

/// The greatest number of targets, and of initiators.
const NAMED_LIMIT: usize = 256;

/// How many bytes targets may have.
const BYTES_LIMIT: u64 = 67_108_864;

/// The greatest number of accesses and invalidations together.
const LINE_LIMIT: usize = 4096;

/// What lines say.
#[derive(Drop)]
pub struct SoFar {
    /// The bus of them.
    pub bus: Bus,
    /// Whether one of them has the delay.
    pub delayed: bool,
    /// How many bytes their targets have.
    pub bytes: u64,
}

/// What no line says: a delay of 1, and nothing else.
pub(crate) fn first_so_far(alloc: Global) -> SoFar
    ensures { result ≡ spec.first_so_far }
{
    SoFar {
        bus: Bus {
            delay: 1,
            targets: Items::new(alloc),
            initiators: Items::new(alloc),
            lines: Items::new(alloc),
            invalidates: Items::new(alloc),
            map: AddressMap::new(alloc),
        },
        delayed: false,
        bytes: 0,
    }
}

fn is_target(name: &[u8], target: &BusTarget) -> bool
    ensures { result ≡ spec.is_target name.now target.now }
{
    target.name.as_slice() == name
}

fn is_initiator(name: &[u8], initiator: &BusInitiator) -> bool
    ensures { result ≡ spec.is_initiator name.now initiator.now }
{
    initiator.name.as_slice() == name
}

fn has_target(name: &[u8], bus: &Bus) -> bool
    ensures { result ≡ list_any (spec.is_target name.now) bus.now.targets }
{
    bus.targets
        .as_slice()
        .iter()
        .any(|target| is_target(name, target))
}

fn has_initiator(name: &[u8], bus: &Bus) -> bool
    ensures { result ≡ list_any (spec.is_initiator name.now) bus.now.initiators }
{
    bus.initiators
        .as_slice()
        .iter()
        .any(|initiator| is_initiator(name, initiator))
}

fn is_declared(name: &[u8], bus: &Bus) -> bool
    ensures { result ≡ spec.is_declared name.now bus.now }
{
    has_target(name, bus) || has_initiator(name, bus)
}

/// The place of the initiator with this name.
fn initiator_named(name: &[u8], bus: &Bus) -> Option<usize>
    ensures { result ≡ spec.initiator_named name.now bus.now }
{
    bus.initiators
        .as_slice()
        .iter()
        .position(|initiator| is_initiator(name, initiator))
}

fn is_much(so_far: &SoFar, size: u64) -> bool
    ensures { result ≡ spec.is_much so_far.now size }
{
    so_far.bus.targets.as_slice().len() >= NAMED_LIMIT
        || so_far.bytes > BYTES_LIMIT
        || size > BYTES_LIMIT - so_far.bytes
}

fn is_full(bus: &Bus) -> bool
    ensures { result ≡ spec.is_full bus.now }
{
    let lines = bus.lines.as_slice().len();
    lines >= LINE_LIMIT || bus.invalidates.as_slice().len() >= LINE_LIMIT - lines
}

fn refused(kind: BusKind, number: u64, name: Text) -> BusStop
    ensures { result ≡ BusStop.Refused kind (line_number number) name }
{
    BusStop::Refused {
        kind,
        line: line_number(number),
        name,
    }
}

/// The refusal of a line that has no name of its own.
fn refuse_as(alloc: Global, kind: BusKind, number: u64, name: &[u8]) -> Result<SoFar, BusStop>
    ensures { IsJudgedAs result (Err (BusStop.Refused kind (line_number number) name.now)) }
{
    match text_of(alloc, name) {
        Ok(name) => Err(refused(kind, number, name)),
        Err(_) => Err(BusStop::NoMemory),
    }
}

fn judge_delay(alloc: Global, so_far: SoFar, number: u64, delay: u64) -> Result<SoFar, BusStop>
    ensures { IsJudgedAs result (spec.judged so_far number (LineForm.Delay delay)) }
{
    if so_far.delayed {
        return refuse_as(alloc, BusKind::DoubleName, number, b"delay");
    }
    let mut so_far = so_far;
    so_far.bus.delay = delay;
    so_far.delayed = true;
    Ok(so_far)
}

/// Adds a target whose range the map has.
fn add_target(so_far: SoFar, name: Text, size: u64, latency: u64) -> Result<SoFar, BusStop>
    requires { so_far.bytes + size ≤ BYTES_LIMIT }
    ensures { IsJudgedAs result (Ok (spec.with_memory so_far name size latency)) }
{
    let mut so_far = so_far;
    so_far.bytes += size;
    match so_far.bus.targets.push(BusTarget {
        name,
        size,
        latency,
    }) {
        Ok(()) => Ok(so_far),
        Err(_) => Err(BusStop::NoMemory),
    }
}

/// Adds a target where the map has room for its range.
fn map_target(
    so_far: SoFar,
    number: u64,
    name: Text,
    low: u64,
    size: u64,
    latency: u64,
) -> Result<SoFar, BusStop>
    requires few { length so_far.bus.targets < NAMED_LIMIT }
    requires small { so_far.bytes + size ≤ BYTES_LIMIT }
    ensures { IsJudgedAs result (spec.judged_so number name (spec.range_fault (refusal so_far.bus.map low size)) (spec.with_target so_far name low size latency)) }
{
    let mut so_far = so_far;
    let target = so_far.bus.targets.as_slice().len() as u32;
    match so_far.bus.map.add(low, size, target) {
        Ok(()) => add_target(so_far, name, size, latency),
        Err(MapStop::Range) => Err(refused(BusKind::TooMany, number, name)),
        Err(MapStop::Overlap { other: _ }) => Err(refused(BusKind::Overlap, number, name)),
        Err(MapStop::NoMemory) => Err(BusStop::NoMemory),
    }
}

fn judge_target(
    so_far: SoFar,
    number: u64,
    name: Text,
    low: u64,
    size: u64,
    latency: u64,
) -> Result<SoFar, BusStop>
    ensures { IsJudgedAs result (spec.judged so_far number (LineForm.Target name low size latency)) }
{
    if is_declared(name.as_slice(), &so_far.bus) {
        return Err(refused(BusKind::DoubleName, number, name));
    }
    if is_much(&so_far, size) {
        return Err(refused(BusKind::TooMany, number, name));
    }
    map_target(so_far, number, name, low, size, latency)
}

fn judge_initiator(so_far: SoFar, number: u64, name: Text, dmi: bool) -> Result<SoFar, BusStop>
    ensures { IsJudgedAs result (spec.judged so_far number (LineForm.Initiator name dmi)) }
{
    if is_declared(name.as_slice(), &so_far.bus) {
        return Err(refused(BusKind::DoubleName, number, name));
    }
    if so_far.bus.initiators.as_slice().len() >= NAMED_LIMIT {
        return Err(refused(BusKind::TooMany, number, name));
    }
    let mut so_far = so_far;
    match so_far.bus.initiators.push(BusInitiator { name, dmi }) {
        Ok(()) => Ok(so_far),
        Err(_) => Err(BusStop::NoMemory),
    }
}

/// Adds an access.
fn add_access(so_far: SoFar, access: BusLine) -> Result<SoFar, BusStop>
    ensures { IsJudgedAs result (Ok (spec.with_line so_far access)) }
{
    let mut so_far = so_far;
    match so_far.bus.lines.push(access) {
        Ok(()) => Ok(so_far),
        Err(_) => Err(BusStop::NoMemory),
    }
}

fn judge_access(
    so_far: SoFar,
    number: u64,
    time: u64,
    name: Text,
    address: u64,
    action: BusAction,
) -> Result<SoFar, BusStop>
    ensures { IsJudgedAs result (spec.judged so_far number (LineForm.Access time name address action)) }
{
    let Some(place) = initiator_named(name.as_slice(), &so_far.bus) else {
        return Err(refused(BusKind::UnknownName, number, name));
    };
    if is_full(&so_far.bus) {
        return Err(refused(BusKind::TooMany, number, name));
    }
    match u32::try_from(place) {
        Ok(initiator) => add_access(
            so_far,
            BusLine {
                line: line_number(number),
                time,
                initiator,
                address,
                action,
            },
        ),
        Err(_) => Err(BusStop::NoMemory),
    }
}

fn judge_invalidate(
    alloc: Global,
    so_far: SoFar,
    number: u64,
    invalidate: Invalidate,
) -> Result<SoFar, BusStop>
    ensures { IsJudgedAs result (spec.judged so_far number (LineForm.Invalidate invalidate.time invalidate.low invalidate.high)) }
{
    if is_full(&so_far.bus) {
        return refuse_as(alloc, BusKind::TooMany, number, b"invalidate");
    }
    let mut so_far = so_far;
    match so_far.bus.invalidates.push(invalidate) {
        Ok(()) => Ok(so_far),
        Err(_) => Err(BusStop::NoMemory),
    }
}

/// What lines say with one line more, or the fault of that line.
pub(crate) fn judge(
    alloc: Global,
    so_far: SoFar,
    number: u64,
    form: LineForm,
) -> Result<SoFar, BusStop>
    ensures { IsJudgedAs result (spec.judged so_far number form) }
{
    match form {
        LineForm::Blank | LineForm::Unreadable => Ok(so_far),
        LineForm::Delay(delay) => judge_delay(alloc, so_far, number, delay),
        LineForm::Target {
            name,
            low,
            size,
            latency,
        } => judge_target(so_far, number, name, low, size, latency),
        LineForm::Initiator { name, dmi } => judge_initiator(so_far, number, name, dmi),
        LineForm::Access {
            time,
            name,
            address,
            action,
        } => judge_access(so_far, number, time, name, address, action),
        LineForm::Invalidate { time, low, high } => {
            judge_invalidate(alloc, so_far, number, Invalidate { time, low, high })
        }
    }
}
