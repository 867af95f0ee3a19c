//! What names stand for, and what channels show.
ghost use Rattle.std.specs.Prelude.{◌≡◌, slice_get, unwrap_or};
ghost use Rattle.flat_design.specs.Denotes.{denoted_at};
ghost use Rattle.expr_eval.specs.FifoSync.Fifos as fifos;
ghost use Rattle.expr_eval.specs.SimModel.Configuration.{Config};
ghost use Rattle.expr_eval.specs.SimModel.Reading as reading;
ghost use Rattle.expr_eval.specs.SimModel.Values as values;

use expr_eval::logic_values_api::Value;
use flat_design::{ChannelId, Denoted, Design, Member, RunFault};
use kernel_state::kernel_channels_api::ChannelBoard;

/// What the name at a place of its module stands for in the instance of this number.
#[inline(always)]
pub fn denoted_in(design: &Design, home: u32, n: u32) -> Denoted
    ensures { result ≡ denoted_at design.now home n }
{
    match design.instances.as_slice().get(home as usize) {
        Some(part) => match part.names.as_slice().get(n as usize) {
            Some(denoted) => *denoted,
            None => Denoted::Nothing,
        },
        None => Denoted::Nothing,
    }
}

/// The channel at a place; one past the last is a fault.
#[inline(always)]
fn channel_at(channels: &[ChannelId], k: u64) -> Result<ChannelId, RunFault>
    ensures { result ≡ reading.channel_or channels.now k (slice_get channels.now k) }
{
    match channels.get(k as usize) {
        Some(channel) => Ok(*channel),
        None => Err(RunFault::IndexRange {
            index: k,
            size: channels.len() as u64,
        }),
    }
}

/// The channel of a port at a place.
#[inline(always)]
fn port_channel(design: &Design, n: u32, k: u64) -> Result<ChannelId, RunFault>
    ensures { result ≡ reading.port_channel (slice_get design.now.ports n) k }
{
    match design.ports.as_slice().get(n as usize) {
        Some(port) => channel_at(port.channels.as_slice(), k),
        None => Err(RunFault::IndexRange { index: k, size: 0 }),
    }
}

/// The place of a port: the first where none is written.
fn place_or_first(place: Option<u64>) -> u64
    ensures { result ≡ unwrap_or place 0 }
{
    match place {
        Some(k) => k,
        None => 0,
    }
}

/// The channel that a name stands for: itself, or that of a port at a place (IEEE 1666-2011, 5.12.7).
///
/// # Errors
/// A place past the last channel of a port; a name that has no channel.
#[inline(always)]
pub(crate) fn channel_of(
    design: &Design,
    denoted: Denoted,
    place: Option<u64>,
) -> Result<ChannelId, RunFault>
    ensures { result ≡ reading.channel_of design.now denoted place }
{
    match denoted {
        Denoted::Channel(channel) => Ok(channel),
        Denoted::Port(n) => port_channel(design, n, place_or_first(place)),
        Denoted::Nothing
        | Denoted::Event(_)
        | Denoted::Keeper(_)
        | Denoted::Memory(_)
        | Denoted::Variable(_)
        | Denoted::Process(_)
        | Denoted::Socket { .. } => Err(RunFault::IndexRange { index: 0, size: 0 }),
    }
}

/// The value of a channel that has one.
#[inline(always)]
pub(crate) fn channel_value(board: &ChannelBoard, channel: ChannelId) -> Value
    ensures { (c : Config) → c.channels ≡ board.now → result ≡ reading.channel_value c channel }
{
    match channel {
        ChannelId::Signal { number, .. } => board.signal(number),
        ChannelId::Resolved { number, .. } => board.resolved(number),
        ChannelId::Fifo { .. } | ChannelId::Mutex { .. } | ChannelId::Semaphore { .. } => {
            Value::Bool(false)
        }
    }
}

/// Whether the last update changed a channel.
fn changed(board: &ChannelBoard, channel: ChannelId) -> bool
    ensures { (c : Config) → c.channels ≡ board.now → result ≡ reading.channel_changed c channel }
{
    match channel {
        ChannelId::Signal { number, .. } => board.signal_changed(number),
        ChannelId::Resolved { number, .. } => board.resolved_changed(number),
        ChannelId::Fifo { .. } | ChannelId::Mutex { .. } | ChannelId::Semaphore { .. } => false,
    }
}

/// How many values can be read from a fifo.
fn available(board: &ChannelBoard, channel: ChannelId) -> u32
    ensures { (c : Config) → c.channels ≡ board.now → result ≡ reading.of_fifo fifos.available c channel }
{
    match channel {
        ChannelId::Fifo { number, .. } => board.available(number),
        ChannelId::Signal { .. }
        | ChannelId::Resolved { .. }
        | ChannelId::Mutex { .. }
        | ChannelId::Semaphore { .. } => 0,
    }
}

/// How many values can be written to a fifo.
fn free(board: &ChannelBoard, channel: ChannelId) -> u32
    ensures { (c : Config) → c.channels ≡ board.now → result ≡ reading.of_fifo fifos.free c channel }
{
    match channel {
        ChannelId::Fifo { number, .. } => board.free(number),
        ChannelId::Signal { .. }
        | ChannelId::Resolved { .. }
        | ChannelId::Mutex { .. }
        | ChannelId::Semaphore { .. } => 0,
    }
}

/// The value of a semaphore.
fn semaphore_value(board: &ChannelBoard, channel: ChannelId) -> u64
    ensures { (c : Config) → c.channels ≡ board.now → result ≡ reading.semaphore_value c channel }
{
    match channel {
        ChannelId::Semaphore { number, .. } => board.semaphore(number),
        ChannelId::Signal { .. }
        | ChannelId::Resolved { .. }
        | ChannelId::Fifo { .. }
        | ChannelId::Mutex { .. } => 0,
    }
}

/// An unsigned number of 64 bits.
pub(crate) fn unsigned(bits: u64) -> Value
    ensures { result ≡ values.unsigned bits }
{
    Value::Uint { width: 64, bits }
}

/// A member of a channel.
pub(crate) fn channel_member(board: &ChannelBoard, m: Member, channel: ChannelId) -> Value
    ensures { (c : Config) → c.channels ≡ board.now → result ≡ reading.channel_member c m channel }
{
    match m {
        Member::Changed => Value::Bool(changed(board, channel)),
        Member::Available => unsigned(u64::from(available(board, channel))),
        Member::Free => unsigned(u64::from(free(board, channel))),
        Member::Value => unsigned(semaphore_value(board, channel)),
        Member::Valid
        | Member::Terminated
        | Member::Live
        | Member::Field(_)
        | Member::Length
        | Member::EnableLength
        | Member::Local
        | Member::Next
        | Member::NeedSync => Value::Bool(false),
    }
}
