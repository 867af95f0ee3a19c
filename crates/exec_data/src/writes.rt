//! Writes of channels.
ghost use Rattle.std.specs.Prelude.{◌≡◌, ◌+◌, ◌<◌, Err, true, OnOk, OnErr, slice_get};
ghost use Rattle.flat_design.specs.Code.{term_of, channel_term};
ghost use Rattle.flat_design.specs.Sound.{ChannelFits};
ghost use Rattle.flat_design.specs.declared.design.ChannelId.TheVariants as channel_id;
ghost use Rattle.kernel_view.specs.SimModel.Channels as channels;
ghost use Rattle.kernel_view.specs.SimModel.Channels.{do_write};
ghost use Rattle.kernel_view.specs.SimModel.Reading.{Here, here};
ghost use Rattle.kernel_view.specs.KernelState.Kernel.{IsSound, whole_design};
ghost use Rattle.kernel_view.specs.KernelState.Moves.{Moves, Steps, Lives, HasStatement, IsOnTop};
ghost use Rattle.kernel_view.specs.KernelState.Stopping.{DoesOrStops};
ghost use Rattle.kernel_view.specs.Standings.{Everywhere, ShowsHere};
ghost use Rattle.exec_data.specs.Written.{NamesFit, WriteTakes, to_write, write_takes};

use crate::updates::{drive, write_signal};
use flat_design::{ChannelId, ChannelUse, Expr, RunFault, ValueType};
use kernel_view::expr_eval_api::{cut_to, eval, eval_place};
use kernel_view::kernel_state_api::{Kernel, StatementStop, pass, top_lives, write_fifo};
use kernel_view::logic_values_api::Value;
use kernel_view::{Standing, standing_at};
use std::alloc::AllocError;

/// What a write is for, and what it writes.
#[derive(Clone, Copy)]
pub(crate) struct Transfer {
    /// The channel.
    pub channel: ChannelId,
    /// The value, cut to the channel's type.
    pub value: Value,
}

/// What a write statement is for, and what it writes, where it stands.
///
/// # Errors
/// The fault of its place, and then that of its expression; a place past the last channel of a port.
#[inline(always)]
fn written_from(x: &Standing, to: &ChannelUse, t: ValueType, e: &Expr) -> Result<Transfer, RunFault>
    ensures { (h : Here) → ShowsHere x.now h → result ≡ to_write h (channel_term to.now) t (term_of e.now) }
{
    let place = eval_place(x, &to.place)?;
    let value = eval(x, e)?;
    match x.channel_here(to.name, place) {
        Ok(channel) => Ok(Transfer {
            channel,
            value: cut_to(t, value),
        }),
        Err(fault) => Err(fault),
    }
}

/// What a write statement is for, and what it writes.
///
/// # Errors
/// The fault of its place, and then that of its expression; a place past the last channel of a port.
#[inline(always)]
fn what_is_written(
    k: &Kernel,
    p: u32,
    to: &ChannelUse,
    t: ValueType,
    e: &Expr,
) -> Result<Transfer, RunFault>
    requires { Lives k.now p }
    ensures { Everywhere k.now p (λ h. result ≡ to_write h (channel_term to.now) t (term_of e.now)) }
{
    match standing_at(k, p) {
        Some(x) => written_from(&x, to, t, e),
        None => Err(RunFault::IndexRange { index: 0, size: 0 }),
    }
}

/// A value is written to a fifo of the design, or the instance on top is blocked till one is read (IEEE 1666-2011, 6.23).
/// Where memory is refused nothing changes.
#[inline(never)]
fn put_in_fifo(k: &mut Kernel, p: u32, n: u32, events: u32, v: Value) -> Result<(), AllocError>
    requires sound { IsSound k.old }
    requires top { IsOnTop k.old p }
    requires statement { HasStatement k.old p }
    ensures steps { events + 1 < k.old.design.events → OnOk result (Steps k.old k.new p (λ c q i r. channels.write_fifo c q r n (channel_id.Fifo n events) v (slice_get c.channels.fifos n))) }
    ensures stays { OnErr result (Moves k.old k.new (λ c. c)) }
    ensures sound { IsSound k.new }
    ensures made { k.new.made ≡ k.old.made }
{
    if events >= k.design.events.saturating_sub(1) {
        return Ok(());
    }
    write_fifo(k, p, n, events, v)
}

/// A value is written to a channel; a mutex and a semaphore take none.
///
/// # Errors
/// Another process stands as the writer of a signal; no memory. Then nothing changes.
#[inline(always)]
fn write_channel(k: &mut Kernel, p: u32, channel: ChannelId, v: Value) -> Result<(), StatementStop>
    requires sound { IsSound k.old }
    requires top { IsOnTop k.old p }
    requires statement { HasStatement k.old p }
    ensures does { ChannelFits (whole_design k.old) channel → DoesOrStops k.old k.new result p (λ c q i r. channels.write_channel c q r v channel) }
    ensures memory { result ≡ Err StatementStop.NoMemory → write_takes channel ≡ true }
    ensures sound { IsSound k.new }
    ensures made { k.new.made ≡ k.old.made }
{
    top_lives(k, p);
    match channel {
        ChannelId::Signal { number, .. } => match write_signal(k, p, number, v) {
            Ok(()) => Ok(()),
            Err(fault) => Err(StatementStop::Fault(fault)),
        },
        ChannelId::Resolved { number, .. } => match drive(k, p, number, v) {
            Ok(()) => Ok(()),
            Err(_) => Err(StatementStop::NoMemory),
        },
        ChannelId::Fifo { number, events } => match put_in_fifo(k, p, number, events, v) {
            Ok(()) => Ok(()),
            Err(_) => Err(StatementStop::NoMemory),
        },
        ChannelId::Mutex { .. } | ChannelId::Semaphore { .. } => {
            pass(k, p);
            Ok(())
        }
    }
}

/// `write`: of a signal, a buffer or a resolved signal, which asks for an update, or of a fifo, which may block the instance.
/// The channel is named, or is that of a port at a place; the value is cut to its type. Only a write of a resolved signal or of
/// a fifo may take memory.
///
/// # Errors
/// The fault of its place, then that of its expression, then a place past the last channel of a port; another process stands
/// as the writer of a signal; no memory for a resolved signal or a fifo. Then nothing changes.
#[inline(always)]
pub fn write(
    k: &mut Kernel,
    p: u32,
    to: &ChannelUse,
    t: ValueType,
    e: &Expr,
) -> Result<(), StatementStop>
    requires sound { IsSound k.old }
    requires top { IsOnTop k.old p }
    requires statement { HasStatement k.old p }
    requires names { NamesFit (whole_design k.old) }
    ensures does { DoesOrStops k.old k.new result p (λ c q i r. do_write c q r (here c q i r) (channel_term to.now) t (term_of e.now)) }
    ensures memory { result ≡ Err StatementStop.NoMemory → Everywhere k.old p (λ h. WriteTakes h (channel_term to.now) t (term_of e.now)) }
    ensures sound { IsSound k.new }
    ensures made { k.new.made ≡ k.old.made }
{
    top_lives(k, p);
    match what_is_written(k, p, to, t, e) {
        Ok(x) => write_channel(k, p, x.channel, x.value),
        Err(fault) => Err(StatementStop::Fault(fault)),
    }
}
