//! Statements on fifos (IEEE 1666-2011, 6.23).
ghost use Rattle.std.specs.Prelude.{◌≡◌, ◌==◌, Some, None, Err, OnOk, OnErr, not, option_map};
ghost use Rattle.kernel_view.specs.FifoSync.Fifos as fifos;
ghost use Rattle.flat_design.specs.Code.{channel_term, term_of};
ghost use Rattle.kernel_view.specs.SimModel.Channels as channels;
ghost use Rattle.kernel_view.specs.SimModel.Channels.{do_nb_read, do_nb_write, do_read, element, fifo_of, fifo_here};
ghost use Rattle.kernel_view.specs.SimModel.Reading.{here};
ghost use Rattle.kernel_view.specs.SimModel.Storing.{passes};
ghost use Rattle.kernel_view.specs.KernelState.Kernel.{IsSound};
ghost use Rattle.kernel_view.specs.KernelState.Moves.{Moves, Steps, Does, HasStatement, IsOnTop};
ghost use Rattle.kernel_view.specs.KernelState.Stopping.{DoesOrStops};
ghost use Rattle.kernel_view.specs.Standings.{Everywhere};
ghost use Rattle.exec_channels.specs.Tried.{changed_in, IsEmptyHere};

use crate::slots::{past, put, slot_at};
use crate::uses::{fifo_number, first_event, used_at};
use flat_design::{ChannelId, ChannelUse, Expr, RunFault, Store, ValueType};
use kernel_view::expr_eval_api::cut_to;
use kernel_view::kernel_channels_api::ChannelBoard;
use kernel_view::kernel_state_api::{Kernel, StatementStop, block, pass, top_lives};
use kernel_view::logic_values_api::Value;
use kernel_view::{channel_at, eval_at, eval_place_at};
use std::alloc::AllocError;

/// Reads the oldest value of a fifo, if one can be read now, where the channel is a fifo.
fn try_read(board: &mut ChannelBoard, channel: ChannelId) -> Option<Option<Value>>
    ensures value { result ≡ option_map fifos.readable (element board.old.fifos (fifo_of channel)) }
    ensures left { board.new ≡ record board.old { fifos = changed_in board.old.fifos (fifo_of channel) fifos.after_read } }
{
    match fifo_number(channel) {
        Some(n) => board.read_fifo(n),
        None => None,
    }
}

/// Writes a value to a fifo, if a place is free now: says whether it did, where the channel is a fifo.
fn try_write(board: &mut ChannelBoard, channel: ChannelId, v: Value) -> Option<bool>
    ensures done { result ≡ option_map (λ q. not (fifos.free q == 0)) (element board.old.fifos (fifo_of channel)) }
    ensures left { board.new ≡ record board.old { fifos = changed_in board.old.fifos (fifo_of channel) (λ q. fifos.after_write q v) } }
{
    match fifo_number(channel) {
        Some(n) => board.write_fifo(n, v),
        None => None,
    }
}

/// A write that does not block of a value to a channel, both known.
fn nb_write_channel(k: &mut Kernel, p: u32, target: Option<Store>, channel: ChannelId, v: Value)
    requires sound { IsSound k.old }
    requires top { IsOnTop k.old p }
    requires statement { HasStatement k.old p }
    ensures steps { Steps k.old k.new p (λ c q i r. channels.nb_write_fifo c q r (here c q i r) target channel v (fifo_here c channel)) }
    ensures sound { IsSound k.new }
    ensures made { k.new.made ≡ k.old.made }
{
    top_lives(k, p);
    let slot = slot_at(k, p, target);
    past(k, p);
    match try_write(&mut k.channels, channel, v) {
        Some(done) => put(k, p, slot, Value::Bool(done)),
        None => {}
    }
}

/// `nb_write`: a value, cut to the type of a fifo, is written to it, if a place is free, and true is answered; where none is,
/// false is. The fifo is named, or is that of a port at a place. It takes no memory.
///
/// # Errors
/// The fault of its place, then that of its expression; a place past the last channel of a port. Then nothing changes.
pub fn nb_write(
    k: &mut Kernel,
    p: u32,
    target: Option<Store>,
    at: &ChannelUse,
    t: ValueType,
    e: &Expr,
) -> Result<(), RunFault>
    requires sound { IsSound k.old }
    requires top { IsOnTop k.old p }
    requires statement { HasStatement k.old p }
    ensures does { Does k.old k.new result p (λ c q i r. do_nb_write c q r (here c q i r) target (channel_term at.now) t (term_of e.now)) }
    ensures sound { IsSound k.new }
    ensures made { k.new.made ≡ k.old.made }
{
    top_lives(k, p);
    let place = eval_place_at(k, p, &at.place)?;
    let value = eval_at(k, p, e)?;
    match channel_at(k, p, at.name, place) {
        Ok(channel) => {
            nb_write_channel(k, p, target, channel, cut_to(t, value));
            Ok(())
        }
        Err(fault) => Err(fault),
    }
}

/// A read that does not block of a channel that is known.
fn nb_read_channel(k: &mut Kernel, p: u32, target: Option<Store>, channel: ChannelId, to: Store)
    requires sound { IsSound k.old }
    requires top { IsOnTop k.old p }
    requires statement { HasStatement k.old p }
    ensures steps { Steps k.old k.new p (λ c q i r. channels.nb_read_fifo c q r (here c q i r) target to channel (fifo_here c channel)) }
    ensures sound { IsSound k.new }
    ensures made { k.new.made ≡ k.old.made }
{
    top_lives(k, p);
    let slot = slot_at(k, p, target);
    let to_slot = slot_at(k, p, Some(to));
    past(k, p);
    match try_read(&mut k.channels, channel) {
        Some(Some(v)) => {
            put(k, p, slot, Value::Bool(true));
            put(k, p, to_slot, v);
        }
        Some(None) => put(k, p, slot, Value::Bool(false)),
        None => {}
    }
}

/// `nb_read`: the oldest value of a fifo is read, if there is one, and true is answered first, and then the value; where there
/// is none, false is. The fifo is named, or is that of a port at a place. It takes no memory.
///
/// # Errors
/// The fault of its place; a place past the last channel of a port. Then nothing changes.
pub fn nb_read(
    k: &mut Kernel,
    p: u32,
    target: Option<Store>,
    at: &ChannelUse,
    to: Store,
) -> Result<(), RunFault>
    requires sound { IsSound k.old }
    requires top { IsOnTop k.old p }
    requires statement { HasStatement k.old p }
    ensures does { Does k.old k.new result p (λ c q i r. do_nb_read c q r (here c q i r) target (channel_term at.now) to) }
    ensures sound { IsSound k.new }
    ensures made { k.new.made ≡ k.old.made }
{
    top_lives(k, p);
    match used_at(k, p, at) {
        Ok(channel) => {
            nb_read_channel(k, p, target, channel, to);
            Ok(())
        }
        Err(fault) => Err(fault),
    }
}

/// A read of a channel that is known. Memory is refused only where it is a fifo of which nothing can be read, and then nothing
/// changes.
fn read_channel(
    k: &mut Kernel,
    p: u32,
    target: Option<Store>,
    channel: ChannelId,
) -> Result<(), AllocError>
    requires sound { IsSound k.old }
    requires top { IsOnTop k.old p }
    requires statement { HasStatement k.old p }
    ensures steps { OnOk result (Steps k.old k.new p (λ c q i r. channels.read_fifo c q r (here c q i r) target channel (fifo_here c channel))) }
    ensures stays { OnErr result (Moves k.old k.new (λ c. c)) }
    ensures blocked { OnErr result (option_map fifos.readable (element k.old.channels.fifos (fifo_of channel)) ≡ Some None) }
    ensures sound { IsSound k.new }
    ensures made { k.new.made ≡ k.old.made }
{
    top_lives(k, p);
    let slot = slot_at(k, p, target);
    match try_read(&mut k.channels, channel) {
        Some(Some(v)) => {
            past(k, p);
            put(k, p, slot, v);
            Ok(())
        }
        Some(None) => match block(k, p, first_event(channel)) {
            Ok(()) => Ok(()),
            Err(_) => Err(AllocError),
        },
        None => {
            pass(k, p);
            Ok(())
        }
    }
}

/// `read`: the oldest value of a fifo is read, or the instance on top is blocked till one is written, and tries again then.
/// The fifo is named, or is that of a port at a place.
///
/// # Errors
/// The fault of its place; a place past the last channel of a port; the instance would be blocked, and there is no memory for
/// that. Then nothing changes.
pub fn read(
    k: &mut Kernel,
    p: u32,
    target: Option<Store>,
    at: &ChannelUse,
) -> Result<(), StatementStop>
    requires sound { IsSound k.old }
    requires top { IsOnTop k.old p }
    requires statement { HasStatement k.old p }
    ensures does { DoesOrStops k.old k.new result p (λ c q i r. do_read c q r (here c q i r) target (channel_term at.now)) }
    ensures blocked { result ≡ Err StatementStop.NoMemory → Everywhere k.old p (λ h. IsEmptyHere h (channel_term at.now)) }
    ensures sound { IsSound k.new }
    ensures made { k.new.made ≡ k.old.made }
{
    top_lives(k, p);
    match used_at(k, p, at) {
        Ok(channel) => match read_channel(k, p, target, channel) {
            Ok(()) => Ok(()),
            Err(_) => Err(StatementStop::NoMemory),
        },
        Err(fault) => Err(StatementStop::Fault(fault)),
    }
}
