//! Statements on mutexes (IEEE 1666-2011, 6.27).
ghost use Rattle.std.specs.Prelude.{◌≡◌, Some, Err, false, OnOk, OnErr, option_map};
ghost use Rattle.kernel_view.specs.FifoSync.Locks.{is_owner, is_unlocked, locked_by, unlocked_by};
ghost use Rattle.flat_design.specs.Code.{channel_term};
ghost use Rattle.kernel_view.specs.SimModel.Channels as channels;
ghost use Rattle.kernel_view.specs.SimModel.Channels.{do_lock, do_trylock, do_unlock, element, mutex_of};
ghost use Rattle.kernel_view.specs.SimModel.Reading.{here};
ghost use Rattle.kernel_view.specs.SimModel.Storing.{passes};
ghost use Rattle.kernel_view.specs.KernelState.Kernel.{IsSound};
ghost use Rattle.kernel_view.specs.KernelState.Moves.{Moves, Steps, Does, HasStatement, IsOnTop};
ghost use Rattle.kernel_view.specs.KernelState.Stopping.{DoesOrStops};
ghost use Rattle.kernel_view.specs.Standings.{Everywhere};
ghost use Rattle.exec_channels.specs.Tried.{changed_in, IsOwnedHere};

use crate::slots::{past, slot_at, tell};
use crate::uses::{first_event, mutex_number, used_at};
use flat_design::{ChannelId, ChannelUse, RunFault, Store};
use kernel_view::kernel_channels_api::ChannelBoard;
use kernel_view::kernel_state_api::{Kernel, StatementStop, block, fire, pass, top_lives};
use std::alloc::AllocError;

/// Locks a mutex for an instance, if nobody owns it: says whether it did, where the channel is a mutex.
fn try_lock(board: &mut ChannelBoard, channel: ChannelId, p: u32) -> Option<bool>
    ensures done { result ≡ option_map is_unlocked (element board.old.mutexes (mutex_of channel)) }
    ensures left { board.new ≡ record board.old { mutexes = changed_in board.old.mutexes (mutex_of channel) (locked_by p) } }
{
    match mutex_number(channel) {
        Some(n) => board.lock(n, p),
        None => None,
    }
}

/// Unlocks a mutex, if an instance owns it: says whether it did, where the channel is a mutex.
fn try_unlock(board: &mut ChannelBoard, channel: ChannelId, p: u32) -> Option<bool>
    ensures done { result ≡ option_map (is_owner p) (element board.old.mutexes (mutex_of channel)) }
    ensures left { board.new ≡ record board.old { mutexes = changed_in board.old.mutexes (mutex_of channel) (unlocked_by p) } }
{
    match mutex_number(channel) {
        Some(n) => board.unlock(n, p),
        None => None,
    }
}

/// An unlock of a channel that is known.
fn unlock_channel(k: &mut Kernel, p: u32, target: Option<Store>, channel: ChannelId)
    requires sound { IsSound k.old }
    requires top { IsOnTop k.old p }
    requires statement { HasStatement k.old p }
    ensures steps { Steps k.old k.new p (λ c q i r. channels.unlock_at (passes c q r) q (here c q i r) target channel (mutex_of channel)) }
    ensures sound { IsSound k.new }
    ensures made { k.new.made ≡ k.old.made }
{
    top_lives(k, p);
    let slot = slot_at(k, p, target);
    past(k, p);
    match try_unlock(&mut k.channels, channel, p) {
        Some(true) => {
            fire(k, first_event(channel));
            tell(k, p, slot, true);
        }
        Some(false) => tell(k, p, slot, false),
        None => {}
    }
}

/// `unlock`: a mutex that the instance owns is unlocked, which wakes all who wait for it, and 0 is answered; where the instance
/// does not own it, -1 is (IEEE 1666-2011, 6.27.3.5). The channel is named, or is that of a port at a place. It takes no
/// memory.
///
/// # Errors
/// The fault of its place; a place past the last channel of a port. Then nothing changes.
pub fn unlock(
    k: &mut Kernel,
    p: u32,
    target: Option<Store>,
    at: &ChannelUse,
) -> Result<(), RunFault>
    requires sound { IsSound k.old }
    requires top { IsOnTop k.old p }
    requires statement { HasStatement k.old p }
    ensures does { Does k.old k.new result p (λ c q i r. do_unlock c q r (here c q i r) target (channel_term at.now)) }
    ensures sound { IsSound k.new }
    ensures made { k.new.made ≡ k.old.made }
{
    top_lives(k, p);
    match used_at(k, p, at) {
        Ok(channel) => {
            unlock_channel(k, p, target, channel);
            Ok(())
        }
        Err(fault) => Err(fault),
    }
}

/// A try to lock a channel that is known.
fn trylock_channel(k: &mut Kernel, p: u32, target: Option<Store>, channel: ChannelId)
    requires sound { IsSound k.old }
    requires top { IsOnTop k.old p }
    requires statement { HasStatement k.old p }
    ensures steps { Steps k.old k.new p (λ c q i r. channels.trylock_at (passes c q r) q (here c q i r) target (mutex_of channel)) }
    ensures sound { IsSound k.new }
    ensures made { k.new.made ≡ k.old.made }
{
    top_lives(k, p);
    let slot = slot_at(k, p, target);
    past(k, p);
    match try_lock(&mut k.channels, channel, p) {
        Some(done) => tell(k, p, slot, done),
        None => {}
    }
}

/// `trylock`: a mutex is locked for the instance, if nobody owns it, and 0 is answered; where somebody owns it, -1 is
/// (IEEE 1666-2011, 6.27.3.4). The channel is named, or is that of a port at a place. It takes no memory.
///
/// # Errors
/// The fault of its place; a place past the last channel of a port. Then nothing changes.
pub fn trylock(
    k: &mut Kernel,
    p: u32,
    target: Option<Store>,
    at: &ChannelUse,
) -> Result<(), RunFault>
    requires sound { IsSound k.old }
    requires top { IsOnTop k.old p }
    requires statement { HasStatement k.old p }
    ensures does { Does k.old k.new result p (λ c q i r. do_trylock c q r (here c q i r) target (channel_term at.now)) }
    ensures sound { IsSound k.new }
    ensures made { k.new.made ≡ k.old.made }
{
    top_lives(k, p);
    match used_at(k, p, at) {
        Ok(channel) => {
            trylock_channel(k, p, target, channel);
            Ok(())
        }
        Err(fault) => Err(fault),
    }
}

/// A lock of a channel that is known. Memory is refused only where it is a mutex that somebody owns, and then nothing changes.
fn lock_channel(k: &mut Kernel, p: u32, channel: ChannelId) -> Result<(), AllocError>
    requires sound { IsSound k.old }
    requires top { IsOnTop k.old p }
    requires statement { HasStatement k.old p }
    ensures steps { OnOk result (Steps k.old k.new p (λ c q i r. channels.lock_at c q r channel (mutex_of channel))) }
    ensures stays { OnErr result (Moves k.old k.new (λ c. c)) }
    ensures blocked { OnErr result (option_map is_unlocked (element k.old.channels.mutexes (mutex_of channel)) ≡ Some false) }
    ensures sound { IsSound k.new }
    ensures made { k.new.made ≡ k.old.made }
{
    top_lives(k, p);
    match try_lock(&mut k.channels, channel, p) {
        Some(true) => {
            pass(k, p);
            Ok(())
        }
        Some(false) => match block(k, p, first_event(channel)) {
            Ok(()) => Ok(()),
            Err(_) => Err(AllocError),
        },
        None => {
            pass(k, p);
            Ok(())
        }
    }
}

/// `lock`: a mutex is locked for the instance on top, or it is blocked till the mutex is unlocked, and tries again then
/// (IEEE 1666-2011, 6.27.3.3). The channel is named, or is that of a port at a place.
///
/// # Errors
/// The fault of its place; a place past the last channel of a port; the instance would be blocked, and there is no memory for
/// that. Then nothing changes.
pub fn lock(k: &mut Kernel, p: u32, at: &ChannelUse) -> Result<(), StatementStop>
    requires sound { IsSound k.old }
    requires top { IsOnTop k.old p }
    requires statement { HasStatement k.old p }
    ensures does { DoesOrStops k.old k.new result p (λ c q i r. do_lock c q r (here c q i r) (channel_term at.now)) }
    ensures blocked { result ≡ Err StatementStop.NoMemory → Everywhere k.old p (λ h. IsOwnedHere h (channel_term at.now)) }
    ensures sound { IsSound k.new }
    ensures made { k.new.made ≡ k.old.made }
{
    top_lives(k, p);
    match used_at(k, p, at) {
        Ok(channel) => match lock_channel(k, p, channel) {
            Ok(()) => Ok(()),
            Err(_) => Err(StatementStop::NoMemory),
        },
        Err(fault) => Err(StatementStop::Fault(fault)),
    }
}
