//! Statements on semaphores (IEEE 1666-2011, 6.29).
ghost use Rattle.std.specs.Prelude.{◌≡◌, ◌<◌, ◌+◌, ◌-◌, ◌^◌, Some, Err, false, All, OnOk, OnErr, is_some, not, option_map};
ghost use Rattle.kernel_view.specs.FifoSync.Locks.{is_used_up};
ghost use Rattle.flat_design.specs.Code.{channel_term};
ghost use Rattle.kernel_view.specs.SimModel.Channels as channels;
ghost use Rattle.kernel_view.specs.SimModel.Channels.{do_post, do_sem_trywait, do_sem_wait, element, semaphore_of, taken_from};
ghost use Rattle.kernel_view.specs.SimModel.Reading.{here};
ghost use Rattle.kernel_view.specs.SimModel.Storing.{passes};
ghost use Rattle.kernel_view.specs.KernelState.Kernel.{IsSound};
ghost use Rattle.kernel_view.specs.KernelState.Moves.{Moves, Steps, Does, HasStatement, IsOnTop};
ghost use Rattle.kernel_view.specs.KernelState.Stopping.{DoesOrStops};
ghost use Rattle.kernel_view.specs.Standings.{Everywhere};
ghost use Rattle.exec_channels.specs.Tried.{changed_in, IsUsedUpHere};

use crate::slots::{past, slot_at, tell};
use crate::uses::{first_event, semaphore_number, used_at};
use flat_design::{ChannelId, ChannelUse, RunFault, Store};
use kernel_view::kernel_channels_api::ChannelBoard;
use kernel_view::kernel_state_api::{Kernel, StatementStop, block, fire, pass, top_lives};
use std::alloc::AllocError;

/// Takes one of the value of a semaphore, if it is not used up: says whether it did, where the channel is a semaphore.
fn try_take(board: &mut ChannelBoard, channel: ChannelId) -> Option<bool>
    ensures done { result ≡ option_map (λ v. not (is_used_up v)) (element board.old.semaphores (semaphore_of channel)) }
    ensures left { board.new ≡ record board.old { semaphores = changed_in board.old.semaphores (semaphore_of channel) taken_from } }
{
    match semaphore_number(channel) {
        Some(n) => board.wait_semaphore(n),
        None => None,
    }
}

/// Adds one to the value of a semaphore: says whether there is such a semaphore. None has the greatest value that there may be.
fn give(board: &mut ChannelBoard, channel: ChannelId) -> bool
    requires room { All (λ v. v < 2 ^ 64 - 1) board.old.semaphores }
    ensures there { result ≡ is_some (element board.old.semaphores (semaphore_of channel)) }
    ensures left { board.new ≡ record board.old { semaphores = changed_in board.old.semaphores (semaphore_of channel) (λ v. v + 1) } }
{
    match semaphore_number(channel) {
        Some(n) => board.post_semaphore(n),
        None => false,
    }
}

/// A post to a channel that is known.
fn post_channel(k: &mut Kernel, p: u32, channel: ChannelId)
    requires sound { IsSound k.old }
    requires top { IsOnTop k.old p }
    requires statement { HasStatement k.old p }
    requires posts { All (λ v. v < 2 ^ 64 - 1) k.old.channels.semaphores }
    ensures steps { Steps k.old k.new p (λ c q i r. channels.post_at (passes c q r) channel (semaphore_of channel)) }
    ensures sound { IsSound k.new }
    ensures made { k.new.made ≡ k.old.made }
{
    top_lives(k, p);
    if give(&mut k.channels, channel) {
        pass(k, p);
        fire(k, first_event(channel));
    } else {
        pass(k, p);
    }
}

/// `post`: the value of a semaphore rises by one, which wakes all who wait for it (IEEE 1666-2011, 6.29.3.5). The channel is
/// named, or is that of a port at a place. It takes no memory: no semaphore has the greatest value that there may be.
///
/// # Errors
/// The fault of its place; a place past the last channel of a port. Then nothing changes.
pub fn post(k: &mut Kernel, p: u32, at: &ChannelUse) -> Result<(), RunFault>
    requires sound { IsSound k.old }
    requires top { IsOnTop k.old p }
    requires statement { HasStatement k.old p }
    requires posts { All (λ v. v < 2 ^ 64 - 1) k.old.channels.semaphores }
    ensures does { Does k.old k.new result p (λ c q i r. do_post c q r (here c q i r) (channel_term at.now)) }
    ensures sound { IsSound k.new }
    ensures made { k.new.made ≡ k.old.made }
{
    top_lives(k, p);
    match used_at(k, p, at) {
        Ok(channel) => {
            post_channel(k, p, channel);
            Ok(())
        }
        Err(fault) => Err(fault),
    }
}

/// A try to take from a channel that is known.
fn trywait_channel(k: &mut Kernel, p: u32, target: Option<Store>, channel: ChannelId)
    requires sound { IsSound k.old }
    requires top { IsOnTop k.old p }
    requires statement { HasStatement k.old p }
    ensures steps { Steps k.old k.new p (λ c q i r. channels.sem_trywait_at (passes c q r) q (here c q i r) target (semaphore_of channel)) }
    ensures sound { IsSound k.new }
    ensures made { k.new.made ≡ k.old.made }
{
    top_lives(k, p);
    let slot = slot_at(k, p, target);
    past(k, p);
    match try_take(&mut k.channels, channel) {
        Some(done) => tell(k, p, slot, done),
        None => {}
    }
}

/// `sem_trywait`: the value of a semaphore falls by one, if it is not 0, and 0 is answered; where it is 0, -1 is
/// (IEEE 1666-2011, 6.29.3.4). The channel is named, or is that of a port at a place. It takes no memory.
///
/// # Errors
/// The fault of its place; a place past the last channel of a port. Then nothing changes.
pub fn sem_trywait(
    k: &mut Kernel,
    p: u32,
    target: Option<Store>,
    at: &ChannelUse,
) -> Result<(), RunFault>
    requires sound { IsSound k.old }
    requires top { IsOnTop k.old p }
    requires statement { HasStatement k.old p }
    ensures does { Does k.old k.new result p (λ c q i r. do_sem_trywait c q r (here c q i r) target (channel_term at.now)) }
    ensures sound { IsSound k.new }
    ensures made { k.new.made ≡ k.old.made }
{
    top_lives(k, p);
    match used_at(k, p, at) {
        Ok(channel) => {
            trywait_channel(k, p, target, channel);
            Ok(())
        }
        Err(fault) => Err(fault),
    }
}

/// A wait for a channel that is known. Memory is refused only where it is a semaphore of which nothing is left, and then nothing
/// changes.
fn wait_channel(k: &mut Kernel, p: u32, channel: ChannelId) -> Result<(), AllocError>
    requires sound { IsSound k.old }
    requires top { IsOnTop k.old p }
    requires statement { HasStatement k.old p }
    ensures steps { OnOk result (Steps k.old k.new p (λ c q i r. channels.sem_wait_at c q r channel (semaphore_of channel))) }
    ensures stays { OnErr result (Moves k.old k.new (λ c. c)) }
    ensures blocked { OnErr result (option_map (λ v. not (is_used_up v)) (element k.old.channels.semaphores (semaphore_of channel)) ≡ Some false) }
    ensures sound { IsSound k.new }
    ensures made { k.new.made ≡ k.old.made }
{
    top_lives(k, p);
    match try_take(&mut k.channels, channel) {
        Some(true) => {
            pass(k, p);
            Ok(())
        }
        Some(false) => match block(k, p, first_event(channel)) {
            Ok(()) => Ok(()),
            Err(_) => Err(AllocError),
        },
        None => {
            pass(k, p);
            Ok(())
        }
    }
}

/// `sem_wait`: the value of a semaphore falls by one, or the instance on top is blocked till one is posted, and tries again
/// then (IEEE 1666-2011, 6.29.3.3). The channel is named, or is that of a port at a place.
///
/// # Errors
/// The fault of its place; a place past the last channel of a port; the instance would be blocked, and there is no memory for
/// that. Then nothing changes.
pub fn sem_wait(k: &mut Kernel, p: u32, at: &ChannelUse) -> Result<(), StatementStop>
    requires sound { IsSound k.old }
    requires top { IsOnTop k.old p }
    requires statement { HasStatement k.old p }
    ensures does { DoesOrStops k.old k.new result p (λ c q i r. do_sem_wait c q r (here c q i r) (channel_term at.now)) }
    ensures blocked { result ≡ Err StatementStop.NoMemory → Everywhere k.old p (λ h. IsUsedUpHere h (channel_term at.now)) }
    ensures sound { IsSound k.new }
    ensures made { k.new.made ≡ k.old.made }
{
    top_lives(k, p);
    match used_at(k, p, at) {
        Ok(channel) => match wait_channel(k, p, channel) {
            Ok(()) => Ok(()),
            Err(_) => Err(StatementStop::NoMemory),
        },
        Err(fault) => Err(StatementStop::Fault(fault)),
    }
}
