//! The channel that a statement is for.
ghost use Rattle.std.specs.Prelude.{◌≡◌};
ghost use Rattle.flat_design.specs.Code.{channel_term};
ghost use Rattle.flat_design.specs.declared.names.EventMember.TheVariants as member;
ghost use Rattle.kernel_view.specs.SimModel.Channels as channels;
ghost use Rattle.kernel_view.specs.SimModel.Waiting.{channel_event};
ghost use Rattle.kernel_view.specs.KernelState.Moves.{Lives};
ghost use Rattle.kernel_view.specs.Standings.{Everywhere};
ghost use Rattle.exec_channels.specs.Tried.{used_here};

use flat_design::{ChannelId, ChannelUse, RunFault};
use kernel_view::event_core_api::Ev;
use kernel_view::kernel_state_api::Kernel;
use kernel_view::{channel_at, eval_place_at};

/// The channel that a statement is for, where the next statement of an instance stands.
///
/// # Errors
/// The fault of its place; a place past the last channel of a port.
pub(crate) fn used_at(k: &Kernel, p: u32, at: &ChannelUse) -> Result<ChannelId, RunFault>
    requires { Lives k.now p }
    ensures { Everywhere k.now p (λ h. result ≡ used_here h (channel_term at.now)) }
{
    let place = eval_place_at(k, p, &at.place)?;
    channel_at(k, p, at.name, place)
}

/// The number of a channel among the fifos, where it is one.
pub(crate) fn fifo_number(channel: ChannelId) -> Option<u32>
    ensures { result ≡ channels.fifo_of channel }
{
    match channel {
        ChannelId::Fifo { number, .. } => Some(number),
        ChannelId::Signal { .. }
        | ChannelId::Resolved { .. }
        | ChannelId::Mutex { .. }
        | ChannelId::Semaphore { .. } => None,
    }
}

/// The number of a channel among the mutexes, where it is one.
pub(crate) fn mutex_number(channel: ChannelId) -> Option<u32>
    ensures { result ≡ channels.mutex_of channel }
{
    match channel {
        ChannelId::Mutex { number, .. } => Some(number),
        ChannelId::Signal { .. }
        | ChannelId::Resolved { .. }
        | ChannelId::Fifo { .. }
        | ChannelId::Semaphore { .. } => None,
    }
}

/// The number of a channel among the semaphores, where it is one.
pub(crate) fn semaphore_number(channel: ChannelId) -> Option<u32>
    ensures { result ≡ channels.semaphore_of channel }
{
    match channel {
        ChannelId::Semaphore { number, .. } => Some(number),
        ChannelId::Signal { .. }
        | ChannelId::Resolved { .. }
        | ChannelId::Fifo { .. }
        | ChannelId::Mutex { .. } => None,
    }
}

/// The first event of a channel: that of a mutex or a semaphore, and data written of a fifo.
pub(crate) fn first_event(channel: ChannelId) -> Ev
    ensures own { result ≡ channel_event member.Own channel }
    ensures written { result ≡ channel_event member.DataWritten channel }
{
    match channel {
        ChannelId::Signal { events, .. }
        | ChannelId::Resolved { events, .. }
        | ChannelId::Fifo { events, .. }
        | ChannelId::Mutex { events, .. }
        | ChannelId::Semaphore { events, .. } => Ev::Fixed(events),
    }
}
