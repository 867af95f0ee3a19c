//! The events that statements name.
ghost use Rattle.std.specs.Prelude.{◌≡◌, ◌+◌, ◌<◌, ◌≤◌, ◌^◌};
ghost use Rattle.kernel_view.specs.SimModel.Reading as reading;
ghost use Rattle.kernel_view.specs.SimModel.Values as values;
ghost use Rattle.kernel_view.specs.SimModel.Waiting as waiting;
ghost use Rattle.kernel_view.specs.KernelState.Kernel.{whole_design};
ghost use Rattle.kernel_view.specs.KernelState.Moves.{Lives};
ghost use Rattle.kernel_view.specs.Standings.{Everywhere};
ghost use Rattle.exec_events.specs.Numbers.{NumbersEvents};

use flat_design::{ChannelId, Denoted, EventMember, Expr, NameUse, RunFault};
use kernel_view::event_core_api::Ev;
use kernel_view::expr_eval_api::process_handle;
use kernel_view::kernel_state_api::Kernel;
use kernel_view::logic_values_api::Value;
use kernel_view::{channel_at, denoted_at, eval_at};

/// The number of the first event of a channel.
pub fn first_event(channel: ChannelId) -> u32
    ensures { result ≡ waiting.first_event channel }
{
    match channel {
        ChannelId::Signal { events, .. }
        | ChannelId::Resolved { events, .. }
        | ChannelId::Fifo { events, .. }
        | ChannelId::Mutex { events, .. }
        | ChannelId::Semaphore { events, .. } => events,
    }
}

/// Which of the events of a channel a member is.
pub fn event_offset(member: EventMember) -> u32
    ensures which { result ≡ waiting.event_offset member }
    ensures few { result ≤ 2 }
{
    match member {
        EventMember::Own
        | EventMember::DataWritten
        | EventMember::Terminated
        | EventMember::Reset => 0,
        EventMember::Posedge | EventMember::DataRead => 1,
        EventMember::Negedge => 2,
    }
}

/// An event of a channel. Where the design numbers its events nothing saturates.
fn channel_event(member: EventMember, channel: ChannelId) -> Ev
    ensures { waiting.first_event channel + 2 < 2 ^ 32 → result ≡ waiting.channel_event member channel }
{
    Ev::Fixed(first_event(channel).saturating_add(event_offset(member)))
}

/// The number of an event of the design's objects, where a name stands for one.
pub(crate) fn event_number(denoted: Denoted) -> Option<u32>
    ensures { result ≡ waiting.event_number denoted }
{
    match denoted {
        Denoted::Event(e) => Some(e),
        Denoted::Nothing
        | Denoted::Channel(_)
        | Denoted::Keeper(_)
        | Denoted::Memory(_)
        | Denoted::Variable(_)
        | Denoted::Port(_)
        | Denoted::Process(_)
        | Denoted::Socket { .. } => None,
    }
}

/// An event of what a name that the module declares stands for: itself, or an event of its channel.
///
/// # Errors
/// A place past the last channel of a port; a name that has no event.
fn declared_event(
    k: &Kernel,
    p: u32,
    n: u32,
    place: Option<u64>,
    member: EventMember,
) -> Result<Ev, RunFault>
    requires lives { Lives k.now p }
    requires numbers { NumbersEvents (whole_design k.now) }
    ensures { Everywhere k.now p (λ h. result ≡ waiting.object_event h member place (reading.denotes h n)) }
{
    match event_number(denoted_at(k, p, n)) {
        Some(e) => Ok(Ev::Fixed(e)),
        None => match channel_at(k, p, n, place) {
            Ok(channel) => Ok(channel_event(member, channel)),
            Err(fault) => Err(fault),
        },
    }
}

/// An event of what a name stands for. A local variable has none.
///
/// # Errors
/// A place past the last channel of a port; a name that has no event.
fn object_event(
    k: &Kernel,
    p: u32,
    n: NameUse,
    place: Option<u64>,
    member: EventMember,
) -> Result<Ev, RunFault>
    requires lives { Lives k.now p }
    requires numbers { NumbersEvents (whole_design k.now) }
    ensures { Everywhere k.now p (λ h. result ≡ waiting.named_object_event h member place n) }
{
    match n {
        NameUse::Local(_) => Err(RunFault::EmptyHandle),
        NameUse::Declared(i) => declared_event(k, p, i, place, member),
    }
}

/// The handle of a process that a value is.
fn process_in(value: Result<Value, RunFault>) -> Option<u32>
    ensures { result ≡ reading.handle_in value values.process_handle }
{
    match value {
        Ok(v) => process_handle(v),
        Err(_) => None,
    }
}

/// The process that a name holds, to use it.
///
/// # Errors
/// An empty handle.
fn process_at(k: &Kernel, p: u32, n: NameUse) -> Result<u32, RunFault>
    requires { Lives k.now p }
    ensures { Everywhere k.now p (λ h. result ≡ reading.not_empty (reading.process_of h n)) }
{
    match process_in(eval_at(k, p, &Expr::Name(n))) {
        Some(q) => Ok(q),
        None => Err(RunFault::EmptyHandle),
    }
}

/// The event that a statement names where it stands, its place evaluated.
///
/// # Errors
/// A place past the last channel of a port; a name that has no event; an empty handle.
#[inline(always)]
pub(crate) fn event_at(
    k: &Kernel,
    p: u32,
    n: NameUse,
    place: Option<u64>,
    member: EventMember,
) -> Result<Ev, RunFault>
    requires lives { Lives k.now p }
    requires numbers { NumbersEvents (whole_design k.now) }
    ensures { Everywhere k.now p (λ h. result ≡ waiting.event_of h n place member) }
{
    match member {
        EventMember::Own
        | EventMember::Posedge
        | EventMember::Negedge
        | EventMember::DataWritten
        | EventMember::DataRead => object_event(k, p, n, place, member),
        EventMember::Terminated => match process_at(k, p, n) {
            Ok(q) => Ok(Ev::Terminated(q)),
            Err(fault) => Err(fault),
        },
        EventMember::Reset => match process_at(k, p, n) {
            Ok(q) => Ok(Ev::Restarted(q)),
            Err(fault) => Err(fault),
        },
    }
}
