//! The events of the static sensitivity of a new instance (IEEE 1666-2011, 5.5 and 5.2.14).
ghost use Rattle.std.specs.Prelude.{◌≡◌, ◌∷◌, ◌++◌, ◌≤◌, [], All, IfSome, IfOk, OnOk, map, slice_get};
ghost use Rattle.exec_data.specs.SimModel.Calls as calls;
ghost use Rattle.exec_data.specs.SimModel.Waiting as waiting;
ghost use Rattle.exec_events.specs.Numbers.{NumbersEvents};
ghost use Rattle.exec_calls.specs.Sensitive.{HasNumbers, NumbersThose, static_in};

use exec_data::event_core_api::Ev;
use exec_data::kernel_view_api::denoted_in;
use exec_data::logic_values_api::Items;
use exec_events::{event_offset, first_event};
use flat_design::{ChannelId, Denoted, Design, EventMember, PortPart, StaticUse};
use std::alloc::{AllocError, Global};

/// An event of a channel.
fn channel_event(member: EventMember, channel: ChannelId) -> Ev
    requires { HasNumbers channel }
    ensures { result ≡ waiting.channel_event member channel }
{
    Ev::Fixed(first_event(channel) + event_offset(member))
}

/// Adds an event.
///
/// # Errors
/// There is no memory for it.
fn add(found: &mut Items<Ev>, e: Ev) -> Result<(), AllocError>
    ensures { OnOk result (found.new ≡ found.old ++ e ∷ []) }
{
    match found.push(e) {
        Ok(()) => Ok(()),
        Err(_) => Err(AllocError),
    }
}

/// Adds this event of each of these channels.
///
/// # Errors
/// There is no memory for them.
fn add_channels(
    found: &mut Items<Ev>,
    member: EventMember,
    channels: &[ChannelId],
) -> Result<(), AllocError>
    requires { All HasNumbers channels.now }
    ensures { OnOk result (found.new ≡ found.old ++ map (waiting.channel_event member) channels.now) }
{
    for channel in channels {
        add(found, channel_event(member, *channel))?;
    }
    Ok(())
}

/// Adds this event of a channel, where there is one.
///
/// # Errors
/// There is no memory for it.
fn add_if(
    found: &mut Items<Ev>,
    member: EventMember,
    channel: Option<ChannelId>,
) -> Result<(), AllocError>
    requires { IfSome channel HasNumbers }
    ensures { OnOk result (found.new ≡ found.old ++ map (waiting.channel_event member) (calls.one_of channel)) }
{
    match channel {
        Some(channel) => add(found, channel_event(member, channel)),
        None => Ok(()),
    }
}

/// The channels of the port of this number; none where there is no such port.
fn channels_of(ports: &[PortPart], n: u32) -> &[ChannelId]
    ensures { result.now ≡ calls.port_channels (slice_get ports.now n) }
{
    match ports.get(n as usize) {
        Some(port) => port.channels.as_slice(),
        None => &[],
    }
}

/// Adds this event of the channels of a port: of the one at a place, or of all where no place is written.
///
/// # Errors
/// There is no memory for them.
fn add_port(
    found: &mut Items<Ev>,
    member: EventMember,
    channels: &[ChannelId],
    place: Option<u64>,
) -> Result<(), AllocError>
    requires { All HasNumbers channels.now }
    ensures { OnOk result (found.new ≡ found.old ++ map (waiting.channel_event member) (calls.at_place channels.now place)) }
{
    match place {
        None => add_channels(found, member, channels),
        Some(i) => add_if(found, member, channels.get(i as usize).copied()),
    }
}

/// Adds an event of a process.
///
/// # Errors
/// There is no memory for it.
fn add_of_process(found: &mut Items<Ev>, member: EventMember, serial: u32) -> Result<(), AllocError>
    ensures { OnOk result (found.new ≡ found.old ++ calls.process_events member serial) }
{
    match member {
        EventMember::Terminated => add(found, Ev::Terminated(serial)),
        EventMember::Reset => add(found, Ev::Restarted(serial)),
        EventMember::Own
        | EventMember::Posedge
        | EventMember::Negedge
        | EventMember::DataWritten
        | EventMember::DataRead => Ok(()),
    }
}

/// Adds the events of what a name stands for.
///
/// # Errors
/// There is no memory for them.
fn add_events(
    found: &mut Items<Ev>,
    design: &Design,
    member: EventMember,
    place: Option<u64>,
    denoted: Denoted,
) -> Result<(), AllocError>
    requires { NumbersThose design.now denoted }
    ensures { OnOk result (found.new ≡ found.old ++ calls.static_of design.now member place denoted) }
{
    match denoted {
        Denoted::Channel(channel) => add(found, channel_event(member, channel)),
        Denoted::Event(n) => add(found, Ev::Fixed(n)),
        Denoted::Port(n) => add_port(
            found,
            member,
            channels_of(design.ports.as_slice(), n),
            place,
        ),
        Denoted::Process(serial) => add_of_process(found, member, serial),
        Denoted::Nothing
        | Denoted::Keeper(_)
        | Denoted::Memory(_)
        | Denoted::Variable(_)
        | Denoted::Socket { .. } => Ok(()),
    }
}

/// The events of a static sensitivity that is written in the instance of a module of this number. A port without a place
/// stands for all its channels.
///
/// # Errors
/// There is no memory for them.
pub(crate) fn static_events(
    alloc: Global,
    design: &Design,
    home: u32,
    uses: &[StaticUse],
) -> Result<Items<Ev>, AllocError>
    requires { NumbersEvents design.now }
    ensures { IfOk result (λ found. found ≡ static_in design.now home uses.now) }
{
    let mut found = Items::new(alloc);
    for part in uses {
        let denoted = denoted_in(design, home, part.name);
        add_events(&mut found, design, part.event, part.place, denoted)?;
    }
    Ok(found)
}
