//! The processes, with their static sensitivities.
ghost use Rattle.std.specs.Prelude.{◌≡◌, ◌++◌, ◌∷◌, [], map, option_to_list, slice_get, IfOk, OnOk};
ghost use Rattle.elaborate_objects.specs.DesignRules.Parts.{instance_numbers, home_of};
ghost use Rattle.elaborate_objects.specs.DesignRules.Statics as spec;

use super::counting::{behind, nothing_before};
use super::denoted::object_denoted;
use super::hops::home_of;
use elaborate_objects::event_core_api::Ev;
use elaborate_objects::flat_design_api::{
    ChannelId, CodeId, Denoted, EventMember, InstancePart, Object, ObjectForm, PortPart,
    ProcessPart, StaticUse,
};
use elaborate_objects::logic_values_api::Items;
use elaborate_objects::model_tree_api::ProcessKind;
use std::alloc::{AllocError, Global};

/// The first event of a channel.
fn first_event(channel: ChannelId) -> u32
    ensures { result ≡ spec.first_event channel }
{
    match channel {
        ChannelId::Signal { events, .. }
        | ChannelId::Resolved { events, .. }
        | ChannelId::Fifo { events, .. }
        | ChannelId::Mutex { events, .. }
        | ChannelId::Semaphore { events, .. } => events,
    }
}

/// Which of a channel's events it is, from the first one on.
fn event_place(event: EventMember) -> u32
    ensures { result ≡ spec.event_place event }
{
    match event {
        EventMember::Own
        | EventMember::DataWritten
        | EventMember::Terminated
        | EventMember::Reset => 0,
        EventMember::Posedge | EventMember::DataRead => 1,
        EventMember::Negedge => 2,
    }
}

/// An event of a channel. A number past 32 bits is answered as out of memory.
fn channel_event(event: EventMember, channel: ChannelId) -> Result<Ev, AllocError>
    ensures { IfOk result (λ found. found ≡ spec.channel_event event channel) }
{
    match first_event(channel).checked_add(event_place(event)) {
        Some(number) => Ok(Ev::Fixed(number)),
        None => Err(AllocError),
    }
}

/// Adds this event of each of these channels.
fn add_channels(
    found: &mut Items<Ev>,
    event: EventMember,
    channels: &[ChannelId],
) -> Result<(), AllocError>
    ensures { OnOk result (found.new ≡ found.old ++ map (spec.channel_event event) channels.now) }
{
    for channel in channels {
        found.push(channel_event(event, *channel)?)?;
    }
    Ok(())
}

/// The channel at a place.
fn channel_at(channels: &[ChannelId], place: u64) -> Option<ChannelId>
    ensures { result ≡ slice_get channels.now place }
{
    match channels.get(place as usize) {
        Some(channel) => Some(*channel),
        None => None,
    }
}

/// Adds this event of a channel, where there is one.
fn add_if(
    found: &mut Items<Ev>,
    event: EventMember,
    channel: Option<ChannelId>,
) -> Result<(), AllocError>
    ensures { OnOk result (found.new ≡ found.old ++ map (spec.channel_event event) (option_to_list channel)) }
{
    match channel {
        Some(channel) => {
            found.push(channel_event(event, channel)?)?;
            Ok(())
        }
        None => Ok(()),
    }
}

/// The channels of the port of this number.
fn channels_of(ports: &[PortPart], number: u32) -> &[ChannelId]
    ensures { result.now ≡ spec.channels_of_port (slice_get ports.now number) }
{
    match ports.get(number as usize) {
        Some(port) => port.channels.as_slice(),
        None => &[],
    }
}

/// Adds this event of the channels of a port, of all of them or of the one at a place.
fn add_port(
    found: &mut Items<Ev>,
    event: EventMember,
    channels: &[ChannelId],
    place: Option<u64>,
) -> Result<(), AllocError>
    ensures { OnOk result (found.new ≡ found.old ++ map (spec.channel_event event) (spec.at_place channels.now place)) }
{
    match place {
        None => add_channels(found, event, channels),
        Some(place) => add_if(found, event, channel_at(channels, place)),
    }
}

/// Adds an event of a process.
fn add_of_process(found: &mut Items<Ev>, event: EventMember, serial: u32) -> Result<(), AllocError>
    ensures { OnOk result (found.new ≡ found.old ++ spec.process_events event serial) }
{
    match event {
        EventMember::Terminated => {
            found.push(Ev::Terminated(serial))?;
            Ok(())
        }
        EventMember::Reset => {
            found.push(Ev::Restarted(serial))?;
            Ok(())
        }
        EventMember::Own
        | EventMember::Posedge
        | EventMember::Negedge
        | EventMember::DataWritten
        | EventMember::DataRead => Ok(()),
    }
}

/// Adds the events of what a name stands for.
fn add_events(
    found: &mut Items<Ev>,
    ports: &[PortPart],
    event: EventMember,
    place: Option<u64>,
    denoted: Denoted,
) -> Result<(), AllocError>
    ensures { OnOk result (found.new ≡ found.old ++ spec.events_of ports.now event place denoted) }
{
    match denoted {
        Denoted::Channel(channel) => {
            found.push(channel_event(event, channel)?)?;
            Ok(())
        }
        Denoted::Event(number) => {
            found.push(Ev::Fixed(number))?;
            Ok(())
        }
        Denoted::Port(number) => add_port(found, event, channels_of(ports, number), place),
        Denoted::Process(serial) => add_of_process(found, event, serial),
        Denoted::Nothing
        | Denoted::Keeper(_)
        | Denoted::Memory(_)
        | Denoted::Variable(_)
        | Denoted::Socket { .. } => Ok(()),
    }
}

/// The events of a static sensitivity, where these are what names stand for.
fn static_events(
    alloc: Global,
    ports: &[PortPart],
    names: &[Denoted],
    uses: &[StaticUse],
) -> Result<Items<Ev>, AllocError>
    ensures { IfOk result (λ found. found ≡ spec.static_events ports.now names.now uses.now) }
{
    let mut found = Items::new(alloc);
    for part in uses {
        let denoted = object_denoted(names, part.name as usize);
        add_events(&mut found, ports, part.event, part.place, denoted)?;
    }
    Ok(found)
}

/// What names stand for in the instance of this number among the instances.
fn names_at(instances: &[InstancePart], home: u32) -> &[Denoted]
    ensures { result.now ≡ spec.names_at instances.now home }
{
    match instances.get(home as usize) {
        Some(instance) => instance.names.as_slice(),
        None => &[],
    }
}

/// What the body of this number is sensitive to, as it is written.
fn static_list(lists: &[Items<StaticUse>], code: CodeId) -> &[StaticUse]
    ensures { result.now ≡ spec.static_list lists.now code }
{
    match lists.get(code as usize) {
        Some(list) => list.as_slice(),
        None => &[],
    }
}

/// What processes are made from: what each body is sensitive to, the ports, and the instances of modules.
#[derive(Clone, Copy)]
pub(crate) struct Sources<'a> {
    pub lists: &'a [Items<StaticUse>],
    pub ports: &'a [PortPart],
    pub instances: &'a [InstancePart],
}

/// Adds what an object of this form and number is among processes, in the instance of this number among the instances.
fn add_process(
    alloc: Global,
    found: &mut Items<ProcessPart>,
    from: &Sources,
    i: u32,
    home: u32,
    form: ObjectForm,
) -> Result<(), AllocError>
    ensures { OnOk result (found.new ≡ found.old ++ spec.process_by from.now.lists.now from.now.ports.now from.now.instances.now i home form) }
{
    match form {
        ObjectForm::Clock { code, .. } => {
            found.push(ProcessPart {
                object: i,
                kind: ProcessKind::Thread,
                home,
                code,
                sensitive: Items::new(alloc),
                dont_initialize: false,
            })?;
            Ok(())
        }
        ObjectForm::Process {
            kind,
            code,
            dont_initialize,
        } => {
            let names = names_at(from.instances, home);
            let uses = static_list(from.lists, code);
            let sensitive = static_events(alloc, from.ports, names, uses)?;
            found.push(ProcessPart {
                object: i,
                kind,
                home,
                code,
                sensitive,
                dont_initialize,
            })?;
            Ok(())
        }
        _ => Ok(()),
    }
}

/// The processes and the threads of clocks.
pub(crate) fn processes(
    alloc: Global,
    from: &Sources,
    numbers: &[u32],
    objects: &[Object],
) -> Result<Items<ProcessPart>, AllocError>
    requires { numbers.now ≡ instance_numbers objects.now }
    ensures { IfOk result (λ found. found ≡ spec.processes_of from.now.lists.now from.now.ports.now from.now.instances.now objects.now) }
{
    let mut found = Items::new(alloc);
    let mut n = nothing_before();
    for object in objects {
        let home = home_of(numbers, object.parent);
        add_process(alloc, &mut found, from, n.objects, home, object.form)?;
        n = behind(n, object.form)?;
    }
    Ok(found)
}
