//! What deeds and static sensitivities use, noted.
ghost use Rattle.std.specs.Prelude.{◌≡◌, ℕ, OnOk, slice_get, option_to_list};
ghost use Rattle.std.specs.List.{flat_map};
ghost use Rattle.order_free.specs.Uses as uses;
ghost use Rattle.flat_design.specs.Denotes as denotes;
ghost use Rattle.order_free.specs.declared.uses.Use.TheVariants as used;
ghost use Rattle.order_free.specs.Tables.{Took, claims, claims_in, deeds_in, uses_of_events};
ghost use Rattle.order_free.specs.Spreading.{label_at};

use super::spreading::label_at;
use super::tables::{Tables, note};
use super::users::Users;
use crate::{BlockPart, Deed, Use};
use flat_design::event_core_api::Ev;
use flat_design::{ChannelId, Denoted, Design};
use std::alloc::AllocError;

/// What the name at this place of its module stands for in the instance of this number.
fn denoted_at(design: &Design, home: usize, n: u32) -> Denoted
    ensures { result ≡ denotes.denoted_at design.now home n }
{
    match design.instances.as_slice().get(home) {
        None => Denoted::Nothing,
        Some(instance) => match instance.names.as_slice().get(n as usize) {
            None => Denoted::Nothing,
            Some(what) => *what,
        },
    }
}

/// What is kept under a name.
fn kept_under(what: Denoted) -> Option<Use>
    ensures { option_to_list result ≡ uses.kept_under what }
{
    match what {
        Denoted::Nothing => None,
        Denoted::Channel(_) => None,
        Denoted::Event(_) => None,
        Denoted::Keeper(_) => Some(Use::Quantum),
        Denoted::Memory(m) => Some(Use::Memory(m)),
        Denoted::Variable(v) => Some(Use::Variable(v)),
        Denoted::Port(_) => None,
        Denoted::Process(_) => None,
        Denoted::Socket { hop: _, forward: _ } => None,
    }
}

fn written_to(channel: ChannelId) -> Option<Use>
    ensures { option_to_list result ≡ uses.written_to channel }
{
    match channel {
        ChannelId::Signal { number, events: _ } => Some(Use::WritesSignal(number)),
        ChannelId::Resolved {
            number: _,
            events: _,
        } => None,
        ChannelId::Fifo { number, events: _ } => Some(Use::WritesFifo(number)),
        ChannelId::Mutex {
            number: _,
            events: _,
        } => None,
        ChannelId::Semaphore {
            number: _,
            events: _,
        } => None,
    }
}

fn read_from(channel: ChannelId) -> Option<Use>
    ensures { option_to_list result ≡ uses.read_from channel }
{
    match channel {
        ChannelId::Signal {
            number: _,
            events: _,
        } => None,
        ChannelId::Resolved {
            number: _,
            events: _,
        } => None,
        ChannelId::Fifo { number, events: _ } => Some(Use::ReadsFifo(number)),
        ChannelId::Mutex {
            number: _,
            events: _,
        } => None,
        ChannelId::Semaphore {
            number: _,
            events: _,
        } => None,
    }
}

/// The notification of the event under a name.
fn notified_under(what: Denoted) -> Option<Use>
    ensures { option_to_list result ≡ uses.events_under (λ e. used.Notifies e) what }
{
    match what {
        Denoted::Nothing => None,
        Denoted::Channel(_) => None,
        Denoted::Event(event) => Some(Use::Notifies(event)),
        Denoted::Keeper(_) => None,
        Denoted::Memory(_) => None,
        Denoted::Variable(_) => None,
        Denoted::Port(_) => None,
        Denoted::Process(_) => None,
        Denoted::Socket { hop: _, forward: _ } => None,
    }
}

/// The cancellation of the event under a name.
fn cancelled_under(what: Denoted) -> Option<Use>
    ensures { option_to_list result ≡ uses.events_under (λ e. used.Cancels e) what }
{
    match what {
        Denoted::Nothing => None,
        Denoted::Channel(_) => None,
        Denoted::Event(event) => Some(Use::Cancels(event)),
        Denoted::Keeper(_) => None,
        Denoted::Memory(_) => None,
        Denoted::Variable(_) => None,
        Denoted::Port(_) => None,
        Denoted::Process(_) => None,
        Denoted::Socket { hop: _, forward: _ } => None,
    }
}

/// Notes a use, where there is one.
fn note_if(what: Option<Use>, x: Users, tables: &mut Tables) -> Result<(), AllocError>
    ensures { OnOk result (Took (claims x (option_to_list what)) tables.old tables.new) }
{
    match what {
        None => Ok(()),
        Some(what) => note(tables, what, x),
    }
}

fn note_written_channels(
    channels: &[ChannelId],
    x: Users,
    tables: &mut Tables,
) -> Result<(), AllocError>
    ensures { OnOk result (Took (claims x (flat_map uses.written_to channels.now)) tables.old tables.new) }
{
    for channel in channels {
        note_if(written_to(*channel), x, tables)?;
    }
    Ok(())
}

fn note_read_channels(
    channels: &[ChannelId],
    x: Users,
    tables: &mut Tables,
) -> Result<(), AllocError>
    ensures { OnOk result (Took (claims x (flat_map uses.read_from channels.now)) tables.old tables.new) }
{
    for channel in channels {
        note_if(read_from(*channel), x, tables)?;
    }
    Ok(())
}

/// The channels of a port.
fn channels_of_port(design: &Design, port: u32) -> &[ChannelId]
    ensures { result.now ≡ uses.channels_of_port (slice_get design.now.ports port) }
{
    match design.ports.as_slice().get(port as usize) {
        None => &[],
        Some(port) => port.channels.as_slice(),
    }
}

fn note_written(
    design: &Design,
    what: Denoted,
    x: Users,
    tables: &mut Tables,
) -> Result<(), AllocError>
    ensures { OnOk result (Took (claims x (flat_map uses.written_to (uses.channels_under design.now what))) tables.old tables.new) }
{
    match what {
        Denoted::Channel(channel) => note_written_channels(&[channel], x, tables),
        Denoted::Port(port) => note_written_channels(channels_of_port(design, port), x, tables),
        Denoted::Nothing => note_if(None, x, tables),
        Denoted::Event(_) => note_if(None, x, tables),
        Denoted::Keeper(_) => note_if(None, x, tables),
        Denoted::Memory(_) => note_if(None, x, tables),
        Denoted::Variable(_) => note_if(None, x, tables),
        Denoted::Process(_) => note_if(None, x, tables),
        Denoted::Socket { hop: _, forward: _ } => note_if(None, x, tables),
    }
}

fn note_read(
    design: &Design,
    what: Denoted,
    x: Users,
    tables: &mut Tables,
) -> Result<(), AllocError>
    ensures { OnOk result (Took (claims x (flat_map uses.read_from (uses.channels_under design.now what))) tables.old tables.new) }
{
    match what {
        Denoted::Channel(channel) => note_read_channels(&[channel], x, tables),
        Denoted::Port(port) => note_read_channels(channels_of_port(design, port), x, tables),
        Denoted::Nothing => note_if(None, x, tables),
        Denoted::Event(_) => note_if(None, x, tables),
        Denoted::Keeper(_) => note_if(None, x, tables),
        Denoted::Memory(_) => note_if(None, x, tables),
        Denoted::Variable(_) => note_if(None, x, tables),
        Denoted::Process(_) => note_if(None, x, tables),
        Denoted::Socket { hop: _, forward: _ } => note_if(None, x, tables),
    }
}

/// Notes what a deed uses in the instance of this number.
fn note_deed(
    design: &Design,
    home: usize,
    deed: Deed,
    x: Users,
    tables: &mut Tables,
) -> Result<(), AllocError>
    ensures { OnOk result (Took (claims x (uses.uses_of_deed design.now home deed)) tables.old tables.new) }
{
    match deed {
        Deed::Unfit => note_if(Some(Use::Unfit), x, tables),
        Deed::Watches => note_if(Some(Use::Watches), x, tables),
        Deed::Quantum => note_if(Some(Use::Quantum), x, tables),
        Deed::Keeps(n) => note_if(kept_under(denoted_at(design, home, n)), x, tables),
        Deed::Writes(n) => note_written(design, denoted_at(design, home, n), x, tables),
        Deed::Reads(n) => note_read(design, denoted_at(design, home, n), x, tables),
        Deed::Notifies(n) => note_if(notified_under(denoted_at(design, home, n)), x, tables),
        Deed::Cancels(n) => note_if(cancelled_under(denoted_at(design, home, n)), x, tables),
    }
}

fn note_deeds(
    design: &Design,
    home: usize,
    deeds: &[Deed],
    x: Users,
    tables: &mut Tables,
) -> Result<(), AllocError>
    ensures { OnOk result (Took (claims x (flat_map (uses.uses_of_deed design.now home) deeds.now)) tables.old tables.new) }
{
    for deed in deeds {
        note_deed(design, home, *deed, x, tables)?;
    }
    Ok(())
}

/// What the statements of a block use by names.
fn deeds_of(parts: &[BlockPart], block: u32) -> &[Deed]
    ensures { result.now ≡ deeds_in (slice_get parts.now block) }
{
    match parts.get(block as usize) {
        None => &[],
        Some(part) => part.deeds.as_slice(),
    }
}

/// Notes what blocks use in the instance of this number, by those that their labels tell.
pub(crate) fn note_blocks(
    design: &Design,
    home: usize,
    parts: &[BlockPart],
    labels: &[Users],
    blocks: &[u32],
    tables: &mut Tables,
) -> Result<(), AllocError>
    ensures { OnOk result (Took (claims_in design.now home parts.now labels.now blocks.now) tables.old tables.new) }
{
    for block in blocks {
        note_deeds(
            design,
            home,
            deeds_of(parts, *block),
            label_at(labels, *block),
            tables,
        )?;
    }
    Ok(())
}

fn use_of_event(event: Ev) -> Option<Use>
    ensures { option_to_list result ≡ uses.uses_of_event event }
{
    match event {
        Ev::Fixed(_) => None,
        Ev::Terminated(_) => Some(Use::Watches),
        Ev::Restarted(_) => Some(Use::Watches),
    }
}

/// Notes what a static sensitivity uses.
pub(crate) fn note_events(events: &[Ev], x: Users, tables: &mut Tables) -> Result<(), AllocError>
    ensures { OnOk result (Took (claims x (uses_of_events events.now)) tables.old tables.new) }
{
    for event in events {
        note_if(use_of_event(*event), x, tables)?;
    }
    Ok(())
}
