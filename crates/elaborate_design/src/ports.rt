//! The ports, with their channels.
ghost use Rattle.std.specs.Prelude.{◌≡◌, ◌++◌, ◌∷◌, [], IfOk, OnOk};
ghost use Rattle.elaborate_objects.specs.DesignRules.Bound.{ports_from};
ghost use Rattle.elaborate_objects.specs.DesignRules.Parts as spec;
ghost use Rattle.elaborate_design.specs.Linked.{channels_at, ports_among};

use super::counting::{behind, nothing_before};
use super::denoted::object_denoted;
use elaborate_objects::design_rules_api::BoundPort;
use elaborate_objects::flat_design_api::{ChannelId, Denoted, ObjectForm, Objects, PortPart};
use elaborate_objects::logic_values_api::Items;
use std::alloc::{AllocError, Global};

/// The channel that an object is.
fn channel_in(denoted: Denoted) -> Option<ChannelId>
    ensures { result ≡ spec.channel_in denoted }
{
    match denoted {
        Denoted::Channel(channel) => Some(channel),
        _ => None,
    }
}

/// Adds the channel that the object of this number is.
fn add_channel(channels: &mut Items<ChannelId>, all: &[Denoted], i: u32) -> Result<(), AllocError>
    ensures { OnOk result (channels.new ≡ channels.old ++ spec.channels_among all.now (i ∷ [])) }
{
    if let Some(channel) = channel_in(object_denoted(all, i as usize)) {
        channels.push(channel)?;
    }
    Ok(())
}

/// The channels that the objects of these numbers are.
fn channels_among(
    alloc: Global,
    all: &[Denoted],
    numbers: &[u32],
) -> Result<Items<ChannelId>, AllocError>
    ensures { IfOk result (λ channels. channels ≡ spec.channels_among all.now numbers.now) }
{
    let mut channels = Items::new(alloc);
    for i in numbers {
        add_channel(&mut channels, all, *i)?;
    }
    Ok(channels)
}

/// Where the bindings of the port of this number lead.
fn bound_channels(ports: &[BoundPort], number: u32) -> &[u32]
    ensures { result.now ≡ channels_at ports.now number }
{
    match ports.get(number as usize) {
        Some(port) => port.channels.as_slice(),
        None => &[],
    }
}

/// Adds what an object of this form and number is among ports, whose bindings lead to objects of these numbers.
fn add_port(
    alloc: Global,
    found: &mut Items<PortPart>,
    all: &[Denoted],
    ends: &[u32],
    i: u32,
    form: ObjectForm,
) -> Result<(), AllocError>
    ensures { OnOk result (found.new ≡ found.old ++ spec.port_by all.now ends.now i form) }
{
    match form {
        ObjectForm::Port { leads_to, .. } => {
            let channels = channels_among(alloc, all, ends)?;
            found.push(PortPart {
                object: i,
                leads_to,
                channels,
            })?;
            Ok(())
        }
        _ => Ok(()),
    }
}

/// The ports, each with its channels.
pub(crate) fn ports(
    alloc: Global,
    all: &[Denoted],
    bound: &[BoundPort],
    objects: &Objects,
) -> Result<Items<PortPart>, AllocError>
    requires { bound.now ≡ ports_from objects.now 0 objects.now.list }
    ensures { IfOk result (λ found. found ≡ ports_among objects.now all.now) }
{
    let mut found = Items::new(alloc);
    let mut n = nothing_before();
    for object in objects.list.as_slice() {
        let ends = bound_channels(bound, n.ports);
        add_port(alloc, &mut found, all, ends, n.objects, object.form)?;
        n = behind(n, object.form)?;
    }
    Ok(found)
}
