//! What each object is to a body that names it.
ghost use Rattle.std.specs.Prelude.{◌≡◌, ◌<◌, ◌++◌, ◌∷◌, [], length, IfOk};
ghost use Rattle.elaborate_objects.specs.DesignRules.Denoting as spec;
ghost use Rattle.elaborate_design.specs.Joins.{AreEnds};

use super::counting::{behind, nothing_before};
use super::hops::{HopEnds, ends_of, number_at};
use elaborate_objects::design_rules_api::{Counts, Joined};
use elaborate_objects::flat_design_api::{ChannelId, Denoted, Object, ObjectForm};
use std::alloc::{AllocError, Global};

/// An end of a hop. A number past 32 bits is answered as out of memory.
fn socket_end(forward: bool, hop: Option<usize>) -> Result<Denoted, AllocError>
    ensures { IfOk result (λ d. d ≡ spec.socket_end forward hop) }
{
    let Some(hop) = hop else {
        return Ok(Denoted::Nothing);
    };
    match u32::try_from(hop) {
        Ok(hop) => Ok(Denoted::Socket { hop, forward }),
        Err(_) => Err(AllocError),
    }
}

/// An object of this form, by what comes before it.
fn denoted_by(
    hops: &[Joined],
    ends: &HopEnds,
    n: Counts,
    form: ObjectForm,
) -> Result<Denoted, AllocError>
    requires ends { AreEnds (length ends.now.begins.items) hops.now ends.now }
    requires below { n.objects < length ends.now.begins.items }
    ensures { IfOk result (λ d. d ≡ spec.denoted_by hops.now n form) }
{
    let events = n.events;
    match form {
        ObjectForm::Signal { .. } | ObjectForm::Clock { .. } => {
            let number = n.signals;
            Ok(Denoted::Channel(ChannelId::Signal { number, events }))
        }
        ObjectForm::Resolved => {
            let number = n.resolved;
            Ok(Denoted::Channel(ChannelId::Resolved { number, events }))
        }
        ObjectForm::Fifo { .. } => {
            let number = n.fifos;
            Ok(Denoted::Channel(ChannelId::Fifo { number, events }))
        }
        ObjectForm::Mutex => {
            let number = n.mutexes;
            Ok(Denoted::Channel(ChannelId::Mutex { number, events }))
        }
        ObjectForm::Semaphore { .. } => {
            let number = n.semaphores;
            Ok(Denoted::Channel(ChannelId::Semaphore { number, events }))
        }
        ObjectForm::Event => Ok(Denoted::Event(events)),
        ObjectForm::Keeper => Ok(Denoted::Keeper(n.keepers)),
        ObjectForm::Memory { .. } => Ok(Denoted::Memory(n.memories)),
        ObjectForm::Variable { .. } => Ok(Denoted::Variable(n.variables)),
        ObjectForm::Port { .. } => Ok(Denoted::Port(n.ports)),
        ObjectForm::Process { .. } => Ok(Denoted::Process(n.processes)),
        ObjectForm::Initiator { .. } => {
            let hop = number_at(ends.begins.as_slice(), n.objects);
            socket_end(true, hop)
        }
        ObjectForm::Target { .. } => {
            let hop = number_at(ends.ends.as_slice(), n.objects);
            socket_end(false, hop)
        }
        ObjectForm::Instance { .. } | ObjectForm::Export { .. } => Ok(Denoted::Nothing),
    }
}

/// What each object is, by its number among the objects.
pub(crate) fn all_denoted(
    alloc: Global,
    hops: &[Joined],
    objects: &[Object],
) -> Result<Vec<Denoted>, AllocError>
    ensures { IfOk result (λ all. all.items ≡ spec.all_denoted hops.now objects.now) }
{
    let ends = ends_of(alloc, objects.len(), hops)?;
    let mut all = Vec::new(alloc);
    let mut n = nothing_before();
    for object in objects {
        all.push(denoted_by(hops, &ends, n, object.form)?)?;
        n = behind(n, object.form)?;
    }
    Ok(all)
}

/// What the object of this number is.
pub(crate) fn object_denoted(all: &[Denoted], i: usize) -> Denoted
    ensures { result ≡ spec.object_denoted all.now i }
{
    match all.get(i) {
        Some(denoted) => *denoted,
        None => Denoted::Nothing,
    }
}
