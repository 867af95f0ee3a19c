//! The hops, and the hop that a socket is an end of.
ghost use Rattle.std.specs.Prelude.{◌≡◌, ◌<◌, length, replicate, map, slice_get, unwrap_or, None, IfOk};
ghost use Rattle.elaborate_objects.specs.DesignRules.Objects.{form_at, parent_at};
ghost use Rattle.elaborate_objects.specs.DesignRules.Denoting.{begins_at, ends_at};
ghost use Rattle.elaborate_objects.specs.DesignRules.Parts.{handlers_at, hop_of, instance_numbers};
ghost use Rattle.elaborate_design.specs.Joins.{with_first_at, number_at, AreFirst, AreEnds};

use elaborate_objects::design_rules_api::Joined;
use elaborate_objects::flat_design_api::{CodeId, Hop, ObjectForm, Objects};
use elaborate_objects::logic_values_api::Items;
use std::alloc::{AllocError, Global};

/// For each object the number of the first hop that begins there, and that of the first hop that ends there.
#[derive(Drop)]
pub(crate) struct HopEnds {
    pub begins: Vec<Option<usize>>,
    pub ends: Vec<Option<usize>>,
}

/// So many places without a number.
fn no_numbers(alloc: Global, count: usize) -> Result<Vec<Option<usize>>, AllocError>
    ensures { IfOk result (λ table. table.items ≡ replicate count None) }
{
    let mut table = Vec::new(alloc);
    for _ in 0..count {
        table.push(None)?;
    }
    Ok(table)
}

/// Gives a place a number where it has none yet.
fn set_first(table: &mut Vec<Option<usize>>, i: u32, number: usize)
    ensures { table.new.items ≡ with_first_at table.old.items i number }
{
    if let Some(None) = table.get(i as usize).copied() {
        table[i as usize] = Some(number);
    }
}

/// The first hop that begins at each object.
fn begins(alloc: Global, count: usize, hops: &[Joined]) -> Result<Vec<Option<usize>>, AllocError>
    ensures count { IfOk result (λ table. length table.items ≡ count) }
    ensures first { IfOk result (λ table. AreFirst begins_at hops.now table.items) }
{
    let mut table = no_numbers(alloc, count)?;
    for (number, hop) in hops.iter().enumerate() {
        set_first(&mut table, hop.initiator, number);
    }
    Ok(table)
}

/// The first hop that ends at each object.
fn ends(alloc: Global, count: usize, hops: &[Joined]) -> Result<Vec<Option<usize>>, AllocError>
    ensures count { IfOk result (λ table. length table.items ≡ count) }
    ensures first { IfOk result (λ table. AreFirst ends_at hops.now table.items) }
{
    let mut table = no_numbers(alloc, count)?;
    for (number, hop) in hops.iter().enumerate() {
        set_first(&mut table, hop.target, number);
    }
    Ok(table)
}

/// The hops of so many objects, by their ends.
pub(crate) fn ends_of(alloc: Global, count: usize, hops: &[Joined]) -> Result<HopEnds, AllocError>
    ensures { IfOk result (λ found. AreEnds count hops.now found) }
{
    let begins = begins(alloc, count, hops)?;
    let ends = ends(alloc, count, hops)?;
    Ok(HopEnds { begins, ends })
}

/// The number at a place of a table.
pub(crate) fn number_at(table: &[Option<usize>], i: u32) -> Option<usize>
    ensures { result ≡ number_at table.now i }
{
    match table.get(i as usize) {
        Some(number) => *number,
        None => None,
    }
}

/// The form of an object.
fn form_at(objects: &Objects, i: u32) -> Option<ObjectForm>
    ensures { result ≡ form_at objects.now i }
{
    match objects.list.as_slice().get(i as usize) {
        Some(object) => Some(object.form),
        None => None,
    }
}

/// The instance that an object is in.
fn parent_at(objects: &Objects, i: u32) -> u32
    ensures { result ≡ parent_at objects.now i }
{
    match objects.list.as_slice().get(i as usize) {
        Some(object) => object.parent,
        None => 0,
    }
}

/// The number of an instance among the instances, by how many come before each object.
pub(crate) fn home_of(numbers: &[u32], parent: u32) -> u32
    ensures { result ≡ unwrap_or (slice_get numbers.now parent) 0 }
{
    match numbers.get(parent as usize) {
        Some(number) => *number,
        None => 0,
    }
}

/// An initiator's handler of the backward path.
fn backward(objects: &Objects, i: u32) -> Option<CodeId>
    ensures { result ≡ (handlers_at objects.now i).backward }
{
    match form_at(objects, i) {
        Some(ObjectForm::Initiator { backward, .. }) => backward,
        _ => None,
    }
}

/// A target's handler of blocking calls.
fn blocking(objects: &Objects, i: u32) -> Option<CodeId>
    ensures { result ≡ (handlers_at objects.now i).blocking }
{
    match form_at(objects, i) {
        Some(ObjectForm::Target { blocking, .. }) => blocking,
        _ => None,
    }
}

/// A target's handler of the forward path.
fn forward(objects: &Objects, i: u32) -> Option<CodeId>
    ensures { result ≡ (handlers_at objects.now i).forward }
{
    match form_at(objects, i) {
        Some(ObjectForm::Target { forward, .. }) => forward,
        _ => None,
    }
}

/// A hop between two sockets.
fn hop_of(objects: &Objects, numbers: &[u32], joined: Joined) -> Hop
    requires { numbers.now ≡ instance_numbers objects.now.list }
    ensures { result ≡ hop_of objects.now joined }
{
    Hop {
        initiator: joined.initiator,
        target: joined.target,
        initiator_home: home_of(numbers, parent_at(objects, joined.initiator)),
        target_home: home_of(numbers, parent_at(objects, joined.target)),
        backward: backward(objects, joined.initiator),
        blocking: blocking(objects, joined.target),
        forward: forward(objects, joined.target),
    }
}

/// The hops, in their order.
pub(crate) fn hops(
    alloc: Global,
    objects: &Objects,
    numbers: &[u32],
    joined: &[Joined],
) -> Result<Items<Hop>, AllocError>
    requires { numbers.now ≡ instance_numbers objects.now.list }
    ensures { IfOk result (λ hops. hops ≡ map (hop_of objects.now) joined.now) }
{
    let mut hops = Items::new(alloc);
    for sockets in joined {
        hops.push(hop_of(objects, numbers, *sockets))?;
    }
    Ok(hops)
}
