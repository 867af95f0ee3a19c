//! The turns of a walk along instances.
ghost use Rattle.std.specs.Prelude.{◌≡◌, ◌<◌, ◌+◌, ◌++◌, ◌∷◌, [], Some, drop, length, map, slice_get, option_map, OnOk};
ghost use Rattle.elaborate_design.specs.Links.{Links, links_at, link_of};
ghost use Rattle.elaborate_design.specs.Left.{binds_by, links_within, left_of, whole_of};
ghost use Rattle.elaborate_design.specs.Work.{work_by, work_within, work_of};
ghost use Rattle.elaborate_design.specs.Listed.{AreListed};

use super::ends::{binding, child};
use super::frames::{Frame, behind, enter};
use super::links::LinkRow;
use crate::Children;
use elaborate_objects::flat_design_api::Binding;
use elaborate_objects::logic_values_api::Items;
use std::alloc::AllocError;

/// A walk along the instances of a design: the bindings so far, and the instances that it stands in, the innermost last.
#[derive(Drop)]
pub(crate) struct Walk {
    /// The bindings so far.
    pub binds: Items<Binding>,
    /// What is left of the instances.
    pub frames: Vec<Frame>,
}

/// The link of a module at a place of it.
fn link_at<'a>(links: &[Items<LinkRow<'a>>], place: u32, next: usize) -> Option<LinkRow<'a>>
    ensures { option_map link_of result ≡ slice_get (links_at (map (map link_of) links.now) place) next }
{
    match links.get(place as usize) {
        None => None,
        Some(links) => links.as_slice().get(next).copied(),
    }
}

/// Lists a binding in an instance, or goes into an instance in it.
fn act(
    children: &Children<'_>,
    walk: &mut Walk,
    instance: u32,
    depth: usize,
    link: &LinkRow<'_>,
) -> Result<(), AllocError>
    requires { AreListed children.now }
    ensures left { OnOk result ((t : Links) → whole_of t (drop 1 children.now) walk.new.binds walk.new.frames.items
        ≡ walk.old.binds ++ (binds_by (links_within depth t (drop 1 children.now)) (drop 1 children.now) instance (link_of link.now) ++ left_of t (drop 1 children.now) walk.old.frames.items)) }
    ensures work { OnOk result ((t : Links) → work_of t walk.new.frames.items ≡ work_by (work_within depth t) (link_of link.now) + work_of t walk.old.frames.items) }
{
    match *link {
        LinkRow::Enters(name, place) => {
            let inner = child(children, instance, name)?;
            enter(&mut walk.frames, depth, inner, place)
        }
        LinkRow::Binds(line, left, right) => {
            let bound = binding(children, instance, line, left, right)?;
            walk.binds.push(bound)?;
            Ok(())
        }
    }
}

/// Puts a frame back behind its next link, and acts by that.
fn follow(
    children: &Children<'_>,
    walk: &mut Walk,
    frame: Frame,
    link: &LinkRow<'_>,
) -> Result<(), AllocError>
    requires { AreListed children.now }
    ensures whole { OnOk result ((t : Links) → slice_get (links_at t frame.place) frame.next ≡ Some (link_of link.now)
        → whole_of t (drop 1 children.now) walk.new.binds walk.new.frames.items ≡ whole_of t (drop 1 children.now) walk.old.binds (walk.old.frames.items ++ frame ∷ [])) }
    ensures fewer { OnOk result ((t : Links) → slice_get (links_at t frame.place) frame.next ≡ Some (link_of link.now)
        → work_of t walk.new.frames.items < work_of t (walk.old.frames.items ++ frame ∷ [])) }
{
    let later = behind(frame)?;
    walk.frames.push(later)?;
    act(children, walk, frame.instance, frame.depth, link)?;
    Ok(())
}

/// The next link of a walk, or one instance left.
fn turn(
    links: &[Items<LinkRow<'_>>],
    children: &Children<'_>,
    walk: &mut Walk,
) -> Result<(), AllocError>
    requires listed { AreListed children.now }
    requires some { 0 < length walk.old.frames.items }
    ensures whole { OnOk result (whole_of (map (map link_of) links.now) (drop 1 children.now) walk.new.binds walk.new.frames.items
        ≡ whole_of (map (map link_of) links.now) (drop 1 children.now) walk.old.binds walk.old.frames.items) }
    ensures fewer { OnOk result (work_of (map (map link_of) links.now) walk.new.frames.items < work_of (map (map link_of) links.now) walk.old.frames.items) }
{
    match walk.frames.pop() {
        None => Ok(()),
        Some(frame) => match link_at(links, frame.place, frame.next) {
            None => Ok(()),
            Some(link) => follow(children, walk, frame, &link),
        },
    }
}

/// Goes on to the end of a walk.
pub(crate) fn walk_all(
    links: &[Items<LinkRow<'_>>],
    children: &Children<'_>,
    walk: &mut Walk,
) -> Result<(), AllocError>
    requires { AreListed children.now }
    ensures { OnOk result (walk.new.binds ≡ whole_of (map (map link_of) links.now) (drop 1 children.now) walk.old.binds walk.old.frames.items) }
{
    while !walk.frames.is_empty() {
        match turn(links, children, walk) {
            Ok(()) => {}
            Err(refused) => return Err(refused),
        }
    }
    Ok(())
}
