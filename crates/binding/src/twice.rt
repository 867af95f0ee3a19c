//! Whether an object reaches a channel twice, however many it reaches.
ghost use Rattle.std.specs.Prelude.{◌≡◌, ◌&&◌, ◌<◌, true, false, length, replicate, slice_set, IfOk};
ghost use Rattle.std.specs.Bool.{MatchBool};
ghost use Rattle.design_rules.specs.Objects.{form_at, bindings_of};
ghost use Rattle.design_rules.specs.Formed.{AreFormed};
ghost use Rattle.design_rules.specs.Paths.{is_end, ends_of};
ghost use Rattle.design_rules.specs.BindingFaults.{has_twice};
ghost use Rattle.binding.specs.Rows.{AreRows};
ghost use Rattle.binding.specs.Order.{IsOrder};
ghost use Rattle.binding.specs.Ends.{kept_ends};
ghost use Rattle.binding.specs.Twice.{leads_on, is_marked, marked_if, AreWithin, MeetsTwice, ReachesTwice, ReachesOnce, AreMarked, IsFollowed};

use super::forms::is_end;
use super::rows::Rows;
use design_rules::flat_design_api::{Binding, Objects};
use std::alloc::{AllocError, Global};

/// Whether a number stands in a list twice.
pub(crate) fn has_twice(list: &[u32]) -> bool
    ensures { result ≡ has_twice list.now }
{
    for (i, x) in list.iter().enumerate() {
        if list[i + 1..].contains(x) {
            return true;
        }
    }
    false
}

/// Whether an object leads anywhere.
fn leads_on(objects: &Objects, ends: &Rows<u32>, i: u32) -> bool
    ensures { result ≡ leads_on objects.now ends.now i }
{
    is_end(objects, i) || !ends.row(i).is_empty()
}

/// Marks an object, if it leads anywhere; and whether it was marked before.
fn mark(objects: &Objects, ends: &Rows<u32>, i: u32, marks: &mut [bool]) -> bool
    requires { i < length marks.old }
    ensures met { result ≡ (leads_on objects.now ends.now i && is_marked marks.old i) }
    ensures marked { marks.new ≡ marked_if marks.old i (leads_on objects.now ends.now i) }
{
    if !leads_on(objects, ends, i) {
        return false;
    }
    let met = marks[i as usize];
    marks[i as usize] = true;
    met
}

/// Marks the right ends of bindings. It is true, and leaves off, where one was marked before.
fn mark_all(objects: &Objects, ends: &Rows<u32>, links: &[Binding], marks: &mut [bool]) -> bool
    requires ended { AreRows (kept_ends objects.now) ends.now }
    requires within { AreWithin links.now (length marks.old) }
    ensures { MatchBool result (MeetsTwice objects.now marks.old links.now) (AreMarked objects.now links.now marks.old marks.new) }
{
    for b in links {
        if mark(objects, ends, b.right, marks) {
            return true;
        }
    }
    false
}

/// In place of a marked object that ends no path, marks the right ends of its bindings. It is true where one of them was
/// marked before.
fn follow(
    objects: &Objects,
    from: &Rows<Binding>,
    ends: &Rows<u32>,
    i: u32,
    marks: &mut [bool],
) -> bool
    requires formed { AreFormed objects.now }
    requires linked { AreRows (bindings_of objects.now) from.now }
    requires ended { AreRows (kept_ends objects.now) ends.now }
    requires long { length marks.old ≡ length objects.now.list }
    requires within { i < length marks.old }
    ensures { MatchBool result (ReachesTwice objects.now marks.old) (IsFollowed objects.now i marks.old marks.new) }
{
    if !marks[i as usize] || is_end(objects, i) {
        return false;
    }
    marks[i as usize] = false;
    mark_all(objects, ends, from.row(i), marks)
}

/// Follows all objects, those that are bound before those that they are bound to.
fn follow_all(
    objects: &Objects,
    from: &Rows<Binding>,
    ends: &Rows<u32>,
    order: &[u32],
    marks: &mut [bool],
) -> bool
    requires formed { AreFormed objects.now }
    requires linked { AreRows (bindings_of objects.now) from.now }
    requires ended { AreRows (kept_ends objects.now) ends.now }
    requires ordered { IsOrder objects.now order.now }
    requires long { length marks.old ≡ length objects.now.list }
    ensures { MatchBool result (ReachesTwice objects.now marks.old) (ReachesOnce objects.now marks.old) }
{
    for k in (0..order.len()).rev() {
        if follow(objects, from, ends, order[k], marks) {
            return true;
        }
    }
    false
}

/// So many objects, of which one is marked.
fn marked_alone(alloc: Global, count: usize, i: u32) -> Result<Vec<bool>, AllocError>
    requires { i < count }
    ensures { IfOk result (λ marks. marks.items ≡ slice_set (replicate count false) i true) }
{
    let mut marks = vec![in alloc; false; count]?;
    marks[i as usize] = true;
    Ok(marks)
}

/// Whether an object that ends no path reaches a channel twice.
pub(crate) fn is_reached_twice(
    alloc: Global,
    objects: &Objects,
    from: &Rows<Binding>,
    ends: &Rows<u32>,
    order: &[u32],
    i: u32,
) -> Result<bool, AllocError>
    requires formed { AreFormed objects.now }
    requires linked { AreRows (bindings_of objects.now) from.now }
    requires ended { AreRows (kept_ends objects.now) ends.now }
    requires ordered { IsOrder objects.now order.now }
    requires within { i < length objects.now.list }
    requires going { is_end (form_at objects.now i) ≡ false }
    ensures { IfOk result (λ twice. twice ≡ has_twice (ends_of objects.now i)) }
{
    let mut marks = marked_alone(alloc, objects.list.as_slice().len(), i)?;
    Ok(follow_all(objects, from, ends, order, marks.as_mut_slice()))
}
