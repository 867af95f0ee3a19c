//! The first module that has itself, found by the modules that have it.
ghost use Rattle.std.specs.Prelude.{◌≡◌, ◌<◌, ◌+◌, ◌&&◌, List, true, false, not, length, find, IfOk};
ghost use Rattle.std.specs.Bool.{MatchBool};
ghost use Rattle.std.specs.List.{list_any};
ghost use Rattle.check_names.specs.ModelTree.Tree as tree;
ghost use Rattle.design_rules.specs.ObjectFaults.{first_of_itself};
ghost use Rattle.elaborate_objects.specs.Marks.{made_of, row_of, is_marked, meets, count_of, KeepsFound, IsClosedAt, IsClosed};

use super::settled::{is_marked, row_of, unmarked};
use check_names::logic_values_api::Items;
use design_rules::Made;
use std::alloc::{AllocError, Global};

/// Whether an instance is of the module at this place, or of a marked one.
fn meets(place: usize, marks: &[bool], x: Made) -> bool
    ensures { result ≡ meets place marks.now x }
{
    x.place as usize == place || is_marked(marks, x.place as usize)
}

/// The first of these instances that is of the module at this place or of a marked one.
fn first_met(place: usize, marks: &[bool], made: &[Made]) -> Option<Made>
    ensures { result ≡ find (meets place marks.now) made.now }
{
    for x in made {
        if meets(place, marks, *x) {
            return Some(*x);
        }
    }
    None
}

fn is_any_met(place: usize, marks: &[bool], made: &[Made]) -> bool
    ensures { result ≡ list_any (meets place marks.now) made.now }
{
    for x in made {
        if meets(place, marks, *x) {
            return true;
        }
    }
    false
}

/// Whether a module is not marked and has an instance of the module at this place or of a marked one.
fn is_new(made: &[Items<Made>], place: usize, k: usize, marks: &[bool]) -> bool
    ensures { result ≡ (not (is_marked marks.now k) && list_any (meets place marks.now) (row_of made.now k)) }
{
    !is_marked(marks, k) && is_any_met(place, marks, row_of(made, k))
}

/// Marks a module if it has the one at this place and is not marked; whether it was so.
fn find_one(made: &[Items<Made>], place: usize, k: usize, marks: &mut [bool]) -> bool
    requires { k < length marks.old }
    ensures counted { MatchBool result (count_of marks.new ≡ count_of marks.old + 1) (marks.new ≡ marks.old) }
    ensures found { KeepsFound made.now place marks.old marks.new }
    ensures all { result ≡ false → IsClosedAt made.now place marks.old k }
{
    if is_new(made, place, k, marks) {
        marks[k] = true;
        return true;
    }
    false
}

/// Marks modules that have the one at this place, the last one first; whether there was one.
fn find_upward(made: &[Items<Made>], place: usize, marks: &mut [bool]) -> bool
    ensures counted { MatchBool result (count_of marks.old < count_of marks.new) (marks.new ≡ marks.old) }
    ensures found { KeepsFound made.now place marks.old marks.new }
    ensures all { result ≡ false → IsClosed made.now place marks.old }
{
    let mut more = false;
    for k in (0..marks.len()).rev() {
        if find_one(made, place, k, marks) {
            more = true;
        }
    }
    more
}

/// The same, the first one first.
fn find_downward(made: &[Items<Made>], place: usize, marks: &mut [bool]) -> bool
    ensures counted { MatchBool result (count_of marks.old < count_of marks.new) (marks.new ≡ marks.old) }
    ensures found { KeepsFound made.now place marks.old marks.new }
    ensures all { result ≡ false → IsClosed made.now place marks.old }
{
    let mut found = false;
    for k in 0..marks.len() {
        if find_one(made, place, k, marks) {
            found = true;
        }
    }
    found
}

/// Both ways; whether there was one.
fn find_more(made: &[Items<Made>], place: usize, marks: &mut [bool]) -> bool
    ensures counted { MatchBool result (count_of marks.old < count_of marks.new) (marks.new ≡ marks.old) }
    ensures found { KeepsFound made.now place marks.old marks.new }
    ensures all { result ≡ false → IsClosed made.now place marks.old }
{
    if find_upward(made, place, marks) {
        find_downward(made, place, marks);
        return true;
    }
    find_downward(made, place, marks)
}

/// Marks the modules that have the one at this place.
#[tactic(auto, using(crate::proofs::Closed::count_within))]
fn find_all(made: &[Items<Made>], place: usize, marks: &mut [bool])
    ensures found { KeepsFound made.now place marks.old marks.new }
    ensures all { IsClosed made.now place marks.new }
{
    while find_more(made, place, marks) {}
}

/// Marks the modules that have the one at this place, and the first instance in it that is of itself or of a marked one.
fn first_leading(made: &[Items<Made>], place: usize, marks: &mut [bool]) -> Option<Made>
    ensures found { KeepsFound made.now place marks.old marks.new }
    ensures all { IsClosed made.now place marks.new }
    ensures first { result ≡ find (meets place marks.new) (row_of made.now place) }
{
    find_all(made, place, marks);
    first_met(place, marks, row_of(made, place))
}

/// The first instance in the module at this place that is of the module itself or of one that has it.
pub(crate) fn first_of_itself(
    alloc: Global,
    made: &[Items<Made>],
    place: usize,
) -> Result<Option<Made>, AllocError>
    ensures { IfOk result (λ x. (ms : List tree.Module) → made.now ≡ made_of ms → x ≡ first_of_itself ms place) }
{
    let mut marks = unmarked(alloc, made.len())?;
    Ok(first_leading(made, place, marks.as_mut_slice()))
}
