//! Modules that do not have themselves, found from those without instances on.
ghost use Rattle.std.specs.Prelude.{◌≡◌, ◌<◌, ◌≤◌, ◌+◌, ◌&&◌, ℕ, List, true, false, not, length, replicate, IfOk, None};
ghost use Rattle.std.specs.Bool.{MatchBool};
ghost use Rattle.std.specs.List.{list_all};
ghost use Rattle.check_names.specs.ModelTree.Tree as tree;
ghost use Rattle.design_rules.specs.ObjectFaults.{cycle_from};
ghost use Rattle.elaborate_objects.specs.Marks.{made_of, row_of, is_marked, count_of, KeepsSettled};

use check_names::logic_values_api::Items;
use design_rules::Made;
use std::alloc::{AllocError, Global};

/// The instances in the module at a place.
pub(crate) fn row_of(made: &[Items<Made>], k: usize) -> &[Made]
    ensures { result.now ≡ row_of made.now k }
{
    match made.get(k) {
        Some(row) => row.as_slice(),
        None => &[],
    }
}

pub(crate) fn is_marked(marks: &[bool], place: usize) -> bool
    ensures { result ≡ is_marked marks.now place }
{
    match marks.get(place) {
        Some(marked) => *marked,
        None => false,
    }
}

/// Whether all of these instances are of marked modules.
fn are_marked(made: &[Made], marks: &[bool]) -> bool
    ensures { result ≡ list_all (λ x. is_marked marks.now x.place) made.now }
{
    for x in made {
        if !is_marked(marks, x.place as usize) {
            return false;
        }
    }
    true
}

/// Whether a module is not marked, and all its instances are of marked modules.
fn is_ready(made: &[Items<Made>], k: usize, marks: &[bool]) -> bool
    ensures { result ≡ (not (is_marked marks.now k) && list_all (λ x. is_marked marks.now x.place) (row_of made.now k)) }
{
    !is_marked(marks, k) && are_marked(row_of(made, k), marks)
}

/// Marks a module if it is ready; whether it was.
fn settle_one(made: &[Items<Made>], k: usize, marks: &mut [bool]) -> bool
    requires { k < length marks.old }
    ensures counted { MatchBool result (count_of marks.new ≡ count_of marks.old + 1) (marks.new ≡ marks.old) }
    ensures settled { KeepsSettled made.now marks.old marks.new }
{
    if is_ready(made, k, marks) {
        marks[k] = true;
        return true;
    }
    false
}

/// Marks the modules all of whose instances are of marked modules, the last one first; whether there was one.
fn settle_upward(made: &[Items<Made>], marks: &mut [bool]) -> bool
    ensures counted { MatchBool result (count_of marks.old < count_of marks.new) (count_of marks.old ≤ count_of marks.new) }
    ensures settled { KeepsSettled made.now marks.old marks.new }
{
    let mut more = false;
    for k in (0..marks.len()).rev() {
        if settle_one(made, k, marks) {
            more = true;
        }
    }
    more
}

/// The same, the first one first.
fn settle_downward(made: &[Items<Made>], marks: &mut [bool]) -> bool
    ensures counted { MatchBool result (count_of marks.old < count_of marks.new) (count_of marks.old ≤ count_of marks.new) }
    ensures settled { KeepsSettled made.now marks.old marks.new }
{
    let mut more = false;
    for k in 0..marks.len() {
        if settle_one(made, k, marks) {
            more = true;
        }
    }
    more
}

/// Both ways, so that modules may stand before or behind those that they use; whether there was one.
fn settle_more(made: &[Items<Made>], marks: &mut [bool]) -> bool
    ensures counted { MatchBool result (count_of marks.old < count_of marks.new) (count_of marks.old ≤ count_of marks.new) }
    ensures settled { KeepsSettled made.now marks.old marks.new }
{
    let up = settle_upward(made, marks);
    let down = settle_downward(made, marks);
    up || down
}

/// Marks modules as long as one can be.
#[tactic(auto, using(crate::proofs::Closed::count_within))]
fn settle(made: &[Items<Made>], marks: &mut [bool])
    ensures { KeepsSettled made.now marks.old marks.new }
{
    while settle_more(made, marks) {}
}

fn are_all_marked(marks: &[bool]) -> bool
    ensures { result ≡ true → (k : ℕ) → k < length marks.now → is_marked marks.now k ≡ true }
{
    for marked in marks {
        if !*marked {
            return false;
        }
    }
    true
}

/// Marks modules as long as one can be; whether all are marked then.
fn settle_all(made: &[Items<Made>], marks: &mut [bool]) -> bool
    ensures settled { KeepsSettled made.now marks.old marks.new }
    ensures all { result ≡ true → (k : ℕ) → k < length marks.old → is_marked marks.new k ≡ true }
{
    settle(made, marks);
    are_all_marked(marks)
}

/// So many modules without a mark.
pub(crate) fn unmarked(alloc: Global, count: usize) -> Result<Vec<bool>, AllocError>
    ensures { IfOk result (λ marks. marks.items ≡ replicate count false) }
{
    vec![in alloc; false; count]
}

/// Whether no module is found that may have itself: where it is true, none has.
pub(crate) fn are_settled(alloc: Global, made: &[Items<Made>]) -> Result<bool, AllocError>
    ensures { IfOk result (λ settled. settled ≡ true → (ms : List tree.Module) → made.now ≡ made_of ms → cycle_from ms 0 ms ≡ None) }
{
    let mut marks = unmarked(alloc, made.len())?;
    Ok(settle_all(made, marks.as_mut_slice()))
}
