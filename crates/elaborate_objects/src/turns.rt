//! The turns of a walk.
ghost use Rattle.std.specs.Prelude.{◌≡◌, ◌<◌, ◌+◌, ◌++◌, ◌∷◌, [], Some, true, false, length, map, slice_get, option_map, IfOk};
ghost use Rattle.std.specs.Bool.{MatchBool};
ghost use Rattle.design_rules.specs.ObjectFaults.{are_too_many};
ghost use Rattle.elaborate_objects.specs.Rows.{row_of};
ghost use Rattle.elaborate_objects.specs.Left.{Rows, rows_at};
ghost use Rattle.elaborate_objects.specs.Walks.{whole_of, IsCounted, turns_left};

use super::frames::{Frame, enter_form};
use super::limits::{bytes_in, fits};
use super::walks::{Walk, object};
use crate::ObjectRow;
use check_names::logic_values_api::Items;
use std::alloc::{AllocError, Global};

/// The row of a module at a place of it.
fn row_at<'a>(rows: &[Items<ObjectRow<'a>>], place: u32, next: usize) -> Option<ObjectRow<'a>>
    ensures { option_map row_of result ≡ slice_get (rows_at (map (map row_of) rows.now) place) next }
{
    match rows.get(place as usize) {
        None => None,
        Some(rows) => rows.as_slice().get(next).copied(),
    }
}

/// How many objects there are.
fn count(walk: &Walk) -> u32
    requires { IsCounted walk.now }
    ensures { result ≡ length walk.now.objects }
{
    walk.objects.as_slice().len() as u32
}

/// A frame behind its next row.
fn behind(frame: Frame) -> Result<Frame, AllocError>
    ensures { IfOk result (λ f. f ≡ record { place = frame.place; next = frame.next + 1; instance = frame.instance; depth = frame.depth }) }
{
    match frame.next.checked_add(1) {
        None => Err(AllocError),
        Some(next) => Ok(Frame {
            place: frame.place,
            next,
            instance: frame.instance,
            depth: frame.depth,
        }),
    }
}

/// Makes the object of a row in the instance of a frame, and puts the frame back; whether the object keeps the limits.
fn make(
    alloc: Global,
    walk: &mut Walk,
    frame: Frame,
    row: &ObjectRow<'_>,
) -> Result<bool, AllocError>
    requires { IsCounted walk.old }
    ensures whole { IfOk result (λ on. (t : Rows) → slice_get (rows_at t frame.place) frame.next ≡ Some (row_of row.now)
        → MatchBool on (whole_of t walk.new.objects walk.new.frames.items ≡ whole_of t walk.old.objects (walk.old.frames.items ++ frame ∷ []))
        (are_too_many (whole_of t walk.old.objects (walk.old.frames.items ++ frame ∷ [])) ≡ true)) }
    ensures counted { IfOk result (λ on. on ≡ true → IsCounted walk.new) }
    ensures fewer { IfOk result (λ on. on ≡ true
        → turns_left walk.new.objects walk.new.frames.items < turns_left walk.old.objects (walk.old.frames.items ++ frame ∷ [])) }
{
    if !fits(walk, row.form) {
        return Ok(false);
    }
    let number = count(walk);
    let later = behind(frame)?;
    let object = object(alloc, frame.instance, row)?;
    walk.frames.push(later)?;
    enter_form(&mut walk.frames, frame.depth, number, row.form)?;
    walk.bytes += bytes_in(row.form);
    walk.objects.push(object)?;
    Ok(true)
}

/// The next object of a walk, or one instance left; whether the walk keeps the limits.
fn turn(alloc: Global, rows: &[Items<ObjectRow<'_>>], walk: &mut Walk) -> Result<bool, AllocError>
    requires counted { IsCounted walk.old }
    requires some { 0 < length walk.old.frames.items }
    ensures whole { IfOk result (λ on. MatchBool on
        (whole_of (map (map row_of) rows.now) walk.new.objects walk.new.frames.items ≡ whole_of (map (map row_of) rows.now) walk.old.objects walk.old.frames.items)
        (are_too_many (whole_of (map (map row_of) rows.now) walk.old.objects walk.old.frames.items) ≡ true)) }
    ensures counted { IfOk result (λ on. on ≡ true → IsCounted walk.new) }
    ensures fewer { IfOk result (λ on. on ≡ true
        → turns_left walk.new.objects walk.new.frames.items < turns_left walk.old.objects walk.old.frames.items) }
{
    match walk.frames.pop() {
        None => Ok(true),
        Some(frame) => match row_at(rows, frame.place, frame.next) {
            None => Ok(true),
            Some(row) => make(alloc, walk, frame, &row),
        },
    }
}

/// Goes on to the end of a walk; whether it keeps the limits.
pub(crate) fn walk_all(
    alloc: Global,
    rows: &[Items<ObjectRow<'_>>],
    walk: &mut Walk,
) -> Result<bool, AllocError>
    requires { IsCounted walk.old }
    ensures { IfOk result (λ on. MatchBool on
        ((walk.new.objects ≡ whole_of (map (map row_of) rows.now) walk.old.objects walk.old.frames.items) × (are_too_many walk.new.objects ≡ false))
        (are_too_many (whole_of (map (map row_of) rows.now) walk.old.objects walk.old.frames.items) ≡ true)) }
{
    while !walk.frames.is_empty() {
        match turn(alloc, rows, walk) {
            Ok(true) => {}
            Ok(false) => return Ok(false),
            Err(refused) => return Err(refused),
        }
    }
    Ok(true)
}
