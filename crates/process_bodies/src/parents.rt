//! The descendants of an instance: those that it spawned, those that these spawned, and so on (IEEE 1666-2011, 5.6.6, control with
//! SC_INCLUDE_DESCENDANTS). They are found by the list of parents alone, in which each parent is a smaller serial.
ghost use Rattle.std.specs.Prelude.{◌≡◌, ◌<◌, ◌+◌, ◌∷◌, ◌++◌, [], IfOk, OnOk, drop, length, reverse};
ghost use Rattle.kernel_bodies.specs.SimModel.Control as spec;
ghost use Rattle.process_bodies.specs.Marks.{marked_if, with_if};

use std::alloc::{AllocError, Global};

/// Whether the instance of this serial has a mark, in marks for the serials from `q` on.
fn is_marked(marks: &[bool], q: u32, parent: Option<u32>) -> bool
    ensures { result ≡ marked_if marks.now q parent }
{
    match parent {
        Some(p) => {
            if p < q {
                return false;
            }
            match marks.get((p - q) as usize) {
                Some(mark) => *mark,
                None => false,
            }
        }
        None => false,
    }
}

/// A place as a serial; serials are below 2^32.
fn serial_of(place: usize) -> Result<u32, AllocError>
    ensures { IfOk result (λ n. n ≡ place) }
{
    match u32::try_from(place) {
        Ok(n) => Ok(n),
        Err(_) => Err(AllocError),
    }
}

/// The serial of this place has a mark, and comes to the list, if it is found.
fn find(
    marks: &mut Vec<bool>,
    found: &mut Vec<u32>,
    place: usize,
    is_found: bool,
) -> Result<(), AllocError>
    ensures marks { OnOk result (marks.new.items ≡ marks.old.items ++ is_found ∷ []) }
    ensures found { OnOk result (reverse found.new.items ≡ with_if is_found place (reverse found.old.items)) }
{
    marks.push(is_found)?;
    if !is_found {
        return Ok(());
    }
    let serial = serial_of(place)?;
    found.push(serial)?;
    Ok(())
}

/// The parent of the serial of this place.
fn parent_at(parents: &[Option<u32>], place: usize) -> Option<u32>
    requires { place < length parents.now }
    ensures { drop place parents.now ≡ result ∷ drop (place + 1) parents.now }
{
    parents[place]
}

/// The serials of an instance and of its descendants, in rising order: each parent in the list is that of the serial of its place.
/// It is one pass over the serials above it.
pub fn with_descendants(
    alloc: Global,
    parents: &[Option<u32>],
    q: u32,
) -> Result<Vec<u32>, AllocError>
    ensures { IfOk result (λ found. reverse found.items ≡ spec.with_descendants parents.now q) }
{
    let mut found = Vec::new(alloc);
    found.push(q)?;
    let mut marks = Vec::new(alloc);
    marks.push(true)?;
    let mut place = q as usize + 1;
    while place < parents.len() {
        let parent = parent_at(parents, place);
        let is_found = is_marked(marks.as_slice(), q, parent);
        find(&mut marks, &mut found, place, is_found)?;
        place += 1;
    }
    Ok(found)
}
