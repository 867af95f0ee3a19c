//! Paths of objects: the names from the top instance down, joined by dots.
ghost use Rattle.std.specs.Prelude.{◌≡◌, ◌<◌, ◌⊎◌, ◌∷◌, ◌++◌, true, false, OnOk, IsTrue, slice_get};
ghost use Rattle.kernel_state.specs.SimModel.Configuration.{name_of, is_own_parent, parent_of, path_up};
ghost use Rattle.report_texts.specs.Climbs.{path_through};

use crate::pieces::{push_byte, push_bytes};
use flat_design::Object;
use std::alloc::{AllocError, Global};

/// So many steps up are made with no list.
const NEAR: u32 = 16;

/// The own name of an object.
#[inline(always)]
pub(crate) fn name_of(objects: &[Object], number: u32) -> &[u8]
    ensures { result.now ≡ name_of (slice_get objects.now number) }
{
    match objects.get(number as usize) {
        Some(object) => object.name.as_slice(),
        None => &[],
    }
}

/// The instance that an object is in.
#[inline(always)]
pub(crate) fn parent_of(objects: &[Object], number: u32) -> u32
    ensures { result ≡ parent_of (slice_get objects.now number) }
{
    match objects.get(number as usize) {
        Some(object) => object.parent,
        None => 0,
    }
}

/// Whether an object is in itself.
#[inline(always)]
fn is_own_parent(objects: &[Object], number: u32) -> bool
    ensures { result ≡ is_own_parent number (slice_get objects.now number) }
{
    match objects.get(number as usize) {
        Some(object) => object.parent == number,
        None => true,
    }
}

/// Whether no step up is made from an object: it is in itself, or no more steps may be made.
#[inline(always)]
pub(crate) fn is_top(objects: &[Object], steps: u32, number: u32) -> bool
    ensures top { IsTrue result → (steps ≡ 0) ⊎ (is_own_parent number (slice_get objects.now number) ≡ true) }
    ensures below { result ≡ false → (0 < steps) × (is_own_parent number (slice_get objects.now number) ≡ false) }
{
    if steps == 0 {
        return true;
    }
    is_own_parent(objects, number)
}

/// Adds the name of an object, and behind it those of the ones below it, of which the first stands lowest.
fn push_names(
    text: &mut Vec<u8>,
    objects: &[Object],
    top: u32,
    below: &[u32],
) -> Result<(), AllocError>
    ensures { OnOk result (text.new.items ≡ text.old.items ++ path_through objects.now (name_of (slice_get objects.now top)) below.now) }
{
    push_bytes(text, name_of(objects, top))?;
    for place in (0..below.len()).rev() {
        push_byte(text, b'.')?;
        push_bytes(text, name_of(objects, below[place]))?;
    }
    Ok(())
}

/// Adds the path of an object from which at most so many steps up are made, over a list of what stands below.
fn push_path_by_list(
    alloc: Global,
    text: &mut Vec<u8>,
    objects: &[Object],
    most: u32,
    number: u32,
) -> Result<(), AllocError>
    ensures { OnOk result (text.new.items ≡ text.old.items ++ path_up most objects.now number) }
{
    let mut below = Vec::new(alloc);
    let mut steps = most;
    let mut at = number;
    'above: while !is_top(objects, steps, at) {
        below.push(at)?;
        at = parent_of(objects, at);
        steps -= 1;
    }
    push_names(text, objects, at, below.as_slice())
}

/// Adds a dot and a name.
fn push_below(text: &mut Vec<u8>, name: &[u8]) -> Result<(), AllocError>
    ensures { OnOk result (text.new.items ≡ text.old.items ++ 46 ∷ name.now) }
{
    push_byte(text, b'.')?;
    push_bytes(text, name)
}

/// Adds the path of an object from which at most so many steps up are made. So many of them are made with no list, and then the
/// others with one.
fn push_path_from(
    alloc: Global,
    text: &mut Vec<u8>,
    objects: &[Object],
    most: u32,
    number: u32,
    near: u32,
) -> Result<(), AllocError>
    ensures { OnOk result (text.new.items ≡ text.old.items ++ path_up most objects.now number) }
{
    let name = name_of(objects, number);
    if is_top(objects, most, number) {
        return push_bytes(text, name);
    }
    if near == 0 {
        return push_path_by_list(alloc, text, objects, most, number);
    }
    let more = most - 1;
    let up = parent_of(objects, number);
    push_path_from(alloc, text, objects, more, up, near - 1)?;
    push_below(text, name)
}

/// Adds the path of an object.
pub(crate) fn push_path(
    alloc: Global,
    text: &mut Vec<u8>,
    objects: &[Object],
    number: u32,
) -> Result<(), AllocError>
    ensures { OnOk result (text.new.items ≡ text.old.items ++ path_up number objects.now number) }
{
    push_path_from(alloc, text, objects, number, number, NEAR)
}
