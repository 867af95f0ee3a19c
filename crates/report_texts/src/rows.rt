//! Lines that are written from their end to their front, in a room of so many bytes.
ghost use Rattle.std.specs.Prelude.{◌≡◌, ◌≤◌, ◌∷◌, ◌++◌, [], IfSome, slice_get, length};
ghost use Rattle.std.specs.Fmt.{decimal, signed_decimal};
ghost use Rattle.flat_design.specs.Code.{arena_of, body_at};
ghost use Rattle.kernel_state.specs.LogicValues.ValueText.{text_of};
ghost use Rattle.kernel_state.specs.SimModel.Calls.{body_name, home_path};
ghost use Rattle.kernel_state.specs.SimModel.Configuration.{path_up};
ghost use Rattle.kernel_state.specs.SimModel.Storing.{print_line};
ghost use Rattle.kernel_state.specs.Kernel.{path_in, whole_design};
ghost use Rattle.report_texts.specs.Instances.{path_at, end_of_print};
ghost use Rattle.report_texts.specs.Rows.{Before};

use crate::paths::{is_top, name_of, parent_of};
use flat_design::{CodeId, Design, Object};
use itoa::write_digits;
use kernel_state::kernel_bodies_api::Program;
use kernel_state::logic_values_api::Value;
use kernel_state::{Kept, Kernel, PathOf};

/// So many digits has a number of 64 bits at most.
const MOST_DIGITS: usize = 20;

/// Writes a byte before what stands from `end` on.
#[inline(always)]
fn byte_before(room: &mut [u8], end: usize, byte: u8) -> Option<usize>
    requires { end ≤ length room.old }
    ensures { IfSome result (Before room.old end (byte ∷ []) room.new) }
{
    if end == 0 {
        return None;
    }
    room[end - 1] = byte;
    Some(end - 1)
}

/// Writes bytes before what stands from `end` on. One byte is put there by itself.
#[inline(always)]
fn bytes_before(room: &mut [u8], end: usize, piece: &[u8]) -> Option<usize>
    requires { end ≤ length room.old }
    ensures { IfSome result (Before room.old end piece.now room.new) }
{
    if piece.len() == 1 {
        return byte_before(room, end, piece[0]);
    }
    if piece.len() > end {
        return None;
    }
    let start = end - piece.len();
    room[start..end].copy_from_slice(piece);
    Some(start)
}

/// Writes a number in decimal before what stands from `end` on. One digit is a byte.
#[inline(always)]
fn number_before(room: &mut [u8], end: usize, number: u64) -> Option<usize>
    requires { end ≤ length room.old }
    ensures { IfSome result (Before room.old end (decimal number) room.new) }
{
    if number < 10 {
        return byte_before(room, end, b'0' + number as u8);
    }
    if end < MOST_DIGITS {
        return None;
    }
    Some(write_digits(number, room, end))
}

/// Writes a signed number in decimal before what stands from `end` on.
#[inline(always)]
fn signed_before(room: &mut [u8], end: usize, number: i64) -> Option<usize>
    requires { end ≤ length room.old }
    ensures { IfSome result (Before room.old end (signed_decimal number) room.new) }
{
    let start = number_before(room, end, number.unsigned_abs())?;
    if number >= 0 {
        return Some(start);
    }
    byte_before(room, start, b'-')
}

/// Writes the text of a truth value, a number or a time before what stands from `end` on. No other value is written.
#[inline(always)]
fn value_before(room: &mut [u8], end: usize, value: Value) -> Option<usize>
    requires { end ≤ length room.old }
    ensures { IfSome result (Before room.old end (text_of value) room.new) }
{
    match value {
        Value::Bool(true) => byte_before(room, end, b'1'),
        Value::Bool(false) => byte_before(room, end, b'0'),
        Value::Int { bits, .. } => signed_before(room, end, bits.cast_signed()),
        Value::Uint { bits, .. } => number_before(room, end, bits),
        Value::Moment(picoseconds) => number_before(room, end, picoseconds),
        _ => None,
    }
}

/// Writes what stands behind the text of a print, at the end of the room.
#[inline(always)]
fn end_within(room: &mut [u8], value: Option<Value>) -> Option<usize>
    ensures { IfSome result (Before room.old (length room.old) (end_of_print value) room.new) }
{
    let end = byte_before(room, room.len(), b'\n')?;
    match value {
        Some(value) => {
            let start = value_before(room, end, value)?;
            byte_before(room, start, b' ')
        }
        None => Some(end),
    }
}

/// Writes the path of an object before what stands from `end` on.
#[inline(always)]
fn path_before(room: &mut [u8], end: usize, objects: &[Object], number: u32) -> Option<usize>
    requires { end ≤ length room.old }
    ensures { IfSome result (Before room.old end (path_up number objects.now number) room.new) }
{
    let mut start = end;
    let mut steps = number;
    let mut at = number;
    'above: while !is_top(objects, steps, at) {
        let name = bytes_before(room, start, name_of(objects, at))?;
        start = byte_before(room, name, b'.')?;
        at = parent_of(objects, at);
        steps -= 1;
    }
    bytes_before(room, start, name_of(objects, at))
}

/// Writes the path of an instance of a module before what stands from `end` on, by its number among these.
fn home_before(room: &mut [u8], end: usize, design: &Design, home: u32) -> Option<usize>
    requires { end ≤ length room.old }
    ensures { IfSome result (Before room.old end (home_path design.now (slice_get design.now.instances home)) room.new) }
{
    match design.instances.as_slice().get(home as usize) {
        Some(part) => path_before(room, end, design.objects.list.as_slice(), part.object),
        None => Some(end),
    }
}

/// Writes the name of a body before what stands from `end` on.
fn body_name_before(room: &mut [u8], end: usize, program: &Program, code: CodeId) -> Option<usize>
    requires { end ≤ length room.old }
    ensures { IfSome result (Before room.old end (body_name (body_at (arena_of program.now.code) code)) room.new) }
{
    match program.body(code) {
        Some(body) => bytes_before(room, end, body.name.as_slice()),
        None => Some(end),
    }
}

/// Writes the path of a spawned instance before what stands from `end` on.
#[inline(never)]
fn spawned_before(
    room: &mut [u8],
    end: usize,
    k: &Kernel,
    home: u32,
    code: CodeId,
    serial: u32,
) -> Option<usize>
    requires { end ≤ length room.old }
    ensures { IfSome result (Before room.old end (path_in (whole_design k.now) home code (PathOf.Spawned serial)) room.new) }
{
    let number = number_before(room, end, u64::from(serial))?;
    let behind = byte_before(room, number, b'_')?;
    let name = body_name_before(room, behind, k.program, code)?;
    let dot = byte_before(room, name, b'.')?;
    home_before(room, dot, &k.design, home)
}

/// Writes the path of an instance before what stands from `end` on, by what is kept of it.
#[inline(always)]
fn kept_before(room: &mut [u8], end: usize, k: &Kernel, kept: &Kept) -> Option<usize>
    requires { end ≤ length room.old }
    ensures { IfSome result (Before room.old end (path_in (whole_design k.now) kept.now.home kept.now.body.calls.code kept.now.path) room.new) }
{
    match kept.path {
        PathOf::Object(number) => {
            path_before(room, end, k.design.objects.list.as_slice(), number)
        }
        PathOf::Spawned(serial) => {
            spawned_before(room, end, k, kept.home, kept.body.code(), serial)
        }
    }
}

/// Writes the path of the instance of this serial, which has not ended, before what stands from `end` on.
#[inline(always)]
fn instance_before(room: &mut [u8], end: usize, k: &Kernel, p: u32) -> Option<usize>
    requires { end ≤ length room.old }
    ensures { IfSome result (Before room.old end (path_at k.now p) room.new) }
{
    match k.schedule.table.get(p) {
        Some(x) => kept_before(room, end, k, &x.body.body),
        None => Some(end),
    }
}

/// Writes the line of a print of this text at the end of the room, in terms of the kernel.
#[inline(always)]
pub(crate) fn row_of_print(
    room: &mut [u8],
    k: &Kernel,
    p: u32,
    text: &[u8],
    value: Option<Value>,
) -> Option<usize>
    ensures { IfSome result (Before room.old (length room.old) (print_line k.now.cycle.now.0 (path_at k.now p) text.now value) room.new) }
{
    let behind = end_within(room, value)?;
    let words = bytes_before(room, behind, text)?;
    let gap = byte_before(room, words, b' ')?;
    let path = instance_before(room, gap, k, p)?;
    let space = byte_before(room, path, b' ')?;
    number_before(room, space, k.cycle.now.0)
}
