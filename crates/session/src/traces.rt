//! What a session gives its files: the trace, a point at a time, and its choices, a line at a time.
ghost use Rattle.std.specs.Prelude.{◌≡◌, [], IfOk, IfSome, OnOk, Some, Err, string_bytes};
ghost use Rattle.sim_io.specs.Cause.{RoseIf};
ghost use Rattle.sim_io.specs.Keeps.{WriteKeeps};
ghost use Rattle.session.specs.Outputs.{FileGrew};
ghost use Rattle.session.specs.Telling.{Into, TextFor, HeaderOf, PointOf, LastPointOf, IsLineOf, Nothing, EmptyFor};

use flat_design::sim_time_api::Time;
use kernel_start::kernel_state_api::Kernel;
use sim_io::{Held, Shelf, Trouble};
use std::alloc::{AllocError, Global};
use vcd_trace::{Tracing, header_text};

/// Gives the header of the trace, where there is one.
pub(crate) fn begin_trace<S: Shelf>(
    alloc: Global,
    k: &Kernel,
    vcd: Option<u32>,
    held: &mut Held,
    shelf: &mut S,
) -> Result<(), Trouble>
    requires created { IfSome vcd (S.created shelf.old) }
    ensures traces { Into (TextFor vcd (HeaderOf k.now)) (FileGrew S.files S.stands shelf.old shelf.new vcd) held.old held.new result }
    ensures kept { WriteKeeps S.files S.reads S.reading S.created S.stands shelf.old shelf.new }
    ensures cause { RoseIf (S.writes shelf.old) (S.writes shelf.new) (result ≡ Err Trouble.Failed) }
{
    match vcd {
        None => Ok(()),
        Some(id) => match header_text(alloc, k) {
            Ok(text) => held.put_file(shelf, id, text.as_slice()),
            Err(_) => Err(Trouble::NoMemory),
        },
    }
}

/// Gives the point of a step that was begun at this time, by the kernel after it.
#[inline(never)]
fn trace_point<S: Shelf>(
    alloc: Global,
    k: &Kernel,
    time: Time,
    id: u32,
    tracing: &mut Tracing,
    held: &mut Held,
    shelf: &mut S,
) -> Result<(), Trouble>
    requires created { S.created shelf.old id }
    ensures traces { Into (PointOf k.now time.0 tracing.old tracing.new) (FileGrew S.files S.stands shelf.old shelf.new (Some id)) held.old held.new result }
    ensures kept { WriteKeeps S.files S.reads S.reading S.created S.stands shelf.old shelf.new }
    ensures cause { RoseIf (S.writes shelf.old) (S.writes shelf.new) (result ≡ Err Trouble.Failed) }
{
    match tracing.step_point(alloc, k, time) {
        Ok(text) => held.put_file(shelf, id, text.as_slice()),
        Err(_) => Err(Trouble::NoMemory),
    }
}

/// Gives what a step that was begun at this time adds to the trace, where there is one, by the kernel after it.
#[inline(always)]
pub(crate) fn trace_step<S: Shelf>(
    alloc: Global,
    k: &Kernel,
    time: Time,
    vcd: Option<u32>,
    tracing: &mut Tracing,
    held: &mut Held,
    shelf: &mut S,
) -> Result<(), Trouble>
    requires created { IfSome vcd (S.created shelf.old) }
    ensures traces { Into (TextFor vcd (PointOf k.now time.0 tracing.old tracing.new)) (FileGrew S.files S.stands shelf.old shelf.new vcd) held.old held.new result }
    ensures kept { WriteKeeps S.files S.reads S.reading S.created S.stands shelf.old shelf.new }
    ensures cause { RoseIf (S.writes shelf.old) (S.writes shelf.new) (result ≡ Err Trouble.Failed) }
{
    match vcd {
        None => Ok(()),
        Some(id) => trace_point(alloc, k, time, id, tracing, held, shelf),
    }
}

/// Writes what the end of a session adds to the trace, where there is one, and what was held of it.
pub(crate) fn end_trace<S: Shelf>(
    alloc: Global,
    k: &Kernel,
    vcd: Option<u32>,
    tracing: &mut Tracing,
    held: &mut Held,
    shelf: &mut S,
) -> Result<(), Trouble>
    requires created { IfSome vcd (S.created shelf.old) }
    ensures traces { Into (TextFor vcd (LastPointOf k.now tracing.old)) (FileGrew S.files S.stands shelf.old shelf.new vcd) held.old held.new result }
    ensures empty { OnOk result (EmptyFor vcd held.new) }
    ensures kept { WriteKeeps S.files S.reads S.reading S.created S.stands shelf.old shelf.new }
    ensures cause { RoseIf (S.writes shelf.old) (S.writes shelf.new) (result ≡ Err Trouble.Failed) }
{
    match vcd {
        None => Ok(()),
        Some(id) => match tracing.last_point(alloc, k) {
            Ok(text) => match held.put_file(shelf, id, text.as_slice()) {
                Ok(()) => held.flush_file(shelf, id),
                Err(trouble) => Err(trouble),
            },
            Err(_) => Err(Trouble::NoMemory),
        },
    }
}

/// The line of a choice: the serial in decimal.
fn line_of(alloc: Global, choice: u32) -> Result<String, AllocError>
    ensures { IfOk result (λ line. IsLineOf choice (string_bytes line)) }
{
    Ok(format!(in alloc; "{choice}\n")?)
}

/// Gives the line of a choice to this file.
#[inline(never)]
fn list_line<S: Shelf>(
    alloc: Global,
    choice: u32,
    id: u32,
    held: &mut Held,
    shelf: &mut S,
) -> Result<(), Trouble>
    requires created { S.created shelf.old id }
    ensures lists { Into (IsLineOf choice) (FileGrew S.files S.stands shelf.old shelf.new (Some id)) held.old held.new result }
    ensures kept { WriteKeeps S.files S.reads S.reading S.created S.stands shelf.old shelf.new }
    ensures cause { RoseIf (S.writes shelf.old) (S.writes shelf.new) (result ≡ Err Trouble.Failed) }
{
    match line_of(alloc, choice) {
        Ok(line) => held.put_file(shelf, id, line.as_bytes()),
        Err(_) => Err(Trouble::NoMemory),
    }
}

/// Gives the line of a choice, where there is a file for it.
#[inline(always)]
pub(crate) fn list_choice<S: Shelf>(
    alloc: Global,
    choice: u32,
    list: Option<u32>,
    held: &mut Held,
    shelf: &mut S,
) -> Result<(), Trouble>
    requires created { IfSome list (S.created shelf.old) }
    ensures lists { Into (TextFor list (IsLineOf choice)) (FileGrew S.files S.stands shelf.old shelf.new list) held.old held.new result }
    ensures kept { WriteKeeps S.files S.reads S.reading S.created S.stands shelf.old shelf.new }
    ensures cause { RoseIf (S.writes shelf.old) (S.writes shelf.new) (result ≡ Err Trouble.Failed) }
{
    match list {
        None => Ok(()),
        Some(id) => list_line(alloc, choice, id, held, shelf),
    }
}

/// Writes what was held of the choices, where there is a file for them.
pub(crate) fn end_choices<S: Shelf>(
    list: Option<u32>,
    held: &mut Held,
    shelf: &mut S,
) -> Result<(), Trouble>
    requires created { IfSome list (S.created shelf.old) }
    ensures lists { Into Nothing (FileGrew S.files S.stands shelf.old shelf.new list) held.old held.new result }
    ensures empty { OnOk result (EmptyFor list held.new) }
    ensures kept { WriteKeeps S.files S.reads S.reading S.created S.stands shelf.old shelf.new }
    ensures cause { RoseIf (S.writes shelf.old) (S.writes shelf.new) (result ≡ Err Trouble.Failed) }
{
    match list {
        None => Ok(()),
        Some(id) => held.flush_file(shelf, id),
    }
}
