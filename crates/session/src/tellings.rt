//! What a report tells of a step.
ghost use Rattle.std.specs.Prelude.{◌≡◌, ◌≤◌, [], OnOk, Err, length, drop};
ghost use Rattle.sim_io.specs.Cause.{RoseIf};
ghost use Rattle.sim_io.specs.Contents.{Grew};
ghost use Rattle.sim_io.specs.Moved.{SinkTook};
ghost use Rattle.session.specs.Course.{IsEnd};
ghost use Rattle.session.specs.Telling.{Into, IsClosing, TextOf, TextOfTurn, text_if};

use flat_design::logic_values_api::Value;
use flat_design::{Line, StmtId};
use kernel_runs::Telling;
use kernel_start::kernel_state_api::Kernel;
use report_texts::{closing, print_in, print_within, show, turn_text};
use sim_io::{Held, Sink, Trouble};
use std::alloc::Global;
use vcd_trace::sim_model_api::{Log, Stop};

/// A line of so many bytes is made on the way.
const USUAL: usize = 128;

/// What stands in a room from a place on.
#[inline(always)]
fn past(room: &[u8], start: usize) -> &[u8]
    requires { start ≤ length room.now }
    ensures { result.now ≡ drop start room.now }
{
    &room[start..]
}

/// Gives the text of a line, where there is one.
fn write_text<O: Sink>(held: &mut Held, out: &mut O, text: &Option<Line>) -> Result<(), Trouble>
    ensures took { SinkTook (O.holds out.old) (O.holds out.new) held.old (text_if text.now) held.new result }
    ensures cause { RoseIf (O.faults out.old) (O.faults out.new) (result ≡ Err Trouble.Failed) }
{
    match text {
        None => held.put(out, b""),
        Some(line) => held.put(out, line.as_slice()),
    }
}

/// Gives the line of a print that shows this value, by the kernel after it. The line is made in `line`.
#[cold]
#[inline(never)]
fn tell_long_print<O: Sink>(
    alloc: Global,
    k: &Kernel,
    p: u32,
    s: StmtId,
    value: Option<Value>,
    line: &mut Vec<u8>,
    held: &mut Held,
    out: &mut O,
) -> Result<(), Trouble>
    ensures tells { Into (TextOf k.now (Telling.Print p s value)) (Grew (O.holds out.old) (O.holds out.new)) held.old held.new result }
    ensures cause { RoseIf (O.faults out.old) (O.faults out.new) (result ≡ Err Trouble.Failed) }
{
    match print_in(alloc, line, k, p, s, value) {
        Ok(()) => held.put(out, line.as_slice()),
        Err(_) => Err(Trouble::NoMemory),
    }
}

/// Gives the line of a print that shows this value, by the kernel after it. A line of no usual length is made in `line`.
#[inline(always)]
fn tell_print<O: Sink>(
    alloc: Global,
    k: &Kernel,
    p: u32,
    s: StmtId,
    value: Option<Value>,
    line: &mut Vec<u8>,
    held: &mut Held,
    out: &mut O,
) -> Result<(), Trouble>
    ensures tells { Into (TextOf k.now (Telling.Print p s value)) (Grew (O.holds out.old) (O.holds out.new)) held.old held.new result }
    ensures cause { RoseIf (O.faults out.old) (O.faults out.new) (result ≡ Err Trouble.Failed) }
{
    let mut room = [0; USUAL];
    match print_within(k, p, s, value, &mut room) {
        Some(start) => held.put(out, past(&room, start)),
        None => tell_long_print(alloc, k, p, s, value, line, held, out),
    }
}

/// Gives the line of a show of this object, by the kernel after it.
#[inline(never)]
fn tell_show<O: Sink>(
    alloc: Global,
    k: &Kernel,
    number: u32,
    held: &mut Held,
    out: &mut O,
) -> Result<(), Trouble>
    ensures tells { Into (TextOf k.now (Telling.Show number)) (Grew (O.holds out.old) (O.holds out.new)) held.old held.new result }
    ensures cause { RoseIf (O.faults out.old) (O.faults out.new) (result ≡ Err Trouble.Failed) }
{
    match show(alloc, k, number) {
        Ok(text) => write_text(held, out, &text),
        Err(_) => Err(Trouble::NoMemory),
    }
}

/// Gives what a step adds to a report, by the kernel after it. A line that is printed is made in `line`.
#[inline(always)]
pub(crate) fn tell<O: Sink>(
    alloc: Global,
    k: &Kernel,
    told: Telling,
    line: &mut Vec<u8>,
    held: &mut Held,
    out: &mut O,
) -> Result<(), Trouble>
    ensures tells { Into (TextOf k.now told) (Grew (O.holds out.old) (O.holds out.new)) held.old held.new result }
    ensures cause { RoseIf (O.faults out.old) (O.faults out.new) (result ≡ Err Trouble.Failed) }
{
    match told {
        Telling::Nothing => Ok(()),
        Telling::Print(p, s, value) => tell_print(alloc, k, p, s, value, line, held, out),
        Telling::Show(number) => tell_show(alloc, k, number, held, out),
    }
}

/// Gives the line of a taking, by the kernel after it.
#[inline(never)]
fn tell_taking<O: Sink>(
    alloc: Global,
    k: &Kernel,
    p: u32,
    held: &mut Held,
    out: &mut O,
) -> Result<(), Trouble>
    ensures tells { Into (TextOfTurn k.now Log.Turns p) (Grew (O.holds out.old) (O.holds out.new)) held.old held.new result }
    ensures cause { RoseIf (O.faults out.old) (O.faults out.new) (result ≡ Err Trouble.Failed) }
{
    match turn_text(alloc, k, p) {
        Ok(line) => held.put(out, line.as_slice()),
        Err(_) => Err(Trouble::NoMemory),
    }
}

/// Gives what a taking adds to a report, by the kernel after it: its line, where the report tells the turns.
#[inline(always)]
pub(crate) fn tell_turn<O: Sink>(
    alloc: Global,
    k: &Kernel,
    log: Log,
    p: u32,
    held: &mut Held,
    out: &mut O,
) -> Result<(), Trouble>
    ensures tells { Into (TextOfTurn k.now log p) (Grew (O.holds out.old) (O.holds out.new)) held.old held.new result }
    ensures cause { RoseIf (O.faults out.old) (O.faults out.new) (result ≡ Err Trouble.Failed) }
{
    match log {
        Log::Prints => Ok(()),
        Log::Turns => tell_taking(alloc, k, p, held, out),
    }
}

/// Writes what follows the lines of the run where the session ends so.
pub(crate) fn tell_end<O: Sink>(
    alloc: Global,
    k: &Kernel,
    stop: Stop,
    held: &mut Held,
    out: &mut O,
) -> Result<(), Trouble>
    requires { IsEnd stop }
    ensures tells { Into (IsClosing k.now stop) (Grew (O.holds out.old) (O.holds out.new)) held.old held.new result }
    ensures empty { OnOk result (held.new ≡ []) }
    ensures cause { RoseIf (O.faults out.old) (O.faults out.new) (result ≡ Err Trouble.Failed) }
{
    match closing(alloc, k, stop) {
        Ok(text) => match held.put(out, text.as_slice()) {
            Ok(()) => held.flush(out),
            Err(trouble) => Err(trouble),
        },
        Err(_) => Err(Trouble::NoMemory),
    }
}
