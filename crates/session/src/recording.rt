//! What a session writes of each of its steps, and at its end.
ghost use Rattle.std.specs.Prelude.{◌≡◌, ℕ, Option, IfSome, Err};
ghost use Rattle.sim_io.specs.Keeps.{WriteKeeps};
ghost use Rattle.session.specs.Course.{IsEnd};
ghost use Rattle.session.specs.Outputs.{AreNames, OneRose, due_of, outer_of};
ghost use Rattle.session.specs.Telling.{Recorded, Nothing, TextOf, TextOfTurn, TextFor, HeaderOf, PointOf, LastPointOf, IsClosing, IsLineOf, Closes, AllOut, left_by};

use crate::buffers::{Buffers, let_go};
use crate::tellings::{tell, tell_end, tell_turn};
use crate::traces::{begin_trace, end_choices, end_trace, list_choice, trace_step};
use flat_design::sim_time_api::Time;
use kernel_runs::Telling;
use kernel_start::kernel_state_api::Kernel;
use sim_io::{Shelf, Sink, Trouble};
use std::alloc::Global;
use vcd_trace::Tracing;
use vcd_trace::sim_model_api::{Log, Stop};

/// Gives what a step that was begun at this time adds, by the kernel after it: its line, and then its point of the trace.
#[inline(always)]
fn give_step<S: Shelf, O: Sink>(
    alloc: Global,
    k: &Kernel,
    told: Telling,
    time: Time,
    vcd: Option<u32>,
    tracing: &mut Tracing,
    held: &mut Buffers,
    shelf: &mut S,
    out: &mut O,
) -> Result<(), Trouble>
    requires created { IfSome vcd (S.created shelf.old) }
    ensures records { (list : Option ℕ) → Recorded (TextOf k.now told) (TextFor vcd (PointOf k.now time.0 tracing.old tracing.new)) Nothing (AreNames S.stands shelf.old vcd list)
        (outer_of S.files O.holds shelf.old out.old) (outer_of S.files O.holds shelf.new out.new) (due_of held.old) (due_of held.new) result }
    ensures kept { WriteKeeps S.files S.reads S.reading S.created S.stands shelf.old shelf.new }
    ensures cause { OneRose (O.faults out.old) (O.faults out.new) (S.writes shelf.old) (S.writes shelf.new) (result ≡ Err Trouble.Failed) }
{
    match tell(alloc, k, told, &mut held.line, &mut held.report, out) {
        Ok(()) => trace_step(alloc, k, time, vcd, tracing, &mut held.trace, shelf),
        Err(trouble) => Err(trouble),
    }
}

/// Gives what a taking adds, by the kernel after it: its line, where the report tells the turns, and then the line of its choice.
#[inline(always)]
fn give_turn<S: Shelf, O: Sink>(
    alloc: Global,
    k: &Kernel,
    log: Log,
    serial: u32,
    list: Option<u32>,
    held: &mut Buffers,
    shelf: &mut S,
    out: &mut O,
) -> Result<(), Trouble>
    requires listed { IfSome list (S.created shelf.old) }
    ensures records { (vcd : Option ℕ) → Recorded (TextOfTurn k.now log serial) Nothing (TextFor list (IsLineOf serial)) (AreNames S.stands shelf.old vcd list)
        (outer_of S.files O.holds shelf.old out.old) (outer_of S.files O.holds shelf.new out.new) (due_of held.old) (due_of held.new) result }
    ensures kept { WriteKeeps S.files S.reads S.reading S.created S.stands shelf.old shelf.new }
    ensures cause { OneRose (O.faults out.old) (O.faults out.new) (S.writes shelf.old) (S.writes shelf.new) (result ≡ Err Trouble.Failed) }
{
    match tell_turn(alloc, k, log, serial, &mut held.report, out) {
        Ok(()) => list_choice(alloc, serial, list, &mut held.choices, shelf),
        Err(trouble) => Err(trouble),
    }
}

/// Gives what the end of a session adds, and writes what is held: the report with its final lines and the end line, then the trace with
/// its last point, then the choices.
fn give_end<S: Shelf, O: Sink>(
    alloc: Global,
    k: &Kernel,
    stop: Stop,
    vcd: Option<u32>,
    list: Option<u32>,
    tracing: &mut Tracing,
    held: &mut Buffers,
    shelf: &mut S,
    out: &mut O,
) -> Result<(), Trouble>
    requires end { IsEnd stop }
    requires created { IfSome vcd (S.created shelf.old) }
    requires listed { IfSome list (S.created shelf.old) }
    ensures records { Recorded (IsClosing k.now stop) (TextFor vcd (LastPointOf k.now tracing.old)) Nothing (AreNames S.stands shelf.old vcd list)
        (outer_of S.files O.holds shelf.old out.old) (outer_of S.files O.holds shelf.new out.new) (due_of held.old) (due_of held.new) result }
    ensures out { AllOut vcd list (due_of held.new) result }
    ensures kept { WriteKeeps S.files S.reads S.reading S.created S.stands shelf.old shelf.new }
    ensures cause { OneRose (O.faults out.old) (O.faults out.new) (S.writes shelf.old) (S.writes shelf.new) (result ≡ Err Trouble.Failed) }
{
    match tell_end(alloc, k, stop, &mut held.report, out) {
        Ok(()) => {}
        Err(trouble) => return Err(trouble),
    }
    match end_trace(alloc, k, vcd, tracing, &mut held.trace, shelf) {
        Ok(()) => end_choices(list, &mut held.choices, shelf),
        Err(trouble) => Err(trouble),
    }
}

/// Gives what stands before all steps: the header of the trace. What cuts it lets go what is held.
pub(crate) fn record_begin<S: Shelf, O: Sink>(
    alloc: Global,
    k: &Kernel,
    vcd: Option<u32>,
    list: Option<u32>,
    held: &mut Buffers,
    shelf: &mut S,
    out: &mut O,
) -> Result<(), Trouble>
    requires created { IfSome vcd (S.created shelf.old) }
    requires listed { IfSome list (S.created shelf.old) }
    ensures records { Recorded Nothing (TextFor vcd (HeaderOf k.now)) Nothing (AreNames S.stands shelf.old vcd list)
        (outer_of S.files O.holds shelf.old out.old) (outer_of S.files O.holds shelf.new out.new) (due_of held.old) (left_by (due_of held.new) result) result }
    ensures kept { WriteKeeps S.files S.reads S.reading S.created S.stands shelf.old shelf.new }
    ensures cause { OneRose (O.faults out.old) (O.faults out.new) (S.writes shelf.old) (S.writes shelf.new) (result ≡ Err Trouble.Failed) }
{
    match begin_trace(alloc, k, vcd, &mut held.trace, shelf) {
        Ok(()) => Ok(()),
        Err(trouble) => {
            let_go(held, vcd, list, shelf, out);
            Err(trouble)
        }
    }
}

/// Gives what a step that was begun at this time adds, by the kernel after it. What cuts it lets go what is held.
#[inline(always)]
pub(crate) fn record_step<S: Shelf, O: Sink>(
    alloc: Global,
    k: &Kernel,
    told: Telling,
    time: Time,
    vcd: Option<u32>,
    list: Option<u32>,
    tracing: &mut Tracing,
    held: &mut Buffers,
    shelf: &mut S,
    out: &mut O,
) -> Result<(), Trouble>
    requires created { IfSome vcd (S.created shelf.old) }
    requires listed { IfSome list (S.created shelf.old) }
    ensures records { Recorded (TextOf k.now told) (TextFor vcd (PointOf k.now time.0 tracing.old tracing.new)) Nothing (AreNames S.stands shelf.old vcd list)
        (outer_of S.files O.holds shelf.old out.old) (outer_of S.files O.holds shelf.new out.new) (due_of held.old) (left_by (due_of held.new) result) result }
    ensures kept { WriteKeeps S.files S.reads S.reading S.created S.stands shelf.old shelf.new }
    ensures cause { OneRose (O.faults out.old) (O.faults out.new) (S.writes shelf.old) (S.writes shelf.new) (result ≡ Err Trouble.Failed) }
{
    match give_step(alloc, k, told, time, vcd, tracing, held, shelf, out) {
        Ok(()) => Ok(()),
        Err(trouble) => {
            let_go(held, vcd, list, shelf, out);
            Err(trouble)
        }
    }
}

/// Gives what a taking adds, by the kernel after it. What cuts it lets go what is held.
#[inline(always)]
pub(crate) fn record_turn<S: Shelf, O: Sink>(
    alloc: Global,
    k: &Kernel,
    log: Log,
    serial: u32,
    vcd: Option<u32>,
    list: Option<u32>,
    held: &mut Buffers,
    shelf: &mut S,
    out: &mut O,
) -> Result<(), Trouble>
    requires created { IfSome vcd (S.created shelf.old) }
    requires listed { IfSome list (S.created shelf.old) }
    ensures records { Recorded (TextOfTurn k.now log serial) Nothing (TextFor list (IsLineOf serial)) (AreNames S.stands shelf.old vcd list)
        (outer_of S.files O.holds shelf.old out.old) (outer_of S.files O.holds shelf.new out.new) (due_of held.old) (left_by (due_of held.new) result) result }
    ensures kept { WriteKeeps S.files S.reads S.reading S.created S.stands shelf.old shelf.new }
    ensures cause { OneRose (O.faults out.old) (O.faults out.new) (S.writes shelf.old) (S.writes shelf.new) (result ≡ Err Trouble.Failed) }
{
    match give_turn(alloc, k, log, serial, list, held, shelf, out) {
        Ok(()) => Ok(()),
        Err(trouble) => {
            let_go(held, vcd, list, shelf, out);
            Err(trouble)
        }
    }
}

/// Writes the last texts of a session. What cuts them lets go what is held.
pub(crate) fn record_end<S: Shelf, O: Sink>(
    alloc: Global,
    k: &Kernel,
    stop: Stop,
    vcd: Option<u32>,
    list: Option<u32>,
    tracing: &mut Tracing,
    held: &mut Buffers,
    shelf: &mut S,
    out: &mut O,
) -> Result<(), Trouble>
    requires end { IsEnd stop }
    requires created { IfSome vcd (S.created shelf.old) }
    requires listed { IfSome list (S.created shelf.old) }
    ensures closes { Closes (IsClosing k.now stop) (TextFor vcd (LastPointOf k.now tracing.old)) vcd list (AreNames S.stands shelf.old vcd list)
        (outer_of S.files O.holds shelf.old out.old) (outer_of S.files O.holds shelf.new out.new) (due_of held.old) result }
    ensures kept { WriteKeeps S.files S.reads S.reading S.created S.stands shelf.old shelf.new }
    ensures cause { OneRose (O.faults out.old) (O.faults out.new) (S.writes shelf.old) (S.writes shelf.new) (result ≡ Err Trouble.Failed) }
{
    match give_end(alloc, k, stop, vcd, list, tracing, held, shelf, out) {
        Ok(()) => Ok(()),
        Err(trouble) => {
            let_go(held, vcd, list, shelf, out);
            Err(trouble)
        }
    }
}
