//! How a session is ended.
ghost use Rattle.std.specs.Prelude.{◌≡◌, ◌≤◌, IfSome};
ghost use Rattle.sim_io.specs.Keeps.{WriteKeeps};
ghost use Rattle.session.specs.Course.{IsEnd};
ghost use Rattle.session.specs.Outputs.{AreNames, LetGo, OneRose, due_of, outer_of};
ghost use Rattle.session.specs.Telling.{TextFor, LastPointOf, IsClosing, Closes, Finishes};

use crate::buffers::{Buffers, let_go};
use crate::plans::Outcome;
use crate::recording::record_end;
use flat_design::Choices;
use kernel_start::kernel_state_api::Kernel;
use sim_io::{Shelf, Sink, Trouble};
use std::alloc::Global;
use vcd_trace::Tracing;
use vcd_trace::sim_model_api::Stop;

/// Ends a session for want of memory between two steps: what is held is written as far as it can be.
pub(crate) fn cut_between<S: Shelf, O: Sink>(
    choices: Vec<u32>,
    steps: u64,
    vcd: Option<u32>,
    list: Option<u32>,
    held: &mut Buffers,
    shelf: &mut S,
    out: &mut O,
) -> Outcome
    requires created { IfSome vcd (S.created shelf.old) }
    requires listed { IfSome list (S.created shelf.old) }
    ensures cut { result ≡ record { stop = Stop.NoMemory; choices = choices.items; steps = steps } }
    ensures goes { LetGo (AreNames S.stands shelf.old vcd list) (outer_of S.files O.holds shelf.old out.old) (outer_of S.files O.holds shelf.new out.new) (due_of held.old) }
    ensures kept { WriteKeeps S.files S.reads S.reading S.created S.stands shelf.old shelf.new }
    ensures faults_later { O.faults out.old ≤ O.faults out.new }
    ensures writes_later { S.writes shelf.old ≤ S.writes shelf.new }
{
    let_go(held, vcd, list, shelf, out);
    Outcome::cut(Trouble::NoMemory, Choices::from_vec(choices), steps)
}

/// Ends a session so, after these steps with these choices: writes what is due at its end.
pub(crate) fn finish<S: Shelf, O: Sink>(
    alloc: Global,
    k: &Kernel,
    stop: Stop,
    choices: Vec<u32>,
    steps: u64,
    vcd: Option<u32>,
    list: Option<u32>,
    tracing: &mut Tracing,
    held: &mut Buffers,
    shelf: &mut S,
    out: &mut O,
) -> Outcome
    requires end { IsEnd stop }
    requires created { IfSome vcd (S.created shelf.old) }
    requires listed { IfSome list (S.created shelf.old) }
    ensures finishes { Finishes (Closes (IsClosing k.now stop) (TextFor vcd (LastPointOf k.now tracing.old)) vcd list (AreNames S.stands shelf.old vcd list)
        (outer_of S.files O.holds shelf.old out.old) (outer_of S.files O.holds shelf.new out.new) (due_of held.old)) stop result.stop }
    ensures choices { result.choices ≡ choices.items }
    ensures steps { result.steps ≡ steps }
    ensures kept { WriteKeeps S.files S.reads S.reading S.created S.stands shelf.old shelf.new }
    ensures cause { OneRose (O.faults out.old) (O.faults out.new) (S.writes shelf.old) (S.writes shelf.new) (result.stop ≡ Stop.WriteFault) }
{
    let ended = record_end(alloc, k, stop, vcd, list, tracing, held, shelf, out);
    let choices = Choices::from_vec(choices);
    match ended {
        Ok(()) => Outcome {
            stop,
            choices,
            steps,
        },
        Err(trouble) => Outcome::cut(trouble, choices, steps),
    }
}
