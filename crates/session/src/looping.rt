//! The steps of a session, one after another.
ghost use Rattle.std.specs.Prelude.{◌≡◌, ◌≤◌, ◌<◌, ◌-◌, ◌^◌, All, [], ◌∷◌, ◌++◌, length, IfOk, IfSome, IsSome, OnOk, vec_len, vec_capacity};
ghost use Rattle.flat_design.specs.Sound.{SoundDesign};
ghost use Rattle.flat_design.specs.declared.design.SemaphorePart.{SemaphorePart};
ghost use Rattle.kernel_start.specs.InstanceTable.declared.TheConstants.{MAX_LIVE};
ghost use Rattle.vcd_trace.specs.SimModel.Configuration.{Config, start};
ghost use Rattle.kernel_start.specs.KernelState.Kernel.{StandsFor};
ghost use Rattle.sim_io.specs.Keeps.{WriteKeeps};
ghost use Rattle.laws_reached.specs.Reached.{IsReached};
ghost use Rattle.session.specs.Course.{Ran};
ghost use Rattle.session.specs.Begun.{HasBegun, IsFirst};
ghost use Rattle.session.specs.Outputs.{AreNames, OneRose, Took, outer_of};

use crate::buffers::Buffers;
use crate::ends::{end_at_budget, ended_as, not_ready};
use crate::finishing::{cut_between, finish};
use crate::laws::{runs_may_step, sound_runs_go_on};
use crate::plans::{Outcome, Plan};
use crate::recording::{record_begin, record_step, record_turn};
use flat_design::{Choices, Design};
use kernel_runs::{Made, make_steps};
use kernel_start::{SoundKernel, SplitDesign, apart, first_kernel};
use laws_reached::kernel_phases_api::Choosing;
use laws_reached::runs_begin;
use sim_io::{Shelf, Sink, Trouble};
use std::alloc::{AllocError, Global};
use vcd_trace::Tracing;
use vcd_trace::sim_model_api::{Command, Stop};

/// Makes the place of one more choice, where there is none.
#[inline(always)]
fn make_place(choices: &mut Vec<u32>) -> Result<(), AllocError>
    ensures items { choices.new.items ≡ choices.old.items }
    ensures place { OnOk result (vec_len choices.new < vec_capacity choices.new) }
{
    if choices.len() < choices.capacity() {
        return Ok(());
    }
    choices.reserve(1)
}

/// Adds a choice to those that were taken, in the place that was made for it.
fn add_choice(choices: &mut Vec<u32>, choice: u32)
    requires { vec_len choices.old < vec_capacity choices.old }
    ensures { choices.new.items ≡ choices.old.items ++ choice ∷ [] }
{
    let _ = choices.push(choice);
}

/// How many of the steps that are left may be made before something is given of them: a trace may have a point behind each.
#[inline(always)]
fn at_once(vcd: Option<u32>, left: u64) -> u64
    requires { 0 < left }
    ensures some { 0 < result }
    ensures within { result ≤ left }
    ensures alone { IsSome vcd → result ≡ 1 }
{
    match vcd {
        None => left,
        Some(_) => 1,
    }
}

/// Carries a script out until it ends, the budget is used up, or a step is a fault.
fn run_on<S: Shelf, O: Sink>(
    alloc: Global,
    k: &mut SoundKernel,
    script: &[Command],
    plan: Plan,
    shelf: &mut S,
    out: &mut O,
) -> Outcome
    requires begun { HasBegun k.old.kernel script.now }
    requires budget { plan.budget ≤ 2 ^ 26 }
    requires created { IfSome plan.vcd (S.created shelf.old) }
    requires listed { IfSome plan.choices (S.created shelf.old) }
    ensures ran { (first : Config) → StandsFor k.old.kernel first → IsFirst first script.now → (r : IsReached first) → r.steps ≡ 0
        → Ran first plan result.choices result.steps result.stop (Took (AreNames S.stands shelf.old plan.vcd plan.choices)
        (outer_of S.files O.holds shelf.old out.old) (outer_of S.files O.holds shelf.new out.new)) }
    ensures kept { WriteKeeps S.files S.reads S.reading S.created S.stands shelf.old shelf.new }
    ensures cause { OneRose (O.faults out.old) (O.faults out.new) (S.writes shelf.old) (S.writes shelf.new) (result.stop ≡ Stop.WriteFault) }
{
    runs_may_step();
    sound_runs_go_on();
    let Plan {
        rule,
        budget,
        log,
        vcd,
        choices: list,
    } = plan;
    let Ok(mut held) = Buffers::new(alloc) else {
        return Outcome::cut(Trouble::NoMemory, Choices::new(alloc), 0);
    };
    let mut choosing = Choosing::new(rule);
    let mut choices = Vec::new(alloc);
    let mut tracing = Tracing::new();
    let mut events = Vec::new(alloc);
    let mut steps = 0;
    let mut place = 0;
    let mut quiet = 0;
    match record_begin(alloc, &k.kernel, vcd, list, &mut held, shelf, out) {
        Ok(()) => {}
        Err(trouble) => return Outcome::cut(trouble, Choices::from_vec(choices), steps),
    }
    while steps < budget {
        held.hold_little();
        let time = k.kernel.now();
        // A step may be a taking: the place of its choice is made before it.
        match make_place(&mut choices) {
            Ok(()) => {}
            Err(_) => return cut_between(choices, steps, vcd, list, &mut held, shelf, out),
        }
        let most = at_once(vcd, budget - steps);
        match make_steps(
            k,
            alloc,
            script,
            &mut place,
            &mut choosing,
            &mut events,
            most,
            &mut quiet,
        ) {
            Made::Went(told) => {
                steps += quiet;
                steps += 1;
                match record_step(
                    alloc,
                    &k.kernel,
                    told,
                    time,
                    vcd,
                    list,
                    &mut tracing,
                    &mut held,
                    shelf,
                    out,
                ) {
                    Ok(()) => {}
                    Err(trouble) => return Outcome::cut(trouble, Choices::from_vec(choices), steps),
                }
            }
            Made::Took(serial) => {
                add_choice(&mut choices, serial);
                steps += quiet;
                steps += 1;
                match record_turn(
                    alloc, &k.kernel, log, serial, vcd, list, &mut held, shelf, out,
                ) {
                    Ok(()) => {}
                    Err(trouble) => return Outcome::cut(trouble, Choices::from_vec(choices), steps),
                }
            }
            Made::Ended => {
                steps += quiet;
                let ending = ended_as(&k.kernel);
                return finish(
                    alloc,
                    &k.kernel,
                    ending,
                    choices,
                    steps,
                    vcd,
                    list,
                    &mut tracing,
                    &mut held,
                    shelf,
                    out,
                );
            }
            Made::Fault(fault) => {
                steps += quiet;
                let ending = Stop::Fault(fault);
                return finish(
                    alloc,
                    &k.kernel,
                    ending,
                    choices,
                    steps,
                    vcd,
                    list,
                    &mut tracing,
                    &mut held,
                    shelf,
                    out,
                );
            }
            Made::NotReady => {
                steps += quiet;
                let ending = not_ready(choices.as_slice());
                return finish(
                    alloc,
                    &k.kernel,
                    ending,
                    choices,
                    steps,
                    vcd,
                    list,
                    &mut tracing,
                    &mut held,
                    shelf,
                    out,
                );
            }
            Made::NoMemory => {
                steps += quiet;
                return cut_between(choices, steps, vcd, list, &mut held, shelf, out);
            }
        }
    }
    held.hold_little();
    let ending = end_at_budget(&k.kernel, script, place);
    finish(
        alloc,
        &k.kernel,
        ending,
        choices,
        steps,
        vcd,
        list,
        &mut tracing,
        &mut held,
        shelf,
        out,
    )
}

/// Runs a session: carries the script out over a sound design whose semaphores start low, in no more steps than the plan has, and writes
/// the report to `out`. The rule of the plan picks each
/// process that is taken (IEEE 1666-2011, 4.2.1.2). The files of the plan get the trace (IEEE 1364-2005, 18) and the choices.
///
/// What a step tells, its point of the trace and its choice are given behind that step, each to a buffer of 65,536 bytes of its own; the
/// final and end lines and the last point at the end, where what is held is written. A piece that does not fit behind what is held is
/// written behind it, directly. Where the session is cut, what is held is written as far as it can be, but nothing to what failed.
/// `WriteFault` comes only where the count of faults of `out` rose, or the shelf's count of writes.
pub fn run_session<S: Shelf, O: Sink>(
    alloc: Global,
    design: Design,
    script: &[Command],
    plan: Plan,
    shelf: &mut S,
    out: &mut O,
) -> Outcome
    requires sound { SoundDesign design }
    requires few { length design.processes ≤ MAX_LIVE }
    requires events { design.events < 2 ^ 32 - 1 }
    requires starts { All (λ (p : SemaphorePart). p.start < 2 ^ 31) design.semaphores }
    requires budget { plan.budget ≤ 2 ^ 26 }
    requires created { IfSome plan.vcd (S.created shelf.old) }
    requires listed { IfSome plan.choices (S.created shelf.old) }
    ensures ran { Ran (start design script.now) plan result.choices result.steps result.stop (Took (AreNames S.stands shelf.old plan.vcd plan.choices)
        (outer_of S.files O.holds shelf.old out.old) (outer_of S.files O.holds shelf.new out.new)) }
    ensures kept { WriteKeeps S.files S.reads S.reading S.created S.stands shelf.old shelf.new }
    ensures cause { OneRose (O.faults out.old) (O.faults out.new) (S.writes shelf.old) (S.writes shelf.new) (result.stop ≡ Stop.WriteFault) }
{
    runs_begin();
    let SplitDesign { design, program } = match apart(alloc, design) {
        Ok(parted) => parted,
        Err(_) => return Outcome::cut(Trouble::NoMemory, Choices::new(alloc), 0),
    };
    match first_kernel(alloc, design, &program) {
        Ok(mut k) => run_on(alloc, &mut k, script, plan, shelf, out),
        Err(_) => Outcome::cut(Trouble::NoMemory, Choices::new(alloc), 0),
    }
}
