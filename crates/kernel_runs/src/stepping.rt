//! One step of a session.
ghost use Rattle.std.specs.Prelude.{◌≡◌, ◌≢◌, ◌≤◌, ◌<◌, ◌+◌, ◌^◌, [], drop, length, false, OnOk};
ghost use Rattle.flat_design.specs.declared.faults.RunFault.{RunFault};
ghost use Rattle.kernel_phases.specs.SimModel.Phases as phases;
ghost use Rattle.kernel_phases.specs.SimModel.Steps as spec;
ghost use Rattle.kernel_phases.specs.SimModel.declared.plain.Phase.TheVariants as phase;
ghost use Rattle.kernel_phases.specs.KernelState.Kernel.{IsSound};
ghost use Rattle.kernel_phases.specs.Due.{HasRoom};
ghost use Rattle.kernel_phases.specs.Fresh.{IsFresh};
ghost use Rattle.kernel_runs.specs.Premises.{MayStep, MayGoOn};
ghost use Rattle.kernel_runs.specs.Made.{Makes, StepsOn, Asks, Stepped, whole_of};

use crate::answers::{Brief, Made, Telling, brief_of, is_quiet, whole_of};
use crate::commands::next_command;
use crate::evaluation::evaluate;
use kernel_phases::kernel_state_api::Kernel;
use kernel_phases::sim_model_api::{Command, Phase};
use kernel_phases::{Chooser, delta, initialize, timed};
use kernel_start::SoundKernel;
use kernel_steps::StepAnswer;
use std::alloc::{AllocError, Global};

/// Room for all events in a list without members.
#[inline(always)]
fn reserve_events(k: &Kernel, events: &mut Vec<u32>) -> Result<(), AllocError>
    requires none { events.old.items ≡ [] }
    ensures room { OnOk result (HasRoom k.now events.new) }
    ensures none { events.new.items ≡ [] }
{
    events.reserve(k.events.len() as usize)
}

/// Initialization.
#[inline(always)]
fn start(k: &mut Kernel, events: &mut Vec<u32>) -> Made
    requires sound { IsSound k.old }
    requires fresh { IsFresh k.old }
    requires none { events.old.items ≡ [] }
    ensures makes { Makes k.old k.new result (λ c. spec.went (phases.initialization c)) }
    ensures none { events.new.items ≡ [] }
    ensures sound { IsSound k.new }
    ensures made { k.new.made ≡ k.old.made }
{
    match reserve_events(k, events) {
        Ok(()) => {
            initialize(k, events);
            Made::Went(Telling::Nothing)
        }
        Err(_) => Made::NoMemory,
    }
}

/// The delta notification phase.
#[inline(always)]
fn notify(k: &mut Kernel, events: &mut Vec<u32>) -> Made
    requires sound { IsSound k.old }
    requires none { events.old.items ≡ [] }
    ensures makes { Makes k.old k.new result (λ c. spec.went (phases.delta_step c)) }
    ensures none { events.new.items ≡ [] }
    ensures sound { IsSound k.new }
    ensures made { k.new.made ≡ k.old.made }
{
    match reserve_events(k, events) {
        Ok(()) => {
            delta(k, events);
            Made::Went(Telling::Nothing)
        }
        Err(_) => Made::NoMemory,
    }
}

/// The timed notification phase.
#[inline(always)]
fn go_to_next_time(k: &mut Kernel, events: &mut Vec<u32>) -> Made
    requires sound { IsSound k.old }
    requires none { events.old.items ≡ [] }
    ensures makes { Makes k.old k.new result (λ c. spec.went (phases.timed_step c)) }
    ensures none { events.new.items ≡ [] }
    ensures sound { IsSound k.new }
    ensures made { k.new.made ≡ k.old.made }
{
    match reserve_events(k, events) {
        Ok(()) => {
            let _ = timed(k, events);
            Made::Went(Telling::Nothing)
        }
        Err(_) => Made::NoMemory,
    }
}

/// The step of the phase.
#[inline(always)]
fn go_on<C: Chooser>(
    k: &mut Kernel,
    alloc: Global,
    chooser: &mut C,
    events: &mut Vec<u32>,
    said: &mut StepAnswer,
) -> Brief
    requires sound { IsSound k.old }
    requires asked { MayStep k.old }
    requires room { k.old.made < 2 ^ 31 }
    requires running { k.old.cycle.phase ≢ phase.Idle }
    requires going { k.old.cycle.stopped ≡ false }
    requires none { events.old.items ≡ [] }
    ensures makes { Makes k.old k.new (whole_of result said.new) spec.step }
    ensures asks { Asks C.picks C.later k.old chooser.old chooser.new (whole_of result said.new) spec.step }
    ensures none { events.new.items ≡ [] }
    ensures sound { IsSound k.new }
    ensures made { k.new.made ≤ k.old.made + 1 }
    ensures refused { whole_of result said.new ≡ Made.NoMemory → k.new.made ≡ k.old.made }
    ensures faulted { (f : RunFault) → whole_of result said.new ≡ Made.Fault f → k.new.made ≡ k.old.made }
{
    match k.cycle.phase {
        Phase::Idle => unreachable!(),
        Phase::Start => brief_of(&start(k, events), said),
        Phase::Evaluate => evaluate(k, alloc, chooser, said),
        Phase::Notify => brief_of(&notify(k, events), said),
        Phase::Timed => brief_of(&go_to_next_time(k, events), said),
    }
}

/// The next step, of a kernel that is sound, answered in a word or two where nothing else is to be said of it.
#[inline(always)]
fn make<C: Chooser>(
    k: &mut Kernel,
    alloc: Global,
    script: &[Command],
    place: &mut usize,
    chooser: &mut C,
    events: &mut Vec<u32>,
    said: &mut StepAnswer,
) -> Brief
    requires sound { IsSound k.old }
    requires asked { MayStep k.old }
    requires room { k.old.made < 2 ^ 31 }
    requires within { place.old ≤ length script.now }
    requires none { events.old.items ≡ [] }
    ensures steps { StepsOn k.old k.new (drop place.old script.now) (drop place.new script.now) (whole_of result said.new) spec.step }
    ensures asks { Asks C.picks C.later k.old chooser.old chooser.new (whole_of result said.new) spec.step }
    ensures sound { IsSound k.new }
    ensures within { place.new ≤ length script.now }
    ensures none { events.new.items ≡ [] }
    ensures made { k.new.made ≤ k.old.made + 1 }
    ensures refused { whole_of result said.new ≡ Made.NoMemory → k.new.made ≡ k.old.made }
    ensures faulted { (f : RunFault) → whole_of result said.new ≡ Made.Fault f → k.new.made ≡ k.old.made }
{
    if k.cycle.stopped {
        return Brief::Ended;
    }
    match k.cycle.phase {
        Phase::Idle => brief_of(&next_command(k, script, place), said),
        _ => go_on(k, alloc, chooser, events, said),
    }
}

/// Makes the next step of a session: the next command of the script where the kernel is idle, else the step of its phase
/// (IEEE 1666-2011, 4.2.1). The chooser is asked once where the step takes a process, and in no other step. `place` counts the
/// commands that were carried out; `events` is a list without members, whose room is used again.
///
/// At most one instance, payload or reference to a payload is made, and none where the step is refused.
#[inline(always)]
pub fn make_step<C: Chooser>(
    k: &mut SoundKernel,
    alloc: Global,
    script: &[Command],
    place: &mut usize,
    chooser: &mut C,
    events: &mut Vec<u32>,
) -> Made
    requires asked { MayStep k.old.kernel }
    requires room { k.old.kernel.made < 2 ^ 31 }
    requires within { place.old ≤ length script.now }
    requires none { events.old.items ≡ [] }
    ensures steps { StepsOn k.old.kernel k.new.kernel (drop place.old script.now) (drop place.new script.now) result spec.step }
    ensures asks { Asks C.picks C.later k.old.kernel chooser.old chooser.new result spec.step }
    ensures within { place.new ≤ length script.now }
    ensures none { events.new.items ≡ [] }
    ensures made { k.new.kernel.made ≤ k.old.kernel.made + 1 }
    ensures refused { result ≡ Made.NoMemory → k.new.kernel.made ≡ k.old.kernel.made }
    ensures faulted { (f : RunFault) → result ≡ Made.Fault f → k.new.kernel.made ≡ k.old.kernel.made }
{
    let mut said = StepAnswer::Went;
    let brief = make(
        &mut k.kernel,
        alloc,
        script,
        place,
        chooser,
        events,
        &mut said,
    );
    whole_of(brief, &said)
}

/// The steps of a kernel that is sound, till one is more than a quiet one, or so many are made. `quiet` counts those before the last.
#[inline(never)]
fn make_some<C: Chooser>(
    k: &mut Kernel,
    alloc: Global,
    script: &[Command],
    place: &mut usize,
    chooser: &mut C,
    events: &mut Vec<u32>,
    most: u64,
    quiet: &mut u64,
    said: &mut StepAnswer,
) -> Brief
    requires sound { IsSound k.old }
    requires asked { MayGoOn C.picks C.later k.old (drop place.old script.now) chooser.old most }
    requires some { 0 < most }
    requires room { k.old.made + most ≤ 2 ^ 31 }
    requires within { place.old ≤ length script.now }
    requires none { events.old.items ≡ [] }
    ensures stepped { Stepped C.picks C.later k.old k.new (drop place.old script.now) (drop place.new script.now) chooser.old chooser.new quiet.new (whole_of result said.new) }
    ensures few { quiet.new < most }
    ensures sound { IsSound k.new }
    ensures within { place.new ≤ length script.now }
    ensures none { events.new.items ≡ [] }
    ensures made { k.new.made ≤ k.old.made + quiet.new + 1 }
    ensures refused { whole_of result said.new ≡ Made.NoMemory → k.new.made ≤ k.old.made + quiet.new }
    ensures faulted { (f : RunFault) → whole_of result said.new ≡ Made.Fault f → k.new.made ≤ k.old.made + quiet.new }
{
    let mut brief = Brief::Went;
    let mut many = 0;
    let mut going = true;
    'stepping: while going {
        brief = make(k, alloc, script, place, chooser, events, said);
        if is_quiet(brief) && many + 1 < most {
            many += 1;
        } else {
            going = false;
        }
    }
    *quiet = many;
    brief
}

/// Makes steps of a session, as `make_step` does, till one of them is more than quiet: a quiet step goes on, takes no process, and nothing
/// is told of it. At least one step is made, and `most` at most; the answer is what became of the last one, which may be quiet too where
/// `most` were made, and `quiet` counts the others.
///
/// At most one instance, payload or reference to a payload is made at each step, and none at one that is refused or faulted.
#[inline(always)]
pub fn make_steps<C: Chooser>(
    k: &mut SoundKernel,
    alloc: Global,
    script: &[Command],
    place: &mut usize,
    chooser: &mut C,
    events: &mut Vec<u32>,
    most: u64,
    quiet: &mut u64,
) -> Made
    requires asked { MayGoOn C.picks C.later k.old.kernel (drop place.old script.now) chooser.old most }
    requires some { 0 < most }
    requires room { k.old.kernel.made + most ≤ 2 ^ 31 }
    requires within { place.old ≤ length script.now }
    requires none { events.old.items ≡ [] }
    ensures stepped { Stepped C.picks C.later k.old.kernel k.new.kernel (drop place.old script.now) (drop place.new script.now) chooser.old chooser.new quiet.new result }
    ensures few { quiet.new < most }
    ensures within { place.new ≤ length script.now }
    ensures none { events.new.items ≡ [] }
    ensures made { k.new.kernel.made ≤ k.old.kernel.made + quiet.new + 1 }
    ensures refused { result ≡ Made.NoMemory → k.new.kernel.made ≤ k.old.kernel.made + quiet.new }
    ensures faulted { (f : RunFault) → result ≡ Made.Fault f → k.new.kernel.made ≤ k.old.kernel.made + quiet.new }
{
    let mut said = StepAnswer::Went;
    let brief = make_some(
        &mut k.kernel,
        alloc,
        script,
        place,
        chooser,
        events,
        most,
        quiet,
        &mut said,
    );
    whole_of(brief, &said)
}
