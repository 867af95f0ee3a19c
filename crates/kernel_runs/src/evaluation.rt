//! The evaluation phase.
ghost use Rattle.std.specs.Prelude.{◌≡◌, ◌≤◌, ◌<◌, ◌+◌, ◌^◌, []};
ghost use Rattle.flat_design.specs.declared.faults.RunFault.{RunFault};
ghost use Rattle.kernel_phases.specs.SimModel.Steps.{evaluate};
ghost use Rattle.kernel_phases.specs.KernelState.Kernel.{IsSound};
ghost use Rattle.kernel_phases.specs.KernelState.Moves.{IsOnTop};
ghost use Rattle.kernel_runs.specs.Premises.{MayStep};
ghost use Rattle.kernel_runs.specs.Made.{Makes, Asks, whole_of};

use crate::answers::{Brief, Made, Telling, brief_of, of_instance};
use crate::takings::take;
use kernel_phases::kernel_processes_api::top;
use kernel_phases::kernel_state_api::Kernel;
use kernel_phases::ready_set_api::least_of_a_set;
use kernel_phases::{Chooser, update};
use kernel_steps::{StepAnswer, step_statement};
use std::alloc::Global;

/// With no instance active, the chooser picks a runnable one, which is taken; with none runnable either the update phase follows.
#[inline(always)]
fn evaluate_next<C: Chooser>(k: &mut Kernel, chooser: &mut C) -> Made
    requires sound { IsSound k.old }
    requires nobody { k.old.schedule.stack.items ≡ [] }
    ensures makes { Makes k.old k.new result (λ c. evaluate c c.processes.stack c.processes.runnable) }
    ensures asks { Asks C.picks C.later k.old chooser.old chooser.new result (λ c. evaluate c c.processes.stack c.processes.runnable) }
    ensures sound { IsSound k.new }
    ensures made { k.new.made ≡ k.old.made }
{
    least_of_a_set();
    if k.schedule.ready.len() == 0 {
        update(k);
        return Made::Went(Telling::Nothing);
    }
    match take(k, chooser) {
        Some(p) => Made::Took(p),
        None => Made::NotReady,
    }
}

/// A step of the instance on top.
#[inline(always)]
fn step_of_top(k: &mut Kernel, alloc: Global, p: u32, said: &mut StepAnswer) -> Brief
    requires sound { IsSound k.old }
    requires asked { MayStep k.old }
    requires room { k.old.made < 2 ^ 31 }
    requires top { IsOnTop k.old p }
    ensures makes { Makes k.old k.new (whole_of result said.new) (λ c. evaluate c c.processes.stack c.processes.runnable) }
    ensures sound { IsSound k.new }
    ensures made { k.new.made ≤ k.old.made + 1 }
    ensures refused { whole_of result said.new ≡ Made.NoMemory → k.new.made ≡ k.old.made }
    ensures faulted { (f : RunFault) → whole_of result said.new ≡ Made.Fault f → k.new.made ≡ k.old.made }
{
    let step = step_statement(k, alloc, p, said);
    of_instance(step)
}

/// A step of the evaluation phase (IEEE 1666-2011, 4.2.1.2): one of the instance on top; with none active, the taking of the
/// runnable one that the chooser picks; with none runnable either, the update phase.
#[inline(always)]
pub(crate) fn evaluate<C: Chooser>(
    k: &mut Kernel,
    alloc: Global,
    chooser: &mut C,
    said: &mut StepAnswer,
) -> Brief
    requires sound { IsSound k.old }
    requires asked { MayStep k.old }
    requires room { k.old.made < 2 ^ 31 }
    ensures makes { Makes k.old k.new (whole_of result said.new) (λ c. evaluate c c.processes.stack c.processes.runnable) }
    ensures asks { Asks C.picks C.later k.old chooser.old chooser.new (whole_of result said.new) (λ c. evaluate c c.processes.stack c.processes.runnable) }
    ensures sound { IsSound k.new }
    ensures made { k.new.made ≤ k.old.made + 1 }
    ensures refused { whole_of result said.new ≡ Made.NoMemory → k.new.made ≡ k.old.made }
    ensures faulted { (f : RunFault) → whole_of result said.new ≡ Made.Fault f → k.new.made ≡ k.old.made }
{
    match top(&k.schedule) {
        Some(p) => step_of_top(k, alloc, p, said),
        None => brief_of(&evaluate_next(k, chooser), said),
    }
}
