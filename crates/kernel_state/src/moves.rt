//! Moves of the processes: each carries the configuration that the kernel stands for as the definitions of a run do.
ghost use Rattle.std.specs.Prelude.{◌≡◌, ◌∷◌, [], OnOk, OnErr};
ghost use Rattle.kernel_processes.specs.SimModel.Configuration.{with_residual, waits_for_any, no_deadline};
ghost use Rattle.kernel_processes.specs.SimModel.Storing as storing;
ghost use Rattle.kernel_processes.specs.SimModel.Waits as waiting;
ghost use Rattle.kernel_processes.specs.InstanceViews.{deadline_of};
ghost use Rattle.kernel_processes.specs.Moved.{wait_as};
ghost use Rattle.kernel_state.specs.Kernel.{IsSound, whole_design};
ghost use Rattle.kernel_state.specs.Moves.{Moves, Steps, Lives, HasStatement, IsOnTop, KeepsBodies};

use crate::kernel::Kernel;
use kernel_processes::event_core_api::{Ev, When};
use kernel_processes::logic_values_api::Value;
use kernel_processes::{Trigger, fire as fire_processes};
use std::alloc::AllocError;

/// The statement in place of an instance is past.
#[inline(always)]
pub fn pass(k: &mut Kernel, p: u32)
    requires sound { IsSound k.old }
    requires lives { Lives k.old p }
    requires statement { HasStatement k.old p }
    ensures steps { Steps k.old k.new p (λ c q i r. storing.passes c q r) }
    ensures stack { k.new.schedule.stack ≡ k.old.schedule.stack }
    ensures sound { IsSound k.new }
    ensures made { k.new.made ≡ k.old.made }
{
    match k.schedule.table.get_mut(p) {
        Some(x) => x.body.body.body.past(k.program),
        None => {}
    }
}

/// An event fires: each instance that is sensitive to it hears it (IEEE 1666-2011, 5.10).
pub fn fire(k: &mut Kernel, e: Ev)
    requires { IsSound k.old }
    ensures moves { Moves k.old k.new (λ c. waiting.fire c e) }
    ensures kept { KeepsBodies k.old k.new }
    ensures sound { IsSound k.new }
    ensures made { k.new.made ≡ k.old.made }
{
    fire_processes(&mut k.schedule, e);
}

/// The active instance on top waits so, and leaves the stack (IEEE 1666-2011, 5.2.18). Where memory is refused nothing
/// changes.
#[inline(always)]
pub fn wait(k: &mut Kernel, p: u32, t: &Trigger) -> Result<(), AllocError>
    requires sound { IsSound k.old }
    requires top { IsOnTop k.old p }
    ensures moves { OnOk result (Moves k.old k.new (λ c. waiting.waits c p (wait_as t.now.wait) (deadline_of t.now.deadline))) }
    ensures stays { OnErr result (Moves k.old k.new (λ c. c)) }
    ensures kept { KeepsBodies k.old k.new }
    ensures sound { IsSound k.new }
    ensures made { k.new.made ≡ k.old.made }
{
    match kernel_processes::begin_wait(&mut k.schedule, p, t) {
        Ok(()) => Ok(()),
        Err(_) => Err(AllocError),
    }
}

/// The active instance on top waits for one event, without a time-out, and leaves the stack (IEEE 1666-2011, 5.2.18). Where memory is
/// refused nothing changes.
#[inline(always)]
pub fn wait_for(k: &mut Kernel, p: u32, e: Ev) -> Result<(), AllocError>
    requires sound { IsSound k.old }
    requires top { IsOnTop k.old p }
    ensures moves { OnOk result (Moves k.old k.new (λ c. waiting.waits c p (waits_for_any (e ∷ [])) no_deadline)) }
    ensures stays { OnErr result (Moves k.old k.new (λ c. c)) }
    ensures kept { KeepsBodies k.old k.new }
    ensures sound { IsSound k.new }
    ensures made { k.new.made ≡ k.old.made }
{
    match kernel_processes::begin_wait_for(&mut k.schedule, p, e) {
        Ok(()) => Ok(()),
        Err(_) => Err(AllocError),
    }
}

/// A notification of an event of the design's objects. What an immediate one fires is the caller's to fire.
pub fn notify(k: &mut Kernel, e: u32, w: When)
    requires { IsSound k.old }
    ensures moves { Moves k.old k.new (λ c. waiting.notify c e w) }
    ensures kept { KeepsBodies k.old k.new }
    ensures sound { IsSound k.new }
    ensures made { k.new.made ≡ k.old.made }
{
    k.events.notify(e, w);
}

/// A variable of an instance of a module gets a value; where there is none of this number nothing changes.
pub fn set_variable(k: &mut Kernel, n: u32, v: Value)
    requires { IsSound k.old }
    ensures moves { Moves k.old k.new (λ c. storing.set_variable c n v) }
    ensures kept { KeepsBodies k.old k.new }
    ensures sound { IsSound k.new }
    ensures made { k.new.made ≡ k.old.made }
{
    if (n as usize) < k.variables.len() {
        k.variables[n as usize] = v;
    }
}

/// Finished parts of the body of an instance fall away.
pub fn settle(k: &mut Kernel, p: u32)
    requires sound { IsSound k.old }
    requires lives { Lives k.old p }
    ensures steps { Steps k.old k.new p (λ c q i r. with_residual c q r) }
    ensures sound { IsSound k.new }
    ensures made { k.new.made ≡ k.old.made }
{
    match k.schedule.table.get_mut(p) {
        Some(x) => x.body.body.body.settle(k.program),
        None => {}
    }
}

/// Another value for a local variable of the innermost call of an instance, which has not ended still.
pub fn set_local(k: &mut Kernel, p: u32, n: u32, v: Value)
    requires sound { IsSound k.old }
    requires lives { Lives k.old p }
    ensures moves { Moves k.old k.new (λ c. storing.set_local c p n v) }
    ensures design { whole_design k.new ≡ whole_design k.old }
    ensures lives { Lives k.new p }
    ensures sound { IsSound k.new }
    ensures made { k.new.made ≡ k.old.made }
{
    match k.schedule.table.get_mut(p) {
        Some(x) => x.body.body.body.set_local(n as usize, v),
        None => unreachable!(),
    }
}
