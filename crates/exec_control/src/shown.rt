//! What is read of an instance that is controlled.
ghost use Rattle.std.specs.Prelude.{◌≡◌, ◌&&◌, not, true, false, Some};
ghost use Rattle.std.specs.FinMap as map;
ghost use Rattle.exec_data.specs.SimModel.Residual as residual;
ghost use Rattle.exec_data.specs.SimModel.Configuration.{Config, Instance, instance_at};
ghost use Rattle.exec_data.specs.SimModel.Control as control;
ghost use Rattle.exec_data.specs.KernelState.Kernel.{StandsFor};
ghost use Rattle.exec_data.specs.KernelState.Moves.{Lives, IsOnTop};
ghost use Rattle.exec_control.specs.Unwound.{HasNoGoal};

use crate::is_thread;
use exec_data::kernel_processes_api::top;
use exec_data::kernel_state_api::Kernel;

/// Whether there is an instance of this serial that has not ended.
pub(crate) fn lives(k: &Kernel, q: u32) -> bool
    ensures { result ≡ map.contains_key k.now.schedule.table.live q }
{
    match k.schedule.table.get(q) {
        Some(_) => true,
        None => false,
    }
}

/// Whether an instance is on top of the stack.
fn is_top(k: &Kernel, q: u32) -> bool
    ensures shown { (c : Config) → StandsFor k.now c → result ≡ control.is_top c q }
    ensures top { result ≡ true → IsOnTop k.now q }
{
    match top(&k.schedule) {
        Some(p) => p == q,
        None => false,
    }
}

/// Whether the body of an instance has begun.
fn is_begun(k: &Kernel, q: u32) -> bool
    requires { Lives k.now q }
    ensures { (c : Config) (i : Instance) → StandsFor k.now c → instance_at c q ≡ Some i → result ≡ i.started }
{
    match k.schedule.table.get(q) {
        Some(x) => x.started,
        None => false,
    }
}

/// Whether an exception can be thrown at an instance: it is a thread that has begun.
pub(crate) fn is_begun_thread(k: &Kernel, q: u32) -> bool
    requires { Lives k.now q }
    ensures { (c : Config) (i : Instance) → StandsFor k.now c → instance_at c q ≡ Some i → result ≡ (control.is_thread i.kind && i.started) }
{
    if !is_thread(k, q) {
        return false;
    }
    is_begun(k, q)
}

/// Whether some non-blocking transport call holds an instance.
fn in_nb(k: &Kernel, q: u32) -> bool
    requires { Lives k.now q }
    ensures { (c : Config) (i : Instance) → StandsFor k.now c → instance_at c q ≡ Some i → result ≡ residual.in_nb i.residual }
{
    match k.schedule.table.get(q) {
        Some(x) => x.body.body.body.in_nb(),
        None => false,
    }
}

/// Whether an instance is being unwound.
pub(crate) fn has_goal(k: &Kernel, q: u32) -> bool
    requires { Lives k.now q }
    ensures free { result ≡ false → HasNoGoal k.now q }
    ensures shown { (c : Config) (i : Instance) → StandsFor k.now c → instance_at c q ≡ Some i → result ≡ residual.has_goal i.residual }
{
    match k.schedule.table.get(q) {
        Some(x) => x.body.body.body.has_goal(),
        None => false,
    }
}

/// Whether no call and no unwinding holds an instance.
fn is_held_by_none(k: &Kernel, q: u32) -> bool
    requires { Lives k.now q }
    ensures { (c : Config) (i : Instance) → StandsFor k.now c → instance_at c q ≡ Some i → result ≡ (not (residual.in_nb i.residual) && not (residual.has_goal i.residual)) }
{
    if in_nb(k, q) {
        return false;
    }
    !has_goal(k, q)
}

/// Whether an instance that is suspended leaves the stack at once: it is a thread on top that no call and no unwinding holds.
pub(crate) fn yields(k: &Kernel, q: u32) -> bool
    requires { Lives k.now q }
    ensures shown { (c : Config) (i : Instance) → StandsFor k.now c → instance_at c q ≡ Some i → result ≡ control.yields c q i }
    ensures top { result ≡ true → IsOnTop k.now q }
{
    if !is_top(k, q) {
        return false;
    }
    if !is_thread(k, q) {
        return false;
    }
    is_held_by_none(k, q)
}
