//! What is kept of an instance, read and changed part by part. None takes memory.
ghost use Rattle.std.specs.Prelude.{◌≡◌, true, false, Some};
ghost use Rattle.std.specs.FinMap as map;
ghost use Rattle.exec_data.specs.EventCore.declared.event.Ev.TheVariants as ev;
ghost use Rattle.exec_data.specs.SimModel.Residual.{skip, begun};
ghost use Rattle.exec_data.specs.SimModel.Configuration.{Config, Instance, instance_at, change_instance, with_residual, arena};
ghost use Rattle.exec_data.specs.SimModel.Waits as waits;
ghost use Rattle.exec_data.specs.SimModel.Control as control;
ghost use Rattle.exec_data.specs.KernelProcesses.InstanceViews.{kind_of};
ghost use Rattle.exec_data.specs.KernelProcesses.Moved as moved;
ghost use Rattle.exec_data.specs.KernelState.Kernel.{StandsFor, IsSound};
ghost use Rattle.exec_data.specs.KernelState.Moves.{Moves, MovesAt, Steps, Lives, IsOnTop};

use exec_data::event_core_api::Ev;
use exec_data::instance_table_api::ProcessKind;
use exec_data::kernel_processes_api::{begin, fire};
use exec_data::kernel_state_api::Kernel;

/// A kind is that of threads.
#[inline(always)]
pub(crate) fn is_thread_kind(kind: ProcessKind) -> bool
    ensures { result ≡ control.is_thread (kind_of kind) }
{
    match kind {
        ProcessKind::Thread => true,
        ProcessKind::Method => false,
    }
}

/// Whether an instance is a thread.
pub fn is_thread(k: &Kernel, p: u32) -> bool
    requires { Lives k.now p }
    ensures { (c : Config) (i : Instance) → StandsFor k.now c → instance_at c p ≡ Some i → result ≡ control.is_thread i.kind }
{
    match k.schedule.table.get(p) {
        Some(x) => is_thread_kind(x.kind),
        None => false,
    }
}

/// Whether an instance is suspended.
pub(crate) fn is_suspended(k: &Kernel, p: u32) -> bool
    requires { Lives k.now p }
    ensures held { result ≡ moved.is_suspended (map.get k.now.schedule.table.live p) }
    ensures shown { (c : Config) (i : Instance) → StandsFor k.now c → instance_at c p ≡ Some i → result ≡ i.suspended }
{
    match k.schedule.table.get(p) {
        Some(x) => x.suspended,
        None => false,
    }
}

/// Nothing is left of the body of an instance.
#[inline(always)]
pub(crate) fn clear_body(k: &mut Kernel, p: u32)
    requires sound { IsSound k.old }
    requires lives { Lives k.old p }
    ensures moves { Moves k.old k.new (λ c. with_residual c p skip) }
    ensures stack { k.new.schedule.stack.items ≡ k.old.schedule.stack.items }
    ensures lives { Lives k.new p }
    ensures sound { IsSound k.new }
    ensures made { k.new.made ≡ k.old.made }
{
    match k.schedule.table.get_mut(p) {
        Some(x) => x.body.body.body.idle(),
        None => {}
    }
}

/// Notes whether the body of an instance has begun.
fn mark_begun(k: &mut Kernel, p: u32, on: bool)
    requires sound { IsSound k.old }
    requires lives { Lives k.old p }
    ensures moves { Moves k.old k.new (λ c. change_instance c p (moved.started_as on)) }
    ensures stack { k.new.schedule.stack.items ≡ k.old.schedule.stack.items }
    ensures sound { IsSound k.new }
    ensures made { k.new.made ≡ k.old.made }
{
    begin(&mut k.schedule, p, on);
}

/// The body of an instance has not begun, and nothing is left of it.
pub(crate) fn take_back(k: &mut Kernel, p: u32)
    requires sound { IsSound k.old }
    requires lives { Lives k.old p }
    ensures steps { Steps k.old k.new p (λ c q i r. change_instance c q (λ j. record j { residual = skip; started = false })) }
    ensures stack { k.new.schedule.stack.items ≡ k.old.schedule.stack.items }
    ensures sound { IsSound k.new }
    ensures made { k.new.made ≡ k.old.made }
{
    clear_body(k, p);
    mark_begun(k, p, false);
}

/// The body of an instance is at its first statement.
fn restart_body(k: &mut Kernel, p: u32)
    requires sound { IsSound k.old }
    requires lives { Lives k.old p }
    ensures moves { MovesAt k.old k.new p (λ c i. with_residual c p (begun (arena c) i.code i.arguments)) }
    ensures lives { Lives k.new p }
    ensures sound { IsSound k.new }
    ensures made { k.new.made ≡ k.old.made }
{
    match k.schedule.table.get_mut(p) {
        Some(x) => x.body.body.body.restart(k.program),
        None => {}
    }
}

/// The body of an instance begins.
pub(crate) fn begin_body(k: &mut Kernel, p: u32)
    requires sound { IsSound k.old }
    requires lives { Lives k.old p }
    ensures moves { MovesAt k.old k.new p (λ c i. control.begins c p i) }
    ensures sound { IsSound k.new }
    ensures made { k.new.made ≡ k.old.made }
{
    restart_body(k, p);
    mark_begun(k, p, true);
}

/// The reset event of an instance fires.
pub(crate) fn tell_reset(k: &mut Kernel, p: u32)
    requires { IsSound k.old }
    ensures moves { Moves k.old k.new (λ c. waits.fire c (ev.Restarted p)) }
    ensures stack { k.new.schedule.stack.items ≡ k.old.schedule.stack.items }
    ensures sound { IsSound k.new }
    ensures made { k.new.made ≡ k.old.made }
{
    fire(&mut k.schedule, Ev::Restarted(p));
}

/// The instance on top, which is suspended, leaves the stack and is kept.
pub(crate) fn stay_kept(k: &mut Kernel, p: u32)
    requires sound { IsSound k.old }
    requires top { IsOnTop k.old p }
    requires held { moved.is_suspended (map.get k.old.schedule.table.live p) ≡ true }
    ensures moves { Moves k.old k.new (λ c. control.stays_kept c p) }
    ensures sound { IsSound k.new }
    ensures made { k.new.made ≡ k.old.made }
{
    exec_data::kernel_processes_api::stay_kept(&mut k.schedule, p);
}
