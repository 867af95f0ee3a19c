//! Process control of one instance by another: a kill and a reset (IEEE 1666-2011, 5.6.6). None of it takes memory.
ghost use Rattle.std.specs.Prelude.{◌≡◌, ◌+◌, ◌<◌, ◌&&◌, not, true, false, List, Ok, None};
ghost use Rattle.std.specs.FinMap as map;
ghost use Rattle.kernel_processes.specs.FlatDesign.Code.{Arena};
ghost use Rattle.kernel_processes.specs.ModelTree.declared.statements.Control.TheVariants as order;
ghost use Rattle.kernel_processes.specs.SimModel.Residual as residual;
ghost use Rattle.kernel_processes.specs.SimModel.Residual.{goal};
ghost use Rattle.kernel_processes.specs.SimModel.Unwinding.{unw, left_by_unw};
ghost use Rattle.kernel_processes.specs.SimModel.Configuration.{Config, Instance, instance_at, change_instance, with_residual};
ghost use Rattle.kernel_processes.specs.SimModel.Calls.{with_left};
ghost use Rattle.kernel_processes.specs.SimModel.Control as spec;
ghost use Rattle.kernel_processes.specs.SimModel.Control.{is_top, pushed, unwinds, unless_ended, ends_or_restarts, control_call};
ghost use Rattle.kernel_processes.specs.InstanceViews.{is_on};
ghost use Rattle.kernel_processes.specs.Moved.{IsTop};
ghost use Rattle.process_bodies.specs.Bodies.{left_of};
ghost use Rattle.kernel_transactions.specs.Board as board;
ghost use Rattle.kernel_transactions.specs.Board.{StaysWithin, SameQuantum, left};
ghost use Rattle.kernel_state.specs.Kernel.{StandsFor, IsSound};
ghost use Rattle.kernel_state.specs.Moves.{Moves, MovesAt, Follows, Does, Lives};
ghost use Rattle.kernel_state.specs.Ways.{moved_on, MayMoveOn};

use crate::kernel::Kernel;
use crate::ways::{Way, move_on};
use kernel_processes::flat_design_api::RunFault;
use kernel_processes::sim_model_api::Goal;
use kernel_processes::{is_active, top};
use kernel_transactions::{TransactionBoard, left_calls_end};
use process_bodies::Body;

/// The transport calls that an unwinding of a body leaves end their transactions on their hops.
fn leave_calls(transactions: &mut TransactionBoard, body: &Body)
    ensures moves { (a : Arena) → board.Moves transactions.old transactions.new (λ x. left x (left_by_unw (left_of a body.now))) }
    ensures within { StaysWithin transactions.old transactions.new }
    ensures quantum { SameQuantum transactions.old transactions.new }
{
    let mut number = 0;
    while let Some(via) = body.left_by_unwind(number) {
        transactions.abandon(via.hop, via.payload);
        number += 1;
    }
}

/// The transport calls that an unwinding of an instance leaves end their transactions on their hops.
fn leave(k: &mut Kernel, q: u32)
    requires sound { IsSound k.old }
    requires lives { Lives k.old q }
    ensures moves { MovesAt k.old k.new q (λ c i. with_left c (left_by_unw i.residual)) }
    ensures schedule { k.new.schedule ≡ k.old.schedule }
    ensures sound { IsSound k.new }
    ensures made { k.new.made ≡ k.old.made }
{
    left_calls_end();
    match k.schedule.table.get(q) {
        Some(x) => leave_calls(&mut k.transactions, &x.body.body.body),
        None => {}
    }
}

/// What is left of an instance is unwound, before this goal.
fn unwind_body(k: &mut Kernel, q: u32, end: Goal)
    requires sound { IsSound k.old }
    requires lives { Lives k.old q }
    ensures moves { MovesAt k.old k.new q (λ c i. with_residual c q (goal (unw i.residual) end)) }
    ensures stack { k.new.schedule.stack ≡ k.old.schedule.stack }
    ensures lives { Lives k.new q }
    ensures sound { IsSound k.new }
    ensures made { k.new.made ≡ k.old.made }
{
    match k.schedule.table.get_mut(q) {
        Some(x) => x.body.body.body.unwind(end),
        None => {}
    }
}

/// An instance has no next trigger any more.
fn clear_trigger(k: &mut Kernel, q: u32)
    requires sound { IsSound k.old }
    requires lives { Lives k.old q }
    ensures moves { Moves k.old k.new (λ c. change_instance c q (λ i. record i { trigger = None })) }
    ensures stack { k.new.schedule.stack ≡ k.old.schedule.stack }
    ensures lives { Lives k.new q }
    ensures sound { IsSound k.new }
    ensures made { k.new.made ≡ k.old.made }
{
    match k.schedule.table.get_mut(q) {
        Some(x) => x.body.body.trigger = None,
        None => {}
    }
}

/// An instance that is not active gets on top of the stack: what it waited for, its next trigger, its mark that it is kept
/// and its place among the runnable ones are gone.
pub fn push(k: &mut Kernel, q: u32)
    requires sound { IsSound k.old }
    requires lives { Lives k.old q }
    requires rests { is_on k.old.schedule.stack.items q ≡ false }
    ensures moves { Moves k.old k.new (λ c. pushed c q) }
    ensures sound { IsSound k.new }
    ensures made { k.new.made ≡ k.old.made }
{
    clear_trigger(k, q);
    kernel_processes::push(&mut k.schedule, q);
}

/// What is left of an instance is unwound before this goal, and it gets on top of the stack, if it is not there.
fn unwind(k: &mut Kernel, q: u32, end: Goal)
    requires sound { IsSound k.old }
    requires lives { Lives k.old q }
    requires place { is_on k.old.schedule.stack.items q ≡ true → IsTop q k.old.schedule.stack.items }
    ensures moves { MovesAt k.old k.new q (λ c i. unwinds c q i end) }
    ensures sound { IsSound k.new }
    ensures made { k.new.made ≡ k.old.made }
{
    left_calls_end();
    leave(k, q);
    unwind_body(k, q, end);
    if is_active(k.schedule.stack.as_slice(), q) {
        return;
    }
    push(k, q);
}

/// Whether there is an instance of this serial that has not ended.
pub(crate) fn lives(k: &Kernel, q: u32) -> bool
    ensures { result ≡ map.contains_key k.now.schedule.table.live q }
{
    match k.schedule.table.get(q) {
        Some(_) => true,
        None => false,
    }
}

/// Whether an instance is being unwound.
fn has_goal(k: &Kernel, q: u32) -> bool
    requires { Lives k.now q }
    ensures { (c : Config) (i : Instance) → StandsFor k.now c → instance_at c q ≡ Some i → result ≡ residual.has_goal i.residual }
{
    match k.schedule.table.get(q) {
        Some(x) => x.body.body.body.has_goal(),
        None => false,
    }
}

/// Whether an instance is active below the top of the stack.
fn is_below_top(k: &Kernel, q: u32) -> bool
    requires { IsSound k.now }
    ensures below { (c : Config) → StandsFor k.now c → result ≡ spec.is_below_top c q }
    ensures on { result ≡ true → is_on k.now.schedule.stack.items q ≡ true }
    ensures place { result ≡ false → is_on k.now.schedule.stack.items q ≡ true → IsTop q k.now.schedule.stack.items }
{
    match top(&k.schedule) {
        Some(p) => {
            if p == q {
                return false;
            }
            is_active(k.schedule.stack.as_slice(), q)
        }
        None => false,
    }
}

/// Whether an instance is on top and is being unwound.
fn is_in_unwinding(k: &Kernel, q: u32) -> bool
    requires lives { Lives k.now q }
    requires place { is_on k.now.schedule.stack.items q ≡ true → IsTop q k.now.schedule.stack.items }
    ensures { (c : Config) (i : Instance) → StandsFor k.now c → instance_at c q ≡ Some i → result ≡ (is_top c q && residual.has_goal i.residual) }
{
    if !is_active(k.schedule.stack.as_slice(), q) {
        return false;
    }
    has_goal(k, q)
}

/// An instance that is not active below the top is unwound before this goal. It is left alone where it has ended, or is on
/// top in an unwinding.
fn end_or_restart(k: &mut Kernel, q: u32, end: Goal)
    requires sound { IsSound k.old }
    requires place { is_on k.old.schedule.stack.items q ≡ true → IsTop q k.old.schedule.stack.items }
    ensures follows { (c : Config) → StandsFor k.old c → Follows k.new (Ok tt) c (unless_ended c (instance_at c q) (λ i. ends_or_restarts c q i end)) }
    ensures sound { IsSound k.new }
    ensures made { k.new.made ≡ k.old.made }
{
    if !lives(k, q) {
        return;
    }
    if is_in_unwinding(k, q) {
        return;
    }
    unwind(k, q, end);
}

/// An instance, which is past its call this way, has another one unwound before this goal, or itself.
fn unwind_other(k: &mut Kernel, p: u32, q: u32, way: Way, end: Goal) -> Result<(), RunFault>
    requires sound { IsSound k.old }
    requires lives { Lives k.old p }
    requires may { MayMoveOn way k.old p }
    ensures does { Does k.old k.new result p (λ c s i r. unless_ended (moved_on way c s r) (instance_at (moved_on way c s r) q) (λ j. ends_or_restarts (moved_on way c s r) q j end)) }
    ensures sound { IsSound k.new }
    ensures made { k.new.made ≡ k.old.made }
{
    if is_below_top(k, q) {
        return Err(RunFault::ControlOnActive { serial: q });
    }
    move_on(k, p, way);
    end_or_restart(k, q, end);
    Ok(())
}

/// A kill (IEEE 1666-2011, 5.6.6.3): instance `q` is unwound, and ends. It is a fault where `q` is active below the top of the
/// stack, and then nothing changes. It takes no memory.
pub fn kill(k: &mut Kernel, p: u32, q: u32, way: Way) -> Result<(), RunFault>
    requires sound { IsSound k.old }
    requires lives { Lives k.old p }
    requires may { MayMoveOn way k.old p }
    ensures does { Does k.old k.new result p (λ c s i r. control_call (moved_on way c s r) q order.Kill) }
    ensures sound { IsSound k.new }
    ensures made { k.new.made ≡ k.old.made }
{
    unwind_other(k, p, q, way, Goal::End)
}

/// A reset (IEEE 1666-2011, 5.6.6.3): instance `q` is unwound, and begins again. It is a fault where `q` is active below the
/// top of the stack, and then nothing changes. It takes no memory.
pub fn reset(k: &mut Kernel, p: u32, q: u32, way: Way) -> Result<(), RunFault>
    requires sound { IsSound k.old }
    requires lives { Lives k.old p }
    requires may { MayMoveOn way k.old p }
    ensures does { Does k.old k.new result p (λ c s i r. control_call (moved_on way c s r) q order.Reset) }
    ensures sound { IsSound k.new }
    ensures made { k.new.made ≡ k.old.made }
{
    unwind_other(k, p, q, way, Goal::Restart)
}
