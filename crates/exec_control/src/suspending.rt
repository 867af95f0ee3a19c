//! Instances that are suspended.
ghost use Rattle.std.specs.Prelude.{◌≡◌, Ok};
ghost use Rattle.exec_data.specs.ModelTree.declared.statements.Control.TheVariants as order;
ghost use Rattle.exec_data.specs.SimModel.Configuration.{Config, instance_at};
ghost use Rattle.exec_data.specs.SimModel.Control as spec;
ghost use Rattle.exec_data.specs.SimModel.Control.{unless_ended, control_call};
ghost use Rattle.exec_data.specs.KernelState.Kernel.{StandsFor, IsSound};
ghost use Rattle.exec_data.specs.KernelState.Moves.{MovesAt, Follows, Does, Lives};
ghost use Rattle.exec_data.specs.KernelState.Ways.{moved_on, MayMoveOn};

use crate::shown::{lives, yields};
use exec_data::kernel_state_api::{Kernel, Way, move_on};

/// An instance that has not ended is suspended. One that is runnable is kept till it is resumed, and so is a thread on top
/// that no call and no unwinding holds: it leaves the stack.
fn suspend_live(k: &mut Kernel, q: u32)
    requires sound { IsSound k.old }
    requires lives { Lives k.old q }
    ensures moves { MovesAt k.old k.new q (λ c i. spec.suspends c q i) }
    ensures sound { IsSound k.new }
    ensures made { k.new.made ≡ k.old.made }
{
    let yielding = yields(k, q);
    exec_data::kernel_processes_api::suspend(&mut k.schedule, q, yielding);
}

/// An instance is suspended, unless it has ended.
fn suspend_if(k: &mut Kernel, q: u32)
    requires sound { IsSound k.old }
    ensures follows { (c : Config) → StandsFor k.old c → Follows k.new (Ok tt) c (unless_ended c (instance_at c q) (λ i. Ok (spec.suspends c q i))) }
    ensures sound { IsSound k.new }
    ensures made { k.new.made ≡ k.old.made }
{
    if lives(k, q) {
        suspend_live(k, q);
    }
}

/// `suspend`: the instance does not run till it is resumed (IEEE 1666-2011, 5.6.6.1).
pub(crate) fn suspend(k: &mut Kernel, p: u32, q: u32, way: Way)
    requires sound { IsSound k.old }
    requires lives { Lives k.old p }
    requires may { MayMoveOn way k.old p }
    ensures does { Does k.old k.new (Ok tt) p (λ c s i r. control_call (moved_on way c s r) q order.Suspend) }
    ensures sound { IsSound k.new }
    ensures made { k.new.made ≡ k.old.made }
{
    move_on(k, p, way);
    suspend_if(k, q);
}
