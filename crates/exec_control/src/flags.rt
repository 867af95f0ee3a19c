//! Instances that are resumed, disabled and enabled.
ghost use Rattle.std.specs.Prelude.{◌≡◌, Ok};
ghost use Rattle.exec_data.specs.ModelTree.declared.statements.Control.TheVariants as order;
ghost use Rattle.exec_data.specs.SimModel.Configuration.{Config, instance_at};
ghost use Rattle.exec_data.specs.SimModel.Control as spec;
ghost use Rattle.exec_data.specs.SimModel.Control.{unless_ended, control_call};
ghost use Rattle.exec_data.specs.KernelState.Kernel.{StandsFor, IsSound};
ghost use Rattle.exec_data.specs.KernelState.Moves.{Moves, MovesAt, Follows, Does, Lives};
ghost use Rattle.exec_data.specs.KernelState.Ways.{moved_on, MayMoveOn};

use crate::shown::lives;
use exec_data::kernel_state_api::{Kernel, Way, move_on};

/// An instance that has not ended is disabled, or enabled.
fn disable_live(k: &mut Kernel, q: u32, on: bool)
    requires sound { IsSound k.old }
    requires lives { Lives k.old q }
    ensures moves { Moves k.old k.new (λ c. spec.disables c q on) }
    ensures sound { IsSound k.new }
    ensures made { k.new.made ≡ k.old.made }
{
    exec_data::kernel_processes_api::disable(&mut k.schedule, q, on);
}

/// An instance is disabled, or enabled, unless it has ended.
fn set_disabled(k: &mut Kernel, q: u32, on: bool)
    requires sound { IsSound k.old }
    ensures follows { (c : Config) → StandsFor k.old c → Follows k.new (Ok tt) c (unless_ended c (instance_at c q) (λ i. Ok (spec.disables c q on))) }
    ensures sound { IsSound k.new }
    ensures made { k.new.made ≡ k.old.made }
{
    if lives(k, q) {
        disable_live(k, q, on);
    }
}

/// `disable`: events and times do not wake the instance any more (IEEE 1666-2011, 5.6.6.1).
pub(crate) fn disable(k: &mut Kernel, p: u32, q: u32, way: Way)
    requires sound { IsSound k.old }
    requires lives { Lives k.old p }
    requires may { MayMoveOn way k.old p }
    ensures does { Does k.old k.new (Ok tt) p (λ c s i r. control_call (moved_on way c s r) q order.Disable) }
    ensures sound { IsSound k.new }
    ensures made { k.new.made ≡ k.old.made }
{
    move_on(k, p, way);
    set_disabled(k, q, true);
}

/// `enable`: events and times wake the instance again (IEEE 1666-2011, 5.6.6.1).
pub(crate) fn enable(k: &mut Kernel, p: u32, q: u32, way: Way)
    requires sound { IsSound k.old }
    requires lives { Lives k.old p }
    requires may { MayMoveOn way k.old p }
    ensures does { Does k.old k.new (Ok tt) p (λ c s i r. control_call (moved_on way c s r) q order.Enable) }
    ensures sound { IsSound k.new }
    ensures made { k.new.made ≡ k.old.made }
{
    move_on(k, p, way);
    set_disabled(k, q, false);
}

/// An instance that has not ended is resumed; one that was kept is runnable then.
fn resume_live(k: &mut Kernel, q: u32)
    requires sound { IsSound k.old }
    requires lives { Lives k.old q }
    ensures moves { MovesAt k.old k.new q (λ c i. spec.resumes c q i) }
    ensures sound { IsSound k.new }
    ensures made { k.new.made ≡ k.old.made }
{
    exec_data::kernel_processes_api::resume(&mut k.schedule, q);
}

/// An instance is resumed, unless it has ended.
fn resume_if(k: &mut Kernel, q: u32)
    requires sound { IsSound k.old }
    ensures follows { (c : Config) → StandsFor k.old c → Follows k.new (Ok tt) c (unless_ended c (instance_at c q) (λ i. Ok (spec.resumes c q i))) }
    ensures sound { IsSound k.new }
    ensures made { k.new.made ≡ k.old.made }
{
    if lives(k, q) {
        resume_live(k, q);
    }
}

/// `resume`: the instance is suspended no more, and runnable where it was kept (IEEE 1666-2011, 5.6.6.1).
pub(crate) fn resume(k: &mut Kernel, p: u32, q: u32, way: Way)
    requires sound { IsSound k.old }
    requires lives { Lives k.old p }
    requires may { MayMoveOn way k.old p }
    ensures does { Does k.old k.new (Ok tt) p (λ c s i r. control_call (moved_on way c s r) q order.Resume) }
    ensures sound { IsSound k.new }
    ensures made { k.new.made ≡ k.old.made }
{
    move_on(k, p, way);
    resume_if(k, q);
}
