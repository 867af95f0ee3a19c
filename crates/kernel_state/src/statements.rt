//! Statements, one of each theme: what can be refused comes first, then the part that moves, then the statement is past.
ghost use Rattle.std.specs.Prelude.{◌≡◌, ◌<◌, ◌-◌, ◌^◌, ◌∷◌, [], OnOk, OnErr, slice_get};
ghost use Rattle.kernel_processes.specs.FlatDesign.declared.design.ChannelId.TheVariants as channel;
ghost use Rattle.kernel_processes.specs.SimModel.Channels as channels;
ghost use Rattle.kernel_processes.specs.SimModel.Configuration.{waits_for_any, no_deadline};
ghost use Rattle.kernel_processes.specs.SimModel.Storing.{passes};
ghost use Rattle.kernel_processes.specs.SimModel.Storing as storing;
ghost use Rattle.kernel_processes.specs.SimModel.Waits.{waits};
ghost use Rattle.kernel_processes.specs.InstanceViews.{deadline_of};
ghost use Rattle.kernel_processes.specs.Moved.{wait_as};
ghost use Rattle.kernel_state.specs.Kernel.{IsSound};
ghost use Rattle.kernel_state.specs.Moves.{Moves, Steps, Lives, HasStatement, IsOnTop};

use crate::kernel::Kernel;
use crate::moves::{pass, set_variable, settle, wait, wait_for};
use kernel_processes::Trigger;
use kernel_processes::event_core_api::Ev;
use kernel_processes::logic_values_api::Value;
use std::alloc::AllocError;

/// A value is stored in a variable of an instance of a module.
pub fn store_variable(k: &mut Kernel, p: u32, n: u32, v: Value)
    requires sound { IsSound k.old }
    requires lives { Lives k.old p }
    requires statement { HasStatement k.old p }
    ensures steps { Steps k.old k.new p (λ c q i r. storing.set_variable (passes c q r) n v) }
    ensures sound { IsSound k.new }
    ensures made { k.new.made ≡ k.old.made }
{
    pass(k, p);
    set_variable(k, n, v);
}

/// The instance on top waits so: its statement is past (IEEE 1666-2011, 5.2.18). Where memory is refused nothing changes.
pub fn wait_so(k: &mut Kernel, p: u32, t: &Trigger) -> Result<(), AllocError>
    requires sound { IsSound k.old }
    requires top { IsOnTop k.old p }
    requires statement { HasStatement k.old p }
    ensures steps { OnOk result (Steps k.old k.new p (λ c q i r. waits (passes c q r) q (wait_as t.now.wait) (deadline_of t.now.deadline))) }
    ensures stays { OnErr result (Moves k.old k.new (λ c. c)) }
    ensures sound { IsSound k.new }
    ensures made { k.new.made ≡ k.old.made }
{
    match wait(k, p, t) {
        Ok(()) => {
            pass(k, p);
            Ok(())
        }
        Err(_) => Err(AllocError),
    }
}

/// The instance on top waits for one event, without a time-out: its statement is past (IEEE 1666-2011, 5.2.18). Where memory is refused
/// nothing changes.
pub fn wait_for_event(k: &mut Kernel, p: u32, e: Ev) -> Result<(), AllocError>
    requires sound { IsSound k.old }
    requires top { IsOnTop k.old p }
    requires statement { HasStatement k.old p }
    ensures steps { OnOk result (Steps k.old k.new p (λ c q i r. waits (passes c q r) q (waits_for_any (e ∷ [])) no_deadline)) }
    ensures stays { OnErr result (Moves k.old k.new (λ c. c)) }
    ensures sound { IsSound k.new }
    ensures made { k.new.made ≡ k.old.made }
{
    match wait_for(k, p, e) {
        Ok(()) => {
            pass(k, p);
            Ok(())
        }
        Err(_) => Err(AllocError),
    }
}

/// The instance on top is blocked: the same statement stays, and it waits for an event. Where memory is refused nothing
/// changes.
pub fn block(k: &mut Kernel, p: u32, e: Ev) -> Result<(), AllocError>
    requires sound { IsSound k.old }
    requires top { IsOnTop k.old p }
    ensures steps { OnOk result (Steps k.old k.new p (λ c q i r. channels.blocks c q r e)) }
    ensures stays { OnErr result (Moves k.old k.new (λ c. c)) }
    ensures sound { IsSound k.new }
    ensures made { k.new.made ≡ k.old.made }
{
    match wait_for(k, p, e) {
        Ok(()) => {
            settle(k, p);
            Ok(())
        }
        Err(_) => Err(AllocError),
    }
}

/// A value is written to a fifo, or the instance on top is blocked till one is read (IEEE 1666-2011, 6.23). `events` is the
/// fifo's first event. Where memory is refused nothing changes.
pub fn write_fifo(k: &mut Kernel, p: u32, n: u32, events: u32, v: Value) -> Result<(), AllocError>
    requires sound { IsSound k.old }
    requires top { IsOnTop k.old p }
    requires statement { HasStatement k.old p }
    requires event { events < 2 ^ 32 - 1 }
    ensures steps { OnOk result (Steps k.old k.new p (λ c q i r. channels.write_fifo c q r n (channel.Fifo n events) v (slice_get c.channels.fifos n))) }
    ensures stays { OnErr result (Moves k.old k.new (λ c. c)) }
    ensures sound { IsSound k.new }
    ensures made { k.new.made ≡ k.old.made }
{
    match k.channels.write_fifo(n, v) {
        Some(true) => {
            pass(k, p);
            Ok(())
        }
        Some(false) => match block(k, p, Ev::Fixed(events + 1)) {
            Ok(()) => Ok(()),
            Err(_) => Err(AllocError),
        },
        None => {
            pass(k, p);
            Ok(())
        }
    }
}
