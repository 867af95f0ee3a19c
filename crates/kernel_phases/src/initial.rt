//! Initialization.
ghost use Rattle.std.specs.Prelude.{◌≡◌, ◌≤◌, length};
ghost use Rattle.kernel_state.specs.SimModel.Phases as phases;
ghost use Rattle.kernel_state.specs.Kernel.{IsSound};
ghost use Rattle.kernel_state.specs.Moves.{Moves, KeepsBodies};
ghost use Rattle.kernel_phases.specs.Due.{HasRoom};
ghost use Rattle.kernel_phases.specs.Fresh.{IsFresh};

use super::due::notify_deltas;
use super::updates::{set_phase, update_channels};
use kernel_state::Kernel;
use kernel_state::kernel_processes_api::initialize as make_runnable;
use kernel_state::sim_model_api::Phase;

/// Makes every process runnable that is not left out.
fn make_all_runnable(k: &mut Kernel)
    requires sound { IsSound k.old }
    requires fresh { IsFresh k.old }
    ensures moves { Moves k.old k.new (λ c. phases.initialize_each 0 c.design.processes c) }
    ensures kept { KeepsBodies k.old k.new }
    ensures events { k.new.events ≡ k.old.events }
    ensures sound { IsSound k.new }
    ensures made { k.new.made ≡ k.old.made }
{
    let mut p = 0;
    while (p as usize) < k.design.processes.as_slice().len() {
        if !k.design.processes.as_slice()[p as usize].dont_initialize {
            make_runnable(&mut k.schedule, p);
        }
        p += 1;
    }
}

/// Initialization: the update phase, every process that is not left out becomes runnable, and the delta notification phase
/// (IEEE 1666-2011, 4.2.1.1). It takes no memory: `events` is a list without members that has room for all events.
#[cold]
pub fn initialize(k: &mut Kernel, events: &mut Vec<u32>)
    requires sound { IsSound k.old }
    requires fresh { IsFresh k.old }
    requires room { HasRoom k.old events.old }
    ensures moves { Moves k.old k.new phases.initialization }
    ensures kept { KeepsBodies k.old k.new }
    ensures sound { IsSound k.new }
    ensures room { HasRoom k.new events.new }
    ensures made { k.new.made ≡ k.old.made }
{
    update_channels(k);
    make_all_runnable(k);
    notify_deltas(k, events);
    set_phase(k, Phase::Evaluate);
}
