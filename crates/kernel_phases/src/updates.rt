//! The update phase.
ghost use Rattle.std.specs.Prelude.{◌≡◌, length, true};
ghost use Rattle.kernel_state.specs.SimModel.Configuration.{with_phase};
ghost use Rattle.kernel_state.specs.SimModel.Phases as phases;
ghost use Rattle.kernel_state.specs.Kernel.{IsSound};
ghost use Rattle.kernel_state.specs.Moves.{Moves, KeepsBodies};

use kernel_state::Kernel;
use kernel_state::kernel_channels_api::what_an_update_phase_announces;
use kernel_state::sim_model_api::Phase;

/// Another phase comes next.
pub(crate) fn set_phase(k: &mut Kernel, x: Phase)
    requires { IsSound k.old }
    ensures moves { Moves k.old k.new (λ c. with_phase c x) }
    ensures left { k.new ≡ record k.old { cycle = record k.old.cycle { phase = x } } }
    ensures sound { IsSound k.new }
    ensures made { k.new.made ≡ k.old.made }
{
    k.cycle.phase = x;
}

/// Updates each channel that asked for it, and notifies what that changed.
#[inline(always)]
pub(crate) fn update_channels(k: &mut Kernel)
    requires { IsSound k.old }
    ensures moves { Moves k.old k.new phases.update_phase }
    ensures schedule { k.new.schedule ≡ k.old.schedule }
    ensures many { length k.new.events ≡ length k.old.events }
    ensures cycle { k.new.cycle ≡ k.old.cycle }
    ensures design { k.new.design ≡ k.old.design }
    ensures program { k.new.program.now ≡ k.old.program.now }
    ensures sound { IsSound k.new }
    ensures made { k.new.made ≡ k.old.made }
{
    what_an_update_phase_announces();
    k.channels.update(&k.design, &mut k.events);
}

/// The session ends.
fn end_session(k: &mut Kernel)
    requires { IsSound k.old }
    ensures moves { Moves k.old k.new phases.session_stopped }
    ensures left { k.new ≡ record k.old { cycle = record k.old.cycle { stopped = true } } }
    ensures sound { IsSound k.new }
    ensures made { k.new.made ≡ k.old.made }
{
    k.cycle.stopped = true;
}

/// The end of an evaluation phase: the update phase; then the delta notification phase comes next, or the session ends, where the
/// model asked for it (IEEE 1666-2011, 4.2.1.3 and 4.5.3). It takes no memory.
pub fn update(k: &mut Kernel)
    requires { IsSound k.old }
    ensures moves { Moves k.old k.new phases.update_step }
    ensures kept { KeepsBodies k.old k.new }
    ensures sound { IsSound k.new }
    ensures made { k.new.made ≡ k.old.made }
{
    update_channels(k);
    if k.cycle.stop_asked {
        end_session(k);
    } else {
        set_phase(k, Phase::Notify);
    }
}
