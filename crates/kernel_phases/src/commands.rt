//! What a script asks of a kernel.
ghost use Rattle.std.specs.Prelude.{◌≡◌, slice_get, true, false};
ghost use Rattle.kernel_state.specs.SimModel.Configuration.{Config};
ghost use Rattle.kernel_state.specs.SimModel.Steps as step;
ghost use Rattle.kernel_state.specs.Kernel.{StandsFor, IsSound};
ghost use Rattle.kernel_state.specs.Moves.{Moves, Follows, KeepsBodies};

use kernel_state::Kernel;
use kernel_state::flat_design_api::{RunFault, VisibleId};
use kernel_state::logic_values_api::Value;
use kernel_state::sim_model_api::Phase;
use kernel_state::sim_time_api::{Time, add};

/// Asks for an update of an object that has values to be seen, by its number among these in object order; the script is no
/// writer. Nothing changes where there is none of this number, or where it is a resolved signal. It takes no memory.
pub fn set_signal(k: &mut Kernel, i: u32, v: Value)
    requires { IsSound k.old }
    ensures moves { Moves k.old k.new (λ c. step.sets_visible c v (slice_get c.design.visible i)) }
    ensures kept { KeepsBodies k.old k.new }
    ensures sound { IsSound k.new }
    ensures made { k.new.made ≡ k.old.made }
{
    if let Some(visible) = k.design.visible.as_slice().get(i as usize) {
        match visible.id {
            VisibleId::Signal(n) => k.channels.set_signal(n, v),
            VisibleId::Resolved(_) => {}
        }
    }
}

/// The phase that a run begins with: the first time initialization comes next, and later evaluation.
fn first_phase(begun: bool) -> Phase
    ensures { result ≡ step.first_phase begun }
{
    if begun { Phase::Evaluate } else { Phase::Start }
}

/// Begins a run that ends then, if it ends at a time.
fn run_to(k: &mut Kernel, end: Option<Time>)
    requires { IsSound k.old }
    ensures left { k.new ≡ record k.old { cycle = record k.old.cycle { phase = step.first_phase k.old.cycle.begun; begun = true; end = end; stop_asked = false } } }
    ensures sound { IsSound k.new }
    ensures made { k.new.made ≡ k.old.made }
{
    k.cycle.phase = first_phase(k.cycle.begun);
    k.cycle.begun = true;
    k.cycle.end = end;
    k.cycle.stop_asked = false;
}

/// Begins a run for this time, or to the end of all that is pending (IEEE 1666-2011, 4.3.4.2). A run that would end past
/// 2^64 - 1 ps is a fault, which changes nothing. It takes no memory.
pub fn begin_run(k: &mut Kernel, time: Option<Time>) -> Result<(), RunFault>
    requires { IsSound k.old }
    ensures follows { (c : Config) → StandsFor k.old c → Follows k.new result c (step.begin_run c time) }
    ensures kept { KeepsBodies k.old k.new }
    ensures sound { IsSound k.new }
    ensures made { k.new.made ≡ k.old.made }
{
    match time {
        None => {
            run_to(k, None);
            Ok(())
        }
        Some(time) => match add(k.cycle.now, time) {
            None => Err(RunFault::TimeOverflow),
            Some(end) => {
                run_to(k, Some(end));
                Ok(())
            }
        },
    }
}
