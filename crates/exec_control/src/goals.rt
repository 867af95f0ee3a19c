//! Goals of unwindings that are reached (IEEE 1666-2011, 5.6.6). None takes memory.
ghost use Rattle.std.specs.Prelude.{◌≡◌};
ghost use Rattle.exec_data.specs.SimModel.Residual as residual;
ghost use Rattle.exec_data.specs.SimModel.Residual.{next_of};
ghost use Rattle.exec_data.specs.SimModel.Storing.{passes};
ghost use Rattle.exec_data.specs.SimModel.Control as control;
ghost use Rattle.exec_data.specs.ProcessBodies.Bodies.{settled_in};
ghost use Rattle.exec_data.specs.KernelState.Kernel.{IsSound};
ghost use Rattle.exec_data.specs.KernelState.Moves.{Steps, Lives, IsOnTop, KeptAt};
ghost use Rattle.exec_control.specs.Unwound.{Reaches};

use crate::endings::end;
use crate::instances::{begin_body, is_suspended, stay_kept, take_back, tell_reset};
use exec_data::kernel_state_api::{Kernel, top_lives};
use exec_data::sim_model_api::Goal;

/// The body of the instance on top begins again, once its reset event has fired; one that is suspended leaves the stack and
/// is kept.
fn restart(k: &mut Kernel, p: u32)
    requires sound { IsSound k.old }
    requires top { IsOnTop k.old p }
    ensures steps { Steps k.old k.new p (λ c q i r. control.restarts c q i) }
    ensures sound { IsSound k.new }
    ensures made { k.new.made ≡ k.old.made }
{
    top_lives(k, p);
    take_back(k, p);
    tell_reset(k, p);
    top_lives(k, p);
    if is_suspended(k, p) {
        stay_kept(k, p);
    } else {
        begin_body(k, p);
    }
}

/// The body of an instance goes on behind a goal.
fn pass_goal(k: &mut Kernel, p: u32, goal: Goal)
    requires sound { IsSound k.old }
    requires lives { Lives k.old p }
    requires reaches { Reaches k.old p goal }
    ensures steps { Steps k.old k.new p (λ c q i r. passes c q r) }
    ensures stack { k.new.schedule.stack ≡ k.old.schedule.stack }
    ensures sound { IsSound k.new }
    ensures made { k.new.made ≡ k.old.made }
{
    match k.schedule.table.get_mut(p) {
        Some(x) => x.body.body.body.go_on(k.program),
        None => {}
    }
}

/// The body of the instance on top goes on behind the goal of an exception that another threw at it; one that is suspended
/// leaves the stack and is kept.
fn go_on(k: &mut Kernel, p: u32, goal: Goal)
    requires sound { IsSound k.old }
    requires top { IsOnTop k.old p }
    requires reaches { Reaches k.old p goal }
    ensures steps { Steps k.old k.new p (λ c q i r. control.goes_on c q i r) }
    ensures sound { IsSound k.new }
    ensures made { k.new.made ≡ k.old.made }
{
    top_lives(k, p);
    pass_goal(k, p, goal);
    top_lives(k, p);
    if is_suspended(k, p) {
        stay_kept(k, p);
    }
}

/// The instance on top reaches the goal of its unwinding: it ends, begins again, or goes on in the handler of an exception.
pub fn reach_goal(k: &mut Kernel, p: u32, goal: Goal)
    requires sound { IsSound k.old }
    requires top { IsOnTop k.old p }
    requires reaches { Reaches k.old p goal }
    ensures steps { Steps k.old k.new p (λ c q i r. control.reaches_goal c q i r goal) }
    ensures sound { IsSound k.new }
    ensures made { k.new.made ≡ k.old.made }
{
    top_lives(k, p);
    match goal {
        Goal::End => end(k, p),
        Goal::Restart => restart(k, p),
        Goal::Thrown => pass_goal(k, p, goal),
        Goal::Injected => go_on(k, p, goal),
    }
}
