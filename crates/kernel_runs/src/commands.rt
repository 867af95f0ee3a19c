//! Commands of a script.
ghost use Rattle.std.specs.Prelude.{◌≡◌, ◌≤◌, drop, length};
ghost use Rattle.kernel_phases.specs.SimModel.Steps as spec;
ghost use Rattle.kernel_phases.specs.KernelState.Kernel.{IsSound};
ghost use Rattle.kernel_runs.specs.Made.{Makes, StepsOn, IsPlain};

use crate::answers::{Made, Telling};
use kernel_phases::kernel_state_api::Kernel;
use kernel_phases::sim_model_api::Command;
use kernel_phases::{begin_run, set_signal};

/// Carries a command out.
fn carry_out(k: &mut Kernel, command: Command) -> Made
    requires sound { IsSound k.old }
    ensures makes { Makes k.old k.new result (λ c. spec.as_outcome (spec.carry_out c command)) }
    ensures plain { IsPlain result }
    ensures sound { IsSound k.new }
    ensures made { k.new.made ≡ k.old.made }
{
    match command {
        Command::Run(time) => match begin_run(k, time) {
            Ok(()) => Made::Went(Telling::Nothing),
            Err(fault) => Made::Fault(fault),
        },
        Command::Set(number, value) => {
            set_signal(k, number, value);
            Made::Went(Telling::Nothing)
        }
        Command::Show(number) => Made::Went(Telling::Show(number)),
    }
}

/// The next command of a script; with none left the session has ended.
#[inline(never)]
pub(crate) fn next_command(k: &mut Kernel, script: &[Command], place: &mut usize) -> Made
    requires sound { IsSound k.old }
    requires within { place.old ≤ length script.now }
    ensures steps { StepsOn k.old k.new (drop place.old script.now) (drop place.new script.now) result (λ c. spec.next_command c c.script) }
    ensures sound { IsSound k.new }
    ensures within { place.new ≤ length script.now }
    ensures made { k.new.made ≡ k.old.made }
{
    if *place == script.len() {
        return Made::Ended;
    }
    let command = script[*place];
    match carry_out(k, command) {
        Made::Went(told) => {
            *place += 1;
            Made::Went(told)
        }
        Made::Ended => Made::Ended,
        Made::Fault(fault) => Made::Fault(fault),
        Made::Took(_) | Made::NotReady | Made::NoMemory => unreachable!(),
    }
}
