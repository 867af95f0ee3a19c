//! The next process to run.
ghost use Rattle.std.specs.Prelude.{◌≡◌, [], None};
ghost use Rattle.kernel_phases.specs.ReadySet.Ready.{rising};
ghost use Rattle.kernel_phases.specs.KernelState.Kernel.{IsSound};
ghost use Rattle.kernel_runs.specs.Takings.{Takes};

use kernel_phases::kernel_state_api::Kernel;
use kernel_phases::{Chooser, turn};

/// Takes what a chooser picks, of a kernel that is sound.
pub(crate) fn take<C: Chooser>(k: &mut Kernel, chooser: &mut C) -> Option<u32>
    requires sound { IsSound k.old }
    requires nobody { k.old.schedule.stack.items ≡ [] }
    ensures takes { Takes k.old k.new (C.picks chooser.old (rising k.old.schedule.ready.members)) result }
    ensures held { chooser.new ≡ C.later chooser.old (rising k.old.schedule.ready.members) }
    ensures stays { result ≡ None → k.new ≡ k.old }
    ensures sound { IsSound k.new }
    ensures made { k.new.made ≡ k.old.made }
{
    match chooser.choose(&k.schedule.ready) {
        None => None,
        Some(p) => {
            if k.schedule.ready.has(p) {
                turn(k, p);
                Some(p)
            } else {
                None
            }
        }
    }
}
