//! How the caller of a control call is past it, before the call acts.
ghost use Rattle.std.specs.Prelude.{◌≡◌};
ghost use Rattle.kernel_processes.specs.SimModel.Configuration.{with_residual};
ghost use Rattle.kernel_processes.specs.SimModel.Residual.{taken_off};
ghost use Rattle.kernel_state.specs.Kernel.{IsSound};
ghost use Rattle.kernel_state.specs.Moves.{Steps, Lives};
ghost use Rattle.kernel_state.specs.Ways.{moved_on, HasOwed, MayMoveOn};

use crate::kernel::Kernel;
use crate::moves::pass;

/// How the caller of a control call is past it.
#[derive(Clone, Copy, Debug, PartialEq, Eq)]
pub enum Way {
    /// Its statement is past.
    Past,
    /// Its statement owes the call to one less.
    TakenOff,
}

/// The call that the statement in place of an instance owes is owed to one less.
fn take_off(k: &mut Kernel, p: u32)
    requires sound { IsSound k.old }
    requires lives { Lives k.old p }
    requires owes { HasOwed k.old p }
    ensures steps { Steps k.old k.new p (λ c q i r. with_residual c q (taken_off r)) }
    ensures stack { k.new.schedule.stack ≡ k.old.schedule.stack }
    ensures sound { IsSound k.new }
    ensures made { k.new.made ≡ k.old.made }
{
    match k.schedule.table.get_mut(p) {
        Some(x) => {
            let _ = x.body.body.body.owed(k.program);
        }
        None => {}
    }
}

/// The caller of a control call is past it.
pub fn move_on(k: &mut Kernel, p: u32, way: Way)
    requires sound { IsSound k.old }
    requires lives { Lives k.old p }
    requires may { MayMoveOn way k.old p }
    ensures steps { Steps k.old k.new p (λ c q i r. moved_on way c q r) }
    ensures stack { k.new.schedule.stack ≡ k.old.schedule.stack }
    ensures sound { IsSound k.new }
    ensures made { k.new.made ≡ k.old.made }
{
    match way {
        Way::Past => pass(k, p),
        Way::TakenOff => take_off(k, p),
    }
}
