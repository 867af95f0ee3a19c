//! Where what is left of an instance stands.
ghost use Rattle.std.specs.Prelude.{◌≡◌};
ghost use Rattle.flat_design.specs.Code.{Arena};
ghost use Rattle.exec_data.specs.SimModel.Residual as residual;
ghost use Rattle.exec_data.specs.SimModel.Reading as reading;
ghost use Rattle.exec_data.specs.ProcessBodies.Bodies.{left_of};
ghost use Rattle.exec_data.specs.KernelState.Moves.{Lives};
ghost use Rattle.exec_calls.specs.Standing.{StandsIn};

use exec_data::kernel_state_api::{Kept, Kernel};
use exec_data::kernel_view_api::home_within;
use flat_design::Design;

/// The instance of a module that what is left of a body stands in, as it is.
fn home_of(design: &Design, kept: &Kept) -> u32
    ensures { (a : Arena) → result ≡ reading.home_of_via design.now kept.now.home (residual.within (left_of a kept.now.body)) }
{
    home_within(design, kept.home, kept.body.within_now())
}

/// The number, among the instances of modules, of the one in which what is left of an instance stands. After `leave_call` that is
/// where the statement stands that called.
pub fn home_at(k: &Kernel, p: u32) -> u32
    requires { Lives k.now p }
    ensures { StandsIn k.now p result }
{
    match k.schedule.table.get(p) {
        Some(x) => home_of(&k.design, &x.body.body),
        None => unreachable!(),
    }
}
