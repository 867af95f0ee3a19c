//! Calls that end.
ghost use Rattle.std.specs.Prelude.{◌≡◌};
ghost use Rattle.exec_data.specs.SimModel.Residual as residual;
ghost use Rattle.exec_data.specs.SimModel.Residual.{next_of};
ghost use Rattle.exec_data.specs.SimModel.Storing.{passes};
ghost use Rattle.exec_data.specs.KernelBodies.Layers.{call_of};
ghost use Rattle.exec_data.specs.ProcessBodies.Bodies.{settled_in, next_in};
ghost use Rattle.exec_data.specs.KernelState.Kernel.{IsSound};
ghost use Rattle.exec_data.specs.KernelState.Moves.{Steps, Lives};
ghost use Rattle.exec_calls.specs.Calling.{ComesNext, Leaves, EndsNext, ChangesBody};

use exec_data::kernel_bodies_api::{Frame, Next, Program};
use exec_data::kernel_state_api::Kernel;
use exec_data::process_bodies_api::Body;

/// The call that ends next in a body.
fn ending_in<'a>(program: &Program, body: &'a Body) -> &'a Frame
    requires { next_in program.now body.now ≡ Next.Leave }
    ensures { next_of (settled_in program.now body.now) ≡ residual.leaves (call_of result.now) }
{
    match body.innermost(program) {
        Some(frame) => frame,
        None => unreachable!(),
    }
}

/// The call of an instance that ends next: one does.
pub fn ending_call<'a>(k: &'a Kernel, p: u32) -> &'a Frame
    requires lives { Lives k.now p }
    requires leaves { Leaves k.now p }
    ensures ends { EndsNext k.now p (call_of result.now) }
    ensures frame { ComesNext k.now p (residual.leaves (call_of result.now)) }
{
    match k.schedule.table.get(p) {
        Some(x) => ending_in(k.program, &x.body.body.body),
        None => unreachable!(),
    }
}

/// A call of an instance ends: its frame is taken away. It takes no memory.
pub fn leave_call(k: &mut Kernel, p: u32) -> Frame
    requires sound { IsSound k.old }
    requires lives { Lives k.old p }
    requires leaves { Leaves k.old p }
    ensures ends { EndsNext k.old p (call_of result) }
    ensures frame { ComesNext k.old p (residual.leaves (call_of result)) }
    ensures steps { Steps k.old k.new p (λ c q i r. passes c q r) }
    ensures others { ChangesBody p k.old k.new }
    ensures lives { Lives k.new p }
    ensures sound { IsSound k.new }
    ensures made { k.new.made ≡ k.old.made }
{
    match k.schedule.table.get_mut(p) {
        Some(x) => x.body.body.body.leave(k.program),
        None => unreachable!(),
    }
}
