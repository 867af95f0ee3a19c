//! The call that ends next in the body of an instance, seen before its frame is taken away.
ghost use Rattle.std.specs.Prelude.{◌≡◌};
ghost use Rattle.flat_design.specs.Code.{arena_of};
ghost use Rattle.exec_calls.specs.KernelBodies.Layers.{call_of};
ghost use Rattle.exec_calls.specs.KernelState.Moves.{Lives};
ghost use Rattle.exec_calls.specs.Calling.{Leaves};
ghost use Rattle.exec_transactions.specs.Ending as spec;
ghost use Rattle.exec_transactions.specs.Ending.{Ends};

use exec_calls::kernel_bodies_api::{Frame, Program};
use exec_calls::kernel_state_api::Kernel;
use exec_calls::logic_values_api::Value;
use exec_calls::sim_model_api::Via;
use exec_calls::{answer_of, ending_call};

/// What is seen of a call that ends.
#[derive(Clone, Copy)]
pub(crate) struct Ending {
    /// The transport call that it serves.
    pub via: Option<Via>,
    /// What it answers: the default of its type where nothing was returned.
    pub answer: Value,
    /// The final value of its second parameter, where it has one.
    pub first: Option<Value>,
    /// The final value of its third parameter, where it has one.
    pub second: Option<Value>,
}

/// What is seen of a call.
fn ending_of(program: &Program, frame: &Frame) -> Ending
    ensures { result ≡ spec.ending_of (arena_of program.now.code) (call_of frame.now) }
{
    Ending {
        via: frame.via,
        answer: answer_of(program, frame),
        first: frame.locals.as_slice().get(1).copied(),
        second: frame.locals.as_slice().get(2).copied(),
    }
}

/// What is seen of the call that ends next in the body of an instance.
pub(crate) fn ending_at(k: &Kernel, p: u32) -> Ending
    requires lives { Lives k.now p }
    requires leaves { Leaves k.now p }
    ensures { Ends k.now p result }
{
    ending_of(k.program, ending_call(k, p))
}
