//! The end of a call.
ghost use Rattle.std.specs.Prelude.{◌≡◌, Some};
ghost use Rattle.flat_design.specs.Code.{statement_of};
ghost use Rattle.exec_channels.specs.KernelState.Kernel.{IsSound};
ghost use Rattle.exec_channels.specs.KernelState.Moves.{Lives};
ghost use Rattle.exec_transactions.specs.ExecCalls.Calling.{Leaves};
ghost use Rattle.exec_transactions.specs.ExecCalls.Leaving.{CalledBy, LeavesBy};
ghost use Rattle.kernel_steps.specs.Ending.{IsEndOf};

use exec_channels::kernel_state_api::Kernel;
use exec_transactions::exec_calls_api::{calling_statement, ending_call, leave_plain_call};
use exec_transactions::{b_transport_returns, nb_transport_returns};
use flat_design::{NameUse, RunFault, Statement, Store};

/// How a call ends.
#[derive(Clone, Copy)]
pub(crate) enum CallEnd {
    /// A `b_transport` over this socket, of this payload and with this delay, returns.
    Blocking(u32, NameUse, NameUse),
    /// An `nb_transport` with this target, over this socket, of this payload and with this phase and delay, returns.
    NonBlocking(Option<Store>, u32, NameUse, NameUse, NameUse),
    /// No transport call returns.
    Plain,
}

/// How a call by this statement ends.
fn end_by(statement: &Statement) -> CallEnd
    ensures { IsEndOf result (Some (statement_of statement.now)) }
{
    match statement {
        Statement::BTransport(socket, n, d) => CallEnd::Blocking(*socket, *n, *d),
        Statement::NbTransport(target, socket, n, phase, d) => {
            CallEnd::NonBlocking(*target, *socket, *n, *phase, *d)
        }
        _ => CallEnd::Plain,
    }
}

/// How the call ends that ends next in the body of an instance, by the statement that called, if there was one.
fn end_at(k: &Kernel, p: u32) -> CallEnd
    requires lives { Lives k.now p }
    requires leaves { Leaves k.now p }
    ensures called { CalledBy k.now p (IsEndOf result) }
{
    match calling_statement(k.program, ending_call(k, p).call) {
        Some(statement) => end_by(statement),
        None => CallEnd::Plain,
    }
}

/// The end of a call: its frame is gone, a transport call's return is judged, and what is handed back is stored where the statement
/// stands that called. It takes no memory.
pub(crate) fn leave(k: &mut Kernel, p: u32) -> Result<(), RunFault>
    requires sound { IsSound k.old }
    requires lives { Lives k.old p }
    requires leaves { Leaves k.old p }
    ensures does { LeavesBy k.old k.new result p }
    ensures sound { IsSound k.new }
    ensures made { k.new.made ≡ k.old.made }
{
    match end_at(k, p) {
        CallEnd::Blocking(_, _, d) => b_transport_returns(k, p, d),
        CallEnd::NonBlocking(target, _, _, phase, d) => {
            nb_transport_returns(k, p, target, phase, d)
        }
        CallEnd::Plain => {
            leave_plain_call(k, p);
            Ok(())
        }
    }
}
