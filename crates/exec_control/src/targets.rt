//! The instance that a control call is for.
ghost use Rattle.std.specs.Prelude.{◌≡◌};
ghost use Rattle.exec_data.specs.SimModel.Reading as reading;
ghost use Rattle.exec_data.specs.SimModel.Values as values;
ghost use Rattle.exec_data.specs.SimModel.Control as control;
ghost use Rattle.exec_data.specs.KernelState.Moves.{Lives};
ghost use Rattle.exec_data.specs.KernelView.Standings.{Everywhere};

use exec_data::expr_eval_api::process_handle;
use exec_data::kernel_state_api::Kernel;
use exec_data::kernel_view_api::eval_at;
use exec_data::logic_values_api::Value;
use flat_design::{Controlled, Expr, NameUse, RunFault};

/// The handle of a process that was read; none where reading was at fault.
fn process_in(value: Result<Value, RunFault>) -> Option<u32>
    ensures { result ≡ reading.handle_in value values.process_handle }
{
    match value {
        Ok(v) => process_handle(v),
        Err(_) => None,
    }
}

/// The handle of a process that a name holds where the next statement of an instance stands.
fn handle_at(k: &Kernel, p: u32, n: NameUse) -> Option<u32>
    requires { Lives k.now p }
    ensures { Everywhere k.now p (λ h. result ≡ reading.process_of h n) }
{
    process_in(eval_at(k, p, &Expr::Name(n)))
}

/// A handle that is used: an empty one is a fault.
fn not_empty(handle: Option<u32>) -> Result<u32, RunFault>
    ensures { result ≡ reading.not_empty handle }
{
    match handle {
        Some(q) => Ok(q),
        None => Err(RunFault::EmptyHandle),
    }
}

/// The serial of the instance that a control call of an instance is for.
///
/// # Errors
/// An empty handle.
pub(crate) fn target_at(k: &Kernel, p: u32, who: Controlled) -> Result<u32, RunFault>
    requires { Lives k.now p }
    ensures { Everywhere k.now p (λ h. result ≡ control.target_of h p who) }
{
    match who {
        Controlled::Named(n) => not_empty(handle_at(k, p, n)),
        Controlled::Myself => Ok(p),
    }
}
