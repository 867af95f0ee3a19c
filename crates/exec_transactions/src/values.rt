//! What names are as values, at the width that they are kept in.
ghost use Rattle.std.specs.Prelude.{◌≡◌};
ghost use Rattle.exec_calls.specs.SimModel.Transport as transport;
ghost use Rattle.exec_calls.specs.KernelState.Moves.{Lives};
ghost use Rattle.exec_calls.specs.KernelView.Standings.{Everywhere};

use exec_calls::kernel_state_api::Kernel;
use exec_calls::kernel_view_api::named_at;
use exec_calls::logic_values_api::Value;
use flat_design::{NameUse, RunFault};

/// A value that was read; of a fault the truth value false.
fn value_or(value: Result<Value, RunFault>) -> Value
    ensures { result ≡ transport.value_or value }
{
    match value {
        Ok(v) => v,
        Err(_) => Value::Bool(false),
    }
}

/// What a name is as a value where the next statement of an instance stands, at the width that it is kept in.
pub(crate) fn value_at(k: &Kernel, p: u32, n: NameUse) -> Value
    requires { Lives k.now p }
    ensures { Everywhere k.now p (λ h. result ≡ transport.value_named h n) }
{
    value_or(named_at(k, p, n))
}
