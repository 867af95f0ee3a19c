//! Local variables.
ghost use Rattle.std.specs.Prelude.{◌≡◌, Option};
ghost use Rattle.flat_design.specs.Code.{Term};
ghost use Rattle.kernel_view.specs.SimModel.Reading.{here};
ghost use Rattle.kernel_view.specs.SimModel.Storing as storing;
ghost use Rattle.kernel_view.specs.SimModel.Storing.{do_var};
ghost use Rattle.kernel_view.specs.KernelState.Kernel.{IsSound};
ghost use Rattle.kernel_view.specs.KernelState.Moves.{Does, HasStatement, IsOnTop};
ghost use Rattle.kernel_view.specs.Standings.{GivesIf};

use crate::storing::store_local;
use flat_design::{RunFault, ValueType, default_value};
use kernel_view::expr_eval_api::cut_to;
use kernel_view::kernel_state_api::Kernel;
use kernel_view::logic_values_api::Value;

/// The first value of a local variable: the default of its type where none is written.
#[inline(always)]
fn first_value(t: ValueType, v: Option<Value>) -> Value
    ensures { result ≡ storing.first_value t v }
{
    match v {
        Some(v) => cut_to(t, v),
        None => default_value(t),
    }
}

/// `var`: a local variable gets its first value, cut to its type, anew each time.
///
/// # Errors
/// The fault of its expression, and then nothing changes.
#[inline(always)]
pub fn var(
    k: &mut Kernel,
    p: u32,
    n: u32,
    t: ValueType,
    v: Result<Option<Value>, RunFault>,
) -> Result<(), RunFault>
    requires sound { IsSound k.old }
    requires top { IsOnTop k.old p }
    requires statement { HasStatement k.old p }
    ensures does { (e : Option Term) → GivesIf k.old p v e → Does k.old k.new result p (λ c q i r. do_var c q r (here c q i r) n t e) }
    ensures sound { IsSound k.new }
    ensures made { k.new.made ≡ k.old.made }
{
    match v {
        Ok(x) => {
            store_local(k, p, n, first_value(t, x));
            Ok(())
        }
        Err(fault) => Err(fault),
    }
}
