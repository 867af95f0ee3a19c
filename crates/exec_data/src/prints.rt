//! Prints.
ghost use Rattle.std.specs.Prelude.{◌≡◌, ℕ, List, Option};
ghost use Rattle.flat_design.specs.Code.{Term};
ghost use Rattle.kernel_view.specs.KernelState.Kernel.{IsSound};
ghost use Rattle.kernel_view.specs.KernelState.Moves.{HasStatement, IsOnTop};
ghost use Rattle.kernel_view.specs.Standings.{GivesIf};
ghost use Rattle.exec_data.specs.PrintAnswers.{Prints};

use flat_design::RunFault;
use kernel_view::kernel_state_api::{Kernel, pass, top_lives};
use kernel_view::logic_values_api::Value;

/// `print`: the line has the time, the path of the instance, the text and, where one is written, the value that is answered.
///
/// # Errors
/// The fault of its expression, and then nothing changes.
#[inline(always)]
pub fn print(
    k: &mut Kernel,
    p: u32,
    v: Result<Option<Value>, RunFault>,
) -> Result<Option<Value>, RunFault>
    requires sound { IsSound k.old }
    requires top { IsOnTop k.old p }
    requires statement { HasStatement k.old p }
    ensures prints { (text : List ℕ) (e : Option Term) → GivesIf k.old p v e → Prints k.old k.new result p text e }
    ensures sound { IsSound k.new }
    ensures made { k.new.made ≡ k.old.made }
{
    match v {
        Ok(x) => {
            top_lives(k, p);
            pass(k, p);
            let shown = x;
            Ok(shown)
        }
        Err(fault) => Err(fault),
    }
}
