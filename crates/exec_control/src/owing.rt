//! Control calls that reach descendants: a statement owes its call to several, and then makes it for one of them a step
//! (IEEE 1666-2011, 5.6.6, SC_INCLUDE_DESCENDANTS).
ghost use Rattle.std.specs.Prelude.{◌≡◌, Ok, reverse};
ghost use Rattle.exec_data.specs.SimModel.Control as spec;
ghost use Rattle.exec_data.specs.SimModel.Control.{with_owed};
ghost use Rattle.exec_data.specs.KernelState.Kernel.{IsSound};
ghost use Rattle.exec_data.specs.KernelState.Moves.{Steps, Lives};
ghost use Rattle.exec_data.specs.KernelState.Stopping.{DoesOrStops};
ghost use Rattle.exec_data.specs.Entered.{Shows};

use exec_data::kernel_state_api::{Kernel, StatementStop, targets};
use flat_design::StmtId;
use std::alloc::Global;

/// The statement in place of an instance owes its call to these from now on, to the last of them first.
fn owe_to(k: &mut Kernel, p: u32, s: StmtId, list: Vec<u32>)
    requires sound { IsSound k.old }
    requires lives { Lives k.old p }
    requires next { Shows k.old p s }
    ensures steps { Steps k.old k.new p (λ c q i r. with_owed c q r s (reverse list.items)) }
    ensures sound { IsSound k.new }
    ensures made { k.new.made ≡ k.old.made }
{
    let _ = s;
    match k.schedule.table.get_mut(p) {
        Some(x) => x.body.body.body.owe(k.program, list),
        None => {}
    }
}

/// The statement in place of an instance owes its call to all whom it reaches that is for instance `q` and its descendants. The
/// list is made once, here, and fixed. Where memory is refused for it nothing changes.
pub(crate) fn owe(
    k: &mut Kernel,
    alloc: Global,
    p: u32,
    s: StmtId,
    q: u32,
) -> Result<(), StatementStop>
    requires sound { IsSound k.old }
    requires lives { Lives k.old p }
    requires next { Shows k.old p s }
    ensures does { DoesOrStops k.old k.new result p (λ c i j r. Ok (with_owed c i r s (spec.targets c q i))) }
    ensures sound { IsSound k.new }
    ensures made { k.new.made ≡ k.old.made }
{
    match targets(k, alloc, q, p) {
        Ok(list) => {
            owe_to(k, p, s, list);
            Ok(())
        }
        Err(_) => Err(StatementStop::NoMemory),
    }
}
