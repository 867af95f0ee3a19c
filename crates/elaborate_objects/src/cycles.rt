ghost use Rattle.std.specs.Prelude.{◌≡◌, Some, None, OnOk, IfErr};
ghost use Rattle.check_names.specs.ModelTree.Views.{module_of, modules_of};
ghost use Rattle.check_names.specs.ModelTree.WholeTree.{model_of};
ghost use Rattle.check_names.specs.ModelTree.Stops.{IfRefused};
ghost use Rattle.design_rules.specs.ObjectFaults.{fault_at, cycle_from, cycle_fault};
ghost use Rattle.elaborate_objects.specs.Marks.{made_of};

use super::found::first_of_itself;
use super::made::made_of;
use super::settled::are_settled;
use check_names::logic_values_api::{Items, Text};
use check_names::model_tree_api::{CheckStop, Fault, Kind, Module, Tree};
use design_rules::Made;
use std::alloc::Global;

/// The refusal of a module that has itself, at the line of an instance in it.
fn refused(alloc: Global, module: &Module, x: Made) -> CheckStop
    ensures { IfRefused result (λ fault. fault ≡ fault_at (module_of «module».now) x) }
{
    match Vec::from_slice(alloc, module.name.bytes()) {
        Ok(bytes) => CheckStop::Refused(Fault {
            kind: Kind::ModuleCycle,
            line: x.line,
            name: Text::from_vec(bytes),
        }),
        Err(_) => CheckStop::NoMemory,
    }
}

/// Judges each module in text order.
fn judge_all(alloc: Global, modules: &[Module], made: &[Items<Made>]) -> Result<(), CheckStop>
    requires { made.now ≡ made_of (modules_of modules.now) }
    ensures ok { OnOk result (cycle_from (modules_of modules.now) 0 (modules_of modules.now) ≡ None) }
    ensures refused { IfErr result (λ stop. IfRefused stop (λ fault. cycle_from (modules_of modules.now) 0 (modules_of modules.now) ≡ Some fault)) }
{
    for (k, module) in modules.iter().enumerate() {
        match first_of_itself(alloc, made, k) {
            Ok(None) => {}
            Ok(Some(x)) => return Err(refused(alloc, module, x)),
            Err(_) => return Err(CheckStop::NoMemory),
        }
    }
    Ok(())
}

/// Judges the instances of modules.
pub(crate) fn judge_modules(alloc: Global, modules: &[Module]) -> Result<(), CheckStop>
    ensures ok { OnOk result (cycle_from (modules_of modules.now) 0 (modules_of modules.now) ≡ None) }
    ensures refused { IfErr result (λ stop. IfRefused stop (λ fault. cycle_from (modules_of modules.now) 0 (modules_of modules.now) ≡ Some fault)) }
{
    let Ok(made) = made_of(alloc, modules) else {
        return Err(CheckStop::NoMemory);
    };
    match are_settled(alloc, made.as_slice()) {
        Ok(true) => Ok(()),
        Ok(false) => judge_all(alloc, modules, made.as_slice()),
        Err(_) => Err(CheckStop::NoMemory),
    }
}

/// Judges the instances of a tree: no module has itself among its instances, at any depth.
///
/// Refused has the first module in text order that has: ModuleCycle, with its name, at the line of the first instance in it
/// that is of the module itself or of one that has it.
///
/// Modules are marked from those without instances on, in place of a walk along them, so that their depth costs no stack.
/// A tree without a fault takes one such search; of another each module up to the first fault takes one.
pub fn judge_cycles(alloc: Global, tree: &Tree) -> Result<(), CheckStop>
    ensures ok { OnOk result (cycle_fault (model_of tree.now) ≡ None) }
    ensures refused { IfErr result (λ stop. IfRefused stop (λ fault. cycle_fault (model_of tree.now) ≡ Some fault)) }
{
    judge_modules(alloc, tree.modules.as_slice())
}
