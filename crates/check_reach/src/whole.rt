ghost use Rattle.std.specs.Prelude.{◌≡◌, IfOk};
ghost use Rattle.model_tree.specs.WholeTree.{model_of};
ghost use Rattle.model_tree.specs.Views.{modules_of};
ghost use Rattle.check_expressions.specs.ModelRules.Names.{first};
ghost use Rattle.check_expressions.specs.ModelRules.Passes.{fault_of, reaches};
ghost use Rattle.check_expressions.specs.ModelRules.Sites.{sites};
ghost use Rattle.check_expressions.specs.CheckNames.ModuleNames.{items_of};
ghost use Rattle.check_expressions.specs.Findings.{faults_of};
ghost use Rattle.check_reach.specs.Findings as spec;

use super::findings::bodies_finding;
use super::sets::{calls_of, sets_of};
use check_expressions::Finding;
use model_tree::{Item, Module, Tree};
use std::alloc::{AllocError, Global};

/// The first broken rule in items of a module.
fn items_finding(alloc: Global, items: &[Item]) -> Result<Option<Finding<'_>>, AllocError>
    ensures { IfOk result (λ found. faults_of found ≡ spec.items_fault (items_of items.now)) }
{
    let calls = calls_of(alloc, items)?;
    let sets = sets_of(alloc, &calls, items)?;
    Ok(bodies_finding(&calls.names, &sets, calls.bodies.as_slice()))
}

/// The first broken rule in modules.
fn modules_finding(alloc: Global, modules: &[Module]) -> Result<Option<Finding<'_>>, AllocError>
    ensures { IfOk result (λ found. faults_of found ≡ first spec.module_fault (modules_of modules.now)) }
{
    for owner in modules {
        let found = items_finding(alloc, owner.items.as_slice())?;
        if let Some(finding) = found {
            return Ok(Some(finding));
        }
    }
    Ok(None)
}

/// The first broken rule of a tree on what bodies reach: that of the first statement in text order which breaks one, with the
/// name of the function or process around it. None exactly where no statement breaks one.
///
/// A method reaches no blocking statement, a thread or a handler of a socket no next trigger, a handler of non-blocking calls
/// no blocking statement, and an unwind block no blocking statement, no throw, no spawn and no transport call. Calls are
/// followed at any depth, and a call of a function that blocks blocks too. Each function is followed once for each rule, so
/// the time grows with the text.
pub fn reach_finding(alloc: Global, tree: &Tree) -> Result<Option<Finding<'_>>, AllocError>
    ensures { IfOk result (λ found. faults_of found ≡ fault_of reaches (sites (model_of tree.now))) }
{
    modules_finding(alloc, tree.modules.as_slice())
}
