ghost use Rattle.std.specs.Prelude.{◌≡◌, [], IfOk, IfNone, OnOk};
ghost use Rattle.model_tree.specs.WholeTree.{model_of};
ghost use Rattle.model_tree.specs.Views.{module_of, modules_of};
ghost use Rattle.check_actions.specs.ModelRules.Distinct.{HasDistinctNames};
ghost use Rattle.check_actions.specs.ModelRules.Passes.{doubles, fault_of};
ghost use Rattle.check_actions.specs.ModelRules.Sites.{sites};
ghost use Rattle.check_actions.specs.CheckNames.Tables.{with_first};
ghost use Rattle.check_actions.specs.CheckExpressions.Findings.{faults_of};
ghost use Rattle.check_statements.specs.Doubled as spec;

use super::items::{add_name, in_items};
use check_actions::check_expressions_api::Finding;
use check_actions::check_names_api::NameTable;
use model_tree::{Module, Tree};
use std::alloc::{AllocError, Global};

/// The first double name of a module, its own or one in it.
fn module_finding<'t>(
    alloc: Global,
    before: &mut NameTable<'t>,
    owner: &'t Module,
) -> Result<Option<Finding<'t>>, AllocError>
    ensures found { IfOk result (λ found. faults_of found ≡ spec.in_module (module_of owner.now) before.old) }
    ensures added { OnOk result (before.new ≡ with_first before.old owner.now.name 0) }
{
    if let Some(finding) = add_name(before, owner.line, owner.name.bytes())? {
        return Ok(Some(finding));
    }
    in_items(alloc, owner.items.as_slice())
}

fn in_modules<'t>(alloc: Global, modules: &'t [Module]) -> Result<Option<Finding<'t>>, AllocError>
    ensures { IfOk result (λ found. faults_of found ≡ spec.in_modules (modules_of modules.now) []) }
{
    let mut before = NameTable::new(alloc);
    for owner in modules {
        if let Some(finding) = module_finding(alloc, &mut before, owner)? {
            return Ok(Some(finding));
        }
    }
    Ok(None)
}

/// The first double name of a tree in text order, an outer construct before those in it: DoubleName with the name, at the
/// line of the module, the item, the parameter or the `var` statement that declares it. None exactly where no name is one.
///
/// The name of a module is a double one where a module before it has it; that of an item where an item before it in its
/// module declares it; that of a parameter or a local variable where it is visible at its place: as an item of its module, or
/// as a local that was declared before it in its body, in a block that is not over.
///
/// Time grows with the text: names are found in tables. An error is want of memory, also for more locals in one body than 32
/// bits count.
pub fn double_finding(alloc: Global, tree: &Tree) -> Result<Option<Finding<'_>>, AllocError>
    ensures found { IfOk result (λ found. faults_of found ≡ fault_of doubles (sites (model_of tree.now))) }
    ensures distinct { IfOk result (λ found. IfNone found (HasDistinctNames (model_of tree.now))) }
{
    in_modules(alloc, tree.modules.as_slice())
}
