ghost use Rattle.std.specs.Prelude.{◌≡◌, ◌<◌, ◌∷◌, [], IfOk, length, map, unwrap_or};
ghost use Rattle.std.specs.Option.{option_copied, option_or};
ghost use Rattle.model_tree.specs.Views.{item_of, modules_of};
ghost use Rattle.model_tree.specs.WholeTree.{model_of};
ghost use Rattle.check_statements.specs.ModelRules.Scopes.{item_scope};
ghost use Rattle.check_statements.specs.ModelRules.Passes.{constructs, fault_of};
ghost use Rattle.check_statements.specs.ModelRules.Sites as sites;
ghost use Rattle.check_statements.specs.CheckNames.ModuleNames.{items_of};
ghost use Rattle.check_statements.specs.CheckNames.Places.{scope_of};
ghost use Rattle.check_statements.specs.CheckExpressions.Findings.{faults_of};
ghost use Rattle.check_items.specs.Whole.{item_fault, items_fault, modules_fault};

use super::items::item_finding;
use check_statements::check_expressions_api::{Finding, first_finding, told_if};
use check_statements::check_names_api::{Locals, ModelNames, ModuleNames, Place, item_name};
use model_tree::{Item, Kind, Module, Top, Tree};
use std::alloc::{AllocError, Global};

/// The name that an item declares; empty for a binding.
fn around_item(item: &Item) -> &[u8]
    ensures { result.now ≡ sites.around_item (item_of item.now) }
{
    match item_name(item) {
        None => &[],
        Some(name) => name,
    }
}

/// The place of an item, outside of functions and processes.
fn item_place<'a>(
    alloc: Global,
    model: &'a ModelNames<'a>,
    names: &'a ModuleNames<'a>,
    item: &'a Item,
) -> Place<'a>
    ensures { scope_of result ≡ item_scope (modules_of model.now) (items_of names.now) (sites.around_item (item_of item.now)) }
{
    Place {
        model,
        names,
        locals: Locals::new(alloc),
        around: around_item(item),
        answer: None,
        unwinding: false,
    }
}

/// The first broken rule in the items of a module.
fn items_finding<'a>(
    alloc: Global,
    model: &'a ModelNames<'a>,
    names: &'a ModuleNames<'a>,
    items: &'a [Item],
) -> Result<Option<Finding<'a>>, AllocError>
    ensures { IfOk result (λ found. faults_of found ≡ items_fault (modules_of model.now) (items_of names.now) (map item_of items.now)) }
{
    let mut found = None;
    for item in items {
        let place = item_place(alloc, model, names, item);
        found = first_finding(found, item_finding(place, item)?);
    }
    Ok(found)
}

/// The first broken rule in modules.
fn modules_finding<'a>(
    alloc: Global,
    model: &'a ModelNames<'a>,
    modules: &'a [Module],
) -> Result<Option<Finding<'a>>, AllocError>
    requires { model.now ≡ modules.now }
    ensures { IfOk result (λ found. faults_of found ≡ modules_fault (modules_of modules.now) (modules_of modules.now)) }
{
    let mut found = None;
    for (i, module) in modules.iter().enumerate() {
        let names = model.names_at(i);
        let items = module.items.as_slice();
        found = first_finding(found, items_finding(alloc, model, names, items)?);
    }
    Ok(found)
}

/// The finding of a top instance whose module is not declared.
fn top_finding<'a>(model: &'a ModelNames<'a>, top: &'a Top) -> Option<Finding<'a>>
    ensures { faults_of result ≡ fault_of constructs (sites.top_site (modules_of model.now) top.now ∷ []) }
{
    told_if(
        !model.is_module(top.module.bytes()),
        Kind::UnknownName,
        top.line,
        top.module.bytes(),
    )
}

/// The first broken rule on single constructs of a tree, whose modules have these names: kinds UnknownName to BadBinding, at
/// the first construct in text order that breaks one.
pub fn construct_finding<'a>(
    alloc: Global,
    model: &'a ModelNames<'a>,
    tree: &'a Tree,
) -> Result<Option<Finding<'a>>, AllocError>
    requires { model.now ≡ tree.now.modules.items }
    ensures { IfOk result (λ found. faults_of found ≡ fault_of constructs (sites.sites (model_of tree.now))) }
{
    let found = modules_finding(alloc, model, tree.modules.as_slice())?;
    Ok(first_finding(found, top_finding(model, &tree.top)))
}
