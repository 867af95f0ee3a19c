ghost use Rattle.std.specs.Prelude.{◌≡◌, [], IfOk, OnOk};
ghost use Rattle.std.specs.Option.{option_or};
ghost use Rattle.model_tree.specs.Views.{body_of, function_of, item_of};
ghost use Rattle.model_tree.specs.declared.faults.Kind.TheVariants as kind;
ghost use Rattle.check_actions.specs.ModelRules.Meanings.{declared_name};
ghost use Rattle.check_actions.specs.CheckNames.LocalNames.{no_locals};
ghost use Rattle.check_actions.specs.CheckNames.ModuleNames.{items_of};
ghost use Rattle.check_actions.specs.CheckNames.Tables.{with_first};
ghost use Rattle.check_actions.specs.CheckExpressions.Findings as findings;
ghost use Rattle.check_actions.specs.CheckExpressions.Findings.{faults_of};
ghost use Rattle.check_statements.specs.Doubled as spec;
ghost use Rattle.check_statements.specs.Doubled.{place_at};

use super::bodies::in_block;
use super::locals::in_parameters;
use check_actions::check_expressions_api::{Finding, told_if};
use check_actions::check_names_api::{Locals, ModuleNames, NameTable, item_name};
use model_tree::{FunctionItem, Item, Kind, ProcessItem, item_line};
use std::alloc::{AllocError, Global};

/// Puts a name behind those before it; it is a double one where it is among them already.
pub(crate) fn add_name<'t>(
    before: &mut NameTable<'t>,
    line: u32,
    name: &'t [u8],
) -> Result<Option<Finding<'t>>, AllocError>
    ensures found { IfOk result (λ found. faults_of found ≡ findings.told_if kind.DoubleName line name.now (spec.has_name name.now before.old)) }
    ensures added { OnOk result (before.new ≡ with_first before.old name.now 0) }
{
    let is_double = before.find(name).is_some();
    before.declare(name, 0)?;
    Ok(told_if(is_double, Kind::DoubleName, line, name))
}

/// Puts an item's own name behind those before it, where it has one.
fn add_item<'t>(
    before: &mut NameTable<'t>,
    item: &'t Item,
) -> Result<Option<Finding<'t>>, AllocError>
    ensures found { IfOk result (λ found. faults_of found ≡ spec.own_double (item_of item.now) before.old) }
    ensures added { OnOk result (before.new ≡ spec.with_name_of before.old (declared_name (item_of item.now))) }
{
    match item_name(item) {
        None => Ok(None),
        Some(name) => add_name(before, item_line(item), name),
    }
}

/// The first double name in a function: of a parameter, or in its body.
fn in_function<'t>(
    alloc: Global,
    names: &ModuleNames<'t>,
    function: &'t FunctionItem,
) -> Result<Option<Finding<'t>>, AllocError>
    ensures { IfOk result (λ found. faults_of found ≡ spec.in_function (function_of function.now) (place_at names.now no_locals)) }
{
    let mut locals = Locals::new(alloc);
    let parameters = function.parameters.as_slice();
    if let Some(finding) = in_parameters(names, &mut locals, parameters)? {
        return Ok(Some(finding));
    }
    in_block(names, &mut locals, &function.body)
}

/// The first double name in the body of a process.
fn in_process<'t>(
    alloc: Global,
    names: &ModuleNames<'t>,
    process: &'t ProcessItem,
) -> Result<Option<Finding<'t>>, AllocError>
    ensures { IfOk result (λ found. faults_of found ≡ spec.in_block (body_of process.now.body.items) (place_at names.now no_locals)) }
{
    let mut locals = Locals::new(alloc);
    in_block(names, &mut locals, &process.body)
}

/// The first double name in an item, apart from its own.
fn in_item<'t>(
    alloc: Global,
    names: &ModuleNames<'t>,
    item: &'t Item,
) -> Result<Option<Finding<'t>>, AllocError>
    ensures { IfOk result (λ found. faults_of found ≡ spec.in_item (item_of item.now) (place_at names.now no_locals)) }
{
    match item {
        Item::Function(_, function) => in_function(alloc, names, function),
        Item::Process(_, process) => in_process(alloc, names, process),
        _ => Ok(None),
    }
}

/// The first double name of an item, its own or one in it.
fn item_finding<'t>(
    alloc: Global,
    names: &ModuleNames<'t>,
    before: &mut NameTable<'t>,
    item: &'t Item,
) -> Result<Option<Finding<'t>>, AllocError>
    ensures found { IfOk result (λ found. faults_of found ≡ option_or (spec.own_double (item_of item.now) before.old) (spec.in_item (item_of item.now) (place_at names.now no_locals))) }
    ensures added { OnOk result (before.new ≡ spec.with_name_of before.old (declared_name (item_of item.now))) }
{
    if let Some(finding) = add_item(before, item)? {
        return Ok(Some(finding));
    }
    in_item(alloc, names, item)
}

/// The first double name among the items of a module.
pub(crate) fn in_items<'t>(
    alloc: Global,
    items: &'t [Item],
) -> Result<Option<Finding<'t>>, AllocError>
    ensures { IfOk result (λ found. faults_of found ≡ spec.in_items (items_of items.now) (items_of items.now) []) }
{
    let names = ModuleNames::new(alloc, items)?;
    let mut before = NameTable::new(alloc);
    for item in items {
        if let Some(finding) = item_finding(alloc, &names, &mut before, item)? {
            return Ok(Some(finding));
        }
    }
    Ok(None)
}
