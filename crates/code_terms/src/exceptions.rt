ghost use Rattle.std.specs.Prelude.{◌≡◌, IfOk, OnOk};
ghost use Rattle.model_tree.specs.Views.{action_of, body_of, item_of, modules_of, statement_of};
ghost use Rattle.code_rules.specs.Bodies as bodies;
ghost use Rattle.check_expressions.specs.CheckNames.ModuleNames.{items_of};
ghost use Rattle.code_terms.specs.Names as spec;

use super::names::NameList;
use model_tree::{Action, Item, Module, Statement};
use std::alloc::{AllocError, Global};

/// Adds the exception of a statement that throws one.
fn add_action<'a>(action: &'a Action, names: &mut NameList<'a>) -> Result<(), AllocError>
    ensures { OnOk result (names.new ≡ spec.with_all names.old (bodies.thrown_in (action_of action.now))) }
{
    match action {
        Action::ThrowIt(_, name, _) | Action::Throw(name) => names.push_once(name.bytes()),
        _ => Ok(()),
    }
}

/// Adds the exceptions of a statement, in text order.
#[cycle(exceptions)]
#[tactic(auto, using(crate::proofs::Once::all_append))]
fn add_statement<'a>(statement: &'a Statement, names: &mut NameList<'a>) -> Result<(), AllocError>
    ensures { OnOk result (names.new ≡ spec.with_all names.old (bodies.exceptions_in (statement_of statement.now))) }
{
    match statement {
        Statement::Var(_, _, _, _) | Statement::Assign(_, _, _) | Statement::Operate(_, _, _, _) =>
            Ok(()),
        Statement::Act(_, action) => add_action(action, names),
        Statement::If(_, _, body, other) => {
            add_block(body, names)?;
            match other {
                None => Ok(()),
                Some(other) => add_block(other, names),
            }
        }
        Statement::While(_, _, body) => add_block(body, names),
        Statement::Guard(_, body, undo) => {
            add_block(body, names)?;
            add_block(undo, names)
        }
        Statement::Try(_, body, handlers) => {
            add_block(body, names)?;
            for (name, body) in handlers {
                names.push_once(name.bytes())?;
                add_block(body, names)?;
            }
            Ok(())
        }
    }
}

/// Adds the exceptions of the statements of a block, in text order.
#[cycle(exceptions)]
#[tactic(auto, using(crate::proofs::Once::all_append))]
fn add_block<'a>(body: &'a Vec<Statement>, names: &mut NameList<'a>) -> Result<(), AllocError>
    ensures { OnOk result (names.new ≡ spec.with_all names.old (bodies.exceptions_in_block (body_of body.now.items))) }
{
    for statement in body {
        add_statement(statement, names)?;
    }
    Ok(())
}

/// Adds the exceptions of an item.
fn add_item<'a>(item: &'a Item, names: &mut NameList<'a>) -> Result<(), AllocError>
    ensures { OnOk result (names.new ≡ spec.with_all names.old (bodies.exceptions_in_item (item_of item.now))) }
{
    match item {
        Item::Function(_, function) => add_block(&function.body, names),
        Item::Process(_, process) => add_block(&process.body, names),
        _ => Ok(()),
    }
}

/// Adds the exceptions of items, in text order.
#[tactic(auto, using(crate::proofs::Once::all_append))]
fn add_items<'a>(items: &'a [Item], names: &mut NameList<'a>) -> Result<(), AllocError>
    ensures { OnOk result (names.new ≡ spec.with_all names.old (spec.thrown_in_items (items_of items.now))) }
{
    for item in items {
        add_item(item, names)?;
    }
    Ok(())
}

/// Adds the exceptions of modules, in text order.
#[tactic(auto, using(crate::proofs::Once::all_append))]
fn add_modules<'a>(modules: &'a [Module], names: &mut NameList<'a>) -> Result<(), AllocError>
    ensures { OnOk result (names.new ≡ spec.with_all names.old (spec.thrown_in_modules (modules_of modules.now))) }
{
    for module in modules {
        add_items(module.items.as_slice(), names)?;
    }
    Ok(())
}

/// The names of the exceptions of a model, each once, in the order of where it comes first. The place of a name is the
/// number of the exception.
#[tactic(auto, using(crate::proofs::Once::all_once))]
pub fn exceptions_of<'a>(alloc: Global, modules: &'a [Module]) -> Result<NameList<'a>, AllocError>
    ensures { IfOk result (λ names. names ≡ bodies.once (spec.thrown_in_modules (modules_of modules.now))) }
{
    let mut names = NameList::new(alloc);
    add_modules(modules, &mut names)?;
    Ok(names)
}
