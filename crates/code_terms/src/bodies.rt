ghost use Rattle.std.specs.Prelude.{◌≡◌, ◌++◌, ◌∷◌, [], IfOk, OnOk};
ghost use Rattle.std.specs.Option.{option_copied};
ghost use Rattle.model_tree.specs.Views.{item_of};
ghost use Rattle.code_rules.specs.Deeds.{has_body};
ghost use Rattle.check_expressions.specs.CheckNames.ModuleNames.{items_of};
ghost use Rattle.code_terms.specs.Names as spec;

use super::names::NameList;
use model_tree::Item;
use std::alloc::{AllocError, Global};

/// The name of an item's body, where it has one.
fn name_of_body(item: &Item) -> Option<&[u8]>
    ensures { option_copied result ≡ has_body (item_of item.now) }
{
    match item {
        Item::Clock(_, clock) => Some(clock.name.bytes()),
        Item::Function(_, function) => Some(function.name.bytes()),
        Item::Process(_, process) => Some(process.name.bytes()),
        _ => None,
    }
}

/// Puts the name of an item's body behind others, where it has one.
fn add_item<'a>(names: &mut NameList<'a>, item: &'a Item) -> Result<(), AllocError>
    ensures { OnOk result (names.new ≡ names.old ++ spec.body_names (item_of item.now ∷ [])) }
{
    match name_of_body(item) {
        None => Ok(()),
        Some(name) => names.push(name),
    }
}

/// The names of a module's bodies, in text order: those of its functions, processes and clocks.
pub fn body_names<'a>(alloc: Global, items: &'a [Item]) -> Result<NameList<'a>, AllocError>
    ensures { IfOk result (λ names. names ≡ spec.body_names (items_of items.now)) }
{
    let mut names = NameList::new(alloc);
    for item in items {
        add_item(&mut names, item)?;
    }
    Ok(names)
}
