//! The instances in each module.
ghost use Rattle.std.specs.Prelude.{◌≡◌, map, IfOk, OnOk, ◌++◌};
ghost use Rattle.std.specs.List.{flat_map};
ghost use Rattle.check_names.specs.ModelTree.Views.{item_of, modules_of};
ghost use Rattle.design_rules.specs.ObjectFaults.{made_by};
ghost use Rattle.elaborate_objects.specs.Marks.{made_of};

use crate::ModulePlaces;
use check_names::logic_values_api::Items;
use check_names::model_tree_api::{Item, Module};
use design_rules::Made;
use std::alloc::{AllocError, Global};

/// Adds an item to the instances, if it is one.
fn add_made(
    modules: &ModulePlaces<'_>,
    item: &Item,
    made: &mut Items<Made>,
) -> Result<(), AllocError>
    ensures { OnOk result (made.new ≡ made.old ++ made_by (modules_of modules.now) (item_of item.now)) }
{
    match item {
        Item::Instance(line, kind, _) => {
            let Ok(place) = u32::try_from(modules.find(kind.bytes())) else {
                return Err(AllocError);
            };
            made.push(Made { line: *line, place })?;
            Ok(())
        }
        Item::Signal(_, _)
        | Item::Resolved(_, _)
        | Item::Clock(_, _)
        | Item::Fifo(_, _, _, _)
        | Item::Plain(_, _, _)
        | Item::Semaphore(_, _, _)
        | Item::Memory(_, _, _)
        | Item::Variable(_, _, _, _)
        | Item::Port(_, _, _, _)
        | Item::Export(_, _, _)
        | Item::Initiator(_, _, _)
        | Item::Target(_, _, _)
        | Item::Bind(_, _, _)
        | Item::Function(_, _)
        | Item::Process(_, _) => Ok(()),
    }
}

/// The instances among items, in text order.
fn made_among(
    alloc: Global,
    modules: &ModulePlaces<'_>,
    items: &[Item],
) -> Result<Items<Made>, AllocError>
    ensures { IfOk result (λ made. made ≡ flat_map (made_by (modules_of modules.now)) (map item_of items.now)) }
{
    let mut made = Items::new(alloc);
    for item in items {
        add_made(modules, item, &mut made)?;
    }
    Ok(made)
}

/// The instances in each module.
fn made_in(alloc: Global, modules: &ModulePlaces<'_>) -> Result<Vec<Items<Made>>, AllocError>
    ensures { IfOk result (λ made. made.items ≡ made_of (modules_of modules.now)) }
{
    let mut made = Vec::new(alloc);
    for module in modules.modules() {
        made.push(made_among(alloc, modules, module.items.as_slice())?)?;
    }
    Ok(made)
}

/// The instances in each module. Out of memory is also answered where a place does not fit 32 bits.
pub(crate) fn made_of(alloc: Global, modules: &[Module]) -> Result<Vec<Items<Made>>, AllocError>
    ensures { IfOk result (λ made. made.items ≡ made_of (modules_of modules.now)) }
{
    let places = ModulePlaces::new(alloc, modules)?;
    made_in(alloc, &places)
}
