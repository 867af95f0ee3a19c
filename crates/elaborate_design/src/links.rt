//! The instances and the bindings of each module.
ghost use Rattle.std.specs.Prelude.{◌≡◌, ◌++◌, map, IfOk, OnOk};
ghost use Rattle.std.specs.List.{flat_map};
ghost use Rattle.elaborate_objects.specs.ModelTree.Views.{item_of, modules_of};
ghost use Rattle.elaborate_design.specs.Links as spec;
ghost use Rattle.elaborate_design.specs.Links.{link_of, links_by};

use elaborate_objects::ModulePlaces;
use elaborate_objects::logic_values_api::Items;
use elaborate_objects::model_tree_api::{End, Item};
use std::alloc::{AllocError, Global};

/// An instance or a binding of a module.
#[derive(Clone, Copy)]
pub(crate) enum LinkRow<'a> {
    /// An instance: its name, and the place in the text of its module.
    Enters(&'a [u8], u32),
    /// A binding: its line, its left end and its right end.
    Binds(u32, &'a End, &'a End),
}

/// Adds an item to the links, if it is one.
fn add_link<'a>(
    modules: &ModulePlaces<'_>,
    item: &'a Item,
    links: &mut Items<LinkRow<'a>>,
) -> Result<(), AllocError>
    ensures { OnOk result (map link_of links.new ≡ map link_of links.old ++ links_by (modules_of modules.now) (item_of item.now)) }
{
    match item {
        Item::Instance(_, kind, name) => {
            let Ok(place) = u32::try_from(modules.find(kind.bytes())) else {
                return Err(AllocError);
            };
            links.push(LinkRow::Enters(name.bytes(), place))?;
            Ok(())
        }
        Item::Bind(line, left, right) => {
            links.push(LinkRow::Binds(*line, left, right))?;
            Ok(())
        }
        Item::Signal(_, _)
        | Item::Resolved(_, _)
        | Item::Clock(_, _)
        | Item::Fifo(_, _, _, _)
        | Item::Plain(_, _, _)
        | Item::Semaphore(_, _, _)
        | Item::Memory(_, _, _)
        | Item::Variable(_, _, _, _)
        | Item::Port(_, _, _, _)
        | Item::Export(_, _, _)
        | Item::Initiator(_, _, _)
        | Item::Target(_, _, _)
        | Item::Function(_, _)
        | Item::Process(_, _) => Ok(()),
    }
}

/// The links among items, in text order.
fn links_among<'a>(
    alloc: Global,
    modules: &ModulePlaces<'_>,
    items: &'a [Item],
) -> Result<Items<LinkRow<'a>>, AllocError>
    ensures { IfOk result (λ links. map link_of links ≡ flat_map (links_by (modules_of modules.now)) (map item_of items.now)) }
{
    let mut links = Items::new(alloc);
    for item in items {
        add_link(modules, item, &mut links)?;
    }
    Ok(links)
}

/// The links of each module. Out of memory is also answered where a place does not fit 32 bits.
pub(crate) fn links_of<'a>(
    alloc: Global,
    modules: &ModulePlaces<'a>,
) -> Result<Vec<Items<LinkRow<'a>>>, AllocError>
    ensures { IfOk result (λ links. map (map link_of) links.items ≡ spec.links_of (modules_of modules.now)) }
{
    let mut links = Vec::new(alloc);
    for module in modules.modules() {
        links.push(links_among(alloc, modules, module.items.as_slice())?)?;
    }
    Ok(links)
}
