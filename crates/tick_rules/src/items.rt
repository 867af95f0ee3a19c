//! Items and modules.
ghost use Rattle.std.specs.Prelude.{◌≡◌, map};
ghost use Rattle.tick_trees.specs.Retimed as retimed;
ghost use Rattle.tick_trees.specs.Ticks.{ticks_span};
ghost use Rattle.model_tree.specs.Views.{item_of, module_of, modules_of};

use crate::values::{retime_clock, retime_constant, retime_first};
use crate::{retime_block, retime_events};
use model_tree::sim_time_api::Resolution;
use model_tree::{Item, Module};

/// Writes the times of an item as numbers of resolutions.
fn retime_item(item: &mut Item, r: Resolution)
    ensures { item_of item.new ≡ retimed.item (ticks_span r) (item_of item.old) }
{
    match item {
        Item::Resolved(_, _)
        | Item::Fifo(_, _, _, _)
        | Item::Plain(_, _, _)
        | Item::Memory(_, _, _)
        | Item::Port(_, _, _, _)
        | Item::Export(_, _, _)
        | Item::Initiator(_, _, _)
        | Item::Target(_, _, _)
        | Item::Instance(_, _, _)
        | Item::Bind(_, _, _) => {}
        Item::Signal(_, signal) => retime_first(&mut signal.initial, r),
        Item::Clock(_, clock) => retime_clock(clock, r),
        Item::Semaphore(_, _, first) => retime_constant(first, r),
        Item::Variable(_, _, _, first) => retime_first(first, r),
        Item::Function(_, function) => retime_block(&mut function.body, r),
        Item::Process(_, process) => {
            retime_events(&mut process.sensitive, r);
            retime_block(&mut process.body, r);
        }
    }
}

/// Writes the times of items as numbers of resolutions.
fn retime_items(items: &mut [Item], r: Resolution)
    ensures { map item_of items.new ≡ map (retimed.item (ticks_span r)) (map item_of items.old) }
{
    for item in items.iter_mut() {
        retime_item(item, r);
    }
}

/// Writes the times of a module as numbers of resolutions.
fn retime_module(module: &mut Module, r: Resolution)
    ensures { module_of module.new ≡ retimed.module_ (ticks_span r) (module_of module.old) }
{
    retime_items(&mut module.items, r);
}

/// Writes the times of modules as numbers of resolutions.
pub(crate) fn retime_modules(modules: &mut [Module], r: Resolution)
    ensures { modules_of modules.new ≡ map (retimed.module_ (ticks_span r)) (modules_of modules.old) }
{
    for module in modules.iter_mut() {
        retime_module(module, r);
    }
}
