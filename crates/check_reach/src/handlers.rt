//! The handlers of sockets.
ghost use Rattle.std.specs.Prelude.{◌≡◌, ◌++◌, map, option_map, OnOk, IfOk};
ghost use Rattle.std.specs.List.{flat_map};
ghost use Rattle.model_tree.specs.Views.{item_of};
ghost use Rattle.check_expressions.specs.CheckNames.ModuleNames.{items_of};
ghost use Rattle.check_reach.specs.Flat as spec;

use super::begun::add_name;
use model_tree::{InitiatorRole, Item, Name, TargetRole};
use std::alloc::{AllocError, Global};

/// The bytes of a name, where there is one.
fn bytes_of(name: &Option<Name>) -> Option<&[u8]>
    ensures { option_map (λ n. n.now) result ≡ name.now }
{
    match name {
        None => None,
        Some(name) => Some(name.bytes()),
    }
}

/// Puts the handlers of non-blocking calls in an item behind others.
fn add_nonblocking<'a>(item: &'a Item, names: &mut Vec<&'a [u8]>) -> Result<(), AllocError>
    ensures { OnOk result (map (λ n. n.now) names.new.items ≡ map (λ n. n.now) names.old.items ++ spec.nonblocking_handlers (item_of item.now)) }
{
    match item {
        Item::Initiator(_, _, InitiatorRole::Own(backward)) => add_name(bytes_of(backward), names),
        Item::Target(_, _, TargetRole::Own(_, forward)) => add_name(bytes_of(forward), names),
        _ => Ok(()),
    }
}

/// Puts the handlers of blocking calls in an item behind others.
fn add_blocking<'a>(item: &'a Item, names: &mut Vec<&'a [u8]>) -> Result<(), AllocError>
    ensures { OnOk result (map (λ n. n.now) names.new.items ≡ map (λ n. n.now) names.old.items ++ spec.blocking_handlers (item_of item.now)) }
{
    match item {
        Item::Target(_, _, TargetRole::Own(blocking, _)) => add_name(bytes_of(blocking), names),
        _ => Ok(()),
    }
}

/// Puts the handlers in an item behind others.
fn add_all<'a>(item: &'a Item, names: &mut Vec<&'a [u8]>) -> Result<(), AllocError>
    ensures { OnOk result (map (λ n. n.now) names.new.items ≡ map (λ n. n.now) names.old.items ++ spec.all_handlers (item_of item.now)) }
{
    add_nonblocking(item, names)?;
    add_blocking(item, names)
}

/// The handlers of non-blocking calls among items.
pub(crate) fn nonblocking_handlers<'a>(
    alloc: Global,
    items: &'a [Item],
) -> Result<Vec<&'a [u8]>, AllocError>
    ensures { IfOk result (λ names. map (λ n. n.now) names.items ≡ flat_map spec.nonblocking_handlers (items_of items.now)) }
{
    let mut names = Vec::new(alloc);
    for item in items {
        add_nonblocking(item, &mut names)?;
    }
    Ok(names)
}

/// Puts all handlers among items behind other names.
pub(crate) fn add_handlers<'a>(
    items: &'a [Item],
    names: &mut Vec<&'a [u8]>,
) -> Result<(), AllocError>
    ensures { OnOk result (map (λ n. n.now) names.new.items ≡ map (λ n. n.now) names.old.items ++ flat_map spec.all_handlers (items_of items.now)) }
{
    for item in items {
        add_all(item, names)?;
    }
    Ok(())
}
