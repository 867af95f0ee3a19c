//! What each body is sensitive to, as it is written.
ghost use Rattle.std.specs.Prelude.{◌≡◌, ◌++◌, ◌∷◌, [], map, filter_map, IfOk, OnOk};
ghost use Rattle.elaborate_objects.specs.ModelTree.Views as view;
ghost use Rattle.elaborate_objects.specs.ModelTree.Views.{item_of, modules_of};
ghost use Rattle.elaborate_objects.specs.ModelRules.Scopes.{item_scope};
ghost use Rattle.elaborate_objects.specs.CheckNames.ModuleNames.{items_of};
ghost use Rattle.elaborate_objects.specs.CodeRules.Deeds as spec;
ghost use Rattle.elaborate_objects.specs.DesignRules.Statics.{lists_among, static_lists};

use elaborate_objects::check_names_api::{ModuleNames, event_member, row_of};
use elaborate_objects::flat_design_api::{EventMember, StaticUse};
use elaborate_objects::logic_values_api::Items;
use elaborate_objects::model_tree_api::{Event, Item, Module, Name, Place};
use std::alloc::{AllocError, Global};

/// The place of a port's channel in a static sensitivity; none where the place is no number.
fn static_place(place: &Place) -> Option<Option<u64>>
    ensures { result ≡ spec.static_place (view.place_of place.now) }
{
    match place {
        Place::First => Some(None),
        Place::Number(n) => Some(Some(*n)),
        Place::Computed(_) => None,
    }
}

/// Which event of a name of the module is meant.
fn event_of(names: &ModuleNames, name: &[u8], member: &Option<Name>) -> Option<EventMember>
    ensures { result ≡ spec.event_of (item_scope [] (items_of names.now) []) name.now member.now }
{
    let Some(member) = member else {
        return Some(EventMember::Own);
    };
    let Some(meaning) = names.meaning(name) else {
        return None;
    };
    match row_of(meaning) {
        Some(row) => event_member(row, member.bytes()),
        None => None,
    }
}

/// An event of a static sensitivity; none where it has no code.
fn static_use(names: &ModuleNames, event: &Event) -> Result<Option<StaticUse>, AllocError>
    ensures { IfOk result (λ found. found ≡ spec.static_use (item_scope [] (items_of names.now) []) (view.event_of event.now)) }
{
    let name = event.channel.name.bytes();
    let Some(number) = names.place(name) else {
        return Ok(None);
    };
    let Some(place) = static_place(&event.channel.place) else {
        return Ok(None);
    };
    let Some(member) = event_of(names, name, &event.member) else {
        return Ok(None);
    };
    match u32::try_from(number) {
        Ok(name) => Ok(Some(StaticUse {
            name,
            place,
            event: member,
        })),
        Err(_) => Err(AllocError),
    }
}

/// The events of a static sensitivity.
fn static_uses(
    alloc: Global,
    names: &ModuleNames,
    events: &[Event],
) -> Result<Items<StaticUse>, AllocError>
    ensures { IfOk result (λ uses. uses ≡ filter_map (spec.static_use (item_scope [] (items_of names.now) [])) (view.events_of events.now)) }
{
    let mut uses = Items::new(alloc);
    for event in events {
        if let Some(found) = static_use(names, event)? {
            uses.push(found)?;
        }
    }
    Ok(uses)
}

/// Adds what the body of an item is sensitive to, where the item has a body.
fn add_list(
    alloc: Global,
    lists: &mut Vec<Items<StaticUse>>,
    names: &ModuleNames,
    item: &Item,
) -> Result<(), AllocError>
    ensures { OnOk result (lists.new.items ≡ lists.old.items ++ lists_among [] (items_of names.now) (item_of item.now ∷ [])) }
{
    match item {
        Item::Process(_, process) => {
            let uses = static_uses(alloc, names, process.sensitive.as_slice())?;
            lists.push(uses)?;
            Ok(())
        }
        Item::Function(_, _) | Item::Clock(_, _) => {
            lists.push(Items::new(alloc))?;
            Ok(())
        }
        _ => Ok(()),
    }
}

/// Adds what each body of a module is sensitive to.
fn add_lists(
    alloc: Global,
    lists: &mut Vec<Items<StaticUse>>,
    items: &[Item],
) -> Result<(), AllocError>
    ensures { OnOk result (lists.new.items ≡ lists.old.items ++ lists_among [] (map item_of items.now) (map item_of items.now)) }
{
    let names = ModuleNames::new(alloc, items)?;
    for item in items {
        add_list(alloc, lists, &names, item)?;
    }
    Ok(())
}

/// What each body is sensitive to, in text order over these modules.
pub(crate) fn static_lists(
    alloc: Global,
    modules: &[Module],
) -> Result<Vec<Items<StaticUse>>, AllocError>
    ensures { IfOk result (λ lists. lists.items ≡ static_lists (modules_of modules.now)) }
{
    let mut lists = Vec::new(alloc);
    for found in modules {
        add_lists(alloc, &mut lists, found.items.as_slice())?;
    }
    Ok(lists)
}
