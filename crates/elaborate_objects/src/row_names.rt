//! The names that forms of objects are made with.
ghost use Rattle.std.specs.Prelude.{◌≡◌, ◌++◌, ◌∷◌, [], OnOk, IfOk, Some, map};
ghost use Rattle.std.specs.Option.{option_copied};
ghost use Rattle.check_names.specs.ModelTree.Views.{item_of};
ghost use Rattle.design_rules.specs.CodeRules.Deeds.{has_body};
ghost use Rattle.design_rules.specs.Forms as spec;
ghost use Rattle.design_rules.specs.Forms.{Around};
ghost use Rattle.elaborate_objects.specs.Names.{names_of_bodies, AreAround};

use crate::{ModulePlaces, NamePlaces};
use check_names::model_tree_api::{Item, Name};
use std::alloc::{AllocError, Global};

/// The modules, and the names of the bodies of one of them with the number of its first body.
#[derive(Drop)]
pub(crate) struct Names<'b, 'a> {
    /// The modules.
    pub modules: &'b ModulePlaces<'a>,
    /// The names of the bodies of the module around, in text order.
    pub bodies: &'b NamePlaces<'a>,
    /// The number of its first body.
    pub first_body: u32,
}

/// The name of the body of an item, where it has one.
fn body_name(item: &Item) -> Option<&[u8]>
    ensures { option_copied result ≡ has_body (item_of item.now) }
{
    match item {
        Item::Clock(_, clock) => Some(clock.name.bytes()),
        Item::Function(_, function) => Some(function.name.bytes()),
        Item::Process(_, process) => Some(process.name.bytes()),
        Item::Signal(_, _)
        | Item::Resolved(_, _)
        | Item::Fifo(_, _, _, _)
        | Item::Plain(_, _, _)
        | Item::Semaphore(_, _, _)
        | Item::Memory(_, _, _)
        | Item::Variable(_, _, _, _)
        | Item::Port(_, _, _, _)
        | Item::Export(_, _, _)
        | Item::Initiator(_, _, _)
        | Item::Target(_, _, _)
        | Item::Instance(_, _, _)
        | Item::Bind(_, _, _) => None,
    }
}

/// Puts the name of an item's body behind others, if it has one.
fn add_body<'a>(bodies: &mut NamePlaces<'a>, item: &'a Item) -> Result<(), AllocError>
    ensures { OnOk result (bodies.new ≡ bodies.old ++ names_of_bodies (item_of item.now ∷ [])) }
{
    match body_name(item) {
        None => Ok(()),
        Some(name) => bodies.push(name),
    }
}

/// The names of the bodies of items.
pub(crate) fn bodies_among<'a>(
    alloc: Global,
    items: &'a [Item],
) -> Result<NamePlaces<'a>, AllocError>
    ensures { IfOk result (λ bodies. bodies ≡ names_of_bodies (map item_of items.now)) }
{
    let mut bodies = NamePlaces::new(alloc);
    for item in items {
        add_body(&mut bodies, item)?;
    }
    Ok(bodies)
}

/// The place in the text of the first module of a name; their number where there is none.
pub(crate) fn module_place(names: &Names<'_, '_>, name: &[u8]) -> Result<u32, AllocError>
    ensures { IfOk result (λ place. (a : Around) → AreAround names.now a → place ≡ spec.module_place a.modules name.now) }
{
    match u32::try_from(names.modules.find(name)) {
        Ok(place) => Ok(place),
        Err(_) => Err(AllocError),
    }
}

/// The number of the body of this name, where there is one.
fn body_number(names: &Names<'_, '_>, name: &[u8]) -> Result<Option<u32>, AllocError>
    ensures { IfOk result (λ number. (a : Around) → AreAround names.now a → number ≡ spec.handler a (Some name.now)) }
{
    let Some(place) = names.bodies.find(name) else {
        return Ok(None);
    };
    let Ok(place) = u32::try_from(place) else {
        return Err(AllocError);
    };
    match names.first_body.checked_add(place) {
        Some(number) => Ok(Some(number)),
        None => Err(AllocError),
    }
}

/// The number of the body of this name; 0 where there is none.
pub(crate) fn body(names: &Names<'_, '_>, name: &[u8]) -> Result<u32, AllocError>
    ensures { IfOk result (λ number. (a : Around) → AreAround names.now a → number ≡ spec.body a name.now) }
{
    match body_number(names, name) {
        Ok(Some(number)) => Ok(number),
        Ok(None) => Ok(0),
        Err(refused) => Err(refused),
    }
}

/// The number of the body of a handler, where one is written and is there.
pub(crate) fn handler(names: &Names<'_, '_>, name: &Option<Name>) -> Result<Option<u32>, AllocError>
    ensures { IfOk result (λ number. (a : Around) → AreAround names.now a → number ≡ spec.handler a name.now) }
{
    match name {
        None => Ok(None),
        Some(name) => body_number(names, name.bytes()),
    }
}
