ghost use Rattle.std.specs.Prelude.{◌≡◌, IfOk};
ghost use Rattle.elaborate_objects.specs.ModelTree.Views.{modules_of};
ghost use Rattle.elaborate_objects.specs.ModelTree.WholeTree.{model_of};
ghost use Rattle.elaborate_objects.specs.DesignRules.Forms.{module_place};
ghost use Rattle.elaborate_objects.specs.DesignRules.Listing.{list_of, binds_of};
ghost use Rattle.elaborate_objects.specs.Parents.{AreInside};

use super::frames::enter;
use super::links::links_of;
use super::turns::{Walk, walk_all};
use crate::Children;
use elaborate_objects::ModulePlaces;
use elaborate_objects::flat_design_api::{Binding, Object};
use elaborate_objects::logic_values_api::Items;
use elaborate_objects::model_tree_api::{Module, Top, Tree};
use std::alloc::{AllocError, Global};

/// The place in the text of the module of the top instance.
fn top_place(places: &ModulePlaces<'_>, top: &Top) -> Result<u32, AllocError>
    ensures { IfOk result (λ place. place ≡ module_place (modules_of places.now) top.now.module) }
{
    match u32::try_from(places.find(top.module.bytes())) {
        Ok(place) => Ok(place),
        Err(_) => Err(AllocError),
    }
}

/// The bindings of modules and a top instance.
fn list_modules(
    alloc: Global,
    modules: &[Module],
    top: &Top,
    objects: &[Object],
) -> Result<Items<Binding>, AllocError>
    requires objects { objects.now ≡ list_of (record { modules = modules_of modules.now; top = top.now }) }
    requires parents { AreInside objects.now }
    ensures { IfOk result (λ binds. binds ≡ binds_of (record { modules = modules_of modules.now; top = top.now })) }
{
    let places = ModulePlaces::new(alloc, modules)?;
    let links = links_of(alloc, &places)?;
    let place = top_place(&places, top)?;
    let children = Children::new(alloc, objects)?;
    let mut walk = Walk {
        binds: Items::new(alloc),
        frames: Vec::new(alloc),
    };
    enter(&mut walk.frames, modules.len(), 0, place)?;
    walk_all(links.as_slice(), &children, &mut walk)?;
    Ok(walk.binds)
}

/// The bindings of a tree's design between its objects, by their numbers: those of each module in text order, where those
/// inside an instance stand at its place. An end that names no object has the number behind all of them.
///
/// The objects are those of the tree's design, each in an instance before it.
///
/// Only memory is refused. It is also called refused where a number of the tree does not fit its bits: a tree that breaks no
/// rule has none such. It takes time that grows with the text, the objects and the bindings: an object is found by the number
/// of its instance and its name in a table.
pub fn list_binds(
    alloc: Global,
    tree: &Tree,
    objects: &[Object],
) -> Result<Items<Binding>, AllocError>
    requires objects { objects.now ≡ list_of (model_of tree.now) }
    requires parents { AreInside objects.now }
    ensures { IfOk result (λ binds. binds ≡ binds_of (model_of tree.now)) }
{
    list_modules(alloc, tree.modules.as_slice(), &tree.top, objects)
}
