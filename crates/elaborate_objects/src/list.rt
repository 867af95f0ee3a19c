ghost use Rattle.std.specs.Prelude.{◌≡◌, ◌∷◌, true, false, Some, None, IfOk, OnOk, IfErr};
ghost use Rattle.std.specs.Bool.{MatchBool};
ghost use Rattle.check_names.specs.FlatDesign.declared.objects.ObjectForm.TheVariants as form;
ghost use Rattle.check_names.specs.ModelTree.declared.faults.Kind.TheVariants as kind;
ghost use Rattle.check_names.specs.ModelTree.Views.{modules_of};
ghost use Rattle.check_names.specs.ModelTree.WholeTree.{model_of};
ghost use Rattle.check_names.specs.ModelTree.Stops.{IfRefused};
ghost use Rattle.design_rules.specs.Forms.{module_place};
ghost use Rattle.design_rules.specs.Listing.{list_of};
ghost use Rattle.design_rules.specs.ObjectFaults.{are_too_many, limit_fault};
ghost use Rattle.elaborate_objects.specs.Left.{Rows, rows_within};
ghost use Rattle.elaborate_objects.specs.Parents.{AreInside};
ghost use Rattle.elaborate_objects.specs.Walks.{whole_of, IsCounted};

use super::frames::enter;
use super::turns::walk_all;
use super::walks::Walk;
use crate::{ModulePlaces, rows_of};
use check_names::flat_design_api::{Object, ObjectForm};
use check_names::logic_values_api::{Items, Text};
use check_names::model_tree_api::{CheckStop, Fault, Kind, Module, Top, Tree};
use std::alloc::{AllocError, Global};

/// The object of the top instance, of the module at this place.
fn top_object(alloc: Global, top: &Top, place: u32) -> Result<Object, AllocError>
    ensures { IfOk result (λ o. o ≡ record { name = top.now.name; line = top.now.line; parent = 0; form = form.Instance place }) }
{
    let name = Vec::from_slice(alloc, top.name.bytes())?;
    Ok(Object {
        name: Text::from_vec(name),
        line: top.line,
        parent: 0,
        form: ObjectForm::Instance { module: place },
    })
}

/// A walk with the top instance, of the module at this place.
fn start(alloc: Global, top: &Top, place: u32, count: usize) -> Result<Walk, AllocError>
    ensures counted { IfOk result IsCounted }
    ensures whole { IfOk result (λ w. (t : Rows) → whole_of t w.objects w.frames.items
        ≡ (record { name = top.now.name; line = top.now.line; parent = 0; form = form.Instance place }) ∷ rows_within count t 0 place) }
{
    let object = top_object(alloc, top, place)?;
    let mut objects = Items::new(alloc);
    objects.push(object)?;
    let mut frames = Vec::new(alloc);
    enter(&mut frames, count, 0, place)?;
    Ok(Walk {
        objects,
        bytes: 0,
        frames,
    })
}

/// The refusal of a design with too many objects or bytes of memories, at the line of `top`.
fn refused(alloc: Global, top: &Top) -> CheckStop
    ensures { IfRefused result (λ fault. fault ≡ record { kind = kind.TooManyObjects; line = top.now.line; name = top.now.name }) }
{
    match Vec::from_slice(alloc, top.name.bytes()) {
        Ok(bytes) => CheckStop::Refused(Fault {
            kind: Kind::TooManyObjects,
            line: top.line,
            name: Text::from_vec(bytes),
        }),
        Err(_) => CheckStop::NoMemory,
    }
}

/// The place in the text of the module of the top instance.
fn top_place(places: &ModulePlaces<'_>, top: &Top) -> Result<u32, AllocError>
    ensures { IfOk result (λ place. place ≡ module_place (modules_of places.now) top.now.module) }
{
    match u32::try_from(places.find(top.module.bytes())) {
        Ok(place) => Ok(place),
        Err(_) => Err(AllocError),
    }
}

/// The walk along the instances of a tree, at its end or past the limits; whether it keeps them.
fn walked(alloc: Global, places: &ModulePlaces<'_>, top: &Top) -> Result<(Walk, bool), AllocError>
    ensures { IfOk result (λ r. MatchBool r.1
        ((r.0.objects ≡ list_of (record { modules = modules_of places.now; top = top.now })) × (are_too_many r.0.objects ≡ false))
        (are_too_many (list_of (record { modules = modules_of places.now; top = top.now })) ≡ true)) }
{
    let rows = rows_of(alloc, places)?;
    let place = top_place(places, top)?;
    let mut walk = start(alloc, top, place, places.modules().len())?;
    let fits = walk_all(alloc, rows.as_slice(), &mut walk)?;
    Ok((walk, fits))
}

/// The objects of modules and a top instance.
pub(crate) fn list_modules(
    alloc: Global,
    modules: &[Module],
    top: &Top,
) -> Result<Items<Object>, CheckStop>
    ensures ok { IfOk result (λ objects. objects ≡ list_of (record { modules = modules_of modules.now; top = top.now })) }
    ensures few { OnOk result (limit_fault (record { modules = modules_of modules.now; top = top.now }) ≡ None) }
    ensures parents { IfOk result AreInside }
    ensures refused { IfErr result (λ stop. IfRefused stop (λ fault. limit_fault (record { modules = modules_of modules.now; top = top.now }) ≡ Some fault)) }
{
    let Ok(places) = ModulePlaces::new(alloc, modules) else {
        return Err(CheckStop::NoMemory);
    };
    match walked(alloc, &places, top) {
        Ok((walk, true)) => Ok(walk.objects),
        Ok((_, false)) => Err(refused(alloc, top)),
        Err(_) => Err(CheckStop::NoMemory),
    }
}

/// The objects of a tree's design in object order: the top instance, and then each item at its place, that of an instance
/// followed by its own items.
///
/// Refused is a design of more than 65,536 objects, or with memories of more than 67,108,864 bytes together: TooManyObjects,
/// with the name of the top instance, at the line of `top`. No more than the limit of objects are made, also for a tree in
/// which a module has itself among its instances: there an instance as deep as there are modules has no objects.
///
/// Out of memory is also answered where a number of the tree does not fit its bits: a tree that breaks no rule has none such.
pub fn list_objects(alloc: Global, tree: &Tree) -> Result<Items<Object>, CheckStop>
    ensures ok { IfOk result (λ objects. objects ≡ list_of (model_of tree.now)) }
    ensures few { OnOk result (limit_fault (model_of tree.now) ≡ None) }
    ensures parents { IfOk result AreInside }
    ensures refused { IfErr result (λ stop. IfRefused stop (λ fault. limit_fault (model_of tree.now) ≡ Some fault)) }
{
    list_modules(alloc, tree.modules.as_slice(), &tree.top)
}
