//! What the names that a module declares stand for in each instance of it.
ghost use Rattle.std.specs.Prelude.{◌≡◌, ◌<◌, ◌++◌, ◌∷◌, [], length, map, replicate, slice_set, IfOk, OnOk};
ghost use Rattle.elaborate_objects.specs.ModelTree.Views.{item_of, modules_of};
ghost use Rattle.elaborate_objects.specs.ModelRules.Members.{entry};
ghost use Rattle.elaborate_objects.specs.DesignRules.Forms.{items_at};
ghost use Rattle.elaborate_objects.specs.DesignRules.Denoting.{names_in};
ghost use Rattle.elaborate_objects.specs.DesignRules.Parts as spec;
ghost use Rattle.elaborate_design.specs.Children.{AreNamed};
ghost use Rattle.elaborate_design.specs.Named.{denoted_if, instances_among};

use super::counting::{behind, nothing_before};
use super::denoted::object_denoted;
use super::tables::tables_of;
use elaborate_objects::check_names_api::{NameTable, item_name};
use elaborate_objects::flat_design_api::{Denoted, InstancePart, Object, ObjectForm};
use elaborate_objects::logic_values_api::Items;
use elaborate_objects::model_tree_api::{Item, Module};
use std::alloc::{AllocError, Global};

/// What a name stands for in an instance.
fn named_in(all: &[Denoted], table: &NameTable, name: &[u8]) -> Denoted
    ensures { result ≡ denoted_if all.now (entry name.now table.now) }
{
    match table.find(name) {
        None => Denoted::Nothing,
        Some(i) => object_denoted(all, i),
    }
}

/// Adds what the name of an item stands for in an instance, where the item declares one.
fn add_name(
    names: &mut Items<Denoted>,
    all: &[Denoted],
    tables: &[NameTable],
    objects: &[Object],
    instance: u32,
    item: &Item,
) -> Result<(), AllocError>
    requires named { AreNamed objects.now tables.now }
    requires all { length all.now ≡ length objects.now }
    requires below { instance < length objects.now }
    ensures { OnOk result (names.new ≡ names.old ++ names_in all.now objects.now instance (item_of item.now ∷ [])) }
{
    let _objects = objects;
    match item_name(item) {
        None => Ok(()),
        Some(name) => {
            let denoted = named_in(all, &tables[instance as usize], name);
            names.push(denoted)?;
            Ok(())
        }
    }
}

/// What the names that these items declare stand for in an instance.
fn names_of(
    alloc: Global,
    all: &[Denoted],
    tables: &[NameTable],
    objects: &[Object],
    instance: u32,
    items: &[Item],
) -> Result<Items<Denoted>, AllocError>
    requires named { AreNamed objects.now tables.now }
    requires all { length all.now ≡ length objects.now }
    requires below { instance < length objects.now }
    ensures { IfOk result (λ names. names ≡ names_in all.now objects.now instance (map item_of items.now)) }
{
    let mut names = Items::new(alloc);
    for item in items {
        add_name(&mut names, all, tables, objects, instance, item)?;
    }
    Ok(names)
}

/// The items of the module at a place of the text.
fn items_at(modules: &[Module], place: u32) -> &[Item]
    ensures { map item_of result.now ≡ items_at (modules_of modules.now) place }
{
    match modules.get(place as usize) {
        Some(found) => found.items.as_slice(),
        None => &[],
    }
}

/// Adds what an object of this form and number is among instances of modules.
fn add_instance(
    alloc: Global,
    found: &mut Items<InstancePart>,
    modules: &[Module],
    all: &[Denoted],
    tables: &[NameTable],
    objects: &[Object],
    i: u32,
    form: ObjectForm,
) -> Result<(), AllocError>
    requires named { AreNamed objects.now tables.now }
    requires all { length all.now ≡ length objects.now }
    requires below { i < length objects.now }
    ensures { OnOk result (found.new ≡ found.old ++ spec.instance_by (modules_of modules.now) all.now objects.now i form) }
{
    match form {
        ObjectForm::Instance { module: place } => {
            let items = items_at(modules, place);
            let names = names_of(alloc, all, tables, objects, i, items)?;
            found.push(InstancePart {
                object: i,
                module_place: place,
                names,
            })?;
            Ok(())
        }
        _ => Ok(()),
    }
}

/// The instances of modules.
pub(crate) fn instances(
    alloc: Global,
    modules: &[Module],
    all: &[Denoted],
    objects: &[Object],
) -> Result<Items<InstancePart>, AllocError>
    requires { length all.now ≡ length objects.now }
    ensures { IfOk result (λ found. found ≡ instances_among (modules_of modules.now) all.now objects.now) }
{
    let tables = tables_of(alloc, objects)?;
    let mut found = Items::new(alloc);
    let mut n = nothing_before();
    for object in objects {
        add_instance(
            alloc,
            &mut found,
            modules,
            all,
            &tables,
            objects,
            n.objects,
            object.form,
        )?;
        n = behind(n, object.form)?;
    }
    Ok(found)
}
