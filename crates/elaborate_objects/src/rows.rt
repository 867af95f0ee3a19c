//! What each item of a module gives an instance of it.
ghost use Rattle.std.specs.Prelude.{◌≡◌, ◌++◌, ◌∷◌, ◌+◌, [], Some, OnOk, IfOk, map, length};
ghost use Rattle.check_names.specs.ModelTree.Views.{item_of, module_of, modules_of};
ghost use Rattle.design_rules.specs.CodeRules.Bodies.{body_count};
ghost use Rattle.design_rules.specs.Forms.{Around, object_form};
ghost use Rattle.elaborate_objects.specs.Names.{AreAround};
ghost use Rattle.elaborate_objects.specs.Rows as spec;
ghost use Rattle.elaborate_objects.specs.Rows.{row_if, rows_in, row_of};

use super::forms::object_form;
use super::row_names::{Names, bodies_among};
use crate::{ModulePlaces, NamePlaces};
use check_names::flat_design_api::ObjectForm;
use check_names::item_name;
use check_names::logic_values_api::Items;
use check_names::model_tree_api::{Item, Module, item_line};
use std::alloc::{AllocError, Global};

/// What an item of a module gives each instance of the module: an object but for the instance that it is in.
#[derive(Clone, Copy)]
pub struct ObjectRow<'a> {
    /// Its own name.
    pub name: &'a [u8],
    /// The line of its item.
    pub line: u32,
    /// What it is declared as.
    pub form: ObjectForm,
}

/// The row of an item of this form.
fn row<'a>(item: &'a Item, form: ObjectForm) -> ObjectRow<'a>
    ensures { row_of result ∷ [] ≡ row_if (item_of item.now) (Some form) }
{
    let name = match item_name(item) {
        Some(name) => name,
        None => &[],
    };
    ObjectRow {
        name,
        line: item_line(item),
        form,
    }
}

/// Puts the row of an item behind others, if the item is an object.
fn add_row<'a>(
    names: &Names<'_, '_>,
    item: &'a Item,
    rows: &mut Items<ObjectRow<'a>>,
) -> Result<(), AllocError>
    ensures { OnOk result ((a : Around) → AreAround names.now a → map row_of rows.new ≡ map row_of rows.old ++ row_if (item_of item.now) (object_form a (item_of item.now))) }
{
    match object_form(names, item)? {
        None => Ok(()),
        Some(form) => {
            rows.push(row(item, form))?;
            Ok(())
        }
    }
}

/// The rows of items.
fn rows_among<'a>(
    alloc: Global,
    names: &Names<'_, '_>,
    items: &'a [Item],
) -> Result<Items<ObjectRow<'a>>, AllocError>
    ensures { IfOk result (λ rows. (a : Around) → AreAround names.now a → map row_of rows ≡ rows_in a (map item_of items.now)) }
{
    let mut rows = Items::new(alloc);
    for item in items {
        add_row(names, item, &mut rows)?;
    }
    Ok(rows)
}

/// The number of the first body behind these.
fn next_body(first_body: u32, bodies: &NamePlaces<'_>) -> Result<u32, AllocError>
    ensures { IfOk result (λ next. next ≡ first_body + length bodies.now) }
{
    let Ok(count) = u32::try_from(bodies.len()) else {
        return Err(AllocError);
    };
    match first_body.checked_add(count) {
        Some(next) => Ok(next),
        None => Err(AllocError),
    }
}

/// The rows of a module whose first body has this number, and the number of the first body behind it.
fn rows_in<'a>(
    alloc: Global,
    modules: &ModulePlaces<'a>,
    first_body: u32,
    module: &'a Module,
) -> Result<(Items<ObjectRow<'a>>, u32), AllocError>
    ensures rows { IfOk result (λ r. map row_of r.0
        ≡ rows_in (record { modules = modules_of modules.now; items = (module_of «module».now).items; first_body = first_body }) (module_of «module».now).items) }
    ensures next { IfOk result (λ r. r.1 ≡ first_body + body_count (module_of «module».now).items) }
{
    let bodies = bodies_among(alloc, module.items.as_slice())?;
    let next = next_body(first_body, &bodies)?;
    let names = Names {
        modules,
        bodies: &bodies,
        first_body,
    };
    let rows = rows_among(alloc, &names, module.items.as_slice())?;
    Ok((rows, next))
}

/// What each module gives its instances: a row for each item that is an object, in text order.
///
/// Out of memory is also answered where a number does not fit its bits: a model that breaks no rule has none such.
pub fn rows_of<'a>(
    alloc: Global,
    modules: &ModulePlaces<'a>,
) -> Result<Vec<Items<ObjectRow<'a>>>, AllocError>
    ensures { IfOk result (λ rows. map (map row_of) rows.items ≡ spec.rows_of (modules_of modules.now)) }
{
    let mut all = Vec::new(alloc);
    let mut first_body = 0;
    for module in modules.modules() {
        let (rows, next) = rows_in(alloc, modules, first_body, module)?;
        all.push(rows)?;
        first_body = next;
    }
    Ok(all)
}
