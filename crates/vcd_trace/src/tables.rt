//! What stands in each instance, and which objects have values to be seen.
ghost use Rattle.std.specs.Prelude.{◌≡◌, ◌<◌, ℕ, [], length, replicate, slice_set, IfOk, OnOk};
ghost use Rattle.laws_runs.specs.SimModel.Trace.{items_from};
ghost use Rattle.vcd_trace.specs.Tables.{row_of, with_item, variable_at, variable_of};

use flat_design::{Object, Visible};
use laws_runs::logic_values_api::Items;
use std::alloc::{AllocError, Global};

/// So many rows without numbers.
fn empty_rows(alloc: Global, count: usize) -> Result<Vec<Items<usize>>, AllocError>
    ensures { IfOk result (λ rows. rows.items ≡ replicate count []) }
{
    let mut rows = Vec::new(alloc);
    for _ in 0..count {
        rows.push(Items::new(alloc))?;
    }
    Ok(rows)
}

/// Puts the number of an object into the row of the instance that it is in; an object that is in itself goes into none.
fn add_item(rows: &mut Vec<Items<usize>>, instance: usize, number: usize) -> Result<(), AllocError>
    ensures { OnOk result (rows.new.items ≡ with_item rows.old.items instance number) }
{
    if number != instance && instance < rows.len() {
        rows[instance].push(number)?;
    }
    Ok(())
}

/// For each object the numbers of the objects that are in it, in object order.
pub(crate) fn items_of_each(
    alloc: Global,
    objects: &[Object],
) -> Result<Vec<Items<usize>>, AllocError>
    ensures many { IfOk result (λ rows. length rows.items ≡ length objects.now) }
    ensures rows { IfOk result (λ rows. (at : ℕ) → at < length objects.now → row_of rows.items at ≡ items_from at 0 objects.now) }
{
    let mut rows = empty_rows(alloc, objects.len())?;
    for number in 0..objects.len() {
        add_item(&mut rows, objects[number].parent as usize, number)?;
    }
    Ok(rows)
}

/// So many objects without a variable.
fn no_variables(alloc: Global, count: usize) -> Result<Vec<Option<usize>>, AllocError>
    ensures { IfOk result (λ variables. variables.items ≡ replicate count None) }
{
    vec![in alloc; None; count]
}

/// Notes the variable of an object.
fn set_variable(variables: &mut Vec<Option<usize>>, object: usize, variable: usize)
    ensures { variables.new.items ≡ slice_set variables.old.items object (Some variable) }
{
    if object < variables.len() {
        variables[object] = Some(variable);
    }
}

/// For each of so many objects the number of the first variable that shows its values.
pub(crate) fn variables_of_each(
    alloc: Global,
    count: usize,
    visible: &[Visible],
) -> Result<Vec<Option<usize>>, AllocError>
    ensures { IfOk result (λ variables. (i : ℕ) → i < count → variable_at variables.items i ≡ variable_of i 0 visible.now) }
{
    let mut variables = no_variables(alloc, count)?;
    for variable in (0..visible.len()).rev() {
        set_variable(&mut variables, visible[variable].object as usize, variable);
    }
    Ok(variables)
}
