//! The walk along the instances of a design.
ghost use Rattle.std.specs.Prelude.{◌≡◌, ◌++◌, ◌<◌, ◌+◌, OnOk, IfOk, length, map, reverse, slice_get, sum};
ghost use Rattle.std.specs.List.{flat_map};
ghost use Rattle.flat_design.specs.declared.design.Design.{Design};
ghost use Rattle.laws_runs.specs.SimModel.Trace as spec;
ghost use Rattle.vcd_trace.specs.Tables as table;
ghost use Rattle.vcd_trace.specs.Walks.{AreTables, visits, task_text, task_cost, tasks_text, tasks_cost, whole_of, walk_cost};

use crate::lines::{close_scope, open_scope, push_variable};
use crate::tables::{items_of_each, variables_of_each};
use flat_design::{Design, Object, ObjectForm};
use laws_runs::logic_values_api::Items;
use std::alloc::{AllocError, Global};

/// What is still to be written.
#[derive(Clone, Copy)]
pub(crate) enum Task {
    /// An object with what stands in it.
    Visit {
        /// Its number among the objects.
        object: usize,
        /// How many objects are written one inside another at most.
        levels: usize,
    },
    /// The end of a scope.
    Leave,
}

/// A walk: the text so far, and what is still to be written, the next last.
#[derive(Drop)]
pub(crate) struct Walk {
    /// The text so far.
    pub text: Vec<u8>,
    /// What is still to be written.
    pub tasks: Vec<Task>,
}

/// For each object what stands in it, and which variable shows its values.
#[derive(Drop)]
pub(crate) struct Tables {
    /// The numbers of the objects that are in it.
    pub rows: Vec<Items<usize>>,
    /// The number of its variable.
    pub variables: Vec<Option<usize>>,
}

/// The tables of a design.
pub(crate) fn tables_of(alloc: Global, design: &Design) -> Result<Tables, AllocError>
    ensures { IfOk result (λ tables. AreTables design.now tables) }
{
    let objects = design.objects.list.as_slice();
    let rows = items_of_each(alloc, objects)?;
    let variables = variables_of_each(alloc, objects.len(), design.visible.as_slice())?;
    Ok(Tables { rows, variables })
}

/// What stands in an object.
fn items_at(tables: &Tables, number: usize) -> &[usize]
    ensures { result.now ≡ table.row_of tables.now.rows.items number }
{
    match tables.rows.get(number) {
        Some(row) => row.as_slice(),
        None => &[],
    }
}

/// The variable that shows the values of an object.
fn variable_at(tables: &Tables, number: usize) -> Option<usize>
    ensures { result ≡ table.variable_at tables.now.variables.items number }
{
    match tables.variables.get(number) {
        Some(variable) => *variable,
        None => None,
    }
}

/// Puts these objects before what is still to be written.
fn add_visits(tasks: &mut Vec<Task>, items: &[usize], levels: usize) -> Result<(), AllocError>
    ensures { OnOk result (tasks.new.items ≡ tasks.old.items ++ visits levels (reverse items.now)) }
{
    for place in (0..items.len()).rev() {
        tasks.push(Task::Visit {
            object: items[place],
            levels,
        })?;
    }
    Ok(())
}

/// Opens the scope of an instance; what stands in it and the end of the scope are still to be written.
fn enter(walk: &mut Walk, object: &Object, items: &[usize], levels: usize) -> Result<(), AllocError>
    ensures whole { OnOk result ((d : Design) → whole_of d walk.new
        ≡ walk.old.text.items ++ ((spec.scope_line object.now.name ++ flat_map (spec.walk_from levels d) items.now ++ spec.upscope_line) ++ tasks_text d walk.old.tasks.items)) }
    ensures cost { OnOk result ((d : Design) → tasks_cost d walk.new.tasks.items
        ≡ 1 + sum (map (walk_cost levels d) items.now) + tasks_cost d walk.old.tasks.items) }
{
    open_scope(&mut walk.text, object.name.as_slice())?;
    walk.tasks.push(Task::Leave)?;
    add_visits(&mut walk.tasks, items, levels)?;
    Ok(())
}

/// Writes the variable of an object, if its values are seen.
fn show(
    alloc: Global,
    walk: &mut Walk,
    design: &Design,
    tables: &Tables,
    number: usize,
    object: &Object,
) -> Result<(), AllocError>
    requires tables { AreTables design.now tables.now }
    requires within { number < length design.now.objects.list }
    ensures whole { OnOk result (whole_of design.now walk.new
        ≡ walk.old.text.items ++ (spec.var_of design.now number object.now.name 0 design.now.visible ++ tasks_text design.now walk.old.tasks.items)) }
    ensures tasks { OnOk result (walk.new.tasks.items ≡ walk.old.tasks.items) }
{
    let variable = variable_at(tables, number);
    push_variable(
        alloc,
        &mut walk.text,
        design,
        object.name.as_slice(),
        variable,
    )?;
    Ok(())
}

/// Writes an object; what stands in it is still to be written.
fn write_object(
    alloc: Global,
    walk: &mut Walk,
    design: &Design,
    tables: &Tables,
    number: usize,
    object: &Object,
    levels: usize,
) -> Result<(), AllocError>
    requires tables { AreTables design.now tables.now }
    requires within { number < length design.now.objects.list }
    ensures whole { OnOk result (whole_of design.now walk.new
        ≡ walk.old.text.items ++ (spec.object_walk design.now number (spec.walk_from levels design.now) (Some object.now) ++ tasks_text design.now walk.old.tasks.items)) }
    ensures cost { OnOk result (tasks_cost design.now walk.new.tasks.items
        < 2 + sum (map (walk_cost levels design.now) (spec.items_of design.now number)) + tasks_cost design.now walk.old.tasks.items) }
{
    match object.form {
        ObjectForm::Instance { .. } => {
            enter(walk, object, items_at(tables, number), levels)?;
            Ok(())
        }
        ObjectForm::Signal { .. } | ObjectForm::Resolved | ObjectForm::Clock { .. } => {
            show(alloc, walk, design, tables, number, object)?;
            Ok(())
        }
        ObjectForm::Fifo { .. }
        | ObjectForm::Mutex
        | ObjectForm::Event
        | ObjectForm::Keeper
        | ObjectForm::Semaphore { .. }
        | ObjectForm::Memory { .. }
        | ObjectForm::Variable { .. }
        | ObjectForm::Port { .. }
        | ObjectForm::Export { .. }
        | ObjectForm::Initiator { .. }
        | ObjectForm::Target { .. }
        | ObjectForm::Process { .. } => Ok(()),
    }
}

/// Writes the object of this number, where there is one; what stands in it is still to be written.
fn write_number(
    alloc: Global,
    walk: &mut Walk,
    design: &Design,
    tables: &Tables,
    number: usize,
    levels: usize,
) -> Result<(), AllocError>
    requires { AreTables design.now tables.now }
    ensures whole { OnOk result (whole_of design.now walk.new
        ≡ walk.old.text.items ++ (spec.object_walk design.now number (spec.walk_from levels design.now) (slice_get design.now.objects.list number) ++ tasks_text design.now walk.old.tasks.items)) }
    ensures cost { OnOk result (tasks_cost design.now walk.new.tasks.items
        < 2 + sum (map (walk_cost levels design.now) (spec.items_of design.now number)) + tasks_cost design.now walk.old.tasks.items) }
{
    match design.objects.list.as_slice().get(number) {
        Some(object) => {
            write_object(alloc, walk, design, tables, number, object, levels)?;
            Ok(())
        }
        None => Ok(()),
    }
}

/// Writes the object of this number, if so many may stand in one another.
fn visit(
    alloc: Global,
    walk: &mut Walk,
    design: &Design,
    tables: &Tables,
    number: usize,
    levels: usize,
) -> Result<(), AllocError>
    requires { AreTables design.now tables.now }
    ensures whole { OnOk result (whole_of design.now walk.new
        ≡ walk.old.text.items ++ (spec.walk_from levels design.now number ++ tasks_text design.now walk.old.tasks.items)) }
    ensures cost { OnOk result (tasks_cost design.now walk.new.tasks.items < walk_cost levels design.now number + tasks_cost design.now walk.old.tasks.items) }
{
    if levels == 0 {
        return Ok(());
    }
    write_number(alloc, walk, design, tables, number, levels - 1)?;
    Ok(())
}

/// Writes what a task says.
fn carry_out(
    alloc: Global,
    walk: &mut Walk,
    design: &Design,
    tables: &Tables,
    task: Task,
) -> Result<(), AllocError>
    requires { AreTables design.now tables.now }
    ensures whole { OnOk result (whole_of design.now walk.new ≡ walk.old.text.items ++ (task_text design.now task ++ tasks_text design.now walk.old.tasks.items)) }
    ensures cost { OnOk result (tasks_cost design.now walk.new.tasks.items < task_cost design.now task + tasks_cost design.now walk.old.tasks.items) }
{
    match task {
        Task::Visit { object, levels } => visit(alloc, walk, design, tables, object, levels),
        Task::Leave => {
            close_scope(&mut walk.text)?;
            Ok(())
        }
    }
}

/// Writes all that is still to be written.
pub(crate) fn write_all(
    alloc: Global,
    walk: &mut Walk,
    design: &Design,
    tables: &Tables,
) -> Result<(), AllocError>
    requires { AreTables design.now tables.now }
    ensures { OnOk result (walk.new.text.items ≡ whole_of design.now walk.old) }
{
    'tasks: while let Some(task) = walk.tasks.pop() {
        carry_out(alloc, walk, design, tables, task)?;
    }
    Ok(())
}
