//! The parts of a design that objects give by themselves, each kind in object order.
ghost use Rattle.std.specs.Prelude.{◌≡◌, ◌++◌, ◌∷◌, [], IfOk, OnOk};
ghost use Rattle.elaborate_objects.specs.DesignRules.Parts as spec;

use super::counting::{behind, nothing_before};
use elaborate_objects::design_rules_api::Counts;
use elaborate_objects::flat_design_api::{
    FifoPart, MemoryPart, Object, ObjectForm, ResolvedPart, SemaphorePart, SignalPart, ValueType,
    VariablePart, Visible, VisibleId,
};
use elaborate_objects::logic_values_api::{Items, Value};
use elaborate_objects::model_tree_api::SignalKind;
use std::alloc::{AllocError, Global};

/// Adds what an object of this form is among signals, buffers and clocks.
fn add_signal(found: &mut Items<SignalPart>, n: Counts, form: ObjectForm) -> Result<(), AllocError>
    ensures { OnOk result (found.new ≡ found.old ++ spec.signal_by n form) }
{
    match form {
        ObjectForm::Signal {
            kind,
            many,
            value_type,
            initial,
        } => {
            found.push(SignalPart {
                object: n.objects,
                kind,
                many,
                value_type,
                initial,
                events: n.events,
            })?;
            Ok(())
        }
        ObjectForm::Clock { .. } => {
            found.push(SignalPart {
                object: n.objects,
                kind: SignalKind::Signal,
                many: false,
                value_type: ValueType::Bool,
                initial: Value::Bool(false),
                events: n.events,
            })?;
            Ok(())
        }
        _ => Ok(()),
    }
}

/// The signals, buffers and clocks.
pub(crate) fn signals(alloc: Global, objects: &[Object]) -> Result<Items<SignalPart>, AllocError>
    ensures { IfOk result (λ found. found ≡ spec.signals_of objects.now) }
{
    let mut found = Items::new(alloc);
    let mut n = nothing_before();
    for object in objects {
        add_signal(&mut found, n, object.form)?;
        n = behind(n, object.form)?;
    }
    Ok(found)
}

/// Adds what an object of this form is among resolved signals.
fn add_resolved(
    found: &mut Items<ResolvedPart>,
    n: Counts,
    form: ObjectForm,
) -> Result<(), AllocError>
    ensures { OnOk result (found.new ≡ found.old ++ spec.resolved_by n form) }
{
    match form {
        ObjectForm::Resolved => {
            found.push(ResolvedPart {
                object: n.objects,
                events: n.events,
            })?;
            Ok(())
        }
        _ => Ok(()),
    }
}

/// The resolved signals.
pub(crate) fn resolved(alloc: Global, objects: &[Object]) -> Result<Items<ResolvedPart>, AllocError>
    ensures { IfOk result (λ found. found ≡ spec.resolved_of objects.now) }
{
    let mut found = Items::new(alloc);
    let mut n = nothing_before();
    for object in objects {
        add_resolved(&mut found, n, object.form)?;
        n = behind(n, object.form)?;
    }
    Ok(found)
}

/// Adds what an object of this form is among fifos.
fn add_fifo(found: &mut Items<FifoPart>, n: Counts, form: ObjectForm) -> Result<(), AllocError>
    ensures { OnOk result (found.new ≡ found.old ++ spec.fifo_by n form) }
{
    match form {
        ObjectForm::Fifo { value_type, size } => {
            found.push(FifoPart {
                object: n.objects,
                value_type,
                size,
                events: n.events,
            })?;
            Ok(())
        }
        _ => Ok(()),
    }
}

/// The fifos.
pub(crate) fn fifos(alloc: Global, objects: &[Object]) -> Result<Items<FifoPart>, AllocError>
    ensures { IfOk result (λ found. found ≡ spec.fifos_of objects.now) }
{
    let mut found = Items::new(alloc);
    let mut n = nothing_before();
    for object in objects {
        add_fifo(&mut found, n, object.form)?;
        n = behind(n, object.form)?;
    }
    Ok(found)
}

/// Adds what an object of this form is among semaphores.
fn add_semaphore(
    found: &mut Items<SemaphorePart>,
    n: Counts,
    form: ObjectForm,
) -> Result<(), AllocError>
    ensures { OnOk result (found.new ≡ found.old ++ spec.semaphore_by n form) }
{
    match form {
        ObjectForm::Semaphore { start } => {
            found.push(SemaphorePart {
                object: n.objects,
                start,
            })?;
            Ok(())
        }
        _ => Ok(()),
    }
}

/// The semaphores.
pub(crate) fn semaphores(
    alloc: Global,
    objects: &[Object],
) -> Result<Items<SemaphorePart>, AllocError>
    ensures { IfOk result (λ found. found ≡ spec.semaphores_of objects.now) }
{
    let mut found = Items::new(alloc);
    let mut n = nothing_before();
    for object in objects {
        add_semaphore(&mut found, n, object.form)?;
        n = behind(n, object.form)?;
    }
    Ok(found)
}

/// Adds what an object of this form is among memories.
fn add_memory(found: &mut Items<MemoryPart>, n: Counts, form: ObjectForm) -> Result<(), AllocError>
    ensures { OnOk result (found.new ≡ found.old ++ spec.memory_by n form) }
{
    match form {
        ObjectForm::Memory { size } => {
            found.push(MemoryPart {
                object: n.objects,
                size,
            })?;
            Ok(())
        }
        _ => Ok(()),
    }
}

/// The memories.
pub(crate) fn memories(alloc: Global, objects: &[Object]) -> Result<Items<MemoryPart>, AllocError>
    ensures { IfOk result (λ found. found ≡ spec.memories_of objects.now) }
{
    let mut found = Items::new(alloc);
    let mut n = nothing_before();
    for object in objects {
        add_memory(&mut found, n, object.form)?;
        n = behind(n, object.form)?;
    }
    Ok(found)
}

/// Adds what an object of this form is among variables.
fn add_variable(
    found: &mut Items<VariablePart>,
    n: Counts,
    form: ObjectForm,
) -> Result<(), AllocError>
    ensures { OnOk result (found.new ≡ found.old ++ spec.variable_by n form) }
{
    match form {
        ObjectForm::Variable {
            value_type,
            initial,
        } => {
            found.push(VariablePart {
                object: n.objects,
                value_type,
                initial,
            })?;
            Ok(())
        }
        _ => Ok(()),
    }
}

/// The variables of instances of modules.
pub(crate) fn variables(
    alloc: Global,
    objects: &[Object],
) -> Result<Items<VariablePart>, AllocError>
    ensures { IfOk result (λ found. found ≡ spec.variables_of objects.now) }
{
    let mut found = Items::new(alloc);
    let mut n = nothing_before();
    for object in objects {
        add_variable(&mut found, n, object.form)?;
        n = behind(n, object.form)?;
    }
    Ok(found)
}

/// Adds what an object of this form is among those that have values to be seen.
fn add_visible(found: &mut Items<Visible>, n: Counts, form: ObjectForm) -> Result<(), AllocError>
    ensures { OnOk result (found.new ≡ found.old ++ spec.visible_by n form) }
{
    match form {
        ObjectForm::Signal { .. } | ObjectForm::Clock { .. } => {
            found.push(Visible {
                object: n.objects,
                id: VisibleId::Signal(n.signals),
            })?;
            Ok(())
        }
        ObjectForm::Resolved => {
            found.push(Visible {
                object: n.objects,
                id: VisibleId::Resolved(n.resolved),
            })?;
            Ok(())
        }
        _ => Ok(()),
    }
}

/// What has values to be seen.
pub(crate) fn visible(alloc: Global, objects: &[Object]) -> Result<Items<Visible>, AllocError>
    ensures { IfOk result (λ found. found ≡ spec.visible_of objects.now) }
{
    let mut found = Items::new(alloc);
    let mut n = nothing_before();
    for object in objects {
        add_visible(&mut found, n, object.form)?;
        n = behind(n, object.form)?;
    }
    Ok(found)
}

/// How many instances come before each object.
pub(crate) fn instance_numbers(alloc: Global, objects: &[Object]) -> Result<Vec<u32>, AllocError>
    ensures { IfOk result (λ numbers. numbers.items ≡ spec.instance_numbers objects.now) }
{
    let mut numbers = Vec::new(alloc);
    let mut n = nothing_before();
    for object in objects {
        numbers.push(n.instances)?;
        n = behind(n, object.form)?;
    }
    Ok(numbers)
}
