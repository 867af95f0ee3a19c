//! What the items of a module are declared as.
ghost use Rattle.std.specs.Prelude.{◌≡◌, IfOk, unwrap_or};
ghost use Rattle.check_names.specs.ModelTree.Views.{item_of};
ghost use Rattle.check_names.specs.FlatDesign.declared.objects.ObjectForm.TheVariants as form;
ghost use Rattle.check_names.specs.ModelRules.Meanings as meant;
ghost use Rattle.design_rules.specs.Forms as spec;
ghost use Rattle.design_rules.specs.Forms.{Around};
ghost use Rattle.design_rules.specs.Values as value;
ghost use Rattle.elaborate_objects.specs.Names.{AreAround};

use super::row_names::{Names, body, handler, module_place};
use super::values::{first_value, known_type, span_time, start_time, whole};
use check_names::flat_design_api::{LeadsTo, ObjectForm};
use check_names::model_tree_api::{
    BoundRule, ClockItem, Constant, InitiatorRole, Interface, Item, Name, PlainKind, PortSize,
    ProcessItem, SignalItem, SignalType, TargetRole, VarType,
};
use check_names::{port_size, signal_type, variable_type};
use std::alloc::AllocError;

fn plain_form(kind: PlainKind) -> ObjectForm
    ensures { result ≡ spec.plain_form kind }
{
    match kind {
        PlainKind::Mutex => ObjectForm::Mutex,
        PlainKind::Event => ObjectForm::Event,
        PlainKind::Keeper => ObjectForm::Keeper,
    }
}

fn leads_of(interface: Interface) -> LeadsTo
    ensures { result ≡ spec.leads_of interface }
{
    match interface {
        Interface::In(t) => LeadsTo::In(known_type(signal_type(t))),
        Interface::Out(t) => LeadsTo::Out(known_type(signal_type(t))),
        Interface::FifoIn(t) => LeadsTo::FifoIn(known_type(signal_type(t))),
        Interface::FifoOut(t) => LeadsTo::FifoOut(known_type(signal_type(t))),
        Interface::Mutex => LeadsTo::Mutex,
        Interface::Semaphore => LeadsTo::Semaphore,
    }
}

fn bound_rule(size: Option<PortSize>) -> BoundRule
    ensures { result ≡ spec.bound_rule size }
{
    match size {
        None => BoundRule::One,
        Some(size) => size.rule,
    }
}

fn signal_form(signal: &SignalItem) -> Result<ObjectForm, AllocError>
    ensures { IfOk result (λ f. f ≡ form.Signal signal.now.kind signal.now.many (value.known_type (meant.signal_type signal.now.value_type)) (value.first_value (value.known_type (meant.signal_type signal.now.value_type)) signal.now.initial)) }
{
    let value_type = known_type(signal_type(signal.value_type));
    let initial = first_value(value_type, signal.initial)?;
    Ok(ObjectForm::Signal {
        kind: signal.kind,
        many: signal.many,
        value_type,
        initial,
    })
}

fn variable_form(t: VarType, initial: Option<Constant>) -> Result<ObjectForm, AllocError>
    ensures { IfOk result (λ f. f ≡ form.Variable (value.known_type (meant.variable_type t)) (value.first_value (value.known_type (meant.variable_type t)) initial)) }
{
    let value_type = known_type(variable_type(t));
    let initial = first_value(value_type, initial)?;
    Ok(ObjectForm::Variable {
        value_type,
        initial,
    })
}

fn clock_form(names: &Names<'_, '_>, clock: &ClockItem) -> Result<ObjectForm, AllocError>
    ensures { IfOk result (λ f. (a : Around) → AreAround names.now a → f ≡ form.Clock (value.span_time clock.now.period) (value.span_time clock.now.high) (value.start_time clock.now.start) (spec.body a clock.now.name)) }
{
    let period = span_time(clock.period)?;
    let high = span_time(clock.high)?;
    let start = start_time(clock.start)?;
    let code = body(names, clock.name.bytes())?;
    Ok(ObjectForm::Clock {
        period,
        high,
        start,
        code,
    })
}

/// A fifo has the size 16 unless stated. Out of memory is answered where its size does not fit 32 bits.
fn fifo_form(t: SignalType, size: Option<u64>) -> Result<ObjectForm, AllocError>
    ensures { IfOk result (λ f. f ≡ form.Fifo (value.known_type (meant.signal_type t)) (unwrap_or size 16)) }
{
    let size = match size {
        None => 16,
        Some(size) => size,
    };
    let Ok(size) = u32::try_from(size) else {
        return Err(AllocError);
    };
    Ok(ObjectForm::Fifo {
        value_type: known_type(signal_type(t)),
        size,
    })
}

fn initiator_form(names: &Names<'_, '_>, role: &InitiatorRole) -> Result<ObjectForm, AllocError>
    ensures { IfOk result (λ f. (a : Around) → AreAround names.now a → f ≡ spec.initiator_form a role.now) }
{
    match role {
        InitiatorRole::Pass => Ok(ObjectForm::Initiator {
            pass: true,
            backward: None,
        }),
        InitiatorRole::Own(backward) => {
            let backward = handler(names, backward)?;
            Ok(ObjectForm::Initiator {
                pass: false,
                backward,
            })
        }
    }
}

fn target_form(names: &Names<'_, '_>, role: &TargetRole) -> Result<ObjectForm, AllocError>
    ensures { IfOk result (λ f. (a : Around) → AreAround names.now a → f ≡ spec.target_form a role.now) }
{
    match role {
        TargetRole::Pass => Ok(ObjectForm::Target {
            pass: true,
            blocking: None,
            forward: None,
        }),
        TargetRole::Own(blocking, forward) => {
            let blocking = handler(names, blocking)?;
            let forward = handler(names, forward)?;
            Ok(ObjectForm::Target {
                pass: false,
                blocking,
                forward,
            })
        }
    }
}

fn process_form(names: &Names<'_, '_>, process: &ProcessItem) -> Result<ObjectForm, AllocError>
    ensures { IfOk result (λ f. (a : Around) → AreAround names.now a → f ≡ form.Process process.now.kind (spec.body a process.now.name) process.now.dont_initialize) }
{
    let code = body(names, process.name.bytes())?;
    Ok(ObjectForm::Process {
        kind: process.kind,
        code,
        dont_initialize: process.dont_initialize,
    })
}

fn instance_form(names: &Names<'_, '_>, kind: &Name) -> Result<ObjectForm, AllocError>
    ensures { IfOk result (λ f. (a : Around) → AreAround names.now a → f ≡ form.Instance (spec.module_place a.modules kind.now)) }
{
    let module = module_place(names, kind.bytes())?;
    Ok(ObjectForm::Instance { module })
}

/// What an item is declared as; a binding or a function is no object. Out of memory is also answered where a number does not
/// fit its bits: a model that breaks no rule has none such.
pub(crate) fn object_form(
    names: &Names<'_, '_>,
    item: &Item,
) -> Result<Option<ObjectForm>, AllocError>
    ensures { IfOk result (λ f. (a : Around) → AreAround names.now a → f ≡ spec.object_form a (item_of item.now)) }
{
    let form = match item {
        Item::Signal(_, signal) => signal_form(signal)?,
        Item::Resolved(_, _) => ObjectForm::Resolved,
        Item::Clock(_, clock) => clock_form(names, clock)?,
        Item::Fifo(_, t, _, size) => fifo_form(*t, *size)?,
        Item::Plain(_, kind, _) => plain_form(*kind),
        Item::Semaphore(_, _, c) => ObjectForm::Semaphore {
            start: whole(c.form),
        },
        Item::Memory(_, _, size) => ObjectForm::Memory { size: *size },
        Item::Variable(_, t, _, initial) => variable_form(*t, *initial)?,
        Item::Port(_, interface, _, size) => ObjectForm::Port {
            leads_to: leads_of(*interface),
            size: port_size(*size),
            rule: bound_rule(*size),
        },
        Item::Export(_, interface, _) => ObjectForm::Export {
            leads_to: leads_of(*interface),
        },
        Item::Initiator(_, _, role) => initiator_form(names, role)?,
        Item::Target(_, _, role) => target_form(names, role)?,
        Item::Instance(_, kind, _) => instance_form(names, kind)?,
        Item::Bind(_, _, _) | Item::Function(_, _) => return Ok(None),
        Item::Process(_, process) => process_form(names, process)?,
    };
    Ok(Some(form))
}
