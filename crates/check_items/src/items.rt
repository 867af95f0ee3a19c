ghost use Rattle.std.specs.Prelude.{◌≡◌, IfOk, true};
ghost use Rattle.model_tree.specs.Views.{events_of, function_of, item_of, process_of};
ghost use Rattle.model_tree.specs.Tree as tree;
ghost use Rattle.check_statements.specs.ModelRules.Scopes.{locals_in_block, past, with_local, with_parameters};
ghost use Rattle.check_statements.specs.ModelRules.Passes.{constructs, fault_of};
ghost use Rattle.check_statements.specs.ModelRules.Sites as sites;
ghost use Rattle.check_statements.specs.CheckNames.Places.{scope_of};
ghost use Rattle.check_statements.specs.CheckExpressions.Findings.{faults_of};
ghost use Rattle.check_statements.specs.Walks.{Walks};
ghost use Rattle.check_items.specs.Whole as spec;

use super::owns::{
    binding_finding, clock_finding, fifo_finding, initiator_finding, instance_finding,
    interface_finding, port_finding, semaphore_finding, signal_finding, target_finding,
    variable_finding,
};
use check_statements::check_actions_api::events_finding;
use check_statements::check_expressions_api::Finding;
use check_statements::check_names_api::Place;
use check_statements::{in_block, variable_type_finding};
use model_tree::{Event, FunctionItem, Item, Parameter, ProcessItem, VarType};
use std::alloc::AllocError;

/// Judges a parameter, and declares it.
fn in_parameter<'a>(
    place: &mut Place<'a>,
    parameter: &'a Parameter,
) -> Result<Option<Finding<'a>>, AllocError>
    ensures { IfOk result (λ found. Walks (fault_of constructs (sites.variable_type_sites (scope_of place.old) parameter.now.var_type)) (with_local (scope_of place.old) parameter.now.name parameter.now.var_type) (scope_of place.new) found) }
{
    if let Some(finding) = variable_type_finding(place, parameter.var_type) {
        return Ok(Some(finding));
    }
    place.declare(parameter.name.bytes(), parameter.var_type)?;
    Ok(None)
}

/// Walks along parameters, up to a broken rule; each is visible behind it.
fn in_parameters<'a>(
    place: &mut Place<'a>,
    parameters: &'a [Parameter],
) -> Result<Option<Finding<'a>>, AllocError>
    ensures { IfOk result (λ found. Walks (spec.in_parameters parameters.now (scope_of place.old)) (with_parameters (scope_of place.old) parameters.now) (scope_of place.new) found) }
{
    for parameter in parameters {
        if let Some(finding) = in_parameter(place, parameter)? {
            return Ok(Some(finding));
        }
    }
    Ok(None)
}

/// Judges the type of an answer, where there is one.
fn in_answer<'a>(place: &Place<'a>, answer: Option<VarType>) -> Option<Finding<'a>>
    ensures { Walks (fault_of constructs (sites.answer_sites (scope_of place.now) answer)) (scope_of place.now) (scope_of place.now) result }
{
    match answer {
        None => None,
        Some(t) => variable_type_finding(place, t),
    }
}

/// Walks along the type of a function's answer and its body.
fn in_body<'a>(
    place: &mut Place<'a>,
    function: &'a FunctionItem,
) -> Result<Option<Finding<'a>>, AllocError>
    ensures { IfOk result (λ found. Walks (spec.in_body (function_of function.now) (scope_of place.old)) (past (locals_in_block (function_of function.now).body) (scope_of place.old)) (scope_of place.new) found) }
{
    if let Some(finding) = in_answer(place, function.answer) {
        return Ok(Some(finding));
    }
    in_block(place, &function.body)
}

/// Walks along a function: its parameters, the type of its answer, and its body.
fn in_function<'a>(
    place: &mut Place<'a>,
    function: &'a FunctionItem,
) -> Result<Option<Finding<'a>>, AllocError>
    ensures { IfOk result (λ found. Walks (spec.in_function (function_of function.now) (scope_of place.old)) (past (locals_in_block (function_of function.now).body) (with_parameters (scope_of place.old) function.now.parameters.items)) (scope_of place.new) found) }
{
    if let Some(finding) = in_parameters(place, function.parameters.as_slice())? {
        return Ok(Some(finding));
    }
    in_body(place, function)
}

/// Judges a static sensitivity.
fn in_sensitive<'a>(place: &Place<'a>, events: &'a [Event]) -> Option<Finding<'a>>
    ensures { Walks (fault_of constructs (sites.events_sites (scope_of place.now) true (events_of events.now))) (scope_of place.now) (scope_of place.now) result }
{
    events_finding(place, true, events)
}

/// Walks along a process: its static sensitivity and its body.
fn in_process<'a>(
    place: &mut Place<'a>,
    process: &'a ProcessItem,
) -> Result<Option<Finding<'a>>, AllocError>
    ensures { IfOk result (λ found. Walks (spec.in_process (process_of process.now) (scope_of place.old)) (past (locals_in_block (process_of process.now).body) (scope_of place.old)) (scope_of place.new) found) }
{
    if let Some(finding) = in_sensitive(place, process.sensitive.as_slice()) {
        return Ok(Some(finding));
    }
    in_block(place, &process.body)
}

/// The first broken rule in a function.
fn function_finding<'a>(
    place: Place<'a>,
    line: u32,
    function: &'a FunctionItem,
) -> Result<Option<Finding<'a>>, AllocError>
    ensures { IfOk result (λ found. faults_of found ≡ spec.item_fault (scope_of place.entry) (tree.function line (function_of function.now))) }
{
    let _line = line;
    let mut place = place;
    place.answer = function.answer;
    in_function(&mut place, function)
}

/// The first broken rule in a process.
fn process_finding<'a>(
    place: Place<'a>,
    line: u32,
    process: &'a ProcessItem,
) -> Result<Option<Finding<'a>>, AllocError>
    ensures { IfOk result (λ found. faults_of found ≡ spec.item_fault (scope_of place.entry) (tree.process line (process_of process.now))) }
{
    let _line = line;
    let mut place = place;
    in_process(&mut place, process)
}

/// The first broken rule at an item that holds no statements, and in its parts.
#[tactic(auto, using(crate::proofs::ItemLemmas::bare_items))]
fn plain_finding<'a>(place: &Place<'a>, item: &'a Item) -> Option<Finding<'a>>
    ensures { spec.is_plain (item_of item.now) ≡ true → faults_of result ≡ spec.item_fault (scope_of place.now) (item_of item.now) }
{
    match item {
        Item::Signal(line, signal) => signal_finding(place, *line, signal),
        Item::Clock(line, clock) => clock_finding(place, *line, clock),
        Item::Fifo(line, t, name, size) => fifo_finding(place, *line, *t, name, *size),
        Item::Semaphore(line, name, constant) => semaphore_finding(place, *line, name, *constant),
        Item::Variable(line, t, name, constant) => {
            variable_finding(place, *line, *t, name, *constant)
        }
        Item::Port(line, interface, name, size) => {
            port_finding(place, *line, *interface, name, *size)
        }
        Item::Export(_, interface, _) => interface_finding(place, *interface),
        Item::Initiator(line, name, role) => initiator_finding(place, *line, name, role),
        Item::Target(line, name, role) => target_finding(place, *line, name, role),
        Item::Instance(line, kind, name) => instance_finding(place, *line, kind, name),
        Item::Bind(line, left, right) => binding_finding(place, *line, left, right),
        Item::Resolved(_, _)
        | Item::Plain(_, _, _)
        | Item::Memory(_, _, _)
        | Item::Function(_, _)
        | Item::Process(_, _) => None,
    }
}

/// The first broken rule at an item and in its parts.
pub fn item_finding<'a>(place: Place<'a>, item: &'a Item) -> Result<Option<Finding<'a>>, AllocError>
    ensures { IfOk result (λ found. faults_of found ≡ spec.item_fault (scope_of place.entry) (item_of item.now)) }
{
    match item {
        Item::Function(line, function) => function_finding(place, *line, function),
        Item::Process(line, process) => process_finding(place, *line, process),
        _ => Ok(plain_finding(&place, item)),
    }
}
