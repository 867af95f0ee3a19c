//! The calls of a module as edges between the numbers of names.
ghost use Rattle.std.specs.Prelude.{◌≡◌, ◌++◌, map, option_map, option_and_then, option_to_list, filter_map, IfOk, OnOk};
ghost use Rattle.check_expressions.specs.CheckNames.ModuleNames.{items_of};
ghost use Rattle.check_reach.specs.Flat.{called, placed_of, placed_list, seen, seen_list};
ghost use Rattle.check_reach.specs.Sets as spec;

use super::begun::{called, is_function};
use super::bodies::FlatBody;
use super::placed::PlacedStatement;
use crate::Edge;
use check_expressions::check_names_api::ModuleNames;
use std::alloc::{AllocError, Global};

/// The number of a function's name.
fn function_number(names: &ModuleNames<'_>, name: &[u8]) -> Option<usize>
    ensures { result ≡ spec.function_number (items_of names.now) name.now }
{
    if names.function(name).is_some() {
        names.place(name)
    } else {
        None
    }
}

/// Puts a number behind others, where there is one.
fn add_number(number: Option<usize>, numbers: &mut Vec<usize>) -> Result<(), AllocError>
    ensures { OnOk result (numbers.new.items ≡ numbers.old.items ++ option_to_list number) }
{
    match number {
        None => Ok(()),
        Some(number) => {
            numbers.push(number)?;
            Ok(())
        }
    }
}

/// The numbers of those of the names that are functions.
pub(crate) fn function_numbers(
    alloc: Global,
    names: &ModuleNames<'_>,
    functions: &[&[u8]],
) -> Result<Vec<usize>, AllocError>
    ensures { IfOk result (λ numbers. numbers.items ≡ spec.function_numbers (items_of names.now) (map (λ n. n.now) functions.now)) }
{
    let mut numbers = Vec::new(alloc);
    for name in functions {
        add_number(function_number(names, name), &mut numbers)?;
    }
    Ok(numbers)
}

/// The numbers of names.
pub(crate) fn numbers_of(
    alloc: Global,
    names: &ModuleNames<'_>,
    named: &[&[u8]],
) -> Result<Vec<usize>, AllocError>
    ensures { IfOk result (λ numbers. numbers.items ≡ spec.numbers_of (items_of names.now) (map (λ n. n.now) named.now)) }
{
    let mut numbers = Vec::new(alloc);
    for name in named {
        add_number(names.place(name), &mut numbers)?;
    }
    Ok(numbers)
}

/// The number of the function that a statement calls.
fn called_number(names: &ModuleNames<'_>, placed: PlacedStatement<'_>) -> Option<usize>
    ensures { result ≡ option_and_then (spec.function_number (items_of names.now)) (called (placed_of placed.entry).0) }
{
    match called(placed.statement) {
        Some(name) => function_number(names, name),
        None => None,
    }
}

/// Puts the edge to a number behind others, where there is one.
fn add_call(source: usize, target: Option<usize>, edges: &mut Vec<Edge>) -> Result<(), AllocError>
    ensures { OnOk result (edges.new.items ≡ edges.old.items ++ option_to_list (option_map (spec.edge source) target)) }
{
    match target {
        None => Ok(()),
        Some(target) => {
            edges.push(Edge { source, target })?;
            Ok(())
        }
    }
}

/// Puts the calls of these statements, which are in the function of this number, behind others.
fn add_calls(
    names: &ModuleNames<'_>,
    source: usize,
    statements: &[PlacedStatement<'_>],
    edges: &mut Vec<Edge>,
) -> Result<(), AllocError>
    ensures { OnOk result (edges.new.items ≡ edges.old.items ++ filter_map (spec.edge_of (items_of names.now) source) (placed_list statements.now)) }
{
    for placed in statements {
        add_call(source, called_number(names, *placed), edges)?;
    }
    Ok(())
}

/// The number of a body that is a function.
fn caller_number(names: &ModuleNames<'_>, body: &FlatBody<'_>) -> Option<usize>
    ensures { result ≡ spec.caller_number (items_of names.now) (seen body.now) }
{
    if is_function(body.kind) {
        names.place(body.name)
    } else {
        None
    }
}

/// Puts the calls in a body, if it is a function, behind others.
fn add_edges(
    names: &ModuleNames<'_>,
    body: &FlatBody<'_>,
    edges: &mut Vec<Edge>,
) -> Result<(), AllocError>
    ensures { OnOk result (edges.new.items ≡ edges.old.items ++ spec.edges_in (items_of names.now) (seen body.now)) }
{
    match caller_number(names, body) {
        Some(source) => add_calls(names, source, body.statements.as_slice(), edges),
        None => Ok(()),
    }
}

/// The calls in functions.
pub(crate) fn edges_of(
    alloc: Global,
    names: &ModuleNames<'_>,
    bodies: &[FlatBody<'_>],
) -> Result<Vec<Edge>, AllocError>
    ensures { IfOk result (λ edges. edges.items ≡ spec.edges_of (items_of names.now) (seen_list bodies.now)) }
{
    let mut edges = Vec::new(alloc);
    for body in bodies {
        add_edges(names, body, &mut edges)?;
    }
    Ok(edges)
}

/// The edges the other way.
pub(crate) fn turned(alloc: Global, edges: &[Edge]) -> Result<Vec<Edge>, AllocError>
    ensures { IfOk result (λ back. back.items ≡ map spec.turned edges.now) }
{
    let mut back = Vec::new(alloc);
    for edge in edges {
        back.push(Edge {
            source: edge.target,
            target: edge.source,
        })?;
    }
    Ok(back)
}
