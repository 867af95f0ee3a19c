//! The functions that bodies begin: those that they call or spawn.
ghost use Rattle.std.specs.Prelude.{◌≡◌, ◌++◌, map, option_map, option_to_list, filter_map, OnOk, IfOk};
ghost use Rattle.std.specs.Option.{option_or};
ghost use Rattle.model_tree.specs.Views.{statement_of};
ghost use Rattle.flat_design.specs.declared.code.BodyKind.TheVariants as body_kind;
ghost use Rattle.check_expressions.specs.ModelRules.Names as named;
ghost use Rattle.check_expressions.specs.ModelRules.Reach as reach;
ghost use Rattle.check_reach.specs.Flat as spec;
ghost use Rattle.check_reach.specs.Flat.{placed_of, placed_list, seen_list};

use super::bodies::FlatBody;
use super::placed::PlacedStatement;
use flat_design::BodyKind;
use model_tree::{Action, Operation, Statement};
use std::alloc::{AllocError, Global};

/// Where functions are begun.
#[derive(Clone, Copy)]
pub enum Begin {
    /// Called by methods, or spawned as methods.
    Methods,
    /// Called by threads, or spawned as threads.
    Threads,
    /// Called in unwind blocks.
    Unwinding,
}

pub(crate) fn is_function(kind: BodyKind) -> bool
    ensures { result ≡ reach.is_of_kind body_kind.Function kind }
{
    matches!(kind, BodyKind::Function)
}

pub(crate) fn is_thread(kind: BodyKind) -> bool
    ensures { result ≡ reach.is_of_kind body_kind.Thread kind }
{
    matches!(kind, BodyKind::Thread)
}

pub(crate) fn is_method(kind: BodyKind) -> bool
    ensures { result ≡ reach.is_of_kind body_kind.Method kind }
{
    matches!(kind, BodyKind::Method)
}

/// Puts a name behind others, where there is one.
pub(crate) fn add_name<'a>(
    name: Option<&'a [u8]>,
    names: &mut Vec<&'a [u8]>,
) -> Result<(), AllocError>
    ensures { OnOk result (map (λ n. n.now) names.new.items ≡ map (λ n. n.now) names.old.items ++ option_to_list (option_map (λ n. n.now) name.entry)) }
{
    match name {
        None => Ok(()),
        Some(name) => {
            names.push(name)?;
            Ok(())
        }
    }
}

/// The name, if this is so.
pub(crate) fn name_if(is_so: bool, name: &[u8]) -> Option<&[u8]>
    ensures { option_map (λ n. n.now) result ≡ named.name_if is_so name.now }
{
    if is_so { Some(name) } else { None }
}

/// The name that a statement calls.
pub(crate) fn called(statement: &Statement) -> Option<&[u8]>
    ensures { option_map (λ name. name.now) result ≡ spec.called (statement_of statement.now) }
{
    match statement {
        Statement::Operate(_, _, _, Operation::Call(name, _)) => Some(name.bytes()),
        Statement::Operate(_, _, _, _)
        | Statement::Var(_, _, _, _)
        | Statement::Assign(_, _, _)
        | Statement::Act(_, _)
        | Statement::If(_, _, _, _)
        | Statement::While(_, _, _)
        | Statement::Guard(_, _, _)
        | Statement::Try(_, _, _) => None,
    }
}

/// The name that a statement spawns, as a method or as a thread.
fn spawned(method: bool, statement: &Statement) -> Option<&[u8]>
    ensures { option_map (λ name. name.now) result ≡ spec.spawned method (statement_of statement.now) }
{
    match statement {
        Statement::Act(_, Action::Spawn(spawn)) => {
            if spawn.method == method {
                Some(spawn.function.bytes())
            } else {
                None
            }
        }
        _ => None,
    }
}

/// The name that a statement calls or spawns, calls only where they count.
fn called_or_spawned(counts: bool, method: bool, statement: &Statement) -> Option<&[u8]>
    ensures { option_map (λ name. name.now) result ≡ option_or (spec.only_if counts (spec.called (statement_of statement.now))) (spec.spawned method (statement_of statement.now)) }
{
    if counts {
        if let Some(name) = called(statement) {
            return Some(name);
        }
    }
    spawned(method, statement)
}

/// The name that a statement of a body of this kind begins.
fn picked<'a>(begin: Begin, kind: BodyKind, placed: PlacedStatement<'a>) -> Option<&'a [u8]>
    ensures { option_map (λ name. name.now) result ≡ spec.picked begin kind (placed_of placed.entry) }
{
    match begin {
        Begin::Methods => called_or_spawned(is_method(kind), true, placed.statement),
        Begin::Threads => called_or_spawned(is_thread(kind), false, placed.statement),
        Begin::Unwinding => {
            if placed.unwinding {
                called(placed.statement)
            } else {
                None
            }
        }
    }
}

/// Puts the names that a body begins behind others.
fn add_picked<'a>(
    begin: Begin,
    kind: BodyKind,
    statements: &[PlacedStatement<'a>],
    names: &mut Vec<&'a [u8]>,
) -> Result<(), AllocError>
    ensures { OnOk result (map (λ n. n.now) names.new.items ≡ map (λ n. n.now) names.old.items ++ filter_map (spec.picked begin kind) (placed_list statements.now)) }
{
    for placed in statements {
        add_name(picked(begin, kind, *placed), names)?;
    }
    Ok(())
}

/// The names that bodies begin.
pub(crate) fn begun<'a>(
    alloc: Global,
    begin: Begin,
    bodies: &[FlatBody<'a>],
) -> Result<Vec<&'a [u8]>, AllocError>
    ensures { IfOk result (λ names. map (λ n. n.now) names.items ≡ spec.begun begin (seen_list bodies.now)) }
{
    let mut names = Vec::new(alloc);
    for body in bodies {
        add_picked(begin, body.kind, body.statements.as_slice(), &mut names)?;
    }
    Ok(names)
}
