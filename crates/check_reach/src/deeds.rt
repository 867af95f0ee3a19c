//! Statements that block by themselves, and the functions that have one.
ghost use Rattle.std.specs.Prelude.{◌≡◌, map, IfOk};
ghost use Rattle.std.specs.List.{list_any};
ghost use Rattle.model_tree.specs.Views.{action_of, operation_of, statement_of};
ghost use Rattle.check_expressions.specs.ModelRules.Reach as reach;
ghost use Rattle.check_expressions.specs.CheckNames.ModuleNames.{items_of};
ghost use Rattle.check_reach.specs.Flat as spec;
ghost use Rattle.check_reach.specs.Flat.{placed_list, seen, seen_list};

use super::begun::{add_name, is_function, name_if};
use super::bodies::FlatBody;
use super::placed::PlacedStatement;
use check_expressions::check_names_api::ModuleNames;
use check_expressions::model_rules_api::Meaning;
use model_tree::{Action, Operation, Statement};
use std::alloc::{AllocError, Global};

/// Whether a write to what this is may block: a fifo or a port of one.
fn is_fifo(meaning: Option<Meaning>) -> bool
    ensures { result ≡ reach.is_fifo meaning }
{
    matches!(meaning, Some(Meaning::Fifo(_) | Meaning::FifoOut(_, _)))
}

fn operation_blocks(operation: &Operation) -> bool
    ensures { result ≡ reach.operation_blocks (operation_of operation.now) }
{
    matches!(operation, Operation::Read(_))
}

fn action_blocks(names: &ModuleNames<'_>, action: &Action) -> bool
    ensures { result ≡ reach.action_blocks (items_of names.now) (action_of action.now) }
{
    match action {
        Action::Write(channel, _) => is_fifo(names.meaning(channel.name.bytes())),
        Action::Wait(_)
        | Action::Lock(_)
        | Action::SemWait(_)
        | Action::BTransport(_, _, _)
        | Action::QkSync(_) => true,
        _ => false,
    }
}

/// Whether a statement blocks by itself.
pub(crate) fn blocks_itself(names: &ModuleNames<'_>, statement: &Statement) -> bool
    ensures { result ≡ reach.blocks_itself (items_of names.now) (statement_of statement.now) }
{
    match statement {
        Statement::Operate(_, _, _, operation) => operation_blocks(operation),
        Statement::Act(_, action) => action_blocks(names, action),
        Statement::Var(_, _, _, _)
        | Statement::Assign(_, _, _)
        | Statement::If(_, _, _, _)
        | Statement::While(_, _, _)
        | Statement::Guard(_, _, _)
        | Statement::Try(_, _, _) => false,
    }
}

/// Whether one of these statements blocks by itself.
fn has_blocking(names: &ModuleNames<'_>, statements: &[PlacedStatement<'_>]) -> bool
    ensures { result ≡ list_any (λ x. reach.blocks_itself (items_of names.now) x.0) (placed_list statements.now) }
{
    for placed in statements {
        if blocks_itself(names, placed.statement) {
            return true;
        }
    }
    false
}

/// Whether a body is a function with a statement that blocks by itself.
fn is_blocking_body(names: &ModuleNames<'_>, body: &FlatBody<'_>) -> bool
    ensures { result ≡ spec.is_blocking_body (items_of names.now) (seen body.now) }
{
    is_function(body.kind) && has_blocking(names, body.statements.as_slice())
}

/// The functions that have a statement which blocks by itself.
pub(crate) fn blocking_bodies<'a>(
    alloc: Global,
    names: &ModuleNames<'_>,
    bodies: &[FlatBody<'a>],
) -> Result<Vec<&'a [u8]>, AllocError>
    ensures { IfOk result (λ found. map (λ n. n.now) found.items ≡ spec.blocking_bodies (items_of names.now) (seen_list bodies.now)) }
{
    let mut found = Vec::new(alloc);
    for body in bodies {
        add_name(
            name_if(is_blocking_body(names, body), body.name),
            &mut found,
        )?;
    }
    Ok(found)
}
