ghost use Rattle.std.specs.Prelude.{◌≡◌, IfOk};
ghost use Rattle.model_tree.specs.Views.{body_of, statement_of};
ghost use Rattle.check_actions.specs.ModelRules.Scopes.{behind, locals_in_block, past};
ghost use Rattle.check_statements.specs.Behind.{behind_all};
ghost use Rattle.check_statements.specs.Doubled as spec;
ghost use Rattle.check_statements.specs.Doubled.{place_at};
ghost use Rattle.check_statements.specs.Walks.{Walks};

use super::locals::declare;
use check_actions::check_expressions_api::Finding;
use check_actions::check_names_api::{Locals, ModuleNames};
use model_tree::Statement;
use std::alloc::AllocError;

/// Walks along a statement, up to a double name; a local variable is visible behind it.
#[cycle(statements)]
fn in_statement<'t>(
    names: &ModuleNames<'t>,
    locals: &mut Locals<'t>,
    statement: &'t Statement,
) -> Result<Option<Finding<'t>>, AllocError>
    ensures { IfOk result (λ found. Walks (spec.in_statement (statement_of statement.now) (place_at names.now locals.old)) (behind (statement_of statement.now) (place_at names.now locals.old)) (place_at names.now locals.new) found) }
{
    match statement {
        Statement::Var(line, var_type, name, _) => {
            declare(names, locals, *line, name.bytes(), *var_type)
        }
        Statement::Assign(_, _, _) | Statement::Operate(_, _, _, _) | Statement::Act(_, _) => {
            Ok(None)
        }
        Statement::If(_, _, body, other) => {
            if let Some(finding) = in_block(names, locals, body)? {
                return Ok(Some(finding));
            }
            match other {
                None => Ok(None),
                Some(other) => in_block(names, locals, other),
            }
        }
        Statement::While(_, _, body) => in_block(names, locals, body),
        Statement::Guard(_, body, undo) => {
            if let Some(finding) = in_block(names, locals, body)? {
                return Ok(Some(finding));
            }
            in_block(names, locals, undo)
        }
        Statement::Try(_, body, handlers) => {
            if let Some(finding) = in_block(names, locals, body)? {
                return Ok(Some(finding));
            }
            for (_, body) in handlers {
                if let Some(finding) = in_block(names, locals, body)? {
                    return Ok(Some(finding));
                }
            }
            Ok(None)
        }
    }
}

/// Walks along the statements of a block, up to a double name; the block's own local variables stay visible.
#[cycle(statements)]
fn in_statements<'t>(
    names: &ModuleNames<'t>,
    locals: &mut Locals<'t>,
    body: &'t Vec<Statement>,
) -> Result<Option<Finding<'t>>, AllocError>
    ensures { IfOk result (λ found. Walks (spec.in_block (body_of body.now.items) (place_at names.now locals.old)) (behind_all (body_of body.now.items) (place_at names.now locals.old)) (place_at names.now locals.new) found) }
{
    for statement in body {
        if let Some(finding) = in_statement(names, locals, statement)? {
            return Ok(Some(finding));
        }
    }
    Ok(None)
}

/// Walks along a block, up to a double name; behind it its own local variables are visible no more.
#[cycle(statements)]
pub(crate) fn in_block<'t>(
    names: &ModuleNames<'t>,
    locals: &mut Locals<'t>,
    body: &'t Vec<Statement>,
) -> Result<Option<Finding<'t>>, AllocError>
    ensures { IfOk result (λ found. Walks (spec.in_block (body_of body.now.items) (place_at names.now locals.old)) (past (locals_in_block (body_of body.now.items)) (place_at names.now locals.old)) (place_at names.now locals.new) found) }
{
    let mark = locals.mark();
    if let Some(finding) = in_statements(names, locals, body)? {
        return Ok(Some(finding));
    }
    locals.leave(mark);
    Ok(None)
}
