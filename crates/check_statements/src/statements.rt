ghost use Rattle.std.specs.Prelude.{◌≡◌, IfOk, option_map};
ghost use Rattle.model_tree.specs.Tree as tree;
ghost use Rattle.model_tree.specs.Views.{action_of, body_of, expression_of, operation_of, statement_of, target_of};
ghost use Rattle.check_actions.specs.ModelRules.Scopes.{behind, in_unwind, locals_in_block, past, with_local};
ghost use Rattle.check_actions.specs.ModelRules.Passes.{constructs, fault_of};
ghost use Rattle.check_actions.specs.ModelRules.Sites as sites;
ghost use Rattle.check_actions.specs.CheckNames.Places.{scope_of};
ghost use Rattle.check_statements.specs.Behind.{behind_all};
ghost use Rattle.check_statements.specs.Walks.{Walks};
ghost use Rattle.check_statements.specs.Walked as spec;

use super::own::{assign_finding, condition_finding, result_finding, var_finding};
use check_actions::act_finding;
use check_actions::check_expressions_api::Finding;
use check_actions::check_names_api::Place;
use model_tree::{Action, Expression, Name, Operation, Statement, Target, VarType};
use std::alloc::AllocError;

/// Judges a local variable, and declares it.
fn in_var<'a>(
    place: &mut Place<'a>,
    line: u32,
    var_type: VarType,
    name: &'a Name,
    value: &'a Option<Expression>,
) -> Result<Option<Finding<'a>>, AllocError>
    ensures { IfOk result (λ found. Walks (fault_of constructs (sites.statement_sites (tree.var line var_type name.now (option_map expression_of value.now)) (scope_of place.old))) (with_local (scope_of place.old) name.now var_type) (scope_of place.new) found) }
{
    if let Some(finding) = var_finding(place, line, var_type, name, value) {
        return Ok(Some(finding));
    }
    place.declare(name.bytes(), var_type)?;
    Ok(None)
}

/// Judges an assignment.
fn in_assign<'a>(
    place: &Place<'a>,
    line: u32,
    target: &'a Target,
    value: &'a Expression,
) -> Option<Finding<'a>>
    ensures { Walks (fault_of constructs (sites.statement_sites (tree.assign line (target_of target.now) (expression_of value.now)) (scope_of place.now))) (scope_of place.now) (scope_of place.now) result }
{
    assign_finding(place, line, target, value)
}

/// Judges an operation.
fn in_operate<'a>(
    place: &Place<'a>,
    line: u32,
    name: &'a Option<Name>,
    at: u32,
    operation: &'a Operation,
) -> Option<Finding<'a>>
    ensures { Walks (fault_of constructs (sites.statement_sites (tree.operate line name.now at (operation_of operation.now)) (scope_of place.now))) (scope_of place.now) (scope_of place.now) result }
{
    result_finding(place, line, name, at, operation)
}

/// Judges a statement that gives no value.
fn in_act<'a>(place: &Place<'a>, line: u32, action: &'a Action) -> Option<Finding<'a>>
    ensures { Walks (fault_of constructs (sites.statement_sites (tree.act line (action_of action.now)) (scope_of place.now))) (scope_of place.now) (scope_of place.now) result }
{
    act_finding(place, line, action)
}

/// Judges a condition.
fn in_condition<'a>(place: &Place<'a>, line: u32, condition: &'a Expression) -> Option<Finding<'a>>
    ensures { Walks (spec.in_condition (scope_of place.now) line (expression_of condition.now)) (scope_of place.now) (scope_of place.now) result }
{
    condition_finding(place, line, condition)
}

/// Walks along a statement, up to a broken rule; a local variable is visible behind it.
#[cycle(statements)]
fn in_statement<'a>(
    place: &mut Place<'a>,
    statement: &'a Statement,
) -> Result<Option<Finding<'a>>, AllocError>
    ensures { IfOk result (λ found. Walks (spec.in_statement (statement_of statement.now) (scope_of place.old)) (behind (statement_of statement.now) (scope_of place.old)) (scope_of place.new) found) }
{
    match statement {
        Statement::Var(line, var_type, name, value) => {
            in_var(place, *line, *var_type, name, value)
        }
        Statement::Assign(line, target, value) => Ok(in_assign(place, *line, target, value)),
        Statement::Operate(line, name, at, operation) => {
            Ok(in_operate(place, *line, name, *at, operation))
        }
        Statement::Act(line, action) => Ok(in_act(place, *line, action)),
        Statement::If(line, condition, body, other) => {
            if let Some(finding) = in_condition(place, *line, condition) {
                return Ok(Some(finding));
            }
            if let Some(finding) = in_block(place, body)? {
                return Ok(Some(finding));
            }
            match other {
                None => Ok(None),
                Some(other) => in_block(place, other),
            }
        }
        Statement::While(line, condition, body) => {
            if let Some(finding) = in_condition(place, *line, condition) {
                return Ok(Some(finding));
            }
            in_block(place, body)
        }
        Statement::Guard(_, body, undo) => {
            if let Some(finding) = in_block(place, body)? {
                return Ok(Some(finding));
            }
            in_unwind_block(place, undo)
        }
        Statement::Try(_, body, handlers) => {
            if let Some(finding) = in_block(place, body)? {
                return Ok(Some(finding));
            }
            for (_, body) in handlers {
                if let Some(finding) = in_block(place, body)? {
                    return Ok(Some(finding));
                }
            }
            Ok(None)
        }
    }
}

/// Walks along the statements of a block, up to a broken rule; the block's own local variables stay visible.
#[cycle(statements)]
fn in_statements<'a>(
    place: &mut Place<'a>,
    body: &'a Vec<Statement>,
) -> Result<Option<Finding<'a>>, AllocError>
    ensures { IfOk result (λ found. Walks (spec.in_block (body_of body.now.items) (scope_of place.old)) (behind_all (body_of body.now.items) (scope_of place.old)) (scope_of place.new) found) }
{
    for statement in body {
        if let Some(finding) = in_statement(place, statement)? {
            return Ok(Some(finding));
        }
    }
    Ok(None)
}

/// Walks along a block, up to a broken rule; behind it its own local variables are visible no more. A walk that finds a broken
/// rule or no memory is over: what is visible then is not said.
#[cycle(statements)]
pub fn in_block<'a>(
    place: &mut Place<'a>,
    body: &'a Vec<Statement>,
) -> Result<Option<Finding<'a>>, AllocError>
    ensures { IfOk result (λ found. Walks (spec.in_block (body_of body.now.items) (scope_of place.old)) (past (locals_in_block (body_of body.now.items)) (scope_of place.old)) (scope_of place.new) found) }
{
    let mark = place.mark();
    if let Some(finding) = in_statements(place, body)? {
        return Ok(Some(finding));
    }
    place.leave(mark);
    Ok(None)
}

/// Walks along an unwind block, up to a broken rule.
#[cycle(statements)]
fn in_unwind_block<'a>(
    place: &mut Place<'a>,
    body: &'a Vec<Statement>,
) -> Result<Option<Finding<'a>>, AllocError>
    ensures { IfOk result (λ found. Walks (spec.in_block (body_of body.now.items) (in_unwind (scope_of place.old))) (past (locals_in_block (body_of body.now.items)) (scope_of place.old)) (scope_of place.new) found) }
{
    let before = place.unwinding;
    place.unwinding = true;
    if let Some(finding) = in_block(place, body)? {
        return Ok(Some(finding));
    }
    place.unwinding = before;
    Ok(None)
}
