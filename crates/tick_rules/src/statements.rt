//! Statements and blocks.
ghost use Rattle.std.specs.Prelude.{◌≡◌};
ghost use Rattle.tick_trees.specs.Retimed as retimed;
ghost use Rattle.tick_trees.specs.Ticks.{ticks_span};
ghost use Rattle.model_tree.specs.Views.{body_of, statement_of};

use crate::actions::retime_action;
use crate::expressions::{retime, retime_option};
use crate::parts::{retime_operation, retime_target};
use model_tree::Statement;
use model_tree::sim_time_api::Resolution;

/// Writes the times of a block as numbers of resolutions.
#[cycle(statements)]
pub fn retime_block(body: &mut Vec<Statement>, r: Resolution)
    ensures { body_of body.new.items ≡ retimed.block (ticks_span r) (body_of body.old.items) }
{
    for i in 0..body.len() {
        retime_statement(&mut body[i], r);
    }
}

/// The same of a statement.
#[cycle(statements)]
fn retime_statement(statement: &mut Statement, r: Resolution)
    ensures { statement_of statement.new ≡ retimed.statement (ticks_span r) (statement_of statement.old) }
{
    match statement {
        Statement::Var(_, _, _, value) => retime_option(value, r),
        Statement::Assign(_, target, value) => {
            retime_target(target, r);
            retime(value, r);
        }
        Statement::Operate(_, _, _, operation) => retime_operation(operation, r),
        Statement::Act(_, action) => retime_action(action, r),
        Statement::If(_, condition, body, other) => {
            retime(condition, r);
            retime_block(body, r);
            match other {
                None => {}
                Some(other) => retime_block(other, r),
            }
        }
        Statement::While(_, condition, body) => {
            retime(condition, r);
            retime_block(body, r);
        }
        Statement::Guard(_, body, undo) => {
            retime_block(body, r);
            retime_block(undo, r);
        }
        Statement::Try(_, body, handlers) => {
            retime_block(body, r);
            for i in 0..handlers.len() {
                retime_block(&mut handlers[i].1, r);
            }
        }
    }
}
