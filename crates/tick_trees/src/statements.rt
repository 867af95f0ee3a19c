//! Statements and blocks.
ghost use Rattle.std.specs.Prelude.{◌≡◌};
ghost use Rattle.model_tree.specs.Views.{body_of, statement_of};
ghost use Rattle.tick_trees.specs.Times as times;
ghost use Rattle.tick_trees.specs.Unfit.{first, unfit_in};

use crate::expressions::{in_expression, in_option};
use crate::found::{Unfit, either};
use crate::parts::{in_action, in_operation};
use model_tree::Statement;
use model_tree::sim_time_api::Resolution;

/// The first time of a block that is none of the resolution.
#[cycle(statements)]
pub(crate) fn in_block(body: &Vec<Statement>, r: Resolution) -> Option<Unfit>
    ensures { result ≡ first (unfit_in r) (times.in_block (body_of body.now.items)) }
{
    for statement in body {
        match in_statement(statement, r) {
            None => {}
            Some(unfit) => return Some(unfit),
        }
    }
    None
}

/// The same of a statement.
#[cycle(statements)]
fn in_statement(statement: &Statement, r: Resolution) -> Option<Unfit>
    ensures { result ≡ first (unfit_in r) (times.in_statement (statement_of statement.now)) }
{
    match statement {
        Statement::Var(_, _, _, value) => in_option(value, r),
        Statement::Assign(_, target, value) => {
            either(in_option(&target.index, r), in_expression(value, r))
        }
        Statement::Operate(_, _, _, operation) => in_operation(operation, r),
        Statement::Act(_, action) => in_action(action, r),
        Statement::If(_, condition, body, other) => {
            let found = either(in_expression(condition, r), in_block(body, r));
            match other {
                None => found,
                Some(other) => either(found, in_block(other, r)),
            }
        }
        Statement::While(_, condition, body) => either(
            in_expression(condition, r),
            in_block(body, r),
        ),
        Statement::Guard(_, body, undo) => either(in_block(body, r), in_block(undo, r)),
        Statement::Try(_, body, handlers) => {
            let mut found = in_block(body, r);
            for (_, handler) in handlers {
                found = either(found, in_block(handler, r));
            }
            found
        }
    }
}
