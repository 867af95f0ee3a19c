//! The statements of a block at any depth, one behind another.
ghost use Rattle.std.specs.Prelude.{◌≡◌, ◌++◌, OnOk};
ghost use Rattle.model_tree.specs.Views.{body_of, statement_of};
ghost use Rattle.check_expressions.specs.ModelRules.Reach as reach;
ghost use Rattle.check_reach.specs.Flat.{placed_list};

use model_tree::Statement;
use std::alloc::AllocError;

/// A statement of a body, and whether it stands in an unwind block.
#[derive(Clone, Copy)]
pub struct PlacedStatement<'a> {
    /// The statement.
    pub statement: &'a Statement,
    /// Whether it stands in an unwind block.
    pub unwinding: bool,
}

/// Puts a statement behind others, and then those in it.
#[cycle(statements)]
fn add_statement<'a>(
    statement: &'a Statement,
    unwinding: bool,
    placed: &mut Vec<PlacedStatement<'a>>,
) -> Result<(), AllocError>
    ensures { OnOk result (placed_list placed.new.items ≡ placed_list placed.old.items ++ reach.all_in_statement (statement_of statement.now) unwinding) }
{
    placed.push(PlacedStatement {
        statement,
        unwinding,
    })?;
    match statement {
        Statement::Var(_, _, _, _) => Ok(()),
        Statement::Assign(_, _, _) => Ok(()),
        Statement::Operate(_, _, _, _) => Ok(()),
        Statement::Act(_, _) => Ok(()),
        Statement::If(_, _, body, other) => {
            add_block(body, unwinding, placed)?;
            match other {
                None => Ok(()),
                Some(other) => add_block(other, unwinding, placed),
            }
        }
        Statement::While(_, _, body) => add_block(body, unwinding, placed),
        Statement::Guard(_, guarded, undo) => {
            add_block(guarded, unwinding, placed)?;
            add_block(undo, true, placed)
        }
        Statement::Try(_, body, handlers) => {
            add_block(body, unwinding, placed)?;
            for (_, body) in handlers {
                add_block(body, unwinding, placed)?;
            }
            Ok(())
        }
    }
}

/// Puts the statements of a block behind others, each before those in it.
#[cycle(statements)]
pub(crate) fn add_block<'a>(
    body: &'a Vec<Statement>,
    unwinding: bool,
    placed: &mut Vec<PlacedStatement<'a>>,
) -> Result<(), AllocError>
    ensures { OnOk result (placed_list placed.new.items ≡ placed_list placed.old.items ++ reach.all_in_block (body_of body.now.items) unwinding) }
{
    for statement in body {
        add_statement(statement, unwinding, placed)?;
    }
    Ok(())
}
