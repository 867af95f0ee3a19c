//! How many events a statement can wait for, and which numbers a table has for its inner blocks.
ghost use Rattle.std.specs.Prelude.{◌≡◌, max};
ghost use Rattle.std.specs.List.{fold};
ghost use Rattle.model_rules.specs.FlatDesign.Code.{await_term, statement_of};
ghost use Rattle.model_rules.specs.FlatDesign.Reach.{inner_blocks};
ghost use Rattle.model_rules.specs.FlatDesign.Sound as sound;
ghost use Rattle.model_rules.specs.FlatDesign.declared.code.Handler.{Handler as Kept};
ghost use Rattle.code_rules.specs.Tables as spec;

use model_rules::flat_design_api::{Await, BlockId, Handler, Statement};

/// The events of a wait.
fn events_of_await(wait: &Await) -> usize
    ensures { result ≡ sound.events_of_await (await_term wait.now) }
{
    match wait {
        Await::Static => 0,
        Await::Delta => 0,
        Await::For(_) => 0,
        Await::Any(events, _) => events.len(),
        Await::All(events, _) => events.len(),
    }
}

/// The events that a statement can wait for.
fn events_of(statement: &Statement) -> usize
    ensures { result ≡ sound.events_of (statement_of statement.now) }
{
    match statement {
        Statement::Read(_, _) => 1,
        Statement::Write(_, _, _) => 1,
        Statement::Wait(wait) => events_of_await(wait),
        Statement::NextTrigger(wait) => events_of_await(wait),
        Statement::Lock(_) => 1,
        Statement::SemWait(_) => 1,
        _ => 0,
    }
}

/// What a table has for a block; 0 past its end.
pub(crate) fn in_block(table: &[usize], block: BlockId) -> usize
    ensures { result ≡ spec.in_block table.now block }
{
    match table.get(block as usize) {
        Some(most) => *most,
        None => 0,
    }
}

/// The greatest that a table has for the blocks of handlers, and this number.
fn in_handlers(table: &[usize], first: usize, handlers: &[Handler]) -> usize
    ensures { result ≡ spec.greatest_in (λ (h : Kept). spec.in_block table.now h.block) first handlers.now }
{
    let mut most = first;
    for handler in handlers {
        most = most.max(in_block(table, handler.block));
    }
    most
}

/// The greatest number of events in a statement, its inner blocks included, by a table that has these.
pub(crate) fn in_statement(table: &[usize], statement: &Statement) -> usize
    ensures { result ≡ spec.in_statement table.now (statement_of statement.now) }
{
    in_inner_blocks(table, events_of(statement), statement)
}

/// The greatest that a table has for the inner blocks of a statement, and this number.
fn in_inner_blocks(table: &[usize], first: usize, statement: &Statement) -> usize
    ensures { result ≡ spec.in_blocks table.now first (inner_blocks (statement_of statement.now)) }
{
    match statement {
        Statement::If(_, block, other) => match other {
            Some(other) => first
                .max(in_block(table, *block))
                .max(in_block(table, *other)),
            None => first.max(in_block(table, *block)),
        },
        Statement::While(_, block) => first.max(in_block(table, *block)),
        Statement::Guard(block, unwind) => first
            .max(in_block(table, *block))
            .max(in_block(table, *unwind)),
        Statement::Try(block, handlers) => {
            let most = first.max(in_block(table, *block));
            in_handlers(table, most, handlers.as_slice())
        }
        _ => first,
    }
}
