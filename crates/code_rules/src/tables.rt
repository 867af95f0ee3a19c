//! The greatest number of events in each block, and in all functions.
ghost use Rattle.std.specs.Prelude.{◌≡◌, IfOk};
ghost use Rattle.model_rules.specs.FlatDesign.Code.{arena_of, statement_at};
ghost use Rattle.code_rules.specs.Tables as spec;

use crate::events::{in_block, in_statement};
use model_rules::flat_design_api::{BodyKind, Code, CodeBody, StmtId};
use std::alloc::{AllocError, Global};

/// The greatest number of events in the statement of this number; 0 where there is none.
fn in_number(code: &Code, table: &[usize], number: StmtId) -> usize
    ensures { result ≡ spec.in_found table.now (statement_at (arena_of code.now) number) }
{
    match code.statements.as_slice().get(number as usize) {
        Some(statement) => in_statement(table, statement),
        None => 0,
    }
}

/// The greatest number of events in the statements of these numbers.
fn in_numbers(code: &Code, table: &[usize], numbers: &[StmtId]) -> usize
    ensures { result ≡ spec.in_numbers (arena_of code.now) table.now numbers.now }
{
    let mut most = 0;
    for number in numbers {
        most = most.max(in_number(code, table, *number));
    }
    most
}

/// The greatest number of events in each block, in the order of their numbers.
pub(crate) fn table_of(alloc: Global, code: &Code) -> Result<Vec<usize>, AllocError>
    ensures { IfOk result (λ table. table.items ≡ spec.table_of (arena_of code.now)) }
{
    let mut table = Vec::new(alloc);
    for numbers in code.blocks.as_slice() {
        let most = in_numbers(code, table.as_slice(), numbers.as_slice());
        table.push(most)?;
    }
    Ok(table)
}

/// The greatest number of events in a body, if it is that of a function.
fn in_function(table: &[usize], body: &CodeBody) -> usize
    ensures { result ≡ spec.if_function body.now.kind (spec.in_block table.now body.now.block) }
{
    match body.kind {
        BodyKind::Function => in_block(table, body.block),
        BodyKind::Thread => 0,
        BodyKind::Method => 0,
        BodyKind::Clock => 0,
    }
}

/// The greatest number of events in all functions.
pub(crate) fn in_functions(table: &[usize], bodies: &[CodeBody]) -> usize
    ensures { result ≡ spec.in_functions table.now bodies.now }
{
    let mut most = 0;
    for body in bodies {
        most = most.max(in_function(table, body));
    }
    most
}
