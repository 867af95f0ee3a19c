//! What is used in each block of the code, and where each block leads.
ghost use Rattle.std.specs.Prelude.{◌≡◌, ◌∷◌, [], ◌++◌, OnOk, IfOk, map};
ghost use Rattle.std.specs.List.{flat_map};
ghost use Rattle.flat_design.specs.Code.{arena_of, body_at, statement_of};
ghost use Rattle.flat_design.specs.Reach.{inner_blocks, listed};
ghost use Rattle.flat_design.specs.declared.code.Handler.{Handler as Kept};
ghost use Rattle.order_free.specs.Blocks as spec;

use super::statements::add_statement;
use crate::Deed;
use flat_design::logic_values_api::Items;
use flat_design::{BlockId, Code, CodeId, Handler, Statement, StmtId};
use std::alloc::{AllocError, Global};

/// A block of the code: what its statements use by names, and the blocks to which it leads.
#[derive(Drop)]
pub struct BlockPart {
    /// What its statements use, without the blocks inside them.
    pub deeds: Items<Deed>,
    /// The blocks of its statements, and those of the bodies that they call.
    pub targets: Items<BlockId>,
}

/// Puts one more behind the others.
fn add(block: BlockId, targets: &mut Vec<BlockId>) -> Result<(), AllocError>
    ensures { OnOk result (targets.new.items ≡ targets.old.items ++ block ∷ []) }
{
    targets.push(block)?;
    Ok(())
}

fn add_written(block: Option<BlockId>, targets: &mut Vec<BlockId>) -> Result<(), AllocError>
    ensures { OnOk result (targets.new.items ≡ targets.old.items ++ listed block) }
{
    match block {
        None => Ok(()),
        Some(block) => add(block, targets),
    }
}

fn add_handlers(handlers: &[Handler], targets: &mut Vec<BlockId>) -> Result<(), AllocError>
    ensures { OnOk result (targets.new.items ≡ targets.old.items ++ map (λ (h : Kept). h.block) handlers.now) }
{
    for handler in handlers {
        targets.push(handler.block)?;
    }
    Ok(())
}

/// Puts the block of a body behind the others, where there is this body.
fn add_body(code: &Code, body: CodeId, targets: &mut Vec<BlockId>) -> Result<(), AllocError>
    ensures { OnOk result (targets.new.items ≡ targets.old.items ++ spec.block_of (body_at (arena_of code.now) body)) }
{
    match code.bodies.as_slice().get(body as usize) {
        None => Ok(()),
        Some(body) => add(body.block, targets),
    }
}

/// Puts the blocks to which a statement leads behind the others.
fn add_targets(
    code: &Code,
    statement: &Statement,
    targets: &mut Vec<BlockId>,
) -> Result<(), AllocError>
    ensures { OnOk result (targets.new.items ≡ targets.old.items ++ spec.targets_of (arena_of code.now) (statement_of statement.now)) }
{
    match statement {
        Statement::Call(_, body, _) => add_body(code, *body, targets),
        Statement::If(_, block, other) => {
            add(*block, targets)?;
            add_written(*other, targets)
        }
        Statement::While(_, block) => add(*block, targets),
        Statement::Guard(block, unwind) => {
            add(*block, targets)?;
            add(*unwind, targets)
        }
        Statement::Try(block, handlers) => {
            add(*block, targets)?;
            add_handlers(handlers.as_slice(), targets)
        }
        _ => Ok(()),
    }
}

/// What the statement of this number uses, where there is one.
fn add_deeds_at(code: &Code, n: StmtId, deeds: &mut Vec<Deed>) -> Result<(), AllocError>
    ensures { OnOk result (deeds.new.items ≡ deeds.old.items ++ spec.deeds_at (arena_of code.now) n) }
{
    match code.statements.as_slice().get(n as usize) {
        None => Ok(()),
        Some(statement) => add_statement(statement, deeds),
    }
}

/// The blocks to which the statement of this number leads, where there is one.
fn add_targets_at(code: &Code, n: StmtId, targets: &mut Vec<BlockId>) -> Result<(), AllocError>
    ensures { OnOk result (targets.new.items ≡ targets.old.items ++ spec.targets_at (arena_of code.now) n) }
{
    match code.statements.as_slice().get(n as usize) {
        None => Ok(()),
        Some(statement) => add_targets(code, statement, targets),
    }
}

fn deeds_in(alloc: Global, code: &Code, block: &[StmtId]) -> Result<Vec<Deed>, AllocError>
    ensures { IfOk result (λ deeds. deeds.items ≡ flat_map (spec.deeds_at (arena_of code.now)) block.now) }
{
    let mut deeds = Vec::new(alloc);
    for n in block {
        add_deeds_at(code, *n, &mut deeds)?;
    }
    Ok(deeds)
}

fn targets_in(alloc: Global, code: &Code, block: &[StmtId]) -> Result<Vec<BlockId>, AllocError>
    ensures { IfOk result (λ targets. targets.items ≡ flat_map (spec.targets_at (arena_of code.now)) block.now) }
{
    let mut targets = Vec::new(alloc);
    for n in block {
        add_targets_at(code, *n, &mut targets)?;
    }
    Ok(targets)
}

/// A block of these statements.
fn block_part(alloc: Global, code: &Code, block: &[StmtId]) -> Result<BlockPart, AllocError>
    ensures { IfOk result (spec.IsPartOf (arena_of code.now) block.now) }
{
    let deeds = deeds_in(alloc, code, block)?;
    let targets = targets_in(alloc, code, block)?;
    Ok(BlockPart {
        deeds: Items::from_vec(deeds),
        targets: Items::from_vec(targets),
    })
}

/// The blocks of the code, by their numbers. Each statement is looked at twice.
pub fn block_parts(alloc: Global, code: &Code) -> Result<Vec<BlockPart>, AllocError>
    ensures { IfOk result (λ parts. spec.ArePartsOf (arena_of code.now) parts.items) }
{
    let mut parts = Vec::new(alloc);
    for block in code.blocks.as_slice() {
        parts.push(block_part(alloc, code, block.as_slice())?)?;
    }
    Ok(parts)
}
