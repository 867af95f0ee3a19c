ghost use Rattle.std.specs.Prelude.{◌≡◌, ◌+◌, ◌++◌, ◌∷◌, [], Some, IfOk, OnOk, length, slice_get};
ghost use Rattle.flat_design.specs.Code.{statement_at, statement_of};
ghost use Rattle.code_blocks.specs.Laid.{FromNowOn, Grows, InnerBelow, IsNested, IsNext};

use code_deeds::logic_values_api::Items;
use flat_design::{BlockId, Statement, StmtId};
use std::alloc::AllocError;

/// The blocks and statements that were laid out so far.
#[derive(Drop)]
pub struct Laid {
    /// The blocks, by their numbers: the numbers of their statements.
    pub blocks: Items<Items<StmtId>>,
    /// The statements, by their numbers.
    pub statements: Items<Statement>,
}

/// Adds a statement behind those that were laid out, and tells its number.
fn push_statement(laid: &mut Laid, statement: Statement) -> Result<StmtId, AllocError>
    requires nested { IsNested laid.old }
    ensures grows { OnOk result (Grows laid.old laid.new) }
    ensures nested { OnOk result (IsNested laid.new) }
    ensures blocks { OnOk result (laid.new.blocks ≡ laid.old.blocks) }
    ensures at { IfOk result (λ i. FromNowOn laid.new (λ a. statement_at a i ≡ Some (statement_of statement))) }
{
    let Ok(number) = StmtId::try_from(laid.statements.as_slice().len()) else {
        return Err(AllocError);
    };
    laid.statements.push(statement)?;
    Ok(number)
}

/// Adds a statement, whose inner blocks were laid out, behind the statements that were laid out, and its number behind
/// those of a block. More statements than 32 bits can count are answered as out of memory.
pub fn add(
    laid: &mut Laid,
    ids: &mut Items<StmtId>,
    statement: Statement,
) -> Result<StmtId, AllocError>
    requires inner { InnerBelow (length laid.old.blocks) (statement_of statement) }
    requires nested { IsNested laid.old }
    requires next { IsNext laid.old ids.old }
    ensures grows { OnOk result (Grows laid.old laid.new) }
    ensures nested { OnOk result (IsNested laid.new) }
    ensures next { OnOk result (IsNext laid.new ids.new) }
    ensures blocks { OnOk result (laid.new.blocks ≡ laid.old.blocks) }
    ensures at { IfOk result (λ i. FromNowOn laid.new (λ a. statement_at a i ≡ Some (statement_of statement))) }
    ensures numbers { IfOk result (λ i. ids.new ≡ ids.old ++ i ∷ []) }
{
    let number = push_statement(laid, statement)?;
    ids.push(number)?;
    Ok(number)
}

/// Adds a block, whose statements were laid out, behind the blocks that were laid out, and tells its number. More blocks
/// than 32 bits can count are answered as out of memory.
pub fn push_block(laid: &mut Laid, ids: Items<StmtId>) -> Result<BlockId, AllocError>
    requires nested { IsNested laid.old }
    requires next { IsNext laid.old ids }
    ensures grows { OnOk result (Grows laid.old laid.new) }
    ensures nested { OnOk result (IsNested laid.new) }
    ensures last { IfOk result (λ b. (b ≡ length laid.old.blocks) × (length laid.new.blocks ≡ b + 1)) }
    ensures at { IfOk result (λ b. FromNowOn laid.new (λ a. slice_get a.blocks b ≡ Some ids)) }
{
    let Ok(number) = BlockId::try_from(laid.blocks.as_slice().len()) else {
        return Err(AllocError);
    };
    laid.blocks.push(ids)?;
    Ok(number)
}
