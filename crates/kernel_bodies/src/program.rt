//! The code, with how many layers each block may need.
ghost use Rattle.std.specs.Prelude.{◌≡◌, ◌<◌, ◌≤◌, ◌+◌, ◌*◌, ◌^◌, ℕ, List, [], length, option_map, slice_get, slice_index, unwrap_or, Contains, IfOk, IfSome};
ghost use Rattle.sim_model.specs.FlatDesign.Code as specs_code;
ghost use Rattle.sim_model.specs.FlatDesign.Code.{arena_of, block_at, body_at, statement_of, statement_at};
ghost use Rattle.sim_model.specs.FlatDesign.Reach.{IsIn, inner_blocks};
ghost use Rattle.sim_model.specs.FlatDesign.declared.code.Handler.{Handler};
ghost use Rattle.sim_model.specs.Unwinding.{handler_of};
ghost use Rattle.kernel_bodies.specs.Depths.{EachBelow, EachFits, IsDeep, IsDeepBelow, blocks_of, depth_of, handlers_of};
ghost use Rattle.kernel_bodies.specs.Around.{around_at};

use crate::around::{Around, Cursor};
use crate::statements::{around, depth_at, handlers_in, inner_depth, larger};
use sim_model::flat_design_api::{BlockId, Code, CodeBody, CodeId, NameId, Statement, StmtId};
use std::alloc::{AllocError, Global};

/// The code of a design, with how many layers of a body each block may need. It is made once, so that a step of a body
/// takes no memory, and no time to find out how much room it needs.
#[derive(Drop)]
pub struct Program {
    /// The code.
    pub code: Code,
    /// How many layers each block may need inside it, by its number.
    pub depths: Vec<usize>,
    ghost deep: { IsDeep (arena_of code) depths.items },
    ghost small: { (j : ℕ) → depth_of depths.items j ≤ 2 * j },
}

/// The statements of a block; none of a block that there is not.
#[inline(always)]
fn statements_of(code: &Code, block: BlockId) -> &[StmtId]
    ensures { result.now ≡ block_at (arena_of code.now) block }
{
    match code.blocks.as_slice().get(block as usize) {
        Some(statements) => statements.as_slice(),
        None => &[],
    }
}

/// The layers that the blocks inside these statements may need, and two more.
fn block_depth(code: &Code, statements: &[StmtId], depths: &[usize]) -> usize
    requires small { (j : ℕ) → depth_of depths.now j ≤ 2 * j }
    requires inner { (k : ℕ) → k < length statements.now → EachBelow (length depths.now) (blocks_of (arena_of code.now) (slice_index statements.now k)) }
    ensures deep { (k : ℕ) → k < length statements.now → EachFits depths.now result (blocks_of (arena_of code.now) (slice_index statements.now k)) }
    ensures small { result ≤ 2 * length depths.now }
{
    let mut depth = 0;
    for number in statements {
        depth = larger(depth, statement_depth(code, *number, depths));
    }
    depth
}

/// The same for one statement; 0 for one that there is not.
fn statement_depth(code: &Code, number: StmtId, depths: &[usize]) -> usize
    requires small { (j : ℕ) → depth_of depths.now j ≤ 2 * j }
    requires inner { EachBelow (length depths.now) (blocks_of (arena_of code.now) number) }
    ensures deep { EachFits depths.now result (blocks_of (arena_of code.now) number) }
    ensures small { result ≤ 2 * length depths.now }
{
    match find_statement(code, number) {
        Some(statement) => inner_depth(statement, depths),
        None => 0,
    }
}

/// The statement of this number, if there is one.
#[inline(always)]
fn find_statement(code: &Code, number: StmtId) -> Option<&Statement>
    ensures { option_map (λ s. statement_of s.now) result ≡ statement_at (arena_of code.now) number }
{
    code.statements.as_slice().get(number as usize)
}

/// How many layers each block may need inside it.
fn depths_of(alloc: Global, code: &Code) -> Result<Vec<usize>, AllocError>
    requires { (b s j : ℕ) → Contains (block_at (arena_of code.now) b) s → Contains (blocks_of (arena_of code.now) s) j → j < b }
    ensures deep { IfOk result (λ depths. IsDeep (arena_of code.now) depths.items) }
    ensures small { IfOk result (λ depths. (j : ℕ) → depth_of depths.items j ≤ 2 * j) }
{
    let mut depths = Vec::new(alloc);
    for statements in code.blocks.as_slice() {
        let depth = block_depth(code, statements.as_slice(), depths.as_slice());
        depths.push(depth)?;
    }
    Ok(depths)
}

impl Program {
    /// The program of this code, in which an inner block has a lower number than its outer one.
    pub fn new(alloc: Global, code: Code) -> Result<Program, AllocError>
        requires { (b j : ℕ) (s : specs_code.Statement) → IsIn (arena_of code) b s → Contains (inner_blocks s) j → j < b }
        ensures { IfOk result (λ p. p.code ≡ code) }
    {
        match depths_of(alloc, &code) {
            Ok(depths) => Ok(Program { code, depths }),
            Err(_) => Err(AllocError),
        }
    }

    /// How many layers a block may need inside it.
    pub fn depth(&self, block: BlockId) -> usize
        ensures value { result ≡ depth_of self.now.depths.items block }
        ensures small { result ≤ 2 * block }
    {
        depth_at(self.depths.as_slice(), block)
    }

    /// The statement at a place of a block, if one is there.
    #[inline(always)]
    pub fn statement_at(&self, cursor: Cursor) -> Option<StmtId>
        ensures found { result ≡ slice_get (block_at (arena_of self.now.code) cursor.block) cursor.place }
        ensures small { IfSome result (λ _. cursor.place < 2 ^ 63) }
    {
        statements_of(&self.code, cursor.block)
            .get(cursor.place)
            .copied()
    }

    /// The statement of this number, if there is one.
    pub fn statement(&self, number: StmtId) -> Option<&Statement>
        ensures { option_map (λ s. statement_of s.now) result ≡ statement_at (arena_of self.now.code) number }
    {
        find_statement(&self.code, number)
    }

    /// The body of this number, if there is one.
    #[inline(always)]
    pub fn body(&self, function: CodeId) -> Option<&CodeBody>
        ensures { option_map (λ b. b.now) result ≡ body_at (arena_of self.now.code) function }
    {
        self.code.bodies.as_slice().get(function as usize)
    }

    /// The block of the handler of a `try` for an exception, if it has one. The `try` goes by the number of its statement.
    pub fn handler(&self, number: StmtId, name: NameId) -> Option<BlockId>
        ensures { result ≡ option_map (λ (h : Handler). h.block) (handler_of (handlers_of (arena_of self.now.code) number) name) }
    {
        match self.statement(number) {
            Some(statement) => handlers_in(statement)
                .iter()
                .find(|h| h.exception == name)
                .map(|h| h.block),
            None => None,
        }
    }

    /// What the statement of this number puts around its block; nothing where there is no such statement.
    #[inline(always)]
    pub fn around(&self, number: StmtId) -> Around
        ensures { result ≡ around_at (arena_of self.now.code) number }
    {
        match self.statement(number) {
            Some(statement) => around(statement),
            None => Around::Nothing,
        }
    }
}
