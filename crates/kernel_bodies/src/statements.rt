//! What the statements of the code hold: inner blocks, handlers, and the layer that one puts around its block.
ghost use Rattle.std.specs.Prelude.{◌≡◌, ◌≤◌, ◌<◌, ◌+◌, ◌*◌, ℕ, length, map};
ghost use Rattle.sim_model.specs.FlatDesign.declared.code.Handler.{Handler as Kept};
ghost use Rattle.sim_model.specs.FlatDesign.Code.{statement_of};
ghost use Rattle.sim_model.specs.FlatDesign.Reach.{inner_blocks};
ghost use Rattle.kernel_bodies.specs.Depths.{EachBelow, EachFits, depth_of, handlers_in};
ghost use Rattle.kernel_bodies.specs.Around.{around_of};

use crate::around::Around;
use sim_model::flat_design_api::{BlockId, Handler, Statement};

/// How many layers a block may need inside it; none of a block that is not there.
pub(crate) fn depth_at(depths: &[usize], block: BlockId) -> usize
    ensures { result ≡ depth_of depths.now block }
{
    match depths.get(block as usize) {
        Some(depth) => *depth,
        None => 0,
    }
}

/// The larger of two numbers.
pub(crate) fn larger(a: usize, b: usize) -> usize
    ensures first { a ≤ result }
    ensures second { b ≤ result }
    ensures least { (n : ℕ) → a ≤ n → b ≤ n → result ≤ n }
{
    if a < b { b } else { a }
}

/// The layers that a block may need, and two more.
fn room_of(depths: &[usize], block: BlockId) -> usize
    requires small { (j : ℕ) → depth_of depths.now j ≤ 2 * j }
    requires there { block < length depths.now }
    ensures value { result ≡ depth_of depths.now block + 2 }
    ensures small { result ≤ 2 * length depths.now }
{
    depth_at(depths, block) + 2
}

/// The layers that the blocks of handlers may need, and two more.
fn deepest_handler(handlers: &[Handler], depths: &[usize]) -> usize
    requires small { (j : ℕ) → depth_of depths.now j ≤ 2 * j }
    requires inner { EachBelow (length depths.now) (map (λ (h : Kept). h.block) handlers.now) }
    ensures deep { EachFits depths.now result (map (λ (h : Kept). h.block) handlers.now) }
    ensures small { result ≤ 2 * length depths.now }
{
    let mut deepest = 0;
    for handler in handlers {
        deepest = larger(deepest, room_of(depths, handler.block));
    }
    deepest
}

/// The handlers of a statement: none but of a `try`.
pub(crate) fn handlers_in(statement: &Statement) -> &[Handler]
    ensures { result.now ≡ handlers_in (statement_of statement.now) }
{
    match statement {
        Statement::Try(_, handlers) => handlers.as_slice(),
        _ => &[],
    }
}

/// What a statement puts around its block.
#[inline(always)]
pub(crate) fn around(statement: &Statement) -> Around
    ensures { result ≡ around_of (statement_of statement.now) }
{
    match statement {
        Statement::While(_, _) => Around::Loop,
        Statement::Guard(_, unwind) => Around::Guard(*unwind),
        Statement::Try(_, _) => Around::Try,
        _ => Around::Nothing,
    }
}

/// The layers that the inner blocks of a statement may need, and two more.
pub(crate) fn inner_depth(statement: &Statement, depths: &[usize]) -> usize
    requires small { (j : ℕ) → depth_of depths.now j ≤ 2 * j }
    requires inner { EachBelow (length depths.now) (inner_blocks (statement_of statement.now)) }
    ensures deep { EachFits depths.now result (inner_blocks (statement_of statement.now)) }
    ensures small { result ≤ 2 * length depths.now }
{
    match statement {
        Statement::If(_, block, other) => match other {
            Some(other) => room_of(depths, *block).max(room_of(depths, *other)),
            None => room_of(depths, *block),
        },
        Statement::While(_, block) => room_of(depths, *block),
        Statement::Guard(block, unwind) => room_of(depths, *block).max(room_of(depths, *unwind)),
        Statement::Try(block, handlers) => {
            let inner = room_of(depths, *block);
            larger(inner, deepest_handler(handlers.as_slice(), depths))
        }
        _ => 0,
    }
}
