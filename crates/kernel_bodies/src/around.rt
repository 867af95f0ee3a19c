use sim_model::flat_design_api::BlockId;

/// A place in a block of the code: that of the next statement.
#[derive(Clone, Copy)]
pub struct Cursor {
    /// The block.
    pub block: BlockId,
    /// The place of the next statement.
    pub place: usize,
}

/// What a statement puts around its block.
#[derive(Clone, Copy)]
pub enum Around {
    /// Nothing: it is a choice, or has no block.
    Nothing,
    /// The statement itself follows: it is a loop.
    Loop,
    /// A guard with this unwind block.
    Guard(BlockId),
    /// Handlers: it is a `try`.
    Try,
}
