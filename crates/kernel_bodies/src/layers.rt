use crate::Cursor;
use sim_model::flat_design_api::{BlockId, CodeId, StmtId};
use sim_model::logic_values_api::Value;
use sim_model::{Goal, Via};

/// A call that is open, or the body itself.
#[derive(Drop)]
pub struct Frame {
    /// The number of its code.
    pub body: CodeId,
    /// Its parameters and local variables, numbered together from 0.
    pub locals: Vec<Value>,
    /// The value that it answers, once it is returned.
    pub answer: Option<Value>,
    /// The statement that called it, but for the body itself.
    pub call: Option<StmtId>,
    /// The transport call that it serves.
    pub via: Option<Via>,
}

/// What stands open in a call around what is left of it.
#[derive(Drop)]
pub enum Open {
    /// The rest of a block follows.
    Rest(Cursor),
    /// This statement follows, which is a loop.
    Again(StmtId),
    /// The unwind block of a guard is owed.
    Owed(BlockId),
    /// A guard with its unwind block.
    Guard(BlockId),
    /// A `try`, by its statement.
    Try(StmtId),
    /// An unwind block.
    Run,
    /// An unwinding, which ends in this.
    Goal(Goal),
}

/// A call as it is saved between two steps of its body.
#[derive(Drop)]
pub struct Saved {
    /// The call.
    pub frame: Frame,
    /// Whether it is being unwound.
    pub shell: bool,
    /// What stands open in it, the outermost first. Its cursor is the innermost rest of a block.
    pub blocks: Vec<Open>,
}

/// What comes next in a body.
#[derive(Clone, Copy, Debug, PartialEq, Eq)]
pub enum Next {
    /// A statement.
    Statement(StmtId),
    /// The call that a statement owes to the instance of this serial, and maybe to others then.
    Batch(StmtId, u32),
    /// The end of a call.
    Leave,
    /// The end of the body.
    Done,
    /// The end of an unwinding.
    Goal(Goal),
    /// Nothing: the body was not begun.
    Nothing,
}

/// What a body goes on with once finished parts have fallen away.
#[derive(Clone, Copy)]
pub enum Comes {
    /// Nothing is left.
    Nothing,
    /// The innermost call has nothing left in it.
    Leave,
    /// The body itself has nothing left in it.
    Done,
    /// An unwinding has nothing left in it.
    Goal(Goal),
    /// A statement.
    Statement(StmtId),
    /// A statement, and then the rest of its block.
    InBlock(StmtId, Cursor),
    /// The first statement of an unwind block, and then its rest.
    InUnwind(StmtId, Cursor),
}

/// Where the blocks of a call go on once finished parts have fallen away.
#[derive(Clone, Copy)]
pub struct Stand {
    /// How many blocks stand, the outermost ones.
    pub blocks: usize,
    /// What comes inside them.
    pub comes: Comes,
}

/// Where a body goes on once finished parts have fallen away.
#[derive(Clone, Copy)]
pub struct Landing {
    /// How many calls stand outside the innermost one that stands.
    pub outside: usize,
    /// How many blocks of that one stand, the outermost ones.
    pub blocks: usize,
    /// What comes inside them.
    pub comes: Comes,
}
