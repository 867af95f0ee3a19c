//! What an unwinding makes of open blocks and of frames.
ghost use Rattle.std.specs.Prelude.{◌≡◌, ℕ, ◌+◌, ◌<◌, ◌≤◌, ◌++◌, ◌∷◌, [], List, length, take, drop, vec_len, vec_capacity, true, false, Some, None, slice_get, ◌^◌, IfSome};
ghost use Rattle.sim_model.specs.FlatDesign.Code.{Arena, arena_of};
ghost use Rattle.sim_model.specs.Residual as residual;
ghost use Rattle.sim_model.specs.Residual.{Residual};
ghost use Rattle.sim_model.specs.Unwinding as unwinding;
ghost use Rattle.sim_model.specs.Unwinding.{handles, unw};
ghost use Rattle.kernel_bodies.specs.Depths.{handlers_of};
ghost use Rattle.kernel_bodies.specs.Layers.{inside};
ghost use Rattle.kernel_bodies.specs.Room.{FitsIn, SameCall};
ghost use Rattle.kernel_bodies.specs.Sought.{is_handling, has_handler, unwinds};
ghost use Rattle.kernel_bodies.specs.Unwound.{unwound, unwound_all, handler_in, left_at, left_all, AreUnwound, IsUnwound};

use crate::layers::{Open, Saved};
use crate::sought::last_try;
use crate::{Cursor, Program};
use sim_model::flat_design_api::{BlockId, NameId, StmtId};
use sim_model::{Goal, Via};

/// What is left of a block in an unwinding: a guard owes its unwind block, and what is not yet carried out is let go.
fn unwound(block: &Open) -> Option<Open>
    ensures { result ≡ unwound block.now }
{
    match block {
        Open::Rest(_) => None,
        Open::Again(_) => None,
        Open::Owed(unwind) => Some(Open::Owed(*unwind)),
        Open::Guard(unwind) => Some(Open::Owed(*unwind)),
        Open::Try(_) => None,
        Open::Run => Some(Open::Run),
        Open::Goal(_) => None,
    }
}

/// Unwinds the blocks from a place on. It takes no memory.
fn unwind_blocks(blocks: &mut Vec<Open>, from: usize)
    requires { from ≤ vec_len blocks.old }
    ensures items { blocks.new.items ≡ take from blocks.old.items ++ unwound_all (drop from blocks.old.items) }
    ensures capacity { vec_capacity blocks.new ≡ vec_capacity blocks.old }
{
    let mut kept = from;
    let mut place = from;
    while place < blocks.len() {
        if let Some(block) = unwound(&blocks[place]) {
            blocks[kept] = block;
            kept += 1;
        }
        place += 1;
    }
    blocks.truncate(kept);
}

/// Unwinds the blocks from a place on, and puts a goal around them. It takes no memory.
fn begin_unwinding(blocks: &mut Vec<Open>, from: usize, end: Goal)
    requires few { from ≤ vec_len blocks.old }
    requires room { vec_len blocks.old < vec_capacity blocks.old }
    ensures items { blocks.new.items ≡ take from blocks.old.items ++ Open.Goal end ∷ unwound_all (drop from blocks.old.items) }
    ensures capacity { vec_capacity blocks.new ≡ vec_capacity blocks.old }
{
    unwind_blocks(blocks, from);
    let _ = blocks.insert(from, Open::Goal(end));
}

/// Unwinds a frame.
fn unwind_frame(saved: &mut Saved)
    ensures { IsUnwound saved.old saved.new }
{
    unwind_blocks(&mut saved.blocks, 0);
    saved.shell = true;
}

/// Unwinds the frames from a place on, the innermost first. It takes no memory.
pub fn unwind_frames(frames: &mut Vec<Saved>, from: usize)
    requires { from ≤ vec_len frames.old }
    ensures unwound { AreUnwound from frames.old.items frames.new.items }
    ensures capacity { vec_capacity frames.new ≡ vec_capacity frames.old }
{
    let mut place = frames.len();
    while place > from {
        place -= 1;
        unwind_frame(&mut frames[place]);
    }
}

/// Raises an exception inside a frame that has a handler for it: what is inside its `try` is unwound, before this goal, and
/// the handler follows. It takes no memory.
pub fn raise_in(program: &Program, saved: &mut Saved, name: NameId, end: Goal)
    requires handler { has_handler (arena_of program.now.code) name saved.old ≡ true }
    requires free { unwinds saved.old ≡ false }
    requires room { FitsIn (arena_of program.now.code) program.now.depths.items saved.old None }
    ensures left { (r : Residual) → unwinding.catches r name ≡ false → unwinding.raise (arena_of program.now.code) (inside (arena_of program.now.code) saved.old.blocks.items r) name end ≡ inside (arena_of program.now.code) saved.new.blocks.items (unw r) }
    ensures room { FitsIn (arena_of program.now.code) program.now.depths.items saved.new None }
    ensures same { SameCall saved.old saved.new }
{
    match last_try(program, saved.blocks.as_slice(), name) {
        Some(place) => {
            let block = handler_in(program, &saved.blocks[place], name);
            begin_unwinding(&mut saved.blocks, place + 1, end);
            saved.blocks[place] = Open::Rest(Cursor { block, place: 0 });
        }
        None => unreachable!(),
    }
}

/// The block of the handler of a `try` for an exception that it has a handler for.
fn handler_in(program: &Program, block: &Open, name: NameId) -> BlockId
    requires { is_handling (arena_of program.now.code) name block.now ≡ true }
    ensures { handler_in (arena_of program.now.code) name block.now ≡ Some result }
{
    match block {
        Open::Rest(_) => unreachable!(),
        Open::Again(_) => unreachable!(),
        Open::Owed(_) => unreachable!(),
        Open::Guard(_) => unreachable!(),
        Open::Try(statement) => handler_of(program, *statement, name),
        Open::Run => unreachable!(),
        Open::Goal(_) => unreachable!(),
    }
}

/// The block of the handler of the `try` that this statement is.
fn handler_of(program: &Program, statement: StmtId, name: NameId) -> BlockId
    requires { handles (handlers_of (arena_of program.now.code) statement) name ≡ true }
    ensures { handler_in (arena_of program.now.code) name (Open.Try statement) ≡ Some result }
{
    match program.handler(statement, name) {
        Some(block) => block,
        None => unreachable!(),
    }
}

/// The transport call of a frame that is not being unwound yet.
fn left_at(saved: &Saved) -> Option<Via>
    ensures { result ≡ left_at saved.now }
{
    if saved.shell { None } else { saved.frame.via }
}

/// The transport call of this number among those that an unwinding of the frames leaves, the innermost first.
pub fn left_by(frames: &[Saved], number: usize) -> Option<Via>
    ensures value { result ≡ slice_get (left_all frames.now) number }
    ensures small { IfSome result (λ _. number + 1 < 2 ^ 64) }
{
    let mut more = number;
    let mut place = frames.len();
    while place > 0 {
        place -= 1;
        if let Some(via) = left_at(&frames[place]) {
            if more == 0 {
                return Some(via);
            }
            more -= 1;
        }
    }
    None
}
