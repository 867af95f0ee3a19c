//! Changes of the innermost frames.
ghost use Rattle.std.specs.Prelude.{◌≡◌, ℕ, ◌+◌, ◌-◌, ◌<◌, ◌≤◌, ◌++◌, ◌∷◌, [], List, Option, length, take, vec_len, vec_capacity, true, false, None, Some, Contains};
ghost use Rattle.sim_model.specs.LogicValues.declared.kinds.Value.{Value as Kept};
ghost use Rattle.sim_model.specs.FlatDesign.Code.{Arena, arena_of};
ghost use Rattle.sim_model.specs.Residual as residual;
ghost use Rattle.sim_model.specs.Residual.{Residual};
ghost use Rattle.sim_model.specs.Unwinding.{has_exit, returned};
ghost use Rattle.kernel_bodies.specs.Around.{around_at};
ghost use Rattle.kernel_bodies.specs.Changed.{IsFrameSet};
ghost use Rattle.kernel_bodies.specs.Depths.{blocks_of};
ghost use Rattle.kernel_bodies.specs.Layers.{inside, whole, standing, layers_of, layers_around, statement_of};
ghost use Rattle.kernel_bodies.specs.Room.{FitsIn, SameCall, SameRoom};
ghost use Rattle.kernel_bodies.specs.Sought.{is_exit};

use crate::frames::{add_around, add_layers, block_begins};
use crate::layers::{Comes, Frame, Saved};
use crate::program::Program;
use crate::sought::last_run;
use sim_model::flat_design_api::{BlockId, StmtId};
use sim_model::logic_values_api::Value;

/// Pops all but the outermost blocks of a frame, adds those that come inside them, and gives the statement that comes.
#[inline(always)]
pub fn fill(saved: &mut Saved, blocks: usize, comes: Comes) -> Option<StmtId>
    requires { length (take blocks saved.old.blocks.items) + length (layers_of comes) ≤ vec_capacity saved.old.blocks }
    ensures same { SameCall saved.old saved.new }
    ensures blocks { saved.new.blocks.items ≡ take blocks saved.old.blocks.items ++ layers_of comes }
    ensures statement { result ≡ statement_of comes }
{
    saved.blocks.truncate(blocks);
    add_layers(&mut saved.blocks, comes)
}

/// A statement inside a frame goes on with one of its blocks, and with what it opens around that.
#[inline(always)]
pub fn begin_in(
    program: &Program,
    saved: &mut Saved,
    statement: StmtId,
    block: BlockId,
) -> Option<StmtId>
    requires room { FitsIn (arena_of program.now.code) program.now.depths.items saved.old (Some statement) }
    requires inner { Contains (blocks_of (arena_of program.now.code) statement) block }
    ensures same { SameCall saved.old saved.new }
    ensures left { inside (arena_of program.now.code) saved.new.blocks.items (standing result) ≡ inside (arena_of program.now.code) saved.old.blocks.items (inside (arena_of program.now.code) (layers_around (around_at (arena_of program.now.code) statement) statement) (residual.block (arena_of program.now.code) block)) }
    ensures room { FitsIn (arena_of program.now.code) program.now.depths.items saved.new result }
{
    add_around(&mut saved.blocks, program.around(statement), statement);
    let comes = block_begins(program, block);
    add_layers(&mut saved.blocks, comes)
}

/// Pops the innermost block of a frame.
#[inline(always)]
pub fn drop_block(saved: &mut Saved)
    ensures same { SameCall saved.old saved.new }
    ensures blocks { saved.new.blocks.items ≡ take (length saved.old.blocks.items - 1) saved.old.blocks.items }
{
    let _ = saved.blocks.pop();
}

/// Ends a frame that a return ends, or its innermost unwind block: a call keeps what it answers.
pub fn end_in(saved: &mut Saved, answer: Option<Value>)
    requires { is_exit saved.old ≡ true }
    ensures left { (a : Arena) (r : Residual) → has_exit r ≡ false → returned answer (whole a saved.old r) ≡ whole a saved.new residual.skip }
    ensures room { (a : Arena) (depths : List ℕ) → FitsIn a depths saved.old None → FitsIn a depths saved.new None }
    ensures same { SameRoom saved.old saved.new }
{
    match last_run(saved.blocks.as_slice()) {
        Some(place) => saved.blocks.truncate(place + 1),
        None => {
            saved.blocks.clear();
            saved.frame.answer = answer;
        }
    }
}

/// Another value for a local variable of a call.
#[inline(always)]
fn set_local_of(frame: &mut Frame, number: usize, value: Value)
    ensures { IsFrameSet number value frame.old frame.new }
{
    if number < frame.locals.len() {
        frame.locals[number] = value;
    }
}

/// Another value for a local variable of a frame.
#[inline(always)]
pub fn set_local_in(saved: &mut Saved, number: usize, value: Value)
    ensures set { IsFrameSet number value saved.old.frame saved.new.frame }
    ensures shell { saved.new.shell ≡ saved.old.shell }
    ensures blocks { saved.new.blocks ≡ saved.old.blocks }
{
    set_local_of(&mut saved.frame, number, value);
}

/// Pops the innermost frame, which is there.
pub fn take_frame(frames: &mut Vec<Saved>) -> Saved
    requires { 0 < vec_len frames.old }
    ensures items { frames.old.items ≡ frames.new.items ++ result ∷ [] }
    ensures capacity { vec_capacity frames.new ≡ vec_capacity frames.old }
{
    match frames.pop() {
        Some(saved) => saved,
        None => unreachable!(),
    }
}
