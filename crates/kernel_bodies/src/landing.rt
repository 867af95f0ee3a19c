//! Where a body goes on once finished parts have fallen away.
ghost use Rattle.std.specs.Prelude.{◌≡◌, ℕ, ◌+◌, ◌-◌, ◌<◌, ◌≤◌, ◌++◌, List, [], length, take, slice_get, is_some, None, Some, IfNone, IfSome, Contains};
ghost use Rattle.sim_model.specs.FlatDesign.Code.{Arena, arena_of, block_at};
ghost use Rattle.sim_model.specs.Residual as residual;
ghost use Rattle.sim_model.specs.Residual.{Residual};
ghost use Rattle.kernel_bodies.specs.declared.around.Cursor.{Cursor as Place};
ghost use Rattle.kernel_bodies.specs.Landings.{Lands, LandsIn};
ghost use Rattle.kernel_bodies.specs.Layers.{around, has_statement, inside, inside_frames, whole, held, standing, landed, layers_of, statement_of, begins, shown_by, rest_at, rest_if, first_then, frame_ends, end_shown, under_goal, IsBegun, Settled, EndsBlocks};
ghost use Rattle.kernel_bodies.specs.Room.{Fits, FitsIf, FitsLayer};

use crate::layers::{Comes, Landing, Next, Open, Saved, Stand};
use crate::{Cursor, Program};
use sim_model::Goal;
use sim_model::flat_design_api::StmtId;

/// What shows at the end of a call, or of the body.
fn frame_ends(call: Option<StmtId>) -> Comes
    ensures { result ≡ frame_ends call }
{
    match call {
        Some(_) => Comes::Leave,
        None => Comes::Done,
    }
}

/// What shows at a block that stands with nothing left inside it: all fall away but unwindings.
fn end_shown(block: &Open) -> Option<Comes>
    ensures { result ≡ end_shown block.now }
{
    match block {
        Open::Rest(_) => None,
        Open::Again(_) => None,
        Open::Owed(_) => None,
        Open::Guard(_) => None,
        Open::Try(_) => None,
        Open::Run => None,
        Open::Goal(goal) => Some(Comes::Goal(*goal)),
    }
}

/// The first statement of a block from a place on, and the place behind it.
#[inline(always)]
pub fn first_of(program: &Program, cursor: Cursor) -> Option<(StmtId, Cursor)>
    ensures value { residual.statements (rest_at (arena_of program.now.code) cursor) ≡ first_then (arena_of program.now.code) result }
    ensures of_block { IfSome result (λ p. (p.1.block ≡ cursor.block) × Contains (block_at (arena_of program.now.code) cursor.block) p.0) }
    ensures any { is_some result ≡ is_some (slice_get (block_at (arena_of program.now.code) cursor.block) cursor.place) }
{
    match program.statement_at(cursor) {
        Some(statement) => Some((
            statement,
            Cursor {
                block: cursor.block,
                place: cursor.place + 1,
            },
        )),
        None => None,
    }
}

/// A place in a block, where a statement is there.
#[inline(always)]
fn rest_from(program: &Program, cursor: Cursor) -> Option<Cursor>
    ensures value { (r : Residual) → inside (arena_of program.now.code) (rest_if result) r ≡ residual.followed r (rest_at (arena_of program.now.code) cursor) }
    ensures same { IfSome result (λ c. c ≡ cursor) }
{
    match program.statement_at(cursor) {
        Some(_) => Some(cursor),
        None => None,
    }
}

/// The statement that comes in a block with nothing left inside it, and the place behind it where another one is there: the first
/// of the rest of a block, or a loop that follows. None exactly where it is neither.
#[inline(always)]
pub fn comes_in(program: &Program, block: &Open) -> Option<(StmtId, Option<Cursor>)>
    ensures settles { IfSome result (λ p. residual.settle (arena_of program.now.code) (around (arena_of program.now.code) block.now residual.skip) ≡ inside (arena_of program.now.code) (rest_if p.1) (residual.one p.0)) }
    ensures room { IfSome result (λ p. (most t i : ℕ) → FitsLayer (arena_of program.now.code) program.now.depths.items most t i block.now → Fits (arena_of program.now.code) program.now.depths.items most t i (rest_if p.1) (Some p.0)) }
    ensures any { is_some result ≡ has_statement (arena_of program.now.code) block.now }
{
    match block {
        Open::Rest(cursor) => match first_of(program, *cursor) {
            Some((statement, rest)) => Some((statement, rest_from(program, rest))),
            None => None,
        },
        Open::Again(statement) => Some((*statement, None)),
        Open::Owed(_) => None,
        Open::Guard(_) => None,
        Open::Try(_) => None,
        Open::Run => None,
        Open::Goal(_) => None,
    }
}

/// A statement of a block begins, and then what of the block stands behind it.
#[inline(always)]
pub(crate) fn in_block(program: &Program, statement: StmtId, rest: Cursor) -> Comes
    ensures value { landed (arena_of program.now.code) result ≡ residual.followed (residual.one statement) (rest_at (arena_of program.now.code) rest) }
    ensures few { length (layers_of result) ≤ 1 }
    ensures room { (c : Place) (most t i : ℕ) → rest.block ≡ c.block → Contains (block_at (arena_of program.now.code) c.block) statement → FitsLayer (arena_of program.now.code) program.now.depths.items most t i (Open.Rest c) → Fits (arena_of program.now.code) program.now.depths.items most t i (layers_of result) (statement_of result) }
{
    match rest_from(program, rest) {
        Some(rest) => Comes::InBlock(statement, rest),
        None => Comes::Statement(statement),
    }
}

/// What begins in place of a block that falls away with nothing left inside it.
fn first_in(program: &Program, block: &Open) -> Option<Comes>
    requires { end_shown block.now ≡ None }
    ensures value { residual.settle (arena_of program.now.code) (around (arena_of program.now.code) block.now residual.skip) ≡ begins (arena_of program.now.code) result }
    ensures begun { IfSome result IsBegun }
    ensures few { IfSome result (λ c. length (layers_of c) ≤ 2) }
    ensures room { (most t i : ℕ) → FitsLayer (arena_of program.now.code) program.now.depths.items most t i block.now → FitsIf (arena_of program.now.code) program.now.depths.items most t i result }
{
    match block {
        Open::Rest(cursor) => match first_of(program, *cursor) {
            Some((statement, rest)) => Some(Comes::InBlock(statement, rest)),
            None => None,
        },
        Open::Again(statement) => Some(Comes::Statement(*statement)),
        Open::Owed(unwind) => match first_of(
            program,
            Cursor {
                block: *unwind,
                place: 0,
            },
        ) {
            Some((statement, rest)) => Some(Comes::InUnwind(statement, rest)),
            None => None,
        },
        Open::Guard(_) => None,
        Open::Try(_) => None,
        Open::Run => None,
        Open::Goal(_) => None,
    }
}

/// How many blocks of a frame stand once finished parts have fallen away, and what comes inside them; nothing where all of them
/// fall away.
fn land_blocks(program: &Program, blocks: &[Open]) -> Option<Stand>
    ensures falls { IfNone result (residual.settle (arena_of program.now.code) (inside (arena_of program.now.code) blocks.now residual.skip) ≡ residual.skip) }
    ensures settled { IfSome result (λ s. Settled (arena_of program.now.code) (inside (arena_of program.now.code) blocks.now residual.skip) (inside (arena_of program.now.code) (take s.blocks blocks.now) (landed (arena_of program.now.code) s.comes)) (shown_by s.comes)) }
    ensures few { IfSome result (λ s. s.blocks ≤ length blocks.now) }
    ensures ends { IfSome result (λ s. EndsBlocks (take s.blocks blocks.now) s.comes) }
    ensures room { (most : ℕ) → Fits (arena_of program.now.code) program.now.depths.items most 1 0 blocks.now None → IfSome result (λ s. Fits (arena_of program.now.code) program.now.depths.items most 1 0 (take s.blocks blocks.now ++ layers_of s.comes) (statement_of s.comes)) }
{
    let mut stand = blocks.len();
    while stand > 0 {
        let block = &blocks[stand - 1];
        if let Some(comes) = end_shown(block) {
            return Some(Stand {
                blocks: stand,
                comes,
            });
        }
        stand -= 1;
        if let Some(comes) = first_in(program, block) {
            return Some(Stand {
                blocks: stand,
                comes,
            });
        }
    }
    None
}

/// The same of a frame, with nothing left inside its blocks: a call stands, and one that is being unwound falls away.
fn land_in(program: &Program, saved: &Saved) -> Option<Stand>
    ensures falls { IfNone result (residual.settle (arena_of program.now.code) (whole (arena_of program.now.code) saved.now residual.skip) ≡ residual.skip) }
    ensures lands { IfSome result (LandsIn (arena_of program.now.code) program.now.depths.items saved.now None) }
{
    match land_blocks(program, saved.blocks.as_slice()) {
        Some(stand) => Some(stand),
        None => {
            if saved.shell {
                None
            } else {
                Some(Stand {
                    blocks: 0,
                    comes: frame_ends(saved.frame.call),
                })
            }
        }
    }
}

/// Where frames go on that have a statement inside them; nothing where there is no frame.
fn land_statement(frames: &[Saved], statement: StmtId) -> Option<Landing>
    ensures falls { IfNone result (frames.now ≡ []) }
    ensures lands { IfSome result (λ l. (a : Arena) (depths : List ℕ) → Lands a depths frames.now (Some statement) (residual.one statement) l) }
{
    let many = frames.len();
    if many == 0 {
        return None;
    }
    Some(Landing {
        outside: many - 1,
        blocks: frames[many - 1].blocks.len(),
        comes: Comes::Statement(statement),
    })
}

/// Where frames go on once finished parts have fallen away; nothing where all of them fall away.
#[inline(always)]
pub fn land(program: &Program, frames: &[Saved], statement: Option<StmtId>) -> Option<Landing>
    ensures falls { IfNone result (residual.settle (arena_of program.now.code) (inside_frames (arena_of program.now.code) frames.now (standing (held frames.now statement))) ≡ residual.skip) }
    ensures lands { IfSome result (Lands (arena_of program.now.code) program.now.depths.items frames.now statement (standing (held frames.now statement))) }
{
    if let Some(statement) = statement {
        return land_statement(frames, statement);
    }
    let mut many = frames.len();
    while many > 0 {
        let saved = &frames[many - 1];
        if let Some(stand) = land_in(program, saved) {
            return Some(Landing {
                outside: many - 1,
                blocks: stand.blocks,
                comes: stand.comes,
            });
        }
        many -= 1;
    }
    None
}
/// What shows of what comes.
pub fn next_shown(comes: Comes) -> Next
    ensures { result ≡ shown_by comes }
{
    match comes {
        Comes::Nothing => Next::Nothing,
        Comes::Leave => Next::Leave,
        Comes::Done => Next::Done,
        Comes::Goal(goal) => Next::Goal(goal),
        Comes::Statement(statement) => Next::Statement(statement),
        Comes::InBlock(statement, _) => Next::Statement(statement),
        Comes::InUnwind(statement, _) => Next::Statement(statement),
    }
}

/// What comes, where all that is left stands before the goal of an unwinding.
pub fn under_goal(goal: Option<Goal>, comes: Comes) -> Comes
    ensures { result ≡ under_goal goal comes }
{
    match goal {
        None => comes,
        Some(goal) => match comes {
            Comes::Nothing => Comes::Goal(goal),
            Comes::Leave => Comes::Leave,
            Comes::Done => Comes::Done,
            Comes::Goal(inner) => Comes::Goal(inner),
            Comes::Statement(statement) => Comes::Statement(statement),
            Comes::InBlock(statement, rest) => Comes::InBlock(statement, rest),
            Comes::InUnwind(statement, rest) => Comes::InUnwind(statement, rest),
        },
    }
}
