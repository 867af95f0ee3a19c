//! Open blocks and frames of a kind, and the innermost of them.
ghost use Rattle.std.specs.Prelude.{◌≡◌, ◌<◌, ◌≤◌, length, option_map, IfSome};
ghost use Rattle.sim_model.specs.FlatDesign.Code.{arena_of};
ghost use Rattle.sim_model.specs.Residual as residual;
ghost use Rattle.kernel_bodies.specs.Layers.{call_of};
ghost use Rattle.kernel_bodies.specs.Sought.{among, is_exit, is_goal, is_handling, is_open_nonblocking, is_run, has_handler, last_call, last_via, many_calls, open_nonblocking, unwinds, IsLast};

use crate::Program;
use crate::layers::{Frame, Open, Saved};
use sim_model::Via;
use sim_model::flat_design_api::{NameId, StmtId};

/// Whether this is a non-blocking transport call.
fn is_nonblocking(via: Option<Via>) -> bool
    ensures { result ≡ residual.is_nonblocking via }
{
    match via {
        Some(via) => !via.blocking,
        None => false,
    }
}

/// Whether a frame is a non-blocking transport call that is not being unwound.
fn is_open_nonblocking(saved: &Saved) -> bool
    ensures { result ≡ is_open_nonblocking saved.now }
{
    if saved.shell {
        false
    } else {
        is_nonblocking(saved.frame.via)
    }
}

/// Whether some frame is a non-blocking transport call that is not being unwound.
pub fn some_nonblocking(frames: &[Saved]) -> bool
    ensures { result ≡ among is_open_nonblocking frames.now }
{
    let mut place = frames.len();
    while place > 0 {
        place -= 1;
        if is_open_nonblocking(&frames[place]) {
            return true;
        }
    }
    false
}

/// Whether a block is an unwind block that is begun.
fn is_run(block: &Open) -> bool
    ensures { result ≡ is_run block.now }
{
    match block {
        Open::Rest(_) => false,
        Open::Again(_) => false,
        Open::Owed(_) => false,
        Open::Guard(_) => false,
        Open::Try(_) => false,
        Open::Run => true,
        Open::Goal(_) => false,
    }
}

/// The place of the innermost unwind block that is begun.
pub(crate) fn last_run(blocks: &[Open]) -> Option<usize>
    ensures last { IsLast is_run blocks.now result }
    ensures within { IfSome result (λ i. i < length blocks.now) }
{
    let mut place = blocks.len();
    while place > 0 {
        place -= 1;
        if is_run(&blocks[place]) {
            return Some(place);
        }
    }
    None
}

/// Whether a return ends this frame, or an unwind block in it.
fn is_exit(saved: &Saved) -> bool
    ensures { result ≡ is_exit saved.now }
{
    let begun = last_run(saved.blocks.as_slice()).is_some();
    begun || !saved.shell
}

/// The place of the innermost frame that a return ends, or an unwind block in it.
pub fn last_exit(frames: &[Saved]) -> Option<usize>
    ensures last { IsLast is_exit frames.now result }
    ensures within { IfSome result (λ i. i < length frames.now) }
{
    let mut place = frames.len();
    while place > 0 {
        place -= 1;
        if is_exit(&frames[place]) {
            return Some(place);
        }
    }
    None
}

/// Whether a block is an unwinding.
fn is_goal(block: &Open) -> bool
    ensures { result ≡ is_goal block.now }
{
    match block {
        Open::Rest(_) => false,
        Open::Again(_) => false,
        Open::Owed(_) => false,
        Open::Guard(_) => false,
        Open::Try(_) => false,
        Open::Run => false,
        Open::Goal(_) => true,
    }
}

/// Whether some block is an unwinding.
fn some_goal(blocks: &[Open]) -> bool
    ensures { result ≡ among is_goal blocks.now }
{
    let mut place = blocks.len();
    while place > 0 {
        place -= 1;
        if is_goal(&blocks[place]) {
            return true;
        }
    }
    false
}

/// Whether some frame has an unwinding.
pub fn some_unwinds(frames: &[Saved]) -> bool
    ensures { result ≡ among unwinds frames.now }
{
    let mut place = frames.len();
    while place > 0 {
        place -= 1;
        if some_goal(frames[place].blocks.as_slice()) {
            return true;
        }
    }
    false
}

/// Whether the `try` that this statement is has a handler for an exception.
fn handles(program: &Program, statement: StmtId, name: NameId) -> bool
    ensures { result ≡ is_handling (arena_of program.now.code) name (Open.Try statement) }
{
    program.handler(statement, name).is_some()
}

/// Whether a block is a `try` that has a handler for an exception.
fn is_handling(program: &Program, name: NameId, block: &Open) -> bool
    ensures { result ≡ is_handling (arena_of program.now.code) name block.now }
{
    match block {
        Open::Rest(_) => false,
        Open::Again(_) => false,
        Open::Owed(_) => false,
        Open::Guard(_) => false,
        Open::Try(statement) => handles(program, *statement, name),
        Open::Run => false,
        Open::Goal(_) => false,
    }
}

/// The place of the innermost `try` that has a handler for an exception.
pub fn last_try(program: &Program, blocks: &[Open], name: NameId) -> Option<usize>
    ensures last { IsLast (is_handling (arena_of program.now.code) name) blocks.now result }
    ensures within { IfSome result (λ i. i < length blocks.now) }
{
    let mut place = blocks.len();
    while place > 0 {
        place -= 1;
        if is_handling(program, name, &blocks[place]) {
            return Some(place);
        }
    }
    None
}

/// Whether a frame has such a `try`.
fn has_handler(program: &Program, name: NameId, saved: &Saved) -> bool
    ensures { result ≡ has_handler (arena_of program.now.code) name saved.now }
{
    last_try(program, saved.blocks.as_slice(), name).is_some()
}

/// The place of the innermost frame that has a `try` with a handler for an exception.
pub fn last_handler(program: &Program, frames: &[Saved], name: NameId) -> Option<usize>
    ensures last { IsLast (has_handler (arena_of program.now.code) name) frames.now result }
    ensures within { IfSome result (λ i. i < length frames.now) }
{
    let mut place = frames.len();
    while place > 0 {
        place -= 1;
        if has_handler(program, name, &frames[place]) {
            return Some(place);
        }
    }
    None
}

/// The innermost call, also one that is being unwound.
#[inline(always)]
pub fn last_call(frames: &[Saved]) -> Option<&Frame>
    ensures { option_map (λ x. call_of x.now) result ≡ last_call frames.now }
{
    let many = frames.len();
    if many == 0 {
        None
    } else {
        Some(&frames[many - 1].frame)
    }
}

/// The transport call that a frame serves.
#[inline(always)]
fn via_of(saved: &Saved) -> Option<Via>
    ensures { result ≡ saved.now.frame.via }
{
    saved.frame.via
}

/// The innermost transport call, also one that is being unwound.
#[inline(always)]
pub fn last_via(frames: &[Saved]) -> Option<Via>
    ensures { result ≡ last_via frames.now }
{
    let mut place = frames.len();
    while place > 0 {
        place -= 1;
        if let Some(via) = via_of(&frames[place]) {
            return Some(via);
        }
    }
    None
}

/// One for a call, and none for the body.
fn one_call(frame: &Frame) -> usize
    ensures value { result ≡ residual.counted_call frame.now.call }
    ensures few { result ≤ 1 }
{
    match frame.call {
        Some(_) => 1,
        None => 0,
    }
}

/// How many calls there are, the body not counted.
pub fn many_calls(frames: &[Saved]) -> usize
    ensures { result ≡ many_calls frames.now }
{
    let mut calls = 0;
    for saved in frames {
        calls += one_call(&saved.frame);
    }
    calls
}
