//! What a call begins with: its local variables, and the open blocks of its body.
ghost use Rattle.std.specs.Prelude.{◌≡◌, ℕ, ◌+◌, ◌*◌, ◌^◌, ◌<◌, ◌≤◌, ◌++◌, ◌∷◌, [], List, length, vec_len, vec_capacity, Some, None, IfSome};
ghost use Rattle.sim_model.specs.LogicValues.declared.kinds.Value.{Value as Kept};
ghost use Rattle.sim_model.specs.FlatDesign.Code.{arena_of, body_at};
ghost use Rattle.sim_model.specs.Residual as residual;
ghost use Rattle.sim_model.specs.Residual.{first_locals};
ghost use Rattle.kernel_bodies.specs.Depths.{locals_at, depth_of};
ghost use Rattle.kernel_bodies.specs.Layers.{landed, layers_around, layers_of, statement_of};
ghost use Rattle.kernel_bodies.specs.Room.{Fits, body_depth, begun_in, locals_with};

use crate::landing::{first_of, in_block};
use crate::layers::{Comes, Open};
use crate::{Around, Cursor, Program};
use sim_model::flat_design_api::{BlockId, CodeId, Local, StmtId, default_value};
use sim_model::logic_values_api::Value;

/// Adds a value where there is room for it.
#[inline(always)]
pub fn place<T: Drop>(items: &mut Vec<T>, value: T)
    requires { vec_len items.old < vec_capacity items.old }
    ensures items { items.new.items ≡ items.old.items ++ value ∷ [] }
    ensures capacity { vec_capacity items.old ≤ vec_capacity items.new }
{
    items.push_reserved(value);
}

/// The parameters and the local variables of a body; none of one that there is not.
#[inline(always)]
pub fn locals_in(program: &Program, function: CodeId) -> &[Local]
    ensures { result.now ≡ locals_at (arena_of program.now.code) function }
{
    match program.body(function) {
        Some(body) => body.locals.as_slice(),
        None => &[],
    }
}

/// Adds the first values of the local variables from that on whose number is how many values there are.
#[inline(never)]
fn add_defaults(values: &mut Vec<Value>, locals: &[Local])
    requires { length (first_locals values.old.items locals.now) ≤ vec_capacity values.old }
    ensures items { values.new.items ≡ first_locals values.old.items locals.now }
    ensures capacity { vec_capacity values.old ≤ vec_capacity values.new }
{
    while values.len() < locals.len() {
        let first = default_value(locals[values.len()].value_type);
        place(values, first);
    }
}

/// Adds the first values of the local variables that are no parameters.
#[inline(always)]
pub fn add_locals(values: &mut Vec<Value>, locals: &[Local])
    requires { length (first_locals values.old.items locals.now) ≤ vec_capacity values.old }
    ensures items { values.new.items ≡ first_locals values.old.items locals.now }
    ensures capacity { vec_capacity values.old ≤ vec_capacity values.new }
{
    if values.len() < locals.len() {
        add_defaults(values, locals);
    }
}

/// How many values a call has as parameters and local variables, if it is begun with so many arguments.
pub fn many_locals(program: &Program, function: CodeId, arguments: &[Value]) -> usize
    ensures { result ≡ locals_with (arena_of program.now.code) function arguments.now }
{
    arguments.len().max(locals_in(program, function).len())
}

/// What a block begins with: its first statement, and then the rest, where there is one.
#[inline(always)]
pub fn block_begins(program: &Program, block: BlockId) -> Comes
    ensures value { landed (arena_of program.now.code) result ≡ residual.block (arena_of program.now.code) block }
    ensures few { length (layers_of result) ≤ 1 }
    ensures room { (most t i : ℕ) → i + t + depth_of program.now.depths.items block + 1 ≤ most → Fits (arena_of program.now.code) program.now.depths.items most t i (layers_of result) (statement_of result) }
{
    match first_of(program, Cursor { block, place: 0 }) {
        Some((statement, rest)) => in_block(program, statement, rest),
        None => Comes::Nothing,
    }
}

/// What the body of a call begins with.
#[inline(always)]
pub fn body_begins(program: &Program, function: CodeId) -> Comes
    ensures value { landed (arena_of program.now.code) result ≡ begun_in (arena_of program.now.code) (body_at (arena_of program.now.code) function) }
    ensures few { length (layers_of result) ≤ 1 }
    ensures room { (most t i : ℕ) → i + t + body_depth program.now.depths.items (body_at (arena_of program.now.code) function) + 1 ≤ most → Fits (arena_of program.now.code) program.now.depths.items most t i (layers_of result) (statement_of result) }
{
    match program.body(function) {
        Some(body) => block_begins(program, body.block),
        None => Comes::Nothing,
    }
}

/// How many blocks may stand open inside a block.
fn block_depth(program: &Program, block: BlockId) -> usize
    ensures value { result ≡ depth_of program.now.depths.items block }
    ensures small { result < 2 ^ 34 }
{
    program.depth(block)
}

/// How many blocks may stand open inside the block of a body.
pub fn depth_in(program: &Program, function: CodeId) -> usize
    ensures value { result ≡ body_depth program.now.depths.items (body_at (arena_of program.now.code) function) }
    ensures small { result < 2 ^ 34 }
{
    match program.body(function) {
        Some(body) => block_depth(program, body.block),
        None => 0,
    }
}

/// Adds the blocks that come inside the others, and gives the statement that comes inside them.
#[inline(always)]
pub fn add_layers(blocks: &mut Vec<Open>, comes: Comes) -> Option<StmtId>
    requires { vec_len blocks.old + length (layers_of comes) ≤ vec_capacity blocks.old }
    ensures items { blocks.new.items ≡ blocks.old.items ++ layers_of comes }
    ensures capacity { vec_capacity blocks.old ≤ vec_capacity blocks.new }
    ensures statement { result ≡ statement_of comes }
{
    match comes {
        Comes::Nothing => None,
        Comes::Leave => None,
        Comes::Done => None,
        Comes::Goal(_) => None,
        Comes::Statement(statement) => Some(statement),
        Comes::InBlock(statement, rest) => {
            place(blocks, Open::Rest(rest));
            Some(statement)
        }
        Comes::InUnwind(statement, rest) => {
            place(blocks, Open::Run);
            place(blocks, Open::Rest(rest));
            Some(statement)
        }
    }
}

/// Adds what a statement opens around its block.
#[inline(always)]
pub fn add_around(blocks: &mut Vec<Open>, around: Around, statement: StmtId)
    requires { vec_len blocks.old + length (layers_around around statement) ≤ vec_capacity blocks.old }
    ensures items { blocks.new.items ≡ blocks.old.items ++ layers_around around statement }
    ensures capacity { vec_capacity blocks.old ≤ vec_capacity blocks.new }
{
    match around {
        Around::Nothing => {}
        Around::Loop => place(blocks, Open::Again(statement)),
        Around::Guard(unwind) => place(blocks, Open::Guard(unwind)),
        Around::Try => place(blocks, Open::Try(statement)),
    }
}
