//! Bodies get their rooms.
ghost use Rattle.std.specs.Prelude.{◌≡◌, ◌<◌, ◌^◌, ℕ, IfOk, OnOk, All, Contains, map};
ghost use Rattle.model_rules.specs.FlatDesign.Code as specs_code;
ghost use Rattle.model_rules.specs.FlatDesign.Code.{arena_of};
ghost use Rattle.model_rules.specs.FlatDesign.Reach.{IsIn, inner_blocks};
ghost use Rattle.model_rules.specs.FlatDesign.declared.code.CodeBody.{CodeBody as Kept};
ghost use Rattle.code_rules.specs.Rooms.{DiffersInRooms, HasRooms};
ghost use Rattle.code_rules.specs.Tables as spec;

use crate::events::in_block;
use crate::tables::{in_functions, table_of};
use model_rules::flat_design_api::{Code, CodeBody};
use model_rules::logic_values_api::Items;
use std::alloc::{AllocError, Global};

/// Gives a body its room.
fn raise_room(body: &mut CodeBody, table: &[usize], functions: usize) -> Result<(), AllocError>
    ensures room { OnOk result (body.new ≡ spec.with_room table.now functions body.old) }
    ensures small { OnOk result (body.new.room < 2 ^ 32) }
{
    let room = functions.max(in_block(table, body.block));
    match u32::try_from(room) {
        Ok(room) => {
            body.room = room;
            Ok(())
        }
        Err(_) => Err(AllocError),
    }
}

/// Gives each body its room.
fn raise_all(
    mut bodies: Vec<CodeBody>,
    table: &[usize],
    functions: usize,
) -> Result<Vec<CodeBody>, AllocError>
    ensures rooms { IfOk result (λ raised. raised.items ≡ map (spec.with_room table.now functions) bodies.items) }
    ensures small { IfOk result (λ raised. All (λ (b : Kept). b.room < 2 ^ 32) raised.items) }
{
    for i in 0..bodies.len() {
        raise_room(&mut bodies[i], table, functions)?;
    }
    Ok(bodies)
}

/// Gives each body of the code its room: the greatest number of events that a statement of its own, or of any function, can
/// wait for. All else stays. It takes one pass over the blocks, and so needs an inner block to have a smaller number than its
/// outer one. Where a room would be 2^32 or more it answers want of memory.
pub fn raise_rooms(alloc: Global, code: Code) -> Result<Code, AllocError>
    requires { (b j : ℕ) (s : specs_code.Statement) → IsIn (arena_of code) b s → Contains (inner_blocks s) j → j < b }
    ensures kept { IfOk result (λ raised. DiffersInRooms code raised) }
    ensures rooms { IfOk result (λ raised. HasRooms (arena_of raised)) }
    ensures small { IfOk result (λ raised. All (λ (b : Kept). b.room < 2 ^ 32) raised.bodies) }
{
    let table = table_of(alloc, &code)?;
    let functions = in_functions(table.as_slice(), code.bodies.as_slice());
    let Code {
        bodies,
        blocks,
        statements,
    } = code;
    let bodies = raise_all(bodies.into_vec(), table.as_slice(), functions)?;
    Ok(Code {
        bodies: Items::from_vec(bodies),
        blocks,
        statements,
    })
}
