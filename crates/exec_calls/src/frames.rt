//! What a call hands back.
ghost use Rattle.std.specs.Prelude.{◌≡◌};
ghost use Rattle.flat_design.specs.Code.{arena_of, body_at};
ghost use Rattle.exec_data.specs.SimModel.Calls as calls;
ghost use Rattle.exec_data.specs.KernelBodies.Layers.{call_of};

use exec_data::kernel_bodies_api::{Frame, Program};
use exec_data::logic_values_api::Value;
use flat_design::{CodeId, ValueType, default_value};

/// The final value of a parameter or local variable of a call; where there is none of this number, this other value.
pub fn final_value(frame: &Frame, i: usize, or: Value) -> Value
    ensures { result ≡ calls.final_value (call_of frame.now) i or }
{
    match frame.locals.as_slice().get(i) {
        Some(value) => *value,
        None => or,
    }
}

/// The type of the answers of a function, where it has one.
fn answer_type(program: &Program, f: CodeId) -> Option<ValueType>
    ensures { result ≡ calls.answer_in (body_at (arena_of program.now.code) f) }
{
    match program.body(f) {
        Some(body) => body.answer,
        None => None,
    }
}

/// The answer of a function that returned none.
fn default_answer(t: Option<ValueType>) -> Value
    ensures { result ≡ calls.default_answer t }
{
    match t {
        Some(t) => default_value(t),
        None => Value::Bool(false),
    }
}

/// What a call answers: the value that it returned, or else the default of its type.
pub fn answer_of(program: &Program, frame: &Frame) -> Value
    ensures { result ≡ calls.answer_of (arena_of program.now.code) (call_of frame.now) }
{
    match frame.answer {
        Some(value) => value,
        None => default_answer(answer_type(program, frame.body)),
    }
}
