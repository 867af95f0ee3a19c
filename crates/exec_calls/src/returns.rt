//! What the end of a call hands back. None of it takes memory.
ghost use Rattle.std.specs.Prelude.{◌≡◌, ◌∷◌, [], map, option_map, Some, Ok};
ghost use Rattle.flat_design.specs.Code.{arena_of, argument_term, statement_of};
ghost use Rattle.exec_data.specs.SimModel.Reading.{Here, here};
ghost use Rattle.exec_data.specs.SimModel.Calls.{given_back, call_ends};
ghost use Rattle.exec_data.specs.KernelBodies.Layers.{call_of};
ghost use Rattle.exec_data.specs.KernelState.Kernel.{IsSound, whole_design};
ghost use Rattle.exec_data.specs.KernelState.Moves.{Moves, MovesAt, Lives};
ghost use Rattle.exec_calls.specs.Calling.{Leaves};
ghost use Rattle.exec_calls.specs.Leaving.{LeavesBy, CalledBy, HandsBack, IsNoTransport, statement_if};

use crate::{Frame, answer_of, final_value, home_at, leave_call, store_if_in, store_in};
use exec_data::kernel_bodies_api::Program;
use exec_data::kernel_state_api::Kernel;
use exec_data::logic_values_api::Value;
use flat_design::{Argument, Statement, StmtId, Store};

/// An inout argument gets the final value of its parameter.
fn give_one(k: &mut Kernel, p: u32, home: u32, frame: &Frame, i: usize, argument: &Argument)
    requires sound { IsSound k.old }
    requires lives { Lives k.old p }
    ensures moves { (h : Here) → h.config.design ≡ whole_design k.old → h.home ≡ home → Moves k.old k.new (λ c. given_back c p h (call_of frame.now) i (argument_term argument.now ∷ [])) }
    ensures design { whole_design k.new ≡ whole_design k.old }
    ensures lives { Lives k.new p }
    ensures sound { IsSound k.new }
    ensures made { k.new.made ≡ k.old.made }
{
    match argument {
        Argument::Value(_) => {}
        Argument::Inout(n) => store_in(k, p, home, *n, final_value(frame, i, Value::Bool(false))),
    }
}

/// The inout arguments of a call get the final values of their parameters, in their order.
fn give_back(k: &mut Kernel, p: u32, home: u32, frame: &Frame, arguments: &[Argument])
    requires sound { IsSound k.old }
    requires lives { Lives k.old p }
    ensures moves { (h : Here) → h.config.design ≡ whole_design k.old → h.home ≡ home → Moves k.old k.new (λ c. given_back c p h (call_of frame.now) 0 (map argument_term arguments.now)) }
    ensures design { whole_design k.new ≡ whole_design k.old }
    ensures lives { Lives k.new p }
    ensures sound { IsSound k.new }
    ensures made { k.new.made ≡ k.old.made }
{
    for (i, argument) in arguments.iter().enumerate() {
        give_one(k, p, home, frame, i, argument);
    }
}

/// A call whose frame is gone hands back: its inout arguments get the final values of the parameters, in their order, and then
/// its answer, or the default of its type, is stored where a variable is written for it.
fn hand_back(k: &mut Kernel, p: u32, frame: &Frame, target: Option<Store>, arguments: &[Argument])
    requires sound { IsSound k.old }
    requires lives { Lives k.old p }
    ensures moves { MovesAt k.old k.new p (λ c i. call_ends c p (here c p i i.residual) (call_of frame.now) target (map argument_term arguments.now)) }
    ensures lives { Lives k.new p }
    ensures sound { IsSound k.new }
    ensures made { k.new.made ≡ k.old.made }
{
    let home = home_at(k, p);
    let answer = answer_of(k.program, frame);
    give_back(k, p, home, frame, arguments);
    store_if_in(k, p, home, target, answer);
}

/// The statement that called, where one did.
pub fn calling_statement<'a>(program: &'a Program, call: Option<StmtId>) -> Option<&'a Statement>
    ensures { option_map (λ z. statement_of z.now) result ≡ statement_if (arena_of program.now.code) call }
{
    match call {
        Some(s) => program.statement(s),
        None => None,
    }
}

/// A call whose frame is gone hands back to the statement that called, which is no transport call.
fn hand_back_to(k: &mut Kernel, p: u32, frame: &Frame, statement: &Statement)
    requires sound { IsSound k.old }
    requires lives { Lives k.old p }
    requires plain { IsNoTransport (Some (statement_of statement.now)) }
    ensures hands { HandsBack k.old k.new (Ok tt) p (call_of frame.now) (Some (statement_of statement.now)) }
    ensures lives { Lives k.new p }
    ensures sound { IsSound k.new }
    ensures made { k.new.made ≡ k.old.made }
{
    match statement {
        Statement::Call(target, _, arguments) => {
            hand_back(k, p, frame, *target, arguments.as_slice());
        }
        Statement::NbTransport(_, _, _, _, _) => unreachable!(),
        Statement::BTransport(_, _, _) => unreachable!(),
        _ => {}
    }
}

/// The end of a call by a statement that is no transport call, or by none: the frame is gone, and what it hands back is stored
/// where the statement stands.
pub fn leave_plain_call(k: &mut Kernel, p: u32)
    requires sound { IsSound k.old }
    requires lives { Lives k.old p }
    requires leaves { Leaves k.old p }
    requires called { CalledBy k.old p IsNoTransport }
    ensures does { LeavesBy k.old k.new (Ok tt) p }
    ensures lives { Lives k.new p }
    ensures sound { IsSound k.new }
    ensures made { k.new.made ≡ k.old.made }
{
    let program = k.program;
    let frame = leave_call(k, p);
    match calling_statement(program, frame.call) {
        Some(statement) => hand_back_to(k, p, &frame, statement),
        None => {}
    }
}
