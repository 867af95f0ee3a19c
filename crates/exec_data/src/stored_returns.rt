//! Returns.
ghost use Rattle.std.specs.Prelude.{◌≡◌, Some, option_map};
ghost use Rattle.flat_design.specs.Code.{arena_of, term_of};
ghost use Rattle.kernel_view.specs.SimModel.Residual.{settle, innermost};
ghost use Rattle.kernel_view.specs.SimModel.Unwinding.{returned, return_marks};
ghost use Rattle.kernel_view.specs.SimModel.Configuration.{Config, Instance, instance_at, arena, with_residual, with_marks};
ghost use Rattle.kernel_view.specs.SimModel.Reading.{here};
ghost use Rattle.kernel_view.specs.SimModel.Calls as calls;
ghost use Rattle.kernel_view.specs.SimModel.Calls.{do_return};
ghost use Rattle.kernel_view.specs.KernelState.Kernel.{StandsFor, IsSound};
ghost use Rattle.kernel_view.specs.KernelState.Moves.{Steps, Does, Lives, HasStatement};
ghost use Rattle.exec_data.specs.Answered as answered;

use flat_design::{CodeId, Expr, RunFault, ValueType};
use kernel_view::eval_if_at;
use kernel_view::expr_eval_api::cut_to;
use kernel_view::kernel_bodies_api::Program;
use kernel_view::kernel_state_api::Kernel;
use kernel_view::logic_values_api::Value;

/// The type of the answers of a function, where it has one.
fn type_of_answers(program: &Program, function: Option<CodeId>) -> Option<ValueType>
    ensures { result ≡ answered.type_of_answers (arena_of program.now.code) function }
{
    match function {
        Some(f) => match program.body(f) {
            Some(body) => body.answer,
            None => None,
        },
        None => None,
    }
}

/// The type of the answer of the innermost call of an instance, where it has one.
fn answer_type(k: &Kernel, p: u32) -> Option<ValueType>
    requires { Lives k.now p }
    ensures { (c : Config) (i : Instance) → StandsFor k.now c → instance_at c p ≡ Some i → result ≡ calls.answer_type (arena c) (innermost (settle (arena c) i.residual)) }
{
    match k.schedule.table.get(p) {
        Some(x) => type_of_answers(k.program, x.body.body.body.function(k.program)),
        None => None,
    }
}

/// An answer, cut to the type that it has, where there is one.
fn cut_answer(t: Option<ValueType>, v: Option<Value>) -> Option<Value>
    ensures { result ≡ calls.cut_answer t v }
{
    match t {
        Some(t) => match v {
            Some(v) => Some(cut_to(t, v)),
            None => None,
        },
        None => v,
    }
}

/// The innermost call keeps an answer, and the rest of it falls away; an unwind block drops it.
fn answer(k: &mut Kernel, p: u32, v: Option<Value>)
    requires sound { IsSound k.old }
    requires lives { Lives k.old p }
    requires statement { HasStatement k.old p }
    ensures steps { Steps k.old k.new p (λ c q i r. with_marks (with_residual c q (returned v r)) (return_marks q r)) }
    ensures sound { IsSound k.new }
    ensures made { k.new.made ≡ k.old.made }
{
    match k.schedule.table.get_mut(p) {
        Some(x) => x.body.body.body.answer(k.program, v),
        None => {}
    }
}

/// `return`, with a value where one is written, which is cut to the type of the function: the innermost call, or the body, is
/// over; guards in it owe their unwind blocks. It takes no memory.
///
/// # Errors
/// The fault of its expression, and then nothing changes.
pub fn return_value(k: &mut Kernel, p: u32, e: &Option<Expr>) -> Result<(), RunFault>
    requires sound { IsSound k.old }
    requires lives { Lives k.old p }
    requires statement { HasStatement k.old p }
    ensures does { Does k.old k.new result p (λ c q i r. do_return c q r (here c q i r) (option_map term_of e.now)) }
    ensures sound { IsSound k.new }
    ensures made { k.new.made ≡ k.old.made }
{
    let value = eval_if_at(k, p, e)?;
    let kept = cut_answer(answer_type(k, p), value);
    answer(k, p, kept);
    Ok(())
}
