//! The first arguments of a new instance.
ghost use Rattle.std.specs.Prelude.{◌≡◌, [], ◌∷◌, ◌++◌, IfOk, OnOk, map};
ghost use Rattle.flat_design.specs.Code.{arena_of, body_at, term_of};
ghost use Rattle.exec_data.specs.SimModel.Calls as calls;
ghost use Rattle.exec_data.specs.SimModel.Calls.{locals_in};
ghost use Rattle.exec_data.specs.KernelState.Moves.{Lives};
ghost use Rattle.exec_calls.specs.Valued.{JudgesFirst, AreFirst};

use exec_data::expr_eval_api::cut_to;
use exec_data::kernel_bodies_api::Program;
use exec_data::kernel_state_api::Kernel;
use exec_data::kernel_view_api::eval_at;
use exec_data::logic_values_api::{Items, Value};
use flat_design::{CodeId, Expr, Local, RunFault};
use std::alloc::{AllocError, Global};

/// The parameters and the local variables of a body; none of a body that there is not.
fn locals_of(program: &Program, function: CodeId) -> &[Local]
    ensures { result.now ≡ locals_in (body_at (arena_of program.now.code) function) }
{
    match program.body(function) {
        Some(body) => body.locals.as_slice(),
        None => &[],
    }
}

/// What a parameter gets: the value, cut to its type. A value for which there is no parameter is as it is.
fn for_parameter(locals: &[Local], place: usize, v: Value) -> Value
    ensures { result ≡ calls.for_parameter locals.now place v }
{
    match locals.get(place) {
        Some(local) => cut_to(local.value_type, v),
        None => v,
    }
}

/// Evaluates the first arguments of a body in order, where the next statement of an instance stands, for their first fault
/// alone. It takes no memory.
///
/// # Errors
/// The first fault of an argument.
pub(crate) fn judge_first_arguments(k: &Kernel, p: u32, arguments: &[Expr]) -> Result<(), RunFault>
    requires { Lives k.now p }
    ensures { JudgesFirst k.now p result (map term_of arguments.now) }
{
    for argument in arguments {
        match eval_at(k, p, argument) {
            Ok(v) => {
                let _ = v;
            }
            Err(fault) => return Err(fault),
        }
    }
    Ok(())
}

/// Adds a first argument that has no fault, cut to its parameter's type.
fn add_argument(
    values: &mut Items<Value>,
    locals: &[Local],
    place: usize,
    v: Result<Value, RunFault>,
) -> Result<(), AllocError>
    ensures { OnOk result (IfOk v (λ x. values.new ≡ values.old ++ calls.for_parameter locals.now place x ∷ [])) }
{
    match v {
        Ok(v) => match values.push(for_parameter(locals, place, v)) {
            Ok(()) => Ok(()),
            Err(_) => Err(AllocError),
        },
        Err(_) => Ok(()),
    }
}

/// The first arguments of a body, where the next statement of an instance stands and none is at fault, each cut to its
/// parameter's type.
///
/// # Errors
/// There is no memory for them.
pub(crate) fn first_arguments(
    k: &Kernel,
    alloc: Global,
    p: u32,
    function: CodeId,
    arguments: &[Expr],
) -> Result<Items<Value>, AllocError>
    requires { Lives k.now p }
    ensures { IfOk result (λ values. AreFirst k.now p values function (map term_of arguments.now)) }
{
    let locals = locals_of(k.program, function);
    let mut values = Items::new(alloc);
    for (place, argument) in arguments.iter().enumerate() {
        match add_argument(&mut values, locals, place, eval_at(k, p, argument)) {
            Ok(()) => {}
            Err(_) => return Err(AllocError),
        }
    }
    Ok(values)
}
