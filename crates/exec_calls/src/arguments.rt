//! Arguments of calls.
ghost use Rattle.std.specs.Prelude.{◌≡◌, [], ◌∷◌, ◌++◌, map, IfOk, OnOk};
ghost use Rattle.flat_design.specs.Code.{arena_of, argument_term, body_at};
ghost use Rattle.exec_data.specs.SimModel.Calls as calls;
ghost use Rattle.exec_data.specs.KernelBodies.Depths.{locals_at};
ghost use Rattle.exec_data.specs.KernelState.Moves.{Lives};
ghost use Rattle.exec_data.specs.KernelView.Standings.{Everywhere};
ghost use Rattle.exec_calls.specs.Calling.{HasRoomIn};
ghost use Rattle.exec_calls.specs.Valued.{JudgesArguments, AreValues};

use crate::reserve_locals;
use exec_data::expr_eval_api::cut_to;
use exec_data::kernel_bodies_api::locals_in;
use exec_data::kernel_state_api::Kernel;
use exec_data::kernel_view_api::{eval_at, named_at};
use exec_data::logic_values_api::Value;
use flat_design::{Argument, CodeId, Local, RunFault};
use std::alloc::{AllocError, Global};

/// The value of an argument where the next statement of an instance stands. An inout argument gives its variable's value.
fn argument_value(k: &Kernel, p: u32, argument: &Argument) -> Result<Value, RunFault>
    requires { Lives k.now p }
    ensures { Everywhere k.now p (λ h. result ≡ calls.argument_value h (argument_term argument.now)) }
{
    match argument {
        Argument::Value(e) => eval_at(k, p, e),
        Argument::Inout(n) => named_at(k, p, *n),
    }
}

/// Evaluates the arguments of a call from the left to the right, for their first fault alone. It takes no memory.
///
/// # Errors
/// The first fault of an argument.
pub(crate) fn judge_arguments(k: &Kernel, p: u32, arguments: &[Argument]) -> Result<(), RunFault>
    requires { Lives k.now p }
    ensures { JudgesArguments k.now p result (map argument_term arguments.now) }
{
    for argument in arguments {
        match argument_value(k, p, argument) {
            Ok(v) => {
                let _ = v;
            }
            Err(fault) => return Err(fault),
        }
    }
    Ok(())
}

/// The value of an argument, cut to its parameter's type.
fn for_parameter(locals: &[Local], i: usize, v: Value) -> Value
    ensures { result ≡ calls.for_parameter locals.now i v }
{
    match locals.get(i) {
        Some(local) => cut_to(local.value_type, v),
        None => v,
    }
}

/// Adds the value of an argument that has no fault, cut to its parameter's type.
fn add_value(
    values: &mut Vec<Value>,
    locals: &[Local],
    i: usize,
    v: Result<Value, RunFault>,
) -> Result<(), AllocError>
    ensures { OnOk result (IfOk v (λ x. values.new.items ≡ values.old.items ++ calls.for_parameter locals.now i x ∷ [])) }
{
    match v {
        Ok(v) => match values.push(for_parameter(locals, i, v)) {
            Ok(()) => Ok(()),
            Err(_) => Err(AllocError),
        },
        Err(_) => Ok(()),
    }
}

/// Adds the values of arguments that have no fault, each cut to its parameter's type.
///
/// # Errors
/// There is no memory for them.
fn add_values(
    k: &Kernel,
    p: u32,
    locals: &[Local],
    arguments: &[Argument],
    values: &mut Vec<Value>,
) -> Result<(), AllocError>
    requires lives { Lives k.now p }
    requires empty { values.old.items ≡ [] }
    ensures { OnOk result (AreValues k.now p values.new.items locals.now (map argument_term arguments.now)) }
{
    for (i, argument) in arguments.iter().enumerate() {
        match add_value(values, locals, i, argument_value(k, p, argument)) {
            Ok(()) => {}
            Err(_) => return Err(AllocError),
        }
    }
    Ok(())
}

/// The values of the arguments of a call of this code, which have no fault, in a vector that has room for its local variables.
///
/// # Errors
/// There is no memory for it.
pub(crate) fn argument_values(
    k: &Kernel,
    alloc: Global,
    p: u32,
    f: CodeId,
    arguments: &[Argument],
) -> Result<Vec<Value>, AllocError>
    requires { Lives k.now p }
    ensures values { IfOk result (λ values. AreValues k.now p values.items (locals_at (arena_of k.now.program.now.code) f) (map argument_term arguments.now)) }
    ensures room { IfOk result (HasRoomIn k.now.program.now f) }
{
    let locals = locals_in(k.program, f);
    let mut values = match Vec::with_capacity(alloc, locals.len().max(arguments.len())) {
        Ok(values) => values,
        Err(_) => return Err(AllocError),
    };
    match add_values(k, p, locals, arguments, &mut values) {
        Ok(()) => {}
        Err(_) => return Err(AllocError),
    }
    match reserve_locals(k.program, f, &mut values) {
        Ok(()) => Ok(values),
        Err(_) => Err(AllocError),
    }
}
