//! Calls over a hop that are entered at its other end.
ghost use Rattle.std.specs.Prelude.{◌≡◌, true, false, Some, Ok, IfOk, is_some};
ghost use Rattle.exec_calls.specs.SimModel.Values.{on_ok};
ghost use Rattle.exec_calls.specs.SimModel.Reading.{live_payload};
ghost use Rattle.exec_calls.specs.SimModel.Calls.{may_enter, enters};
ghost use Rattle.exec_calls.specs.SimModel.Transport.{is_complete, judged, may_enter_handler, enters_handler};
ghost use Rattle.exec_calls.specs.KernelTransactions.Answers.{complete_in};
ghost use Rattle.exec_calls.specs.KernelState.Kernel.{IsSound};
ghost use Rattle.exec_calls.specs.KernelState.Moves.{Lives, HasStatement};
ghost use Rattle.exec_calls.specs.ExecData.Entered.{Shows};
ghost use Rattle.exec_calls.specs.Calling.{HasRoomIn};
ghost use Rattle.exec_transactions.specs.Entries.{entry_of};
ghost use Rattle.exec_calls.specs.KernelState.Stopping.{DoesBut};
ghost use Rattle.exec_transactions.specs.Calling.{IsOfProtocol};

use crate::judging::{Asked, judge};
use exec_calls::kernel_bodies_api::Program;
use exec_calls::kernel_state_api::{Kernel, StatementStop, settle};
use exec_calls::kernel_transactions_api::live_payloads_are_used;
use exec_calls::logic_values_api::Value;
use exec_calls::{EnterStop, enter_ready_call, reserve_call, reserve_locals};
use flat_design::{CodeId, RunFault, StmtId};
use std::alloc::{AllocError, Global};

/// The statement that comes next.
pub(crate) fn has_statement(k: &Kernel, p: u32, s: StmtId)
    requires { Shows k.now p s }
    ensures { HasStatement k.now p }
{
    let _ = s;
}

/// The arguments of a handler, in a vector that has room for all its local variables.
fn arguments_for(
    program: &Program,
    alloc: Global,
    f: CodeId,
    values: &[Value],
) -> Result<Vec<Value>, AllocError>
    ensures items { IfOk result (λ v. v.items ≡ values.now) }
    ensures room { IfOk result (HasRoomIn program.now f) }
{
    let mut arguments = Vec::new(alloc);
    match arguments.extend_from_slice(values) {
        Ok(()) => {}
        Err(_) => return Err(AllocError),
    }
    match reserve_locals(program, f, &mut arguments) {
        Ok(()) => Ok(arguments),
        Err(_) => Err(AllocError),
    }
}

/// The call is judged, and the body of its handler begins. All memory is taken before it is judged.
///
/// # Errors
/// As many calls are open as may be; no memory; the first rule that the call breaks. Then nothing changes.
fn enter(
    k: &mut Kernel,
    alloc: Global,
    p: u32,
    s: StmtId,
    f: CodeId,
    asked: Asked,
    values: &[Value],
) -> Result<(), StatementStop>
    requires sound { IsSound k.old }
    requires lives { Lives k.old p }
    requires next { Shows k.old p s }
    ensures calls { DoesBut IsOfProtocol k.old k.new result p (λ c q i r. on_ok (may_enter r) (λ ok. on_ok (judged c asked.via.hop (entry_of asked.via asked.phase (complete_in c.transactions asked.via.payload) true) asked.via.payload) (λ x. Ok (enters x q r s f values.now (Some asked.via))))) }
    ensures sound { IsSound k.new }
    ensures made { k.new.made ≡ k.old.made }
{
    has_statement(k, p, s);
    match reserve_call(k, p, f) {
        Ok(()) => {}
        Err(EnterStop::TooDeep) => return Err(StatementStop::Fault(RunFault::FrameDepth)),
        Err(EnterStop::NoMemory) => return Err(StatementStop::NoMemory),
    }
    let arguments = match arguments_for(k.program, alloc, f, values) {
        Ok(arguments) => arguments,
        Err(_) => return Err(StatementStop::NoMemory),
    };
    match judge(&mut k.transactions, asked, true) {
        Ok(()) => {
            enter_ready_call(k, p, f, arguments, Some(asked.via));
            Ok(())
        }
        Err(stop) => Err(stop),
    }
}

/// The call is judged where the other end has no handler, which is the last rule that it may break.
///
/// # Errors
/// No memory; the first rule that the call breaks. Then nothing changes.
fn unhandled(k: &mut Kernel, p: u32, asked: Asked) -> Result<(), StatementStop>
    requires sound { IsSound k.old }
    requires lives { Lives k.old p }
    ensures calls { DoesBut IsOfProtocol k.old k.new result p (λ c q i r. on_ok (judged c asked.via.hop (entry_of asked.via asked.phase (complete_in c.transactions asked.via.payload) false) asked.via.payload) (λ x. Ok x)) }
    ensures sound { IsSound k.new }
    ensures made { k.new.made ≡ k.old.made }
{
    match judge(&mut k.transactions, asked, false) {
        Ok(()) => {
            settle(k, p);
            Ok(())
        }
        Err(stop) => Err(stop),
    }
}

/// A call of a live payload, with the handler of the other end, where it has one.
///
/// # Errors
/// As many calls are open as may be, where there is a handler; no memory; the first rule that the call breaks. Then nothing
/// changes.
fn call_other_end(
    k: &mut Kernel,
    alloc: Global,
    p: u32,
    s: StmtId,
    handler: Option<CodeId>,
    asked: Asked,
    values: &[Value],
) -> Result<(), StatementStop>
    requires sound { IsSound k.old }
    requires lives { Lives k.old p }
    requires next { Shows k.old p s }
    ensures calls { DoesBut IsOfProtocol k.old k.new result p (λ c q i r. on_ok (may_enter_handler r handler) (λ ok. on_ok (judged c asked.via.hop (entry_of asked.via asked.phase (complete_in c.transactions asked.via.payload) (is_some handler)) asked.via.payload) (λ x. Ok (enters_handler x q r s handler values.now asked.via)))) }
    ensures sound { IsSound k.new }
    ensures made { k.new.made ≡ k.old.made }
{
    match handler {
        Some(f) => enter(k, alloc, p, s, f, asked, values),
        None => unhandled(k, p, asked),
    }
}

/// A transport call of a payload.
///
/// # Errors
/// A payload that was freed; as many calls are open as may be, where the other end has the handler; no memory; the first rule
/// that the call breaks. Then nothing changes.
pub(crate) fn call(
    k: &mut Kernel,
    alloc: Global,
    p: u32,
    s: StmtId,
    handler: Option<CodeId>,
    asked: Asked,
    values: &[Value],
) -> Result<(), StatementStop>
    requires sound { IsSound k.old }
    requires lives { Lives k.old p }
    requires next { Shows k.old p s }
    ensures calls { DoesBut IsOfProtocol k.old k.new result p (λ c q i r. on_ok (live_payload c asked.via.payload) (λ x. on_ok (may_enter_handler r handler) (λ ok. on_ok (judged c asked.via.hop (entry_of asked.via asked.phase (is_complete x) (is_some handler)) asked.via.payload) (λ y. Ok (enters_handler y q r s handler values.now asked.via))))) }
    ensures sound { IsSound k.new }
    ensures made { k.new.made ≡ k.old.made }
{
    live_payloads_are_used();
    if k.transactions.is_live(asked.via.payload) {
        call_other_end(k, alloc, p, s, handler, asked, values)
    } else {
        Err(StatementStop::Fault(RunFault::PayloadFreed {
            serial: asked.via.payload,
        }))
    }
}
