//! The statements that call over a socket.
ghost use Rattle.std.specs.Prelude.{◌≡◌, Some};
ghost use Rattle.exec_calls.specs.SimModel.Reading.{here};
ghost use Rattle.exec_calls.specs.SimModel.Transport as transport;
ghost use Rattle.exec_calls.specs.SimModel.Transport.{do_b_transport, do_nb_transport};
ghost use Rattle.exec_calls.specs.KernelState.Kernel.{IsSound};
ghost use Rattle.exec_calls.specs.KernelState.Moves.{Lives};
ghost use Rattle.exec_calls.specs.ExecData.Entered.{Shows};
ghost use Rattle.exec_calls.specs.KernelState.Stopping.{DoesBut};
ghost use Rattle.exec_transactions.specs.Calling.{IsOfProtocol};

use crate::entering::{call, has_statement};
use crate::judging::Asked;
use crate::sockets::{blocking_handler, nonblocking_handler, socket_of};
use crate::values::value_at;
use exec_calls::kernel_state_api::{Kernel, StatementStop, pass};
use exec_calls::kernel_view_api::{denoted_at, payload_at};
use exec_calls::logic_values_api::Value;
use exec_calls::sim_model_api::Via;
use flat_design::{NameUse, StmtId};
use std::alloc::Global;

/// A blocking call over the hop of this end.
fn b_transport_on(
    k: &mut Kernel,
    alloc: Global,
    p: u32,
    s: StmtId,
    end: (u32, bool),
    n: NameUse,
    d: NameUse,
) -> Result<(), StatementStop>
    requires sound { IsSound k.old }
    requires lives { Lives k.old p }
    requires next { Shows k.old p s }
    ensures calls { DoesBut IsOfProtocol k.old k.new result p (λ c q i r. transport.b_transport_on c q r (here c q i r) s n d (Some end)) }
    ensures sound { IsSound k.new }
    ensures made { k.new.made ≡ k.old.made }
{
    let payload = match payload_at(k, p, n) {
        Ok(t) => t,
        Err(fault) => return Err(StatementStop::Fault(fault)),
    };
    let (hop, _) = end;
    let handler = blocking_handler(&k.design, hop);
    let delay = value_at(k, p, d);
    let via = Via {
        hop,
        forward: true,
        blocking: true,
        payload,
    };
    let asked = Asked { via, phase: delay };
    let values = [Value::Pay(Some(payload)), delay];
    call(k, alloc, p, s, handler, asked, &values)
}

/// `b_transport`: a call over a socket that ends when the transaction does (IEEE 1666-2011, 11.1.1). The payload and the delay are
/// the arguments of the target's handler, which begins.
///
/// # Errors
/// An empty handle; a payload that was freed; as many calls are open as may be, where the target has a handler; the first rule
/// of the base protocol that the call breaks (IEEE 1666-2011, 15.2); or no memory, where none of the first three is. Then nothing
/// changes.
pub fn b_transport(
    k: &mut Kernel,
    alloc: Global,
    p: u32,
    s: StmtId,
    socket: u32,
    n: NameUse,
    d: NameUse,
) -> Result<(), StatementStop>
    requires sound { IsSound k.old }
    requires lives { Lives k.old p }
    requires next { Shows k.old p s }
    ensures calls { DoesBut IsOfProtocol k.old k.new result p (λ c q i r. do_b_transport c q r (here c q i r) s socket n d) }
    ensures sound { IsSound k.new }
    ensures made { k.new.made ≡ k.old.made }
{
    match socket_of(denoted_at(k, p, socket)) {
        Some(end) => b_transport_on(k, alloc, p, s, end, n, d),
        None => {
            has_statement(k, p, s);
            pass(k, p);
            Ok(())
        }
    }
}

/// A non-blocking call over the hop of this end.
fn nb_transport_on(
    k: &mut Kernel,
    alloc: Global,
    p: u32,
    s: StmtId,
    end: (u32, bool),
    n: NameUse,
    phase: NameUse,
    d: NameUse,
) -> Result<(), StatementStop>
    requires sound { IsSound k.old }
    requires lives { Lives k.old p }
    requires next { Shows k.old p s }
    ensures calls { DoesBut IsOfProtocol k.old k.new result p (λ c q i r. transport.nb_transport_on c q r (here c q i r) s n phase d (Some end)) }
    ensures sound { IsSound k.new }
    ensures made { k.new.made ≡ k.old.made }
{
    let payload = match payload_at(k, p, n) {
        Ok(t) => t,
        Err(fault) => return Err(StatementStop::Fault(fault)),
    };
    let (hop, forward) = end;
    let handler = nonblocking_handler(&k.design, forward, hop);
    let step = value_at(k, p, phase);
    let delay = value_at(k, p, d);
    let via = Via {
        hop,
        forward,
        blocking: false,
        payload,
    };
    let asked = Asked { via, phase: step };
    let values = [Value::Pay(Some(payload)), step, delay];
    call(k, alloc, p, s, handler, asked, &values)
}

/// `nb_transport`, forward or backward: a call over a socket that hands a phase over and does not wait (IEEE 1666-2011, 11.1.2). The
/// payload, the phase and the delay are the arguments of the other end's handler, which begins.
///
/// # Errors
/// An empty handle; a payload that was freed; as many calls are open as may be, where the other end has a handler; the first rule
/// of the base protocol that the call breaks (IEEE 1666-2011, 15.2); or no memory, where none of the first three is. Then nothing
/// changes.
pub fn nb_transport(
    k: &mut Kernel,
    alloc: Global,
    p: u32,
    s: StmtId,
    socket: u32,
    n: NameUse,
    phase: NameUse,
    d: NameUse,
) -> Result<(), StatementStop>
    requires sound { IsSound k.old }
    requires lives { Lives k.old p }
    requires next { Shows k.old p s }
    ensures calls { DoesBut IsOfProtocol k.old k.new result p (λ c q i r. do_nb_transport c q r (here c q i r) s socket n phase d) }
    ensures sound { IsSound k.new }
    ensures made { k.new.made ≡ k.old.made }
{
    match socket_of(denoted_at(k, p, socket)) {
        Some(end) => nb_transport_on(k, alloc, p, s, end, n, phase, d),
        None => {
            has_statement(k, p, s);
            pass(k, p);
            Ok(())
        }
    }
}
