//! Statements on payloads: they are made, held and let go (IEEE 1666-2011, 14.5).
ghost use Rattle.std.specs.Prelude.{◌≤◌, ◌≡◌, ◌<◌, ◌+◌, ◌^◌, option_map, OnErr};
ghost use Rattle.flat_design.specs.Code.{term_of};
ghost use Rattle.exec_calls.specs.SimModel.Reading.{here};
ghost use Rattle.exec_calls.specs.SimModel.Transport as transport;
ghost use Rattle.exec_calls.specs.SimModel.Transport.{do_acquire, do_make, do_release};
ghost use Rattle.exec_calls.specs.KernelState.Kernel.{IsSound};
ghost use Rattle.exec_calls.specs.KernelState.Moves.{Does, Lives, HasStatement, IsOnTop};
ghost use Rattle.exec_calls.specs.KernelState.Stopping.{DoesOrStops};
ghost use Rattle.exec_transactions.specs.Sized.{makes_sized, stop_as};

use exec_calls::exec_data_api::store;
use exec_calls::expr_eval_api::bits;
use exec_calls::kernel_state_api::{
    Kernel, StatementStop, acquire as acquire_payload, release as release_payload, top_lives,
};
use exec_calls::kernel_transactions_api::{MakeStop, payloads_are_made};
use exec_calls::kernel_view_api::{eval_at, eval_if_at, payload_at};
use exec_calls::logic_values_api::Value;
use flat_design::{Expr, NameUse, RunFault, Store, ValueType};

/// `acquire`: the payload that a name holds is held once more (IEEE 1666-2011, 14.5). It takes no memory.
///
/// # Errors
/// An empty handle; a payload that was freed. Then nothing changes.
pub fn acquire(k: &mut Kernel, p: u32, n: NameUse) -> Result<(), RunFault>
    requires sound { IsSound k.old }
    requires lives { Lives k.old p }
    requires statement { HasStatement k.old p }
    requires room { k.old.made < 2 ^ 31 + 2 }
    ensures does { Does k.old k.new result p (λ c q i r. do_acquire c q r (here c q i r) n) }
    ensures sound { IsSound k.new }
    ensures made { k.new.made ≤ k.old.made + 1 }
    ensures refused { OnErr result (k.new.made ≡ k.old.made) }
{
    match payload_at(k, p, n) {
        Ok(t) => acquire_payload(k, p, t),
        Err(fault) => Err(fault),
    }
}

/// `release`: the payload that a name holds is held once less, and freed where nobody holds it any more (IEEE 1666-2011, 14.5).
/// It takes no memory.
///
/// # Errors
/// An empty handle; a payload that was freed before. Then nothing changes.
pub fn release(k: &mut Kernel, p: u32, n: NameUse) -> Result<(), RunFault>
    requires sound { IsSound k.old }
    requires lives { Lives k.old p }
    requires statement { HasStatement k.old p }
    ensures does { Does k.old k.new result p (λ c q i r. do_release c q r (here c q i r) n) }
    ensures sound { IsSound k.new }
    ensures made { k.new.made ≡ k.old.made }
{
    match payload_at(k, p, n) {
        Ok(t) => release_payload(k, p, t),
        Err(fault) => Err(fault),
    }
}

/// The number of enable bytes: none where it is not written.
fn size_or(v: Option<Value>) -> u64
    ensures { result ≡ transport.size_or v }
{
    match v {
        Some(x) => bits(x),
        None => 0,
    }
}

/// Why the statement is not carried out that makes no payload.
fn stopped_by(stop: MakeStop) -> StatementStop
    ensures { result ≡ stop_as stop }
{
    match stop {
        MakeStop::Fault(fault) => StatementStop::Fault(fault),
        MakeStop::NoMemory => StatementStop::NoMemory,
    }
}

/// A payload is made with so many bytes and so many enable bytes, and a variable holds it.
///
/// # Errors
/// Fewer than one byte or more than 4,096; more than 4,096 enable bytes; as many live payloads as there may be; no memory, where
/// there is no fault. Then nothing changes.
fn make_sized(
    k: &mut Kernel,
    p: u32,
    n: NameUse,
    len: u64,
    enables: u64,
) -> Result<(), StatementStop>
    requires sound { IsSound k.old }
    requires top { IsOnTop k.old p }
    requires statement { HasStatement k.old p }
    requires room { k.old.made < 2 ^ 31 + 2 }
    ensures does { DoesOrStops k.old k.new result p (λ c q i r. makes_sized c q r (here c q i r) n len enables) }
    ensures sound { IsSound k.new }
    ensures made { k.new.made ≤ k.old.made + 1 }
    ensures refused { OnErr result (k.new.made ≡ k.old.made) }
{
    payloads_are_made();
    match k.transactions.make(len, enables) {
        Ok(t) => {
            k.made += 1;
            let target = Store {
                name: n,
                value_type: ValueType::Payload,
            };
            store(k, p, target, Value::Pay(Some(t)));
            Ok(())
        }
        Err(stop) => Err(stopped_by(stop)),
    }
}

/// `make`: a payload that nobody has written is made, with a number of bytes and one of enable bytes, held once, and a variable
/// holds it (IEEE 1666-2011, 14.5 and 14.7).
///
/// # Errors
/// The fault of its first expression, then that of its second; fewer than one byte or more than 4,096; more than 4,096 enable
/// bytes; as many live payloads as there may be; no memory, where there is no fault. Then nothing changes.
pub fn make(
    k: &mut Kernel,
    p: u32,
    n: NameUse,
    len: &Expr,
    enables: &Option<Expr>,
) -> Result<(), StatementStop>
    requires sound { IsSound k.old }
    requires top { IsOnTop k.old p }
    requires statement { HasStatement k.old p }
    requires room { k.old.made < 2 ^ 31 + 2 }
    ensures does { DoesOrStops k.old k.new result p (λ c q i r. do_make c q r (here c q i r) n (term_of len.now) (option_map term_of enables.now)) }
    ensures sound { IsSound k.new }
    ensures made { k.new.made ≤ k.old.made + 1 }
    ensures refused { OnErr result (k.new.made ≡ k.old.made) }
{
    top_lives(k, p);
    match eval_at(k, p, len) {
        Ok(size) => match eval_if_at(k, p, enables) {
            Ok(more) => make_sized(k, p, n, bits(size), size_or(more)),
            Err(fault) => Err(StatementStop::Fault(fault)),
        },
        Err(fault) => Err(StatementStop::Fault(fault)),
    }
}
