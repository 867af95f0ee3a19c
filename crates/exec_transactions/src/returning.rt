//! Transport calls that return: the return is judged first, and then what is handed back is stored.
ghost use Rattle.std.specs.Prelude.{◌≡◌, Some, None, Ok};
ghost use Rattle.exec_calls.specs.TransportPhases.History.{BReturn, Return};
ghost use Rattle.exec_calls.specs.SimModel.Residual.{put, skip};
ghost use Rattle.exec_calls.specs.SimModel.Configuration.{Config, Instance, instance_at};
ghost use Rattle.exec_calls.specs.SimModel.Values.{on_ok};
ghost use Rattle.exec_calls.specs.SimModel.Reading.{Here, here};
ghost use Rattle.exec_calls.specs.SimModel.Storing.{passes, set_name, stored_if};
ghost use Rattle.exec_calls.specs.SimModel.Transport.{complete_now, int_of, judged_return};
ghost use Rattle.exec_calls.specs.KernelState.Kernel.{StandsFor, IsSound};
ghost use Rattle.exec_calls.specs.KernelState.Moves.{Does, Steps, Lives};
ghost use Rattle.exec_calls.specs.Calling.{Leaves};
ghost use Rattle.exec_calls.specs.Leaving.{CalledBy, LeavesBy};
ghost use Rattle.exec_transactions.specs.Ending.{Ends, IsBTransport, IsNbTransport};

use crate::endings::{Ending, ending_at};
use crate::judging::nb_returned;
use exec_calls::kernel_state_api::Kernel;
use exec_calls::logic_values_api::Value;
use exec_calls::sim_model_api::Via;
use exec_calls::{home_at, leave_call, store_if_in, store_in};
use flat_design::{NameUse, RunFault, Store};

/// A call ends that hands nothing back.
fn leave(k: &mut Kernel, p: u32)
    requires sound { IsSound k.old }
    requires lives { Lives k.old p }
    requires leaves { Leaves k.old p }
    ensures steps { Steps k.old k.new p (λ c q i r. passes c q r) }
    ensures lives { Lives k.new p }
    ensures sound { IsSound k.new }
    ensures made { k.new.made ≡ k.old.made }
{
    let _ = leave_call(k, p);
}

/// The delay of a call that has ended goes into its variable.
fn hand_back_delay(k: &mut Kernel, p: u32, d: NameUse, delay: Value)
    requires sound { IsSound k.old }
    requires lives { Lives k.old p }
    ensures moves { (c : Config) (i : Instance) (h : Here) → StandsFor k.old c → instance_at c p ≡ Some i → h.config.design ≡ c.design → h.home ≡ (here c p i i.residual).home → StandsFor k.new (set_name c p h d delay) }
    ensures sound { IsSound k.new }
    ensures made { k.new.made ≡ k.old.made }
{
    let home = home_at(k, p);
    store_in(k, p, home, d, delay);
}

/// A blocking call returns: it is judged, its frame is taken away, and the delay is stored. It takes no memory.
///
/// # Errors
/// That the payload has no response, or was freed; then nothing changes.
fn return_blocking(
    k: &mut Kernel,
    p: u32,
    via: Via,
    d: NameUse,
    delay: Value,
) -> Result<(), RunFault>
    requires sound { IsSound k.old }
    requires lives { Lives k.old p }
    requires leaves { Leaves k.old p }
    ensures does { Does k.old k.new result p (λ c q i r. on_ok (judged_return (passes c q r) via.hop (BReturn via.payload (complete_now (passes c q r) via.payload)) via.payload) (λ y. Ok (set_name y q (here (passes c q r) q i (put r skip)) d delay))) }
    ensures sound { IsSound k.new }
    ensures made { k.new.made ≡ k.old.made }
{
    match k.transactions.b_returned(via.hop, via.payload) {
        Ok(()) => {
            leave(k, p);
            hand_back_delay(k, p, d, delay);
            Ok(())
        }
        Err(fault) => Err(fault),
    }
}

/// The end of a call by a `b_transport` statement, with all that is seen of it.
fn end_blocking(k: &mut Kernel, p: u32, ending: Ending, d: NameUse) -> Result<(), RunFault>
    requires sound { IsSound k.old }
    requires lives { Lives k.old p }
    requires leaves { Leaves k.old p }
    requires ends { Ends k.old p ending }
    requires called { CalledBy k.old p (IsBTransport d) }
    ensures does { LeavesBy k.old k.new result p }
    ensures sound { IsSound k.new }
    ensures made { k.new.made ≡ k.old.made }
{
    match ending.via {
        Some(via) => {
            let delay = ending.first.unwrap_or(Value::Moment(0));
            return_blocking(k, p, via, d, delay)
        }
        None => {
            leave(k, p);
            Ok(())
        }
    }
}

/// A call that a `b_transport` statement made returns (IEEE 1666-2011, 11.1.1): the return is judged by its hop, and then the delay
/// is stored where the statement stands. Where the call serves no transport call it hands nothing back. It takes no memory.
///
/// # Errors
/// That the payload has no response, or was freed; then nothing changes.
pub fn b_transport_returns(k: &mut Kernel, p: u32, d: NameUse) -> Result<(), RunFault>
    requires sound { IsSound k.old }
    requires lives { Lives k.old p }
    requires leaves { Leaves k.old p }
    requires called { CalledBy k.old p (IsBTransport d) }
    ensures does { LeavesBy k.old k.new result p }
    ensures sound { IsSound k.new }
    ensures made { k.new.made ≡ k.old.made }
{
    let ending = ending_at(k, p);
    end_blocking(k, p, ending, d)
}

/// Where a non-blocking call hands its phase, its delay and its answer back.
#[derive(Clone, Copy)]
struct Handed {
    /// The variable of the answer, where one is written for it.
    target: Option<Store>,
    /// The variable of the phase.
    phase: NameUse,
    /// The variable of the delay.
    delay: NameUse,
}

/// What a non-blocking call hands back.
#[derive(Clone, Copy)]
struct Values {
    /// The answer.
    answer: Value,
    /// The phase.
    phase: Value,
    /// The delay.
    delay: Value,
}

/// The phase, the delay and the answer of a call that has ended go into their variables, in this order.
fn hand_back(k: &mut Kernel, p: u32, to: Handed, v: Values)
    requires sound { IsSound k.old }
    requires lives { Lives k.old p }
    ensures moves { (c : Config) (i : Instance) (h : Here) → StandsFor k.old c → instance_at c p ≡ Some i → h.config.design ≡ c.design → h.home ≡ (here c p i i.residual).home
        → StandsFor k.new (stored_if (set_name (set_name c p h to.phase v.phase) p h to.delay v.delay) p h to.target v.answer) }
    ensures sound { IsSound k.new }
    ensures made { k.new.made ≡ k.old.made }
{
    let home = home_at(k, p);
    store_in(k, p, home, to.phase, v.phase);
    store_in(k, p, home, to.delay, v.delay);
    store_if_in(k, p, home, to.target, v.answer);
}

/// A non-blocking call returns: it is judged, its frame is taken away, and what it hands back is stored. It takes no memory.
///
/// # Errors
/// The first rule that the return breaks, or that the payload was freed where a response is missing; then nothing changes.
fn return_nonblocking(
    k: &mut Kernel,
    p: u32,
    via: Via,
    to: Handed,
    v: Values,
) -> Result<(), RunFault>
    requires sound { IsSound k.old }
    requires lives { Lives k.old p }
    requires leaves { Leaves k.old p }
    ensures does { Does k.old k.new result p (λ c q i r. on_ok (judged_return (passes c q r) via.hop (Return via.payload (int_of v.answer) (int_of v.phase) (complete_now (passes c q r) via.payload)) via.payload)
        (λ y. Ok (stored_if (set_name (set_name y q (here (passes c q r) q i (put r skip)) to.phase v.phase) q (here (passes c q r) q i (put r skip)) to.delay v.delay) q (here (passes c q r) q i (put r skip)) to.target v.answer))) }
    ensures sound { IsSound k.new }
    ensures made { k.new.made ≡ k.old.made }
{
    match nb_returned(&mut k.transactions, via.hop, via.payload, v.answer, v.phase) {
        Ok(()) => {
            leave(k, p);
            hand_back(k, p, to, v);
            Ok(())
        }
        Err(fault) => Err(fault),
    }
}

/// The end of a call by an `nb_transport` statement, with all that is seen of it.
fn end_nonblocking(k: &mut Kernel, p: u32, ending: Ending, to: Handed) -> Result<(), RunFault>
    requires sound { IsSound k.old }
    requires lives { Lives k.old p }
    requires leaves { Leaves k.old p }
    requires ends { Ends k.old p ending }
    requires called { CalledBy k.old p (IsNbTransport to.target to.phase to.delay) }
    ensures does { LeavesBy k.old k.new result p }
    ensures sound { IsSound k.new }
    ensures made { k.new.made ≡ k.old.made }
{
    match ending.via {
        Some(via) => {
            let phase = ending.first.unwrap_or(Value::Int { width: 32, bits: 0 });
            let delay = ending.second.unwrap_or(Value::Moment(0));
            let values = Values {
                answer: ending.answer,
                phase,
                delay,
            };
            return_nonblocking(k, p, via, to, values)
        }
        None => {
            leave(k, p);
            Ok(())
        }
    }
}

/// A call that an `nb_transport` statement made returns (IEEE 1666-2011, 11.1.2.7): the return is judged by its hop, and then the
/// phase, the delay and the answer, where a variable is written for it, are stored where the statement stands. Where the call
/// serves no transport call it hands nothing back. It takes no memory.
///
/// # Errors
/// The first rule of the base protocol that the return breaks (IEEE 1666-2011, 15.2), or that the payload was freed where a
/// response is missing; then nothing changes.
pub fn nb_transport_returns(
    k: &mut Kernel,
    p: u32,
    target: Option<Store>,
    phase: NameUse,
    d: NameUse,
) -> Result<(), RunFault>
    requires sound { IsSound k.old }
    requires lives { Lives k.old p }
    requires leaves { Leaves k.old p }
    requires called { CalledBy k.old p (IsNbTransport target phase d) }
    ensures does { LeavesBy k.old k.new result p }
    ensures sound { IsSound k.new }
    ensures made { k.new.made ≡ k.old.made }
{
    let ending = ending_at(k, p);
    let to = Handed {
        target,
        phase,
        delay: d,
    };
    end_nonblocking(k, p, ending, to)
}
