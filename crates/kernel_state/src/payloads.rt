//! Statements on payloads (IEEE 1666-2011, 14.5).
ghost use Rattle.std.specs.Prelude.{◌≤◌, ◌≡◌, ◌<◌, ◌+◌, ◌^◌, length, Ok, OnErr};
ghost use Rattle.kernel_processes.specs.LogicValues.declared.kinds.Value.{Value as Values};
ghost use Rattle.kernel_processes.specs.SimModel.Values.{on_ok, bits, index_within};
ghost use Rattle.kernel_processes.specs.SimModel.Payloads.{with_acquired, with_released};
ghost use Rattle.kernel_processes.specs.SimModel.Reading.{live_payload};
ghost use Rattle.kernel_processes.specs.SimModel.Storing.{passes, bytes_in, set_payload, with_field, with_byte};
ghost use Rattle.kernel_processes.specs.SimModel.Transport.{with_pool};
ghost use Rattle.kernel_state.specs.Kernel.{IsSound};
ghost use Rattle.kernel_state.specs.Moves.{Does, Lives, HasStatement};

use crate::kernel::Kernel;
use crate::moves::pass;
use kernel_processes::flat_design_api::{PayloadBytes, PayloadField, RunFault};
use kernel_transactions::live_payloads_are_used;

/// A payload is held once more. It is a fault where it was freed, and then nothing changes.
pub fn acquire(k: &mut Kernel, p: u32, t: u32) -> Result<(), RunFault>
    requires sound { IsSound k.old }
    requires lives { Lives k.old p }
    requires statement { HasStatement k.old p }
    requires room { k.old.made < 2 ^ 31 + 2 }
    ensures does { Does k.old k.new result p (λ c q i r. on_ok (live_payload c t) (λ x. Ok (with_pool (passes c q r) (with_acquired c.transactions.pool t)))) }
    ensures sound { IsSound k.new }
    ensures made { k.new.made ≤ k.old.made + 1 }
    ensures refused { OnErr result (k.new.made ≡ k.old.made) }
{
    match k.transactions.acquire(t) {
        Ok(()) => {
            k.made += 1;
            pass(k, p);
            Ok(())
        }
        Err(fault) => Err(fault),
    }
}

/// A payload is held once less, and freed where nobody holds it any more. It is a fault where it was freed before, and then
/// nothing changes.
pub fn release(k: &mut Kernel, p: u32, t: u32) -> Result<(), RunFault>
    requires sound { IsSound k.old }
    requires lives { Lives k.old p }
    requires statement { HasStatement k.old p }
    ensures does { Does k.old k.new result p (λ c q i r. on_ok (live_payload c t) (λ x. Ok (with_pool (passes c q r) (with_released c.transactions.pool t)))) }
    ensures sound { IsSound k.new }
    ensures made { k.new.made ≡ k.old.made }
{
    match k.transactions.release(t) {
        Ok(()) => {
            pass(k, p);
            Ok(())
        }
        Err(fault) => Err(fault),
    }
}

/// A field of a payload gets the lowest bits of a value, which has these bits: 32 of them, and an address all 64. It is a fault
/// where the payload was freed, and then nothing changes.
pub fn set_field(
    k: &mut Kernel,
    p: u32,
    t: u32,
    field: PayloadField,
    n: u64,
) -> Result<(), RunFault>
    requires sound { IsSound k.old }
    requires lives { Lives k.old p }
    requires statement { HasStatement k.old p }
    ensures does { (v : Values) → bits v ≡ n → Does k.old k.new result p (λ c q i r. on_ok (live_payload c t) (λ x. Ok (set_payload (passes c q r) t (with_field field v x)))) }
    ensures sound { IsSound k.new }
    ensures made { k.new.made ≡ k.old.made }
{
    live_payloads_are_used();
    match k.transactions.set_field(t, field, n) {
        Ok(()) => {
            pass(k, p);
            Ok(())
        }
        Err(fault) => Err(fault),
    }
}

/// A byte of a payload, or one of its enable bytes, is written. It is a fault where the payload was freed, or has no such byte,
/// and then nothing changes.
pub fn set_byte(
    k: &mut Kernel,
    p: u32,
    t: u32,
    part: PayloadBytes,
    at: u64,
    byte: u8,
) -> Result<(), RunFault>
    requires sound { IsSound k.old }
    requires lives { Lives k.old p }
    requires statement { HasStatement k.old p }
    ensures does { Does k.old k.new result p (λ c q i r. on_ok (live_payload c t) (λ x. on_ok (index_within at (length (bytes_in part x))) (λ n. Ok (set_payload (passes c q r) t (with_byte part n byte x))))) }
    ensures sound { IsSound k.new }
    ensures made { k.new.made ≡ k.old.made }
{
    live_payloads_are_used();
    match k.transactions.set_byte(t, part, at, byte) {
        Ok(()) => {
            pass(k, p);
            Ok(())
        }
        Err(fault) => Err(fault),
    }
}
