//! Assignments.
ghost use Rattle.std.specs.Prelude.{◌≡◌};
ghost use Rattle.flat_design.specs.Code as code;
ghost use Rattle.flat_design.specs.Code.{Term};
ghost use Rattle.kernel_view.specs.SimModel.Reading.{here};
ghost use Rattle.kernel_view.specs.SimModel.Storing as storing;
ghost use Rattle.kernel_view.specs.SimModel.Storing.{do_assign};
ghost use Rattle.kernel_view.specs.KernelState.Kernel.{IsSound};
ghost use Rattle.kernel_view.specs.KernelState.Moves.{Does, HasStatement, IsOnTop};
ghost use Rattle.kernel_view.specs.Standings.{Gives};

use crate::storing::store;
use flat_design::{NameUse, PayloadBytes, PayloadField, RunFault, Store};
use kernel_view::expr_eval_api::bits;
use kernel_view::kernel_state_api::{Kernel, set_byte, set_field, top_lives};
use kernel_view::logic_values_api::Value;
use kernel_view::payload_at;

/// An assignment to a variable: the value is cut to the variable's type.
///
/// # Errors
/// The fault of its expression, and then nothing changes.
#[inline(always)]
pub(crate) fn assign_name(
    k: &mut Kernel,
    p: u32,
    target: Store,
    v: Result<Value, RunFault>,
) -> Result<(), RunFault>
    requires sound { IsSound k.old }
    requires top { IsOnTop k.old p }
    requires statement { HasStatement k.old p }
    ensures does { (e : Term) → Gives k.old p v e → Does k.old k.new result p (λ c q i r. do_assign c q r (here c q i r) (code.to_name target) e) }
    ensures sound { IsSound k.new }
    ensures made { k.new.made ≡ k.old.made }
{
    match v {
        Ok(x) => {
            store(k, p, target, x);
            Ok(())
        }
        Err(fault) => Err(fault),
    }
}

/// An assignment to a field of a payload.
///
/// # Errors
/// The fault of its expression; an empty handle; a payload that was freed. Then nothing changes.
pub(crate) fn assign_field(
    k: &mut Kernel,
    p: u32,
    n: NameUse,
    field: PayloadField,
    v: Result<Value, RunFault>,
) -> Result<(), RunFault>
    requires sound { IsSound k.old }
    requires top { IsOnTop k.old p }
    requires statement { HasStatement k.old p }
    ensures does { (e : Term) → Gives k.old p v e → Does k.old k.new result p (λ c q i r. do_assign c q r (here c q i r) (code.to_field n field) e) }
    ensures sound { IsSound k.new }
    ensures made { k.new.made ≡ k.old.made }
{
    top_lives(k, p);
    match v {
        Ok(x) => match payload_at(k, p, n) {
            Ok(t) => set_field(k, p, t, field, bits(x)),
            Err(fault) => Err(fault),
        },
        Err(fault) => Err(fault),
    }
}

/// An assignment to a byte of a payload, or to one of its enable bytes, of the low 8 bits.
///
/// # Errors
/// The fault of its index, and then that of its expression; an empty handle; a payload that was freed; an index past the last
/// byte. Then nothing changes.
pub(crate) fn assign_payload_byte(
    k: &mut Kernel,
    p: u32,
    n: NameUse,
    part: PayloadBytes,
    index: Result<Value, RunFault>,
    v: Result<Value, RunFault>,
) -> Result<(), RunFault>
    requires sound { IsSound k.old }
    requires top { IsOnTop k.old p }
    requires statement { HasStatement k.old p }
    ensures does { (at e : Term) → Gives k.old p index at → Gives k.old p v e → Does k.old k.new result p (λ c q i r. do_assign c q r (here c q i r) (code.to_payload_byte n part at) e) }
    ensures sound { IsSound k.new }
    ensures made { k.new.made ≡ k.old.made }
{
    top_lives(k, p);
    match index {
        Ok(i) => match v {
            Ok(x) => match payload_at(k, p, n) {
                Ok(t) => set_byte(k, p, t, part, bits(i), low_byte(x)),
                Err(fault) => Err(fault),
            },
            Err(fault) => Err(fault),
        },
        Err(fault) => Err(fault),
    }
}

/// The low 8 bits of a number.
fn low_byte(v: Value) -> u8
    ensures { result ≡ storing.low_byte v }
{
    (bits(v) % 256) as u8
}
