//! Writes of channels that ask for an update: of signals and buffers, and of resolved signals.
ghost use Rattle.std.specs.Prelude.{◌≡◌, OnOk, OnErr, slice_get};
ghost use Rattle.kernel_view.specs.SimModel.Channels as channels;
ghost use Rattle.kernel_view.specs.SimModel.Storing.{passes};
ghost use Rattle.kernel_view.specs.SimModel.Values as values;
ghost use Rattle.kernel_view.specs.KernelState.Kernel.{IsSound};
ghost use Rattle.kernel_view.specs.KernelState.Moves.{Moves, Steps, Does, Lives, HasStatement};

use flat_design::RunFault;
use kernel_view::kernel_channels_api::a_write_is_that_of_a_run;
use kernel_view::kernel_state_api::{Kernel, pass};
use kernel_view::logic_values_api::{Digit, Value, digit};
use std::alloc::AllocError;

/// A value is written to a signal or a buffer, which asks for an update (IEEE 1666-2011, 6.4.4).
///
/// # Errors
/// Another process stands as its writer, and then nothing changes.
#[inline(always)]
pub(crate) fn write_signal(k: &mut Kernel, p: u32, n: u32, v: Value) -> Result<(), RunFault>
    requires sound { IsSound k.old }
    requires lives { Lives k.old p }
    requires statement { HasStatement k.old p }
    ensures does { Does k.old k.new result p (λ c q i r. channels.write_signal (passes c q r) n v q (slice_get c.channels.signals n)) }
    ensures sound { IsSound k.new }
    ensures made { k.new.made ≡ k.old.made }
{
    a_write_is_that_of_a_run();
    match k.channels.write_signal(n, v, p) {
        Ok(()) => {
            pass(k, p);
            Ok(())
        }
        Err(conflict) => Err(RunFault::WriterConflict {
            first: conflict.first,
            second: conflict.second,
        }),
    }
}

/// The digit of place 0; X where there is none.
fn first_digit(v: Value) -> Digit
    ensures { result ≡ values.one_digit (values.digit_list v) }
{
    match v {
        Value::Logic(d) => d,
        Value::Vector(digits) => digit(digits, 0),
        Value::Bool(_)
        | Value::Int { .. }
        | Value::Uint { .. }
        | Value::Moment(_)
        | Value::Handle(_)
        | Value::Pay(_) => Digit::X,
    }
}

/// A process drives a value on a resolved signal, which asks for an update (IEEE 1666-2011, 6.13). The first time it takes
/// memory; where that is refused nothing changes.
#[inline(never)]
pub(crate) fn drive(k: &mut Kernel, p: u32, n: u32, v: Value) -> Result<(), AllocError>
    requires sound { IsSound k.old }
    requires lives { Lives k.old p }
    requires statement { HasStatement k.old p }
    ensures steps { OnOk result (Steps k.old k.new p (λ c q i r. channels.drive (passes c q r) n v q)) }
    ensures stays { OnErr result (Moves k.old k.new (λ c. c)) }
    ensures sound { IsSound k.new }
    ensures made { k.new.made ≡ k.old.made }
{
    match k.channels.drive(n, first_digit(v), p) {
        Ok(()) => {
            pass(k, p);
            Ok(())
        }
        Err(_) => Err(AllocError),
    }
}
