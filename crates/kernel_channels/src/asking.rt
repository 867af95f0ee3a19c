// The list of the signals that asked for an update.
ghost use Rattle.std.specs.Prelude.{◌≡◌, ◌<◌, false, slice_get, vec_len, vec_capacity};
ghost use Rattle.std.specs.List.Sorted.{IsNonDecreasing, IsPermutation};
ghost use Rattle.kernel_channels.specs.UpdateMarks.{asked_at, listed_with};

use kernel_events::signal_channel_api::Signal;

// Whether a signal asked.
#[inline(always)]
pub(crate) fn has_asked(signals: &[Signal], n: u32) -> bool
    ensures { result ≡ asked_at (slice_get signals.now n) }
{
    match signals.get(n as usize) {
        Some(signal) => signal.asked,
        None => false,
    }
}

// Lists one that asks now, if it had not asked before.
#[inline(always)]
pub(crate) fn list_one(listed: &mut Vec<u32>, had: bool, n: u32)
    requires { had ≡ false → vec_len listed.old < vec_capacity listed.old }
    ensures items { listed.new.items ≡ listed_with had n listed.old.items }
    ensures capacity { vec_capacity listed.new ≡ vec_capacity listed.old }
{
    if had {
        return;
    }
    listed.push_reserved(n);
}

// Puts the numbers in rising order, whatever order they stand in.
#[inline(never)]
fn sort_numbers(listed: &mut Vec<u32>)
    ensures sorted { IsNonDecreasing listed.new.items }
    ensures moved { IsPermutation listed.old.items listed.new.items }
    ensures capacity { vec_capacity listed.new ≡ vec_capacity listed.old }
{
    listed.sort_unstable();
}

// The same. A list of one stands so.
#[inline(always)]
pub(crate) fn put_in_order(listed: &mut Vec<u32>)
    ensures sorted { IsNonDecreasing listed.new.items }
    ensures moved { IsPermutation listed.old.items listed.new.items }
    ensures capacity { vec_capacity listed.new ≡ vec_capacity listed.old }
{
    if listed.len() > 1 {
        sort_numbers(listed);
    }
}
