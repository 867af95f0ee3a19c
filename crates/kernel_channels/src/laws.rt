ghost use Rattle.std.specs.Prelude.{◌≡◌, ◌==◌, ℕ, not, false, List, Option, None, Some, Ok, Err, option_map, slice_get};
ghost use Rattle.kernel_events.specs.LogicValues.declared.kinds.Value.{Value};
ghost use Rattle.kernel_events.specs.SignalChannel.declared.signal.WriterConflict.{WriterConflict};
ghost use Rattle.kernel_events.specs.FlatDesign.declared.faults.RunFault.TheVariants as fault;
ghost use Rattle.kernel_events.specs.SimModel.Configuration.{Config, Channels, change};
ghost use Rattle.kernel_events.specs.FifoSync.Fifos.{Queued, free, readable, after_read, after_write};
ghost use Rattle.kernel_events.specs.FifoSync.Locks.{is_unlocked, is_owner, locked_by, unlocked_by, is_used_up};
ghost use Rattle.kernel_events.specs.SimModel.Channels.{write_signal, with_channels, taken_from};
ghost use Rattle.kernel_events.specs.SimModel.Phases.{update_phase, channels_updated};
ghost use Rattle.kernel_channels.specs.Announced.{told_by};
ghost use Rattle.kernel_channels.specs.Writers.{conflict_at, written_unless};

/// An update phase leaves the channels updated, what they announced pending, and all else of a configuration as it was.
pub fn what_an_update_phase_announces()
    ensures { (c : Config) → update_phase c ≡ record c { events = told_by c.design c.channels c.events; channels = channels_updated c.channels } }
{}

/// A write of a signal by an instance is a fault of the run where it is a conflict, and else the signal has been written.
pub fn a_write_is_that_of_a_run()
    ensures written { (c : Config) (n : ℕ) (v : Value) (p : ℕ) → conflict_at (Some p) (slice_get c.channels.signals n) ≡ None
        → write_signal c n v p (slice_get c.channels.signals n) ≡ Ok (with_channels c (λ (x : Channels). record x { signals = change x.signals n (written_unless (Some p) v) })) }
    ensures refused { (c : Config) (n : ℕ) (v : Value) (p : ℕ) (w : WriterConflict) → conflict_at (Some p) (slice_get c.channels.signals n) ≡ Some w
        → write_signal c n v p (slice_get c.channels.signals n) ≡ Err (fault.WriterConflict w.first w.second) }
{}

/// A call on a fifo, a mutex or a semaphore that was not done leaves all of them as they were.
pub fn what_is_not_done_changes_nothing()
    ensures read { (qs : List Queued) (n : ℕ) → option_map readable (slice_get qs n) ≡ Some None → change qs n after_read ≡ qs }
    ensures write { (qs : List Queued) (n : ℕ) (v : Value) → option_map (λ q. not (free q == 0)) (slice_get qs n) ≡ Some false → change qs n (λ q. after_write q v) ≡ qs }
    ensures lock { (ms : List (Option ℕ)) (n p : ℕ) → option_map is_unlocked (slice_get ms n) ≡ Some false → change ms n (locked_by p) ≡ ms }
    ensures unlock { (ms : List (Option ℕ)) (n p : ℕ) → option_map (is_owner p) (slice_get ms n) ≡ Some false → change ms n (unlocked_by p) ≡ ms }
    ensures wait { (vs : List ℕ) (n : ℕ) → option_map (λ v. not (is_used_up v)) (slice_get vs n) ≡ Some false → change vs n taken_from ≡ vs }
{}
