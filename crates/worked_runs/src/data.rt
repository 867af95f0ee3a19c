//! Runs of signals, values and the script's commands.
ghost use Rattle.std.specs.Prelude.{◌≡◌, [], ◌∷◌, codes, Some, true};
ghost use Rattle.sim_model.specs.LogicValues.declared.kinds.Value.TheVariants as value;
ghost use Rattle.sim_model.specs.declared.plain.Log.TheVariants as log_of;
ghost use Rattle.sim_model.specs.declared.plain.Rule.TheVariants as rule;
ghost use Rattle.worked_runs.specs.Build.{empty, signal, many_signal};
ghost use Rattle.worked_runs.specs.Rows as rows;
ghost use Rattle.worked_runs.specs.Run.{told, told_under, traced, run, run_for, set, show};

/// A model with nothing in it ends at once.
pub fn nothing_is_run()
    ensures ends { told 5 [] empty (run ∷ []) ≡ Some (codes "end done 0\n") }
{}

/// A value that is written is read after the update, and a report may tell the turns.
pub fn a_written_value_is_read_after_the_update()
    ensures reads { told 14 (0 ∷ 0 ∷ []) rows.writer (run ∷ []) ≡ Some (codes "0 m.t a 0\n0 m.t a 5\nfinal m.a 5\nend done 0\n") }
    ensures turns { told_under rule.First log_of.Turns 10000000 14 (0 ∷ 0 ∷ []) rows.writer (run ∷ []) ≡ Some (codes "0 m.t turn 0\n0 m.t a 0\n0 m.t turn 0\n0 m.t a 5\nfinal m.a 5\nend done 0\n") }
{}

/// A second writer of a signal is a fault that names both, in the order of their writes.
pub fn a_second_writer_is_a_fault()
    ensures first { told 6 (0 ∷ 1 ∷ []) rows.two_writers (run ∷ []) ≡ Some (codes "final m.a 0\nend fault 0 WriterConflict 0 1\n") }
    ensures last { told_under rule.Last log_of.Prints 10000000 6 (1 ∷ 0 ∷ []) rows.two_writers (run ∷ []) ≡ Some (codes "final m.a 0\nend fault 0 WriterConflict 1 0\n") }
{}

/// A signal has one writer over the whole run, and one that several processes may write has one in each evaluation phase; the
/// script is no writer.
pub fn a_signal_has_a_writer()
    ensures one { told 11 (0 ∷ 1 ∷ 1 ∷ []) (rows.writes_later signal) (run ∷ []) ≡ Some (codes "final m.a 1\nend fault 1000 WriterConflict 0 1\n") }
    ensures many { told 16 (0 ∷ 1 ∷ 1 ∷ []) (rows.writes_later many_signal) (run ∷ []) ≡ Some (codes "final m.a 0\nend done 1000\n") }
    ensures at_once { told 6 (0 ∷ 1 ∷ []) rows.shared_writers (run ∷ []) ≡ Some (codes "final m.a 0\nend fault 0 WriterConflict 0 1\n") }
    ensures script { told 17 (0 ∷ 1 ∷ 1 ∷ []) (rows.writes_later many_signal) (set 0 (value.Bool true) ∷ run ∷ []) ≡ Some (codes "final m.a 0\nend done 1000\n") }
{}

/// A choice takes one of two blocks, and goes on behind them.
pub fn a_choice_takes_one_block()
    ensures takes { told 22 (0 ∷ 0 ∷ []) rows.chooses (run ∷ set 0 (value.Bool true) ∷ run ∷ []) ≡ Some (codes "0 m.s off\n0 m.s behind\n0 m.s on\n0 m.s behind\nfinal m.a 1\nend done 0\n") }
{}

/// What several threads drive is resolved.
pub fn drivers_are_resolved()
    ensures resolves { told 13 (0 ∷ 1 ∷ []) rows.drivers (run ∷ []) ≡ Some (codes "final m.r X\nfinal m.s 1\nend done 0\n") }
{}

/// A fifo of one place blocks its writer when full, and its reader when empty.
pub fn a_fifo_blocks()
    ensures blocks { told 39 (0 ∷ 1 ∷ 1 ∷ 0 ∷ 1 ∷ 0 ∷ 1 ∷ []) rows.through_fifo (run ∷ []) ≡ Some (codes "0 m.c x 1\n0 m.c x 2\n0 m.c x 3\nend done 0\n") }
{}

/// What the script sets is seen after the update.
pub fn the_script_sets_and_shows()
    ensures shows { told 8 [] rows.set_by_script (set 0 (value.Bool true) ∷ show 0 ∷ run ∷ show 0 ∷ []) ≡ Some (codes "0 script m.a 0\n0 script m.a 1\nfinal m.a 1\nend done 0\n") }
{}

/// Stored values are cut to their types, and a remainder has the sign of what is divided; a division by zero is a fault.
pub fn numbers_are_cut()
    ensures cuts { told 19 (0 ∷ 0 ∷ []) rows.numbers (run ∷ []) ≡ Some (codes "0 m.s n -56\n0 m.s q -2\n0 m.s n -56\n0 m.s q -2\nfinal m.a 44\nend done 0\n") }
    ensures divides { told 3 (0 ∷ []) rows.by_zero (run ∷ []) ≡ Some (codes "end fault 0 DivideByZero\n") }
{}

/// A clocked counter counts the posedges, through ports of two instances, and its trace tells each change once.
pub fn a_clocked_counter_is_traced()
    ensures counts { told 59 (0 ∷ 1 ∷ 0 ∷ 0 ∷ 1 ∷ 0 ∷ 0 ∷ 1 ∷ 0 ∷ []) rows.clocked_counter (run_for 30000 ∷ []) ≡ Some (codes "final m.clk 0\nfinal m.q 3\nend done 30000\n") }
    ensures traces { traced 59 (0 ∷ 1 ∷ 0 ∷ 0 ∷ 1 ∷ 0 ∷ 0 ∷ 1 ∷ 0 ∷ []) rows.clocked_counter (run_for 30000 ∷ []) ≡ Some (codes "$timescale 1 ps $end\n$scope module m $end\n$var wire 1 ! clk $end\n$var wire 8 \" q $end\n$scope module b $end\n$scope module c $end\n$upscope $end\n$upscope $end\n$upscope $end\n$enddefinitions $end\n#0\n$dumpvars\n1!\nb00000001 \"\n$end\n#5000\n0!\n#10000\n1!\nb00000010 \"\n#15000\n0!\n#20000\n1!\nb00000011 \"\n#25000\n0!\n") }
{}

/// A mutex that was unlocked goes to the thread that waits for it.
pub fn a_mutex_is_handed_on()
    ensures hands { told 22 (0 ∷ 1 ∷ 0 ∷ 1 ∷ []) rows.locked (run ∷ []) ≡ Some (codes "2000 m.p p\n2000 m.q q 2000\nend done 2000\n") }
{}

/// A buffer announces an equal value too.
pub fn a_buffer_announces_an_equal_value()
    ensures announces { told 13 (1 ∷ 0 ∷ []) rows.buffered (run ∷ []) ≡ Some (codes "0 m.s b 0\nfinal m.b 0\nend done 0\n") }
{}

/// A semaphore counts.
pub fn a_semaphore_counts()
    ensures counts { told 13 (0 ∷ []) rows.counted (run ∷ []) ≡ Some (codes "0 m.t r -1\n0 m.t v 1\nend done 0\n") }
{}

/// A port of two channels is read at a place, and is sensitive to both.
pub fn a_port_has_places()
    ensures places { told 18 (0 ∷ 0 ∷ []) rows.two_channels (run ∷ set 1 (value.Bool true) ∷ run ∷ []) ≡ Some (codes "0 m.c.s p 0\n0 m.c.s p 1\nfinal m.a 0\nfinal m.b 1\nend done 0\n") }
{}

/// All that wait for a mutex or a semaphore are woken when it is free, and each tries again.
pub fn waiters_try_again()
    ensures mutex { told 35 (0 ∷ 1 ∷ 2 ∷ 0 ∷ 1 ∷ 2 ∷ 1 ∷ 2 ∷ []) rows.contended (run ∷ []) ≡ Some (codes "1000 m.q q\n2000 m.r r\nend done 2000\n") }
    ensures semaphore { told 28 (0 ∷ 1 ∷ 2 ∷ 0 ∷ 1 ∷ 2 ∷ 1 ∷ []) rows.used_up (run ∷ []) ≡ Some (codes "0 m.p p\n1000 m.q q\nend done 1000\n") }
{}

/// A mutex that is owned cannot be locked, by its owner neither, and only its owner unlocks it.
pub fn a_mutex_has_an_owner()
    ensures answers { told 22 (0 ∷ 1 ∷ 0 ∷ []) rows.tried_locks (run ∷ []) ≡ Some (codes "0 m.p r 0\n0 m.p r -1\n0 m.q r -1\n1000 m.p r 0\nend done 1000\n") }
{}

/// A fifo answers at once whether it was read or written: what was written in this evaluation phase is not read yet.
pub fn a_fifo_answers()
    ensures answers { told 20 (0 ∷ 0 ∷ []) rows.unblocked (run ∷ []) ≡ Some (codes "0 m.t ok 0\n0 m.t ok 1\n0 m.t ok 0\n0 m.t ok 1\n0 m.t x 5\nend done 0\n") }
{}

/// The call past 64 open ones is a fault.
pub fn calls_may_be_too_deep()
    ensures fault { told 67 (0 ∷ []) rows.endless_calls (run ∷ []) ≡ Some (codes "end fault 0 FrameDepth\n") }
{}
