//! Runs in which a process stops the session (IEEE 1666-2011, 4.5.3): the evaluation phase goes on to its end, and its update phase
//! is the last one.
ghost use Rattle.std.specs.Prelude.{◌≡◌, [], ◌∷◌, codes, true, Some};
ghost use Rattle.worked_runs.specs.Run.{told, traced, changed, run, show};
ghost use Rattle.worked_runs.specs.Stopping.{stops, writes, writes_later, beside, watched, blocked};

/// What was written before the stop is seen at the end: by the final lines, by the mark that the signal changed, and by the last
/// point of the trace. The script is not gone on with.
pub fn a_stop_makes_its_update_phase()
    ensures told { told 7 (0 ∷ []) writes (run ∷ show 0 ∷ run ∷ []) ≡ Some (codes "final m.a 1\nend stopped 0\n") }
    ensures mark { changed 7 (0 ∷ []) writes (run ∷ []) ≡ Some (true ∷ []) }
    ensures later { told 12 (0 ∷ 0 ∷ []) writes_later (run ∷ []) ≡ Some (codes "final m.a 1\nend stopped 1000\n") }
    ensures traces { traced 12 (0 ∷ 0 ∷ []) writes_later (run ∷ []) ≡ Some (codes "$timescale 1 ps $end\n$scope module m $end\n$var wire 1 ! a $end\n$upscope $end\n$enddefinitions $end\n#0\n$dumpvars\n0!\n$end\n#1000\n1!\n") }
{}

/// Another process that is runnable then has its turn, before or behind the stop, and what it wrote is seen too.
pub fn a_stop_waits_for_what_is_runnable()
    ensures behind { told 11 (0 ∷ 1 ∷ []) beside (run ∷ []) ≡ Some (codes "0 m.u too\nfinal m.a 1\nfinal m.b 1\nend stopped 0\n") }
    ensures before { told 11 (1 ∷ 0 ∷ []) beside (run ∷ []) ≡ Some (codes "0 m.u too\nfinal m.a 1\nfinal m.b 1\nend stopped 0\n") }
{}

/// What the last update phase notified wakes nobody, and it would without the stop.
pub fn a_stop_wakes_nobody()
    ensures change { told 9 (0 ∷ 2 ∷ []) (watched stops) (run ∷ []) ≡ Some (codes "final m.a 1\nend stopped 0\n") }
    ensures changed { told 18 (0 ∷ 2 ∷ 0 ∷ 1 ∷ []) (watched []) (run ∷ []) ≡ Some (codes "0 m.w woke\n0 m.s woke\nfinal m.a 1\nend done 0\n") }
    ensures fifo { told 9 (0 ∷ 1 ∷ []) (blocked stops) (run ∷ []) ≡ Some (codes "end stopped 0\n") }
    ensures filled { told 16 (0 ∷ 1 ∷ 0 ∷ []) (blocked []) (run ∷ []) ≡ Some (codes "0 m.r read\nend done 0\n") }
{}
