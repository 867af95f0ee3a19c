//! Runs of two notifications of one event (IEEE 1666-2011, 5.10.8).
ghost use Rattle.std.specs.Prelude.{◌≡◌, [], ◌∷◌, codes, Some};
ghost use Rattle.worked_runs.specs.Notifications.{two, later, none, now, delta, at, greatest};
ghost use Rattle.worked_runs.specs.Run.{told, run};

/// Where nothing is pending, each notification comes: in the same evaluation phase, in the next delta notification phase, or at
/// its time. A cancel of nothing leaves nothing.
pub fn nothing_is_pending()
    ensures cancelled { told 10 (0 ∷ []) (two none none) (run ∷ []) ≡ Some (codes "final m.a 1\nend done 0\n") }
    ensures immediate { told 13 (0 ∷ 1 ∷ []) (two none now) (run ∷ []) ≡ Some (codes "0 m.w a 0\nfinal m.a 1\nend done 0\n") }
    ensures next { told 15 (0 ∷ 1 ∷ []) (two none delta) (run ∷ []) ≡ Some (codes "0 m.w a 1\nfinal m.a 1\nend done 0\n") }
    ensures timed { told 16 (0 ∷ 1 ∷ []) (two none (at 7000)) (run ∷ []) ≡ Some (codes "7000 m.w a 1\nfinal m.a 1\nend done 7000\n") }
    ensures after_zero { told 15 (0 ∷ 1 ∷ []) (two none (at 0)) (run ∷ []) ≡ Some (codes "0 m.w a 1\nfinal m.a 1\nend done 0\n") }
{}

/// An immediate notification leaves nothing pending, so that a second one finds its process runnable, and a later one comes too.
pub fn an_immediate_notification_is_past()
    ensures immediate { told 13 (0 ∷ 1 ∷ []) (two now now) (run ∷ []) ≡ Some (codes "0 m.w a 0\nfinal m.a 1\nend done 0\n") }
    ensures next { told 18 (0 ∷ 1 ∷ 1 ∷ []) (two now delta) (run ∷ []) ≡ Some (codes "0 m.w a 0\n0 m.w a 1\nfinal m.a 1\nend done 0\n") }
    ensures timed { told 19 (0 ∷ 1 ∷ 1 ∷ []) (two now (at 7000)) (run ∷ []) ≡ Some (codes "0 m.w a 0\n7000 m.w a 1\nfinal m.a 1\nend done 7000\n") }
    ensures cancelled { told 13 (0 ∷ 1 ∷ []) (two now none) (run ∷ []) ≡ Some (codes "0 m.w a 0\nfinal m.a 1\nend done 0\n") }
{}

/// A delta notification is taken away by an immediate one and by a cancel, and stands before any timed one.
pub fn a_delta_notification_is_pending()
    ensures immediate { told 13 (0 ∷ 1 ∷ []) (two delta now) (run ∷ []) ≡ Some (codes "0 m.w a 0\nfinal m.a 1\nend done 0\n") }
    ensures next { told 15 (0 ∷ 1 ∷ []) (two delta delta) (run ∷ []) ≡ Some (codes "0 m.w a 1\nfinal m.a 1\nend done 0\n") }
    ensures timed { told 15 (0 ∷ 1 ∷ []) (two delta (at 7000)) (run ∷ []) ≡ Some (codes "0 m.w a 1\nfinal m.a 1\nend done 0\n") }
    ensures cancelled { told 10 (0 ∷ []) (two delta none) (run ∷ []) ≡ Some (codes "final m.a 1\nend done 0\n") }
{}

/// A timed notification is taken away by an immediate one and by a cancel, and yields to a delta one and to an earlier one.
pub fn a_timed_notification_is_pending()
    ensures immediate { told 13 (0 ∷ 1 ∷ []) (two (at 7000) now) (run ∷ []) ≡ Some (codes "0 m.w a 0\nfinal m.a 1\nend done 0\n") }
    ensures next { told 15 (0 ∷ 1 ∷ []) (two (at 7000) delta) (run ∷ []) ≡ Some (codes "0 m.w a 1\nfinal m.a 1\nend done 0\n") }
    ensures earlier { told 16 (0 ∷ 1 ∷ []) (two (at 7000) (at 5000)) (run ∷ []) ≡ Some (codes "5000 m.w a 1\nfinal m.a 1\nend done 5000\n") }
    ensures equal { told 16 (0 ∷ 1 ∷ []) (two (at 7000) (at 7000)) (run ∷ []) ≡ Some (codes "7000 m.w a 1\nfinal m.a 1\nend done 7000\n") }
    ensures late { told 16 (0 ∷ 1 ∷ []) (two (at 7000) (at 9000)) (run ∷ []) ≡ Some (codes "7000 m.w a 1\nfinal m.a 1\nend done 7000\n") }
    ensures cancelled { told 10 (0 ∷ []) (two (at 7000) none) (run ∷ []) ≡ Some (codes "final m.a 1\nend done 0\n") }
{}

/// What is earlier goes by the times at which they come, not by the delays; and a time past the greatest is a fault.
pub fn times_are_told_from_now()
    ensures earlier { told 21 (0 ∷ 0 ∷ 1 ∷ []) (later (at 7000) (at 3999)) (run ∷ []) ≡ Some (codes "6999 m.w a 1\nfinal m.a 1\nend done 6999\n") }
    ensures late { told 21 (0 ∷ 0 ∷ 1 ∷ []) (later (at 7000) (at 4001)) (run ∷ []) ≡ Some (codes "7000 m.w a 1\nfinal m.a 1\nend done 7000\n") }
    ensures past { told 10 (0 ∷ 0 ∷ []) (later none (at greatest)) (run ∷ []) ≡ Some (codes "final m.a 1\nend fault 3000 TimeOverflow\n") }
{}
