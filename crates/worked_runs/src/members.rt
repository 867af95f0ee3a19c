//! Runs of members of signals, fifos, payloads, processes and keepers.
ghost use Rattle.std.specs.Prelude.{◌≡◌, [], ◌∷◌, codes, Some};
ghost use Rattle.worked_runs.specs.Run.{told, run};
ghost use Rattle.worked_runs.specs.Members.{changing, filling, holding, past_the_bytes, makes, handles, kept_time};

/// A signal has changed where the last update phase changed it, until time moves.
pub fn a_signal_has_changed()
    ensures changes { told 25 (0 ∷ 0 ∷ 0 ∷ 0 ∷ []) changing (run ∷ []) ≡ Some (codes "0 m.t c 1\n0 m.t c 0\n1000 m.t c 0\nfinal m.a 0\nend done 1000\n") }
{}

/// What was written in an evaluation phase is not available in it, and what was read is not free.
pub fn a_fifo_is_filled()
    ensures fills { told 26 (0 ∷ 0 ∷ 0 ∷ []) filling (run ∷ []) ≡ Some (codes "0 m.t a 0\n0 m.t f 2\n0 m.t a 0\n0 m.t f 1\n0 m.t a 1\n0 m.t f 1\n0 m.t a 0\n0 m.t f 1\n0 m.t f 2\nend done 0\n") }
{}

/// The first values of a payload (IEEE 1666-2011, 14.7); it is live until all who hold it released it, and then a use of it is a
/// fault. So is a byte past its length, and a length past the limits.
pub fn a_payload_is_held()
    ensures holds { told 17 (0 ∷ []) holding (run ∷ []) ≡ Some (codes "0 m.t live 0\n0 m.t n 4\n0 m.t m 2\n0 m.t c 2\n0 m.t a 0\n0 m.t w 4\n0 m.t s 0\n0 m.t e 255\n0 m.t live 1\n0 m.t live 0\nend fault 0 PayloadFreed 0\n") }
    ensures past { told 5 (0 ∷ []) past_the_bytes (run ∷ []) ≡ Some (codes "0 m.t m 0\nend fault 0 IndexRange 0 0\n") }
    ensures none { told 3 (0 ∷ []) (makes 0 0) (run ∷ []) ≡ Some (codes "end fault 0 IndexRange 0 4096\n") }
    ensures many { told 3 (0 ∷ []) (makes 4097 0) (run ∷ []) ≡ Some (codes "end fault 0 IndexRange 4097 4096\n") }
    ensures enables { told 3 (0 ∷ []) (makes 1 4097) (run ∷ []) ≡ Some (codes "end fault 0 IndexRange 4097 4096\n") }
{}

/// An empty handle may be asked whether it is valid and be compared; any other use of it is a fault.
pub fn a_handle_is_asked()
    ensures asks { told 7 (0 ∷ []) handles (run ∷ []) ≡ Some (codes "0 m.t v 0\n0 m.t t 1\n0 m.t same 1\n0 m.t none 0\nend fault 0 EmptyHandle\n") }
{}

/// A keeper's local time is set, and a sync is needed from the next sync point on (IEEE 1666-2011, 16.2).
pub fn a_keeper_is_set()
    ensures sets { told 14 (0 ∷ []) kept_time (run ∷ []) ≡ Some (codes "0 m.t s 0\n0 m.t l 10000\n0 m.t s 1\nend done 0\n") }
{}
