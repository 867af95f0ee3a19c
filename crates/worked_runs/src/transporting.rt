//! Runs of spawned instances, payloads, transport calls and quantum keepers.
ghost use Rattle.std.specs.Prelude.{◌≡◌, [], ◌∷◌, codes, Some};
ghost use Rattle.worked_runs.specs.Body.{end};
ghost use Rattle.worked_runs.specs.Transports as models;
ghost use Rattle.worked_runs.specs.Run.{told, run};

/// A killed instance has ended, and one that is spawned after it is another one.
pub fn a_spawned_instance_is_another_one()
    ensures spawns { told 28 (0 ∷ 1 ∷ 0 ∷ 2 ∷ 0 ∷ []) models.spawned (run ∷ []) ≡ Some (codes "2000 m.k ended 1\n2000 m.k other 0\nend done 2000\n") }
{}

/// A payload is carried to a memory by its enable bytes and its streaming width (IEEE 1666-2011, 14.14 and 14.15).
pub fn a_payload_is_carried()
    ensures carries { told 21 (0 ∷ []) models.carried (run ∷ []) ≡ Some (codes "0 m.t status 1\n0 m.t b 51\n0 m.t b 0\nend done 0\n") }
{}

/// A keeper asks for a sync once its local time has reached the next sync point (IEEE 1666-2011, 16.2).
pub fn a_keeper_asks_for_a_sync()
    ensures syncs { told 31 (0 ∷ 0 ∷ []) models.keeping (run ∷ []) ≡ Some (codes "12000 m.t sync\n12000 m.t next 20000\nend done 12000\n") }
{}

/// A request while another transaction requests is a fault, and a response may come later (IEEE 1666-2011, 15.2).
pub fn calls_follow_the_base_protocol()
    ensures second_request { told 17 (0 ∷ []) models.second_request (run ∷ []) ≡ Some (codes "0 m.i.t f\n0 m.i.t r 0\nend fault 0 Protocol P3 m.i.s 1\n") }
    ensures later_response { told 37 (0 ∷ 1 ∷ 1 ∷ []) (models.response (models.completing (models.responding end))) (run ∷ []) ≡ Some (codes "0 m.i.t r 0\n1000 m.g.u r 2\nend done 1000\n") }
    ensures incomplete { told 28 (0 ∷ 1 ∷ 1 ∷ []) (models.response (models.responding end)) (run ∷ []) ≡ Some (codes "0 m.i.t r 0\nend fault 1000 Protocol P6 m.i.s 0\n") }
    ensures second_response { told 34 (0 ∷ 1 ∷ 1 ∷ []) (models.response (models.completing (models.responding (models.responding end)))) (run ∷ []) ≡ Some (codes "0 m.i.t r 0\n1000 m.g.u r 2\nend fault 1000 Protocol P5 m.i.s 0\n") }
{}

/// A blocking call may wait, and its payload has to be complete at its return (IEEE 1666-2011, 11.1).
pub fn a_blocking_call_may_wait()
    ensures waits { told 24 (0 ∷ 0 ∷ []) (models.blocking_call models.carrying) (run ∷ []) ≡ Some (codes "3000 m.i.t status 1\n3000 m.i.t now 3000\n3000 m.i.t live 0\nend done 3000\n") }
    ensures incomplete { told 9 (0 ∷ []) (models.blocking_call end) (run ∷ []) ≡ Some (codes "end fault 0 Protocol P6 m.i.s 0\n") }
{}

/// A keeper that is reset looks to the next multiple of the global quantum (IEEE 1666-2011, 12.1).
pub fn a_keeper_looks_to_the_next_quantum()
    ensures looks { told 15 (0 ∷ 0 ∷ []) models.late_keeper (run ∷ []) ≡ Some (codes "3000 m.t next 10000\nend done 3000\n") }
{}

/// A call gives back its answer and its inout arguments, and an exception runs the unwind blocks that it passes.
pub fn a_call_gives_back()
    ensures gives { told 21 (0 ∷ []) models.called (run ∷ []) ≡ Some (codes "0 m.t k 7\n0 m.t r 14\n0 m.t undo\n0 m.t caught\nend done 0\n") }
{}

/// A spawned instance gets its arguments, and its end can be waited for.
pub fn an_end_can_be_waited_for()
    ensures ends { told 15 (0 ∷ 1 ∷ 0 ∷ []) models.awaited (run ∷ []) ≡ Some (codes "0 m.w_1 w 5\n0 m.t done 1\nend done 0\n") }
{}

/// A spawned method waits by its sensitivity, and has its first arguments in each turn.
pub fn a_spawned_method_runs_anew()
    ensures runs { told 28 (0 ∷ 0 ∷ 1 ∷ 0 ∷ 1 ∷ []) models.spawned_method (run ∷ []) ≡ Some (codes "1000 m.w_1 n 5\n2000 m.w_1 n 5\nend done 2000\n") }
{}
