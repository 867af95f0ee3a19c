//! Runs of transport calls that are left by an exception, a kill or a reset: that stands in the history of the hop in place of the
//! return, and the transaction is over there: it may begin anew.
ghost use Rattle.std.specs.Prelude.{◌≡◌, [], ◌∷◌, ◌++◌, codes, Some};
ghost use Rattle.std.specs.Prelude.{true, false, pos};
ghost use Rattle.sim_model.specs.TransportPhases.History.{Call, Return, BCall, BReturn, Left};
ghost use Rattle.sim_model.specs.TransportPhases.declared.phases.Path.TheVariants as path;
ghost use Rattle.worked_runs.specs.Body.{say};
ghost use Rattle.worked_runs.specs.Leaving.{thrown_out, thrown_out_of_nb, killed_in_a_call, thrown_at_in_a_call, reset_in_a_call, reset_in_nb, left_end_of_request, left_response, left_responses, left_end_of_response, left_together};
ghost use Rattle.worked_runs.specs.Links.{makes_q, phase, calls, calls_for, tells, tells_phase, sends, blocks, idle};
ghost use Rattle.worked_runs.specs.Run.{told, called, run};

/// An exception passes a call: unwind blocks of its handler run, what the call would have handed back is not stored, and the
/// transaction is idle again.
pub fn an_exception_leaves_a_call()
    ensures blocking { told 26 (0 ∷ 1 ∷ []) thrown_out (run ∷ []) ≡ Some (codes "0 m.i.t undo\n0 m.i.t d 0\n0 m.i.t d 7000\nend done 0\n") }
    ensures blocking_entries { called 26 (0 ∷ 1 ∷ []) thrown_out (run ∷ []) ≡ Some (BCall 0 true ∷ Left 0 ∷ BCall 0 true ∷ BReturn 0 true ∷ []) }
    ensures nonblocking { told 26 (0 ∷ 1 ∷ []) thrown_out_of_nb (run ∷ []) ≡ Some (codes "0 m.i.t ph 1\n0 m.i.t r 2\nend done 0\n") }
    ensures nonblocking_entries { called 26 (0 ∷ 1 ∷ []) thrown_out_of_nb (run ∷ []) ≡ Some (Call 0 path.Forward (pos 1) false true ∷ Left 0 ∷ Call 0 path.Forward (pos 1) false true ∷ Return 0 (pos 2) (pos 1) true ∷ []) }
{}

/// A thread whose blocking call waits is killed, or catches what is thrown at it, and the transaction begins anew.
pub fn a_thread_is_killed_or_thrown_at_in_a_call()
    ensures killed { told 29 (0 ∷ 1 ∷ 2 ∷ 1 ∷ 1 ∷ []) killed_in_a_call (run ∷ []) ≡ Some (codes "3000 m.i.v v\nend done 3000\n") }
    ensures killed_entries { called 29 (0 ∷ 1 ∷ 2 ∷ 1 ∷ 1 ∷ []) killed_in_a_call (run ∷ []) ≡ Some (BCall 0 true ∷ Left 0 ∷ BCall 0 true ∷ BReturn 0 true ∷ []) }
    ensures thrown { told 33 (0 ∷ 1 ∷ 2 ∷ 1 ∷ 0 ∷ []) thrown_at_in_a_call (run ∷ []) ≡ Some (codes "1000 m.i.t caught\n3000 m.i.t d 5000\nend done 3000\n") }
    ensures thrown_entries { called 33 (0 ∷ 1 ∷ 2 ∷ 1 ∷ 0 ∷ []) thrown_at_in_a_call (run ∷ []) ≡ Some (BCall 0 true ∷ Left 0 ∷ BCall 0 true ∷ BReturn 0 true ∷ []) }
{}

/// A thread is reset while its blocking call waits, and its call is left in that step. Its second turn calls anew with the same
/// payload, and this call is open then.
pub fn a_thread_is_reset_in_a_call()
    ensures before { called 16 (0 ∷ 1 ∷ 2 ∷ 1 ∷ []) (reset_in_a_call (say (codes "v") ∷ [])) (run ∷ []) ≡ Some (BCall 0 true ∷ []) }
    ensures at_once { called 17 (0 ∷ 1 ∷ 2 ∷ 1 ∷ []) (reset_in_a_call (say (codes "v") ∷ [])) (run ∷ []) ≡ Some (BCall 0 true ∷ Left 0 ∷ []) }
    ensures again { told 35 (0 ∷ 1 ∷ 2 ∷ 1 ∷ 0 ∷ []) (reset_in_a_call (say (codes "v") ∷ [])) (run ∷ []) ≡ Some (codes "1000 m.i.v v\n3000 m.i.t d 5000\nend done 3000\n") }
    ensures again_entries { called 35 (0 ∷ 1 ∷ 2 ∷ 1 ∷ 0 ∷ []) (reset_in_a_call (say (codes "v") ∷ [])) (run ∷ []) ≡ Some (BCall 0 true ∷ Left 0 ∷ BCall 0 true ∷ BReturn 0 true ∷ []) }
    ensures stands { told 21 (0 ∷ 1 ∷ 2 ∷ 1 ∷ []) (reset_in_a_call (blocks ∷ [])) (run ∷ []) ≡ Some (codes "end fault 1000 Protocol P2 m.i.s 0\n") }
    ensures stands_entries { called 21 (0 ∷ 1 ∷ 2 ∷ 1 ∷ []) (reset_in_a_call (blocks ∷ [])) (run ∷ []) ≡ Some (BCall 0 true ∷ Left 0 ∷ BCall 0 true ∷ []) }
{}

/// A thread resets itself in the handler of its request. The same transaction may request anew, as if it had not before, and so may
/// another one; the response of one that is over is not ended.
pub fn a_thread_resets_itself_in_a_call()
    ensures again { told 28 (0 ∷ 1 ∷ []) (reset_in_nb (tells_phase ∷ sends 1)) (run ∷ []) ≡ Some (codes "0 m.i.t ph 1\n0 m.i.t r 2\nend done 0\n") }
    ensures again_entries { called 28 (0 ∷ 1 ∷ []) (reset_in_nb (tells_phase ∷ sends 1)) (run ∷ []) ≡ Some (Call 0 path.Forward (pos 1) false true ∷ Left 0 ∷ Call 0 path.Forward (pos 1) false true ∷ Return 0 (pos 2) (pos 1) true ∷ []) }
    ensures another { told 28 (0 ∷ 1 ∷ []) (reset_in_nb (makes_q ∷ phase 1 ∷ calls_for 5 ∷ tells ∷ [])) (run ∷ []) ≡ Some (codes "0 m.i.t r 2\nend done 0\n") }
    ensures another_entries { called 28 (0 ∷ 1 ∷ []) (reset_in_nb (makes_q ∷ phase 1 ∷ calls_for 5 ∷ tells ∷ [])) (run ∷ []) ≡ Some (Call 0 path.Forward (pos 1) false true ∷ Left 0 ∷ Call 1 path.Forward (pos 1) false true ∷ Return 1 (pos 2) (pos 1) true ∷ []) }
    ensures ends { told 15 (0 ∷ []) (reset_in_nb (phase 4 ∷ calls ∷ [])) (run ∷ []) ≡ Some (codes "end fault 0 Protocol P5 m.i.s 0\n") }
    ensures ends_entries { called 15 (0 ∷ []) (reset_in_nb (phase 4 ∷ calls ∷ [])) (run ∷ []) ≡ Some (Call 0 path.Forward (pos 1) false true ∷ Left 0 ∷ []) }
{}

/// An exception passes the call that ends a request. The transaction begins anew, and does not respond.
pub fn the_end_of_a_request_is_left()
    ensures again { told 39 (0 ∷ 1 ∷ 1 ∷ 0 ∷ []) (left_end_of_request [] idle) (run ∷ []) ≡ Some (codes "0 m.i.t r 0\n1000 m.g.u ph 2\n2000 m.i.t idle\nend done 2000\n") }
    ensures again_entries { called 39 (0 ∷ 1 ∷ 1 ∷ 0 ∷ []) (left_end_of_request [] idle) (run ∷ []) ≡ Some (Call 0 path.Forward (pos 1) false true ∷ Return 0 (pos 0) (pos 1) false ∷ Call 0 path.Backward (pos 2) false true ∷ Left 0 ∷ BCall 0 true ∷ BReturn 0 true ∷ []) }
    ensures responds { told 27 (0 ∷ 1 ∷ 1 ∷ []) (left_end_of_request (phase 3 ∷ calls ∷ []) []) (run ∷ []) ≡ Some (codes "0 m.i.t r 0\n1000 m.g.u ph 2\nend fault 1000 Protocol P5 m.i.s 0\n") }
    ensures responds_entries { called 27 (0 ∷ 1 ∷ 1 ∷ []) (left_end_of_request (phase 3 ∷ calls ∷ []) []) (run ∷ []) ≡ Some (Call 0 path.Forward (pos 1) false true ∷ Return 0 (pos 0) (pos 1) false ∷ Call 0 path.Backward (pos 2) false true ∷ Left 0 ∷ []) }
{}

/// A thread kills itself in the handler of its response. The transaction begins anew, and its response is not ended; and another one
/// may respond.
pub fn a_response_is_left()
    ensures again { told 36 (0 ∷ 1 ∷ 1 ∷ 0 ∷ []) (left_response idle) (run ∷ []) ≡ Some (codes "0 m.i.t r 0\n2000 m.i.t idle\nend done 2000\n") }
    ensures again_entries { called 36 (0 ∷ 1 ∷ 1 ∷ 0 ∷ []) (left_response idle) (run ∷ []) ≡ Some (Call 0 path.Forward (pos 1) false true ∷ Return 0 (pos 0) (pos 1) false ∷ Call 0 path.Backward (pos 3) true true ∷ Left 0 ∷ BCall 0 true ∷ BReturn 0 true ∷ []) }
    ensures ends { told 30 (0 ∷ 1 ∷ 1 ∷ 0 ∷ []) (left_response (phase 4 ∷ calls ∷ [])) (run ∷ []) ≡ Some (codes "0 m.i.t r 0\nend fault 2000 Protocol P5 m.i.s 0\n") }
    ensures ends_entries { called 30 (0 ∷ 1 ∷ 1 ∷ 0 ∷ []) (left_response (phase 4 ∷ calls ∷ [])) (run ∷ []) ≡ Some (Call 0 path.Forward (pos 1) false true ∷ Return 0 (pos 0) (pos 1) false ∷ Call 0 path.Backward (pos 3) true true ∷ Left 0 ∷ []) }
    ensures another { told 47 (0 ∷ 1 ∷ 1 ∷ []) left_responses (run ∷ []) ≡ Some (codes "0 m.i.t r 1\n0 m.i.t r 1\nend done 1000\n") }
    ensures another_entries { called 47 (0 ∷ 1 ∷ 1 ∷ []) left_responses (run ∷ []) ≡ Some (Call 0 path.Forward (pos 1) false true ∷ Return 0 (pos 1) (pos 2) true ∷ Call 1 path.Forward (pos 1) false true ∷ Return 1 (pos 1) (pos 2) true ∷ Call 1 path.Backward (pos 3) true true ∷ Left 1 ∷ Call 0 path.Backward (pos 3) true true ∷ Left 0 ∷ []) }
{}

/// A thread resets itself in the handler of the end of a response. The transaction begins anew, and is not ended once more.
pub fn the_end_of_a_response_is_left()
    ensures again { told 28 (0 ∷ 1 ∷ []) (left_end_of_response idle) (run ∷ []) ≡ Some (codes "0 m.i.t idle\nend done 0\n") }
    ensures again_entries { called 28 (0 ∷ 1 ∷ []) (left_end_of_response idle) (run ∷ []) ≡ Some (Call 0 path.Forward (pos 1) false true ∷ Return 0 (pos 1) (pos 3) true ∷ Call 0 path.Forward (pos 4) true true ∷ Left 0 ∷ BCall 0 true ∷ BReturn 0 true ∷ []) }
    ensures ends { told 20 (0 ∷ []) (left_end_of_response (phase 4 ∷ calls ∷ [])) (run ∷ []) ≡ Some (codes "end fault 0 Protocol P5 m.i.s 0\n") }
    ensures ends_entries { called 20 (0 ∷ []) (left_end_of_response (phase 4 ∷ calls ∷ [])) (run ∷ []) ≡ Some (Call 0 path.Forward (pos 1) false true ∷ Return 0 (pos 1) (pos 3) true ∷ Call 0 path.Forward (pos 4) true true ∷ Left 0 ∷ []) }
{}

/// A reset leaves all calls of its target at once, the innermost first, and each of their transactions begins anew.
pub fn calls_are_left_together()
    ensures before { called 17 (0 ∷ []) left_together (run ∷ []) ≡ Some (Call 1 path.Forward (pos 1) false true ∷ Return 1 (pos 1) (pos 2) true ∷ BCall 0 true ∷ Call 1 path.Backward (pos 3) true true ∷ []) }
    ensures at_once { called 18 (0 ∷ []) left_together (run ∷ []) ≡ Some (Call 1 path.Forward (pos 1) false true ∷ Return 1 (pos 1) (pos 2) true ∷ BCall 0 true ∷ Call 1 path.Backward (pos 3) true true ∷ Left 1 ∷ Left 0 ∷ []) }
    ensures again { told 40 (0 ∷ 1 ∷ []) left_together (run ∷ []) ≡ Some (codes "end done 0\n") }
    ensures again_entries { called 40 (0 ∷ 1 ∷ []) left_together (run ∷ []) ≡ Some (Call 1 path.Forward (pos 1) false true ∷ Return 1 (pos 1) (pos 2) true ∷ BCall 0 true ∷ Call 1 path.Backward (pos 3) true true ∷ Left 1 ∷ Left 0 ∷ Call 0 path.Forward (pos 1) false true ∷ Return 0 (pos 1) (pos 2) true ∷ Call 1 path.Forward (pos 1) true true ∷ Return 1 (pos 1) (pos 2) true ∷ []) }
{}
