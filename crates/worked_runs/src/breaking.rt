//! Runs in which a call, or what it returns, breaks a rule of the base protocol: each ends there, by that rule.
ghost use Rattle.std.specs.Prelude.{◌≡◌, [], ◌∷◌, ◌++◌, codes, Some};
ghost use Rattle.std.specs.Prelude.{true, false, pos};
ghost use Rattle.sim_model.specs.TransportPhases.History.{Call, Return, BCall};
ghost use Rattle.sim_model.specs.TransportPhases.declared.phases.Path.TheVariants as path;
ghost use Rattle.worked_runs.specs.Links.{all, no_backward, no_forward, no_blocking, phase, calls, sends, blocks, completed, releases, takes_back, keeps, updates, completes, frees, clears, at_phase, accepts, nothing};
ghost use Rattle.worked_runs.specs.Words.{calls_behind, calls_back, calls_in_a_call, two_requests, two_responses_by_answer, two_responses_by_call, calls_meanwhile, blocks_behind, without_handler, requests_again, response_of_an_idle_one, response_without_a_status};
ghost use Rattle.worked_runs.specs.Body.{does, end, wait_for};
ghost use Rattle.worked_runs.specs.Run.{told, called, run};
ghost use Rattle.worked_runs.specs.Transports.{answers};

/// A code that is no phase, or a phase of the other path.
pub fn a_phase_comes_on_its_path()
    ensures none { told 5 (0 ∷ []) (calls_behind (phase 7 ∷ calls ∷ []) accepts) (run ∷ []) ≡ Some (codes "end fault 0 Protocol P1 m.i.s 0\n") }
    ensures forward { told 5 (0 ∷ []) (calls_behind (phase 2 ∷ calls ∷ []) accepts) (run ∷ []) ≡ Some (codes "end fault 0 Protocol P1 m.i.s 0\n") }
    ensures backward { told 20 (0 ∷ 1 ∷ 1 ∷ []) (calls_back all (phase 1 ∷ calls ∷ []) accepts) (run ∷ []) ≡ Some (codes "0 m.i.t r 0\nend fault 1000 Protocol P1 m.i.s 0\n") }
{}

/// A call inside a non-blocking call, or a second blocking call, of one transaction.
pub fn a_second_call_of_one_kind_is_open()
    ensures nonblocking { told 8 (0 ∷ []) calls_in_a_call (run ∷ []) ≡ Some (codes "end fault 0 Protocol P2 m.i.s 0\n") }
    ensures blocking { told 14 (0 ∷ 1 ∷ 2 ∷ 1 ∷ []) (calls_meanwhile all (blocks ∷ [])) (run ∷ []) ≡ Some (codes "end fault 1000 Protocol P2 m.i.s 0\n") }
{}

/// A request while another transaction requests.
pub fn another_transaction_requests()
    ensures call { told 11 (0 ∷ []) (calls_behind two_requests accepts) (run ∷ []) ≡ Some (codes "0 m.i.t r 0\nend fault 0 Protocol P3 m.i.s 1\n") }
{}

/// A response, by a call or by an answer, while another transaction responds.
pub fn another_transaction_responds()
    ensures call { told 39 (0 ∷ 1 ∷ 1 ∷ []) two_responses_by_call (run ∷ []) ≡ Some (codes "0 m.i.t r 1\n0 m.i.t r 1\n1000 m.g.u r 0\nend fault 1000 Protocol P4 m.i.s 0\n") }
    ensures call_entries { called 39 (0 ∷ 1 ∷ 1 ∷ []) two_responses_by_call (run ∷ []) ≡ Some (Call 0 path.Forward (pos 1) false true ∷ Return 0 (pos 1) (pos 2) false ∷ Call 1 path.Forward (pos 1) false true ∷ Return 1 (pos 1) (pos 2) false ∷ Call 1 path.Backward (pos 3) true true ∷ Return 1 (pos 0) (pos 3) true ∷ []) }
    ensures answer { told 19 (0 ∷ []) two_responses_by_answer (run ∷ []) ≡ Some (codes "0 m.i.t r 1\nend fault 0 Protocol P4 m.i.s 1\n") }
    ensures answer_entries { called 19 (0 ∷ []) two_responses_by_answer (run ∷ []) ≡ Some (Call 0 path.Forward (pos 1) false true ∷ Return 0 (pos 1) (pos 3) true ∷ Call 1 path.Forward (pos 1) false true ∷ []) }
{}

/// A phase in a state that does not allow it: the end of a response that did not come, a second request, a second end of it, a
/// second response while the first stands, and anything but a request once the transaction was completed.
pub fn a_phase_comes_where_it_may()
    ensures end { told 10 (0 ∷ []) (calls_behind (sends 1 ++ phase 4 ∷ calls ∷ []) accepts) (run ∷ []) ≡ Some (codes "0 m.i.t r 0\nend fault 0 Protocol P5 m.i.s 0\n") }
    ensures request { told 10 (0 ∷ []) (calls_behind (sends 1 ++ phase 1 ∷ calls ∷ []) accepts) (run ∷ []) ≡ Some (codes "0 m.i.t r 0\nend fault 0 Protocol P5 m.i.s 0\n") }
    ensures second_end { told 25 (0 ∷ 1 ∷ 1 ∷ []) (calls_back all (sends 2 ++ phase 2 ∷ calls ∷ []) accepts) (run ∷ []) ≡ Some (codes "0 m.i.t r 0\n1000 m.g.u r 0\nend fault 1000 Protocol P5 m.i.s 0\n") }
    ensures second_response { told 26 (0 ∷ 1 ∷ 1 ∷ []) (calls_back all (completed ∷ sends 3 ++ phase 3 ∷ calls ∷ []) accepts) (run ∷ []) ≡ Some (codes "0 m.i.t r 0\n1000 m.g.u r 0\nend fault 1000 Protocol P5 m.i.s 0\n") }
    ensures second_response_entries { called 26 (0 ∷ 1 ∷ 1 ∷ []) (calls_back all (completed ∷ sends 3 ++ phase 3 ∷ calls ∷ []) accepts) (run ∷ []) ≡ Some (Call 0 path.Forward (pos 1) false true ∷ Return 0 (pos 0) (pos 1) false ∷ Call 0 path.Backward (pos 3) true true ∷ Return 0 (pos 0) (pos 3) true ∷ []) }
    ensures completed { told 11 (0 ∷ []) (calls_behind (sends 1 ++ phase 4 ∷ calls ∷ []) (does (completes ∷ answers 2 ∷ []) end)) (run ∷ []) ≡ Some (codes "0 m.i.t r 2\nend fault 0 Protocol P5 m.i.s 0\n") }
{}

/// A response, by a call or by an answer, or the end of the transaction by COMPLETED, while the status is still INCOMPLETE; and a
/// blocking call that returns so, at once or later.
pub fn a_response_has_a_status()
    ensures call { told 20 (0 ∷ 1 ∷ 1 ∷ []) (calls_back all (phase 3 ∷ calls ∷ []) accepts) (run ∷ []) ≡ Some (codes "0 m.i.t r 0\nend fault 1000 Protocol P6 m.i.s 0\n") }
    ensures call_entries { called 20 (0 ∷ 1 ∷ 1 ∷ []) (calls_back all (phase 3 ∷ calls ∷ []) accepts) (run ∷ []) ≡ Some (Call 0 path.Forward (pos 1) false true ∷ Return 0 (pos 0) (pos 1) false ∷ []) }
    ensures ended { told 25 (0 ∷ 1 ∷ 1 ∷ []) (calls_back all (sends 2 ++ phase 3 ∷ calls ∷ []) accepts) (run ∷ []) ≡ Some (codes "0 m.i.t r 0\n1000 m.g.u r 0\nend fault 1000 Protocol P6 m.i.s 0\n") }
    ensures updated { told 8 (0 ∷ []) (calls_behind (sends 1) (does (updates 3 ∷ answers 1 ∷ []) end)) (run ∷ []) ≡ Some (codes "end fault 0 Protocol P6 m.i.s 0\n") }
    ensures completed { told 7 (0 ∷ []) (calls_behind (sends 1) (does (answers 2 ∷ []) end)) (run ∷ []) ≡ Some (codes "end fault 0 Protocol P6 m.i.s 0\n") }
    ensures blocking { told 5 (0 ∷ []) (blocks_behind all [] nothing) (run ∷ []) ≡ Some (codes "end fault 0 Protocol P6 m.i.s 0\n") }
    ensures blocking_entries { called 5 (0 ∷ []) (blocks_behind all [] nothing) (run ∷ []) ≡ Some (BCall 0 true ∷ []) }
    ensures later { told 12 (0 ∷ 1 ∷ 0 ∷ []) (blocks_behind all [] (does (wait_for 2000 ∷ []) end)) (run ∷ []) ≡ Some (codes "end fault 2000 Protocol P6 m.i.s 0\n") }
{}

/// A response that was there and is taken back: it is asked for where the transaction is completed, and not where the response
/// ends by ACCEPTED or UPDATED.
pub fn a_response_is_taken_back()
    ensures accepted { told 25 (0 ∷ 1 ∷ []) (calls_behind (sends 1 ++ takes_back ∷ sends 4) (at_phase 1 (completes ∷ updates 3 ∷ answers 1 ∷ []) 0)) (run ∷ []) ≡ Some (codes "0 m.i.t r 1\n0 m.i.t r 0\nend done 0\n") }
    ensures accepted_entries { called 25 (0 ∷ 1 ∷ []) (calls_behind (sends 1 ++ takes_back ∷ sends 4) (at_phase 1 (completes ∷ updates 3 ∷ answers 1 ∷ []) 0)) (run ∷ []) ≡ Some (Call 0 path.Forward (pos 1) false true ∷ Return 0 (pos 1) (pos 3) true ∷ Call 0 path.Forward (pos 4) false true ∷ Return 0 (pos 0) (pos 4) false ∷ []) }
    ensures completed { told 17 (0 ∷ []) (calls_behind (sends 1 ++ takes_back ∷ sends 4) (at_phase 1 (completes ∷ updates 3 ∷ answers 1 ∷ []) 2)) (run ∷ []) ≡ Some (codes "0 m.i.t r 1\nend fault 0 Protocol P6 m.i.s 0\n") }
    ensures updated { told 31 (0 ∷ 1 ∷ 1 ∷ []) (calls_back all (completed ∷ sends 3) (does (clears ∷ updates 4 ∷ answers 1 ∷ []) end)) (run ∷ []) ≡ Some (codes "0 m.i.t r 0\n1000 m.g.u r 1\nend done 1000\n") }
    ensures updated_entries { called 31 (0 ∷ 1 ∷ 1 ∷ []) (calls_back all (completed ∷ sends 3) (does (clears ∷ updates 4 ∷ answers 1 ∷ []) end)) (run ∷ []) ≡ Some (Call 0 path.Forward (pos 1) false true ∷ Return 0 (pos 0) (pos 1) false ∷ Call 0 path.Backward (pos 3) true true ∷ Return 0 (pos 1) (pos 4) false ∷ []) }
{}

/// A payload that is freed. Where a call names it, that is a fault of its own, before any rule; where it was freed in the call, it
/// is so at the return in place of the rule on the status alone, and does not count where no status is asked for.
pub fn a_freed_payload_has_no_status()
    ensures before { told 6 (0 ∷ []) (calls_behind (releases ∷ phase 7 ∷ calls ∷ []) accepts) (run ∷ []) ≡ Some (codes "end fault 0 PayloadFreed 0\n") }
    ensures before_blocking { told 5 (0 ∷ []) (blocks_behind all (releases ∷ []) nothing) (run ∷ []) ≡ Some (codes "end fault 0 PayloadFreed 0\n") }
    ensures completed { told 8 (0 ∷ []) (calls_behind (sends 1) (does (frees ∷ answers 2 ∷ []) end)) (run ∷ []) ≡ Some (codes "end fault 0 PayloadFreed 0\n") }
    ensures blocking { told 6 (0 ∷ []) (blocks_behind all [] (does (frees ∷ []) end)) (run ∷ []) ≡ Some (codes "end fault 0 PayloadFreed 0\n") }
    ensures accepted { told 16 (0 ∷ 1 ∷ []) (calls_behind (sends 1) (does (frees ∷ answers 0 ∷ []) end)) (run ∷ []) ≡ Some (codes "0 m.i.t r 0\nend done 0\n") }
    ensures answer { told 8 (0 ∷ []) (calls_behind (sends 1) (does (frees ∷ answers 3 ∷ []) end)) (run ∷ []) ≡ Some (codes "end fault 0 Protocol P7 m.i.s 0\n") }
{}

/// An answer that may not come after its call: UPDATED or COMPLETED after the end of a request, UPDATED after the end of a response,
/// and a code that is no answer.
pub fn an_answer_comes_where_it_may()
    ensures updated { told 22 (0 ∷ 1 ∷ 1 ∷ []) (calls_back all (sends 2) (does (answers 1 ∷ []) end)) (run ∷ []) ≡ Some (codes "0 m.i.t r 0\nend fault 1000 Protocol P7 m.i.s 0\n") }
    ensures completed { told 22 (0 ∷ 1 ∷ 1 ∷ []) (calls_back all (sends 2) (does (answers 2 ∷ []) end)) (run ∷ []) ≡ Some (codes "0 m.i.t r 0\nend fault 1000 Protocol P7 m.i.s 0\n") }
    ensures end { told 16 (0 ∷ []) (calls_behind (sends 1 ++ sends 4) (at_phase 1 (completes ∷ updates 3 ∷ answers 1 ∷ []) 1)) (run ∷ []) ≡ Some (codes "0 m.i.t r 1\nend fault 0 Protocol P7 m.i.s 0\n") }
    ensures none { told 7 (0 ∷ []) (calls_behind (sends 1) (does (answers 3 ∷ []) end)) (run ∷ []) ≡ Some (codes "end fault 0 Protocol P7 m.i.s 0\n") }
{}

/// UPDATED with a phase that may not come back: after a request its own phase or the end of a response, after a response its own.
pub fn what_comes_back_may_not_come()
    ensures end { told 8 (0 ∷ []) (calls_behind (sends 1) (does (updates 4 ∷ answers 1 ∷ []) end)) (run ∷ []) ≡ Some (codes "end fault 0 Protocol P8 m.i.s 0\n") }
    ensures request { told 7 (0 ∷ []) (calls_behind (sends 1) (does (answers 1 ∷ []) end)) (run ∷ []) ≡ Some (codes "end fault 0 Protocol P8 m.i.s 0\n") }
    ensures response { told 23 (0 ∷ 1 ∷ 1 ∷ []) (calls_back all (completed ∷ sends 3) (does (answers 1 ∷ []) end)) (run ∷ []) ≡ Some (codes "0 m.i.t r 0\nend fault 1000 Protocol P8 m.i.s 0\n") }
{}

/// A blocking call of a transaction that is not idle, and a non-blocking one while a blocking one of it is open.
pub fn a_blocking_call_comes_alone()
    ensures blocking { told 9 (0 ∷ []) (blocks_behind all (sends 1) nothing) (run ∷ []) ≡ Some (codes "0 m.i.t r 0\nend fault 0 Protocol P9 m.i.s 0\n") }
    ensures nonblocking { told 15 (0 ∷ 1 ∷ 2 ∷ 1 ∷ []) (calls_meanwhile all (phase 1 ∷ calls ∷ [])) (run ∷ []) ≡ Some (codes "end fault 1000 Protocol P9 m.i.s 0\n") }
{}

/// The other end has no handler for the call; a rule that stands before is broken first.
pub fn a_handler_is_missing()
    ensures forward { told 5 (0 ∷ []) (without_handler no_forward (phase 1 ∷ calls ∷ [])) (run ∷ []) ≡ Some (codes "end fault 0 Protocol P10 m.i.s 0\n") }
    ensures backward { told 20 (0 ∷ 1 ∷ 1 ∷ []) (calls_back no_backward (phase 2 ∷ calls ∷ []) accepts) (run ∷ []) ≡ Some (codes "0 m.i.t r 0\nend fault 1000 Protocol P10 m.i.s 0\n") }
    ensures blocking { told 4 (0 ∷ []) (without_handler no_blocking (blocks ∷ [])) (run ∷ []) ≡ Some (codes "end fault 0 Protocol P10 m.i.s 0\n") }
    ensures before { told 5 (0 ∷ []) (without_handler no_forward (phase 7 ∷ calls ∷ [])) (run ∷ []) ≡ Some (codes "end fault 0 Protocol P1 m.i.s 0\n") }
{}

/// Where a call breaks several rules, the fault is the first of them: the phase on its path, an open call, another request, another
/// response, the state, the status, an open blocking call, the handler.
pub fn the_first_rule_that_a_call_breaks_is_the_fault()
    ensures path_and_open { told 8 (0 ∷ []) (calls_behind (sends 1) (does (keeps ∷ phase 7 ∷ calls ∷ answers 0 ∷ []) end)) (run ∷ []) ≡ Some (codes "end fault 0 Protocol P1 m.i.s 0\n") }
    ensures open_and_status { told 8 (0 ∷ []) (calls_behind (sends 1) (does (keeps ∷ phase 3 ∷ calls ∷ answers 0 ∷ []) end)) (run ∷ []) ≡ Some (codes "end fault 0 Protocol P2 m.i.s 0\n") }
    ensures request_and_state { told 19 (0 ∷ []) requests_again (run ∷ []) ≡ Some (codes "0 m.i.t r 0\nend fault 0 Protocol P3 m.i.s 1\n") }
    ensures response_and_state { told 31 (0 ∷ 1 ∷ 1 ∷ []) response_of_an_idle_one (run ∷ []) ≡ Some (codes "0 m.i.t r 2\n0 m.i.t r 1\nend fault 1000 Protocol P4 m.i.s 0\n") }
    ensures state_and_blocking { told 15 (0 ∷ 1 ∷ 2 ∷ 1 ∷ []) (calls_meanwhile all (phase 4 ∷ calls ∷ [])) (run ∷ []) ≡ Some (codes "end fault 1000 Protocol P5 m.i.s 0\n") }
    ensures status_and_handler { told 20 (0 ∷ 1 ∷ 1 ∷ []) (calls_back no_backward (phase 3 ∷ calls ∷ []) accepts) (run ∷ []) ≡ Some (codes "0 m.i.t r 0\nend fault 1000 Protocol P6 m.i.s 0\n") }
    ensures blocking_and_handler { told 15 (0 ∷ 1 ∷ 2 ∷ 1 ∷ []) (calls_meanwhile no_forward (phase 1 ∷ calls ∷ [])) (run ∷ []) ≡ Some (codes "end fault 1000 Protocol P9 m.i.s 0\n") }
    ensures not_idle_and_handler { told 9 (0 ∷ []) (without_handler no_blocking (sends 1 ++ blocks ∷ [])) (run ∷ []) ≡ Some (codes "0 m.i.t r 0\nend fault 0 Protocol P9 m.i.s 0\n") }
{}

/// Where a return breaks several rules, the fault is the first of them: the answer, its phase, another response, the status.
pub fn the_first_rule_that_a_return_breaks_is_the_fault()
    ensures phase_and_status { told 24 (0 ∷ 1 ∷ 1 ∷ []) (calls_back all (completed ∷ sends 3) (does (clears ∷ answers 1 ∷ []) end)) (run ∷ []) ≡ Some (codes "0 m.i.t r 0\nend fault 1000 Protocol P8 m.i.s 0\n") }
    ensures response_and_status { told 19 (0 ∷ []) response_without_a_status (run ∷ []) ≡ Some (codes "0 m.i.t r 1\nend fault 0 Protocol P4 m.i.s 1\n") }
{}
