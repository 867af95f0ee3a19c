//! Runs of the words of the base protocol (IEEE 1666-2011, 15.2.6), each with a blocking call of the same transaction behind it.
ghost use Rattle.std.specs.Prelude.{◌≡◌, [], ◌∷◌, ◌++◌, codes, Some};
ghost use Rattle.worked_runs.specs.Words.{completed_request, answered_request, word, left_open, ended_by_answer, ended_by_call, by_call, by_update, by_completion};
ghost use Rattle.worked_runs.specs.Run.{told, run};

/// A request is answered with COMPLETED, or with UPDATED and the response, which the initiator ends.
pub fn a_transaction_ends_by_the_answers_of_its_request()
    ensures completed { told 20 (0 ∷ 1 ∷ []) completed_request (run ∷ []) ≡ Some (codes "0 m.i.t r 2\n0 m.i.t idle\nend done 0\n") }
    ensures accepted { told 28 (0 ∷ 1 ∷ []) (answered_request 0) (run ∷ []) ≡ Some (codes "0 m.i.t r 1\n0 m.i.t ph 3\n0 m.i.t r 0\n0 m.i.t idle\nend done 0\n") }
    ensures ended { told 28 (0 ∷ 1 ∷ []) (answered_request 2) (run ∷ []) ≡ Some (codes "0 m.i.t r 1\n0 m.i.t ph 3\n0 m.i.t r 2\n0 m.i.t idle\nend done 0\n") }
{}

/// A request is accepted, and the response is its end too: it ends by a later call, or by its own answer.
pub fn a_request_stays_open()
    ensures accepted { told 44 (0 ∷ 1 ∷ 1 ∷ 0 ∷ []) (word left_open (by_call 0)) (run ∷ []) ≡ Some (codes "0 m.i.t r 0\n1000 m.g.u r 0\n2000 m.i.t r 0\n2000 m.i.t idle\nend done 2000\n") }
    ensures ended { told 44 (0 ∷ 1 ∷ 1 ∷ 0 ∷ []) (word left_open (by_call 2)) (run ∷ []) ≡ Some (codes "0 m.i.t r 0\n1000 m.g.u r 0\n2000 m.i.t r 2\n2000 m.i.t idle\nend done 2000\n") }
    ensures updated { told 40 (0 ∷ 1 ∷ 1 ∷ 0 ∷ []) (word left_open by_update) (run ∷ []) ≡ Some (codes "0 m.i.t r 0\n1000 m.g.u r 1\n1000 m.g.u ph 4\n2000 m.i.t idle\nend done 2000\n") }
    ensures completed { told 38 (0 ∷ 1 ∷ 1 ∷ 0 ∷ []) (word left_open by_completion) (run ∷ []) ≡ Some (codes "0 m.i.t r 0\n1000 m.g.u r 2\n2000 m.i.t idle\nend done 2000\n") }
{}

/// A request is answered with UPDATED and its end, and the response comes later.
pub fn a_request_ends_by_its_answer()
    ensures accepted { told 46 (0 ∷ 1 ∷ 1 ∷ 0 ∷ []) (word ended_by_answer (by_call 0)) (run ∷ []) ≡ Some (codes "0 m.i.t r 1\n0 m.i.t ph 2\n1000 m.g.u r 0\n2000 m.i.t r 0\n2000 m.i.t idle\nend done 2000\n") }
    ensures ended { told 46 (0 ∷ 1 ∷ 1 ∷ 0 ∷ []) (word ended_by_answer (by_call 2)) (run ∷ []) ≡ Some (codes "0 m.i.t r 1\n0 m.i.t ph 2\n1000 m.g.u r 0\n2000 m.i.t r 2\n2000 m.i.t idle\nend done 2000\n") }
    ensures updated { told 42 (0 ∷ 1 ∷ 1 ∷ 0 ∷ []) (word ended_by_answer by_update) (run ∷ []) ≡ Some (codes "0 m.i.t r 1\n0 m.i.t ph 2\n1000 m.g.u r 1\n1000 m.g.u ph 4\n2000 m.i.t idle\nend done 2000\n") }
    ensures completed { told 40 (0 ∷ 1 ∷ 1 ∷ 0 ∷ []) (word ended_by_answer by_completion) (run ∷ []) ≡ Some (codes "0 m.i.t r 1\n0 m.i.t ph 2\n1000 m.g.u r 2\n2000 m.i.t idle\nend done 2000\n") }
{}

/// A request is accepted and ends by a later call, and the response comes later still.
pub fn a_request_ends_by_a_call()
    ensures accepted { told 50 (0 ∷ 1 ∷ 1 ∷ 0 ∷ []) (word ended_by_call (by_call 0)) (run ∷ []) ≡ Some (codes "0 m.i.t r 0\n1000 m.g.u r 0\n1000 m.g.u r 0\n2000 m.i.t r 0\n2000 m.i.t idle\nend done 2000\n") }
    ensures ended { told 50 (0 ∷ 1 ∷ 1 ∷ 0 ∷ []) (word ended_by_call (by_call 2)) (run ∷ []) ≡ Some (codes "0 m.i.t r 0\n1000 m.g.u r 0\n1000 m.g.u r 0\n2000 m.i.t r 2\n2000 m.i.t idle\nend done 2000\n") }
    ensures updated { told 46 (0 ∷ 1 ∷ 1 ∷ 0 ∷ []) (word ended_by_call by_update) (run ∷ []) ≡ Some (codes "0 m.i.t r 0\n1000 m.g.u r 0\n1000 m.g.u r 1\n1000 m.g.u ph 4\n2000 m.i.t idle\nend done 2000\n") }
    ensures completed { told 44 (0 ∷ 1 ∷ 1 ∷ 0 ∷ []) (word ended_by_call by_completion) (run ∷ []) ≡ Some (codes "0 m.i.t r 0\n1000 m.g.u r 0\n1000 m.g.u r 2\n2000 m.i.t idle\nend done 2000\n") }
{}
