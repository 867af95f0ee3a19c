//! Laws of the definitions that the calls of the board speak of.
ghost use Rattle.std.specs.Prelude.{◌≡◌, ◌≤◌, ℕ, List, Some, Ok, Result};
ghost use Rattle.sim_model.specs.PayloadPool.declared.payload.Payload.{Payload};
ghost use Rattle.sim_model.specs.TransportPhases.History.{Entry};
ghost use Rattle.sim_model.specs.FlatDesign.declared.faults.RunFault.{RunFault};
ghost use Rattle.sim_model.specs.Values.{on_ok};
ghost use Rattle.sim_model.specs.Payloads.{payload_of};
ghost use Rattle.sim_model.specs.Configuration.{Config};
ghost use Rattle.sim_model.specs.Reading.{live_payload};
ghost use Rattle.sim_model.specs.Calls.{with_entry, with_left};
ghost use Rattle.sim_model.specs.Transport.{is_complete, size_within, may_make};
ghost use Rattle.sim_model.specs.declared.plain.Via.{Via};
ghost use Rattle.kernel_transactions.specs.declared.TransactionBoard.{TransactionBoard as Board};
ghost use Rattle.kernel_transactions.specs.Board.{IsWithin, entered, left};
ghost use Rattle.kernel_transactions.specs.Answers.{use_of, complete_in, number_made};

/// An entry, and calls that an unwinding leaves, change the transactions of a configuration alone, as the board's calls do.
pub fn left_calls_end()
    ensures entry { (c : Config) (hop : ℕ) (e : Entry) → with_entry c hop e ≡ record c { transactions = entered c.transactions hop e } }
    ensures calls { (c : Config) (vias : List Via) → with_left c vias ≡ record c { transactions = left c.transactions vias } }
{}

/// What follows a use of a payload follows its answer, and a payload that is live is found, with its status.
pub fn live_payloads_are_used()
    ensures used { (c : Config) (t : ℕ) (k : Result Config RunFault) → on_ok (live_payload c t) (λ q. k) ≡ on_ok (use_of c t) (λ ok. k) }
    ensures found { (c : Config) (t : ℕ) (q : Payload) → live_payload c t ≡ Ok q → payload_of c.transactions.pool t ≡ Some q }
    ensures complete { (c : Config) (t : ℕ) (q : Payload) → live_payload c t ≡ Ok q → is_complete q ≡ complete_in c.transactions t }
{}

/// What follows the making of a payload follows its answer, at the numbers that were asked for.
pub fn payloads_are_made()
    ensures { (c : Config) (len enables : ℕ) (k : ℕ → ℕ → Result Config RunFault)
        → on_ok (size_within 1 len) (λ x. on_ok (size_within 0 enables) (λ y. on_ok (may_make c) (λ ok. k x y))) ≡ on_ok (number_made c len enables) (λ t. k len enables) }
{}

/// What is within a bound is within each greater one.
pub fn bounds_grow()
    ensures { (n m : ℕ) (b : Board) → n ≤ m → IsWithin n b → IsWithin m b }
{}
