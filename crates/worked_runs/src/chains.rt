//! Runs of chains of a name, a place and indices.
ghost use Rattle.std.specs.Prelude.{◌≡◌, [], ◌∷◌, codes, Some};
ghost use Rattle.worked_runs.specs.Rows.{integer};
ghost use Rattle.worked_runs.specs.Run.{told, run};
ghost use Rattle.worked_runs.specs.Chains.{faulty_index, past_the_memory, faulty_first, past_the_digits, past_the_data, no_payload, unbound_place, stores};

/// A chain is taken piece by piece, from left to right: what an index is taken of is read before that index is evaluated, and an
/// index of an element before that element is read.
pub fn a_chain_is_read_piece_by_piece()
    ensures memory { told 3 (0 ∷ []) past_the_memory (run ∷ []) ≡ Some (codes "end fault 0 IndexRange 9 4\n") }
    ensures index { told 3 (0 ∷ []) faulty_first (run ∷ []) ≡ Some (codes "end fault 0 DivideByZero\n") }
    ensures digit { told 3 (0 ∷ []) past_the_digits (run ∷ []) ≡ Some (codes "end fault 0 IndexRange 64 64\n") }
    ensures byte { told 4 (0 ∷ []) past_the_data (run ∷ []) ≡ Some (codes "end fault 0 IndexRange 99 1\n") }
    ensures payload { told 3 (0 ∷ []) no_payload (run ∷ []) ≡ Some (codes "end fault 0 EmptyHandle\n") }
    ensures place { told 3 (0 ∷ []) unbound_place (run ∷ []) ≡ Some (codes "end fault 0 IndexRange 1 0\n") }
{}

/// An element that is stored to is not read: its index and the value are evaluated, and then it is judged whether it is there.
pub fn a_value_comes_before_its_element()
    ensures value { told 3 (0 ∷ []) (stores faulty_index) (run ∷ []) ≡ Some (codes "end fault 0 DivideByZero\n") }
    ensures element { told 3 (0 ∷ []) (stores (integer 1)) (run ∷ []) ≡ Some (codes "end fault 0 IndexRange 9 4\n") }
{}
