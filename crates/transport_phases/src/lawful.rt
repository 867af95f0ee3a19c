//! Which histories a hop may have, by the words of each transaction and by what may not overlap, and that this is what
//! the rules of the base protocol ask for.
ghost use Rattle.std.specs.Prelude.{◌≡◌, ◌↔◌, ℕ, true, List, [], ◌∷◌, ◌++◌, None};
ghost use Rattle.transport_phases.specs.declared.transaction.Open.TheVariants.{NonBlocking, Blocking};
ghost use Rattle.transport_phases.specs.Phases.{is_requesting, is_responding};
ghost use Rattle.transport_phases.specs.History.{Entry, kept_of, is_open, broken};
ghost use Rattle.transport_phases.specs.Unbroken.{Unbroken};
ghost use Rattle.transport_phases.specs.Words.{letters_of};
ghost use Rattle.transport_phases.specs.Lawful.{begins_request, ends_request, begins_response, ends_response, IsWithin, Lawful};
ghost use Rattle.transport_phases.specs.Order.{MayCome, Ordered, begins_call, ends_call, begins_blocking, ends_blocking};

/// Where a history is lawful and an entry may come, the entry breaks no rule exactly where the history with it is
/// lawful too (IEEE 1666-2011, 15.2). So the lawful histories are those in which each entry came where it may and broke
/// nothing.
pub fn lawful_exactly()
    ensures empty { Lawful [] }
    ensures step { (h : List Entry) (e : Entry) → Lawful h → MayCome h e
        → Lawful (h ++ e ∷ []) ↔ (broken h e ≡ None) }
    ensures front { (front later : List Entry) → Lawful (front ++ later) → Lawful front }
    ensures whole { (h : List Entry) → Lawful h ↔ (Ordered h × Unbroken h) }
{}

/// What is kept of a transaction says the same as its words: it requests, it responds, or a call of it is open, where
/// an entry has begun that and none behind it has ended it.
pub fn states_by_words()
    ensures requests { (h : List Entry) → Lawful h → (t : ℕ)
        → (is_requesting (kept_of h t) ≡ true) ↔ IsWithin begins_request ends_request (letters_of h t) }
    ensures responds { (h : List Entry) → Lawful h → (t : ℕ)
        → (is_responding (kept_of h t) ≡ true) ↔ IsWithin begins_response ends_response (letters_of h t) }
    ensures open_call { (h : List Entry) → Lawful h → (t : ℕ)
        → (is_open h t ≡ NonBlocking) ↔ IsWithin begins_call ends_call (letters_of h t) }
    ensures open_blocking { (h : List Entry) → Lawful h → (t : ℕ)
        → (is_open h t ≡ Blocking) ↔ IsWithin begins_blocking ends_blocking (letters_of h t) }
{}
