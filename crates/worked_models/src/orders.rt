//! Two orders of one model, least serial first and greatest first.
#![tactic(auto, unfolding(crate::specs::Ends::finals))]

ghost use Rattle.std.specs.Prelude.{◌≡◌, [], ◌∷◌, codes, Some};
ghost use Rattle.worked_models.specs.Ends.{finals};
ghost use Rattle.worked_models.specs.OrderRows as rows;

/// Who waits for an event when it is notified at once depends on the order.
pub fn an_immediate_notification_shows_the_order()
    ensures first { finals (0 ∷ 1 ∷ 1 ∷ []) rows.notified_at_once ≡ Some (codes "final m.a 0\n") }
    ensures last { finals (1 ∷ 0 ∷ 1 ∷ []) rows.notified_at_once ≡ Some (codes "final m.a 1\n") }
{}

/// How much is free in a fifo depends on who has written it.
pub fn what_is_free_shows_the_order()
    ensures first { finals (0 ∷ 1 ∷ []) rows.free_is_asked ≡ Some (codes "final m.a 1\n") }
    ensures last { finals (1 ∷ 0 ∷ []) rows.free_is_asked ≡ Some (codes "final m.a 2\n") }
{}

/// How much is available in a fifo depends on who has read it.
pub fn what_is_available_shows_the_order()
    ensures first { finals (0 ∷ 1 ∷ 0 ∷ 1 ∷ []) rows.available_is_asked ≡ Some (codes "final m.a 1\n") }
    ensures last { finals (1 ∷ 0 ∷ 1 ∷ 0 ∷ []) rows.available_is_asked ≡ Some (codes "final m.a 2\n") }
{}

/// What a variable holds depends on who has changed it first.
pub fn two_users_of_a_variable_show_the_order()
    ensures first { finals (0 ∷ 1 ∷ 1 ∷ []) rows.shared_variable ≡ Some (codes "final m.a 3\n") }
    ensures last { finals (1 ∷ 0 ∷ 1 ∷ []) rows.shared_variable ≡ Some (codes "final m.a 2\n") }
{}

/// Which value a reader of a fifo gets depends on who reads first.
pub fn two_readers_show_the_order()
    ensures first { finals (0 ∷ 1 ∷ 2 ∷ 1 ∷ 2 ∷ []) rows.shared_reader ≡ Some (codes "final m.a 1\nfinal m.b 2\n") }
    ensures last { finals (2 ∷ 1 ∷ 0 ∷ 2 ∷ 1 ∷ []) rows.shared_reader ≡ Some (codes "final m.a 2\nfinal m.b 1\n") }
{}

/// Whether a notification comes depends on whether it was made before another process cancels it, or behind that.
pub fn cancelling_for_another_shows_the_order()
    ensures first { finals (0 ∷ 1 ∷ 2 ∷ []) rows.cancelled_by_another ≡ Some (codes "final m.a 0\n") }
    ensures last { finals (2 ∷ 1 ∷ 0 ∷ 2 ∷ []) rows.cancelled_by_another ≡ Some (codes "final m.a 1\n") }
{}
