//! Turns of processes, from two configurations that are the same, and of two processes in either order.
ghost use Rattle.std.specs.Prelude.{◌≡◌, ◌≢◌, ℕ, []};
ghost use Rattle.sim_model.specs.Configuration.{Config};
ghost use Rattle.order_free.specs.Free.{Uses, Free};
ghost use Rattle.laws_order.specs.Alongside.{AreUnheard};
ghost use Rattle.laws_order.specs.Turns.{TakesTurn};
ghost use Rattle.laws_order.specs.Same.{Same};

use crate::{
    turns_are_done_alike, turns_do_not_depend_on_others, turns_go_in_either_order,
    turns_leave_alike, what_is_left_alike_is_seen_alike,
};

/// In a design that keeps the rule on the order of processes a process takes the same turn, each of whose steps is its own, from two
/// configurations that are the same, and leaves them the same.
pub fn turns_go_on_the_same()
    ensures { (p n : ℕ) (e f y : Config) → Free e.design → Same e y → TakesTurn (Uses e.design p) p n e f → AreUnheard p y
        → (g : Config) × TakesTurn (Uses e.design p) p n y g × Same f g }
{
    turns_are_done_alike();
    what_is_left_alike_is_seen_alike();
    turns_leave_alike();
}

/// Where one process takes such a turn and then another one does, and nobody waits for the end or the reset of either, the other one may
/// come first: each turn has as many steps, and both orders come to the same, whatever the two drive.
pub fn turns_come_to_the_same_in_either_order()
    ensures { (p q : ℕ) → p ≢ q → (n m : ℕ) (c d e : Config) → Free c.design → Same c c → c.processes.stack ≡ []
        → TakesTurn (Uses c.design p) p n c d → TakesTurn (Uses c.design q) q m d e → AreUnheard q c → AreUnheard p c → AreUnheard p e
        → (x : Config) × (y : Config) × TakesTurn (Uses c.design q) q m c x × TakesTurn (Uses c.design p) p n x y × Same e y }
{
    turns_go_in_either_order();
    turns_do_not_depend_on_others();
}
