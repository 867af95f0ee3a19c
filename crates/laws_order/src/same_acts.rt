//! What processes do to what is shared, act by act, in two configurations that are the same.
ghost use Rattle.std.specs.Prelude.{◌≢◌, ℕ, List, All};
ghost use Rattle.sim_model.specs.FlatDesign.declared.design.Design.{Design};
ghost use Rattle.sim_model.specs.Configuration.{Config};
ghost use Rattle.order_free.specs.Free.{Uses, Free};
ghost use Rattle.laws_order.specs.Acts.{Act, acted_all, Allows};
ghost use Rattle.laws_order.specs.Same.{Same};

use crate::many_acts_leave_all_but_drivers_alike;

/// The same acts of a process lead from two configurations that are the same to two that are the same.
pub fn acts_go_on_the_same()
    ensures { (c x : Config) → Same c x → (p : ℕ) (log : List Act) → Same (acted_all p c log) (acted_all p x log) }
{}

/// In a design that keeps the rule on the order of processes all that one process may do in its turn, and all that another may, lead to the
/// same in either order, whatever they drive.
pub fn acts_go_on_the_same_in_either_order()
    ensures { (d : Design) → Free d → (p q : ℕ) → p ≢ q → (mine other : List Act) → All (Allows (Uses d p)) mine → All (Allows (Uses d q)) other
        → (c x : Config) → Same c x → Same (acted_all q (acted_all p c mine) other) (acted_all p (acted_all q x other) mine) }
{
    many_acts_leave_all_but_drivers_alike();
}
