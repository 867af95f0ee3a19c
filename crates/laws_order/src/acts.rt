//! What acts leave of what a process sees, and that acts of two processes may be done in either order.
ghost use Rattle.std.specs.Prelude.{◌≡◌, ◌≢◌, ℕ, List, All};
ghost use Rattle.sim_model.specs.Configuration.{Config};
ghost use Rattle.sim_model.specs.FlatDesign.declared.design.Design.{Design};
ghost use Rattle.order_free.specs.Free.{Uses, Free};
ghost use Rattle.laws_order.specs.Acts.{Act, acted, acted_all, Allows, DriveApart};
ghost use Rattle.laws_order.specs.Sees.{Sees};
ghost use Rattle.laws_order.specs.Undriven.{without_drivers};

/// One act in two configurations that a process sees alike leaves two that it sees alike, whoever acts.
pub fn acts_are_seen_alike()
    ensures { (d : Design) (p : ℕ) (c x : Config) → Sees (Uses d p) p c x → (q : ℕ) (a : Act) → Sees (Uses d p) p (acted q c a) (acted q x a) }
{}

/// In a design that keeps the rule on the order of processes a process sees nothing of what another may do in its turn.
pub fn acts_of_others_are_unseen()
    ensures { (d : Design) → Free d → (p q : ℕ) → p ≢ q → (c : Config) (a : Act) → Allows (Uses d q) a → Sees (Uses d p) p c (acted q c a) }
{}

/// In such a design what one process may do, and what another may, leave the same in either order, but where both drive one
/// resolved signal.
pub fn acts_go_in_either_order()
    ensures { (d : Design) → Free d → (p q : ℕ) → p ≢ q → (c : Config) (a b : Act) → Allows (Uses d p) a → Allows (Uses d q) b → DriveApart a b
        → acted q (acted p c a) b ≡ acted p (acted q c b) a }
{}

/// In such a design a process sees nothing of all that another may do in its turn, act by act.
pub fn many_acts_are_unseen()
    ensures { (d : Design) → Free d → (p q : ℕ) → p ≢ q → (log : List Act) → All (Allows (Uses d q)) log → (c : Config)
        → Sees (Uses d p) p c (acted_all q c log) }
{}

/// In such a design all that one process may do in its turn, and all that another may, leave the same in either order, but where
/// both drive one resolved signal.
pub fn many_acts_go_in_either_order()
    ensures { (d : Design) → Free d → (p q : ℕ) → p ≢ q → (mine other : List Act) → All (Allows (Uses d p)) mine → All (Allows (Uses d q)) other
        → All (λ a. All (DriveApart a) other) mine → (c : Config) → acted_all q (acted_all p c mine) other ≡ acted_all p (acted_all q c other) mine }
{}

/// Whatever they drive, what both leave is the same in either order but for the drivers of resolved signals.
pub fn many_acts_leave_all_but_drivers_alike()
    ensures { (d : Design) → Free d → (p q : ℕ) → p ≢ q → (mine other : List Act) → All (Allows (Uses d p)) mine → All (Allows (Uses d q)) other
        → (c : Config) → without_drivers (acted_all q (acted_all p c mine) other) ≡ without_drivers (acted_all p (acted_all q c other) mine) }
{}
