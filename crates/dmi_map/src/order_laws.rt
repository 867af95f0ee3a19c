ghost use Rattle.std.specs.Prelude.{◌≡◌, ℕ, ◌↔◌, List, Contains};
ghost use Rattle.dmi_map.specs.declared.order.Rank.{Rank};
ghost use Rattle.dmi_map.specs.Ranks.{AreInOrder};

/// Places have one order, at most.
pub fn one_order()
    ensures { (ranks : ℕ → Rank) (places others : List ℕ) → AreInOrder ranks places → AreInOrder ranks others
        → ((k : ℕ) → Contains places k ↔ Contains others k) → places ≡ others }
{}
