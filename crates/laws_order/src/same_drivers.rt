//! Drivers of resolved signals, each a process's own.
ghost use Rattle.std.specs.Prelude.{◌≢◌, ℕ};
ghost use Rattle.sim_model.specs.LogicValues.declared.kinds.Digit.{Digit};
ghost use Rattle.sim_model.specs.SignalChannel.Drivers.{Driven, undriven, driven_by, resettled};
ghost use Rattle.laws_order.specs.Same.{HasOwnDrivers, SameDriven};

/// Each process that wrote a resolved signal has one driver of its own there: before anybody wrote, after each write, and after updates.
pub fn each_process_has_its_own_driver()
    ensures first { HasOwnDrivers undriven }
    ensures write { (p : ℕ) (d : Digit) (r : Driven) → HasOwnDrivers r → HasOwnDrivers (driven_by p d r) }
    ensures update { (r : Driven) → HasOwnDrivers r → HasOwnDrivers (resettled r) }
{}

/// A process that drives two resolved signals that are the same leaves them the same.
pub fn drivers_go_on_the_same()
    ensures { (p : ℕ) (d : Digit) (r s : Driven) → SameDriven r s → SameDriven (driven_by p d r) (driven_by p d s) }
{}

/// Two processes may drive one in either order.
pub fn drivers_go_in_either_order()
    ensures { (p q : ℕ) → p ≢ q → (d e : Digit) (r s : Driven) → SameDriven r s → SameDriven (driven_by q e (driven_by p d r)) (driven_by p d (driven_by q e s)) }
{}
