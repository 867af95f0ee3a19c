//! Drivers of a resolved signal.
ghost use Rattle.std.specs.Prelude.{◌≡◌, List, IsPermutation};
ghost use Rattle.sim_model.specs.LogicValues.declared.kinds.Digit.{Digit};
ghost use Rattle.sim_model.specs.SignalChannel.Drivers.{resolution};

/// What the drivers of a resolved signal make of it does not depend on their order (IEEE 1666-2011, 6.13).
pub fn drivers_resolve_in_any_order()
    ensures { (ds es : List Digit) → IsPermutation ds es → resolution es ≡ resolution ds }
{}
