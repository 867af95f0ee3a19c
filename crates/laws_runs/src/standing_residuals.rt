//! Laws on what is left of a body.
ghost use Rattle.std.specs.Prelude.{◌≡◌, ℕ, false};
ghost use Rattle.sim_model.specs.FlatDesign.Code.{Arena};
ghost use Rattle.sim_model.specs.Residual.{Residual, settle};
ghost use Rattle.sim_model.specs.Unwinding.{unw, catches};
ghost use Rattle.sim_model.specs.Clean.{guards_of};

/// Finished parts fall away at once: of what is settled nothing more falls away.
pub fn settling_twice_is_settling_once()
    ensures { (a : Arena) (r : Residual) → settle a (settle a r) ≡ settle a r }
{}

/// What is unwound is not unwound further; its guards are those that were entered, with their numbers from outside in;
/// and no exception is caught in it (IEEE 1666-2011, 5.6.6).
pub fn unwinding_keeps_guards()
    ensures again { (r : Residual) → unw (unw r) ≡ unw r }
    ensures guards { (r : Residual) → guards_of (unw r) ≡ guards_of r }
    ensures catches { (r : Residual) (e : ℕ) → catches (unw r) e ≡ false }
{}
