//! The law of the verdict.
ghost use Rattle.std.specs.Prelude.{ℕ};
ghost use Rattle.flat_design.specs.declared.design.Design.{Design as Flat};
ghost use Rattle.order_free.specs.Free.{Free, Breaks};

/// A design that keeps the rule breaks no part of it: yes and no exclude each other.
pub fn yes_and_no_exclude_each_other()
    ensures { (d : Flat) (k : ℕ) → Free d → Breaks d k → ⊥ }
{}
