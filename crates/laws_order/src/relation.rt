//! Configurations that are the same are so in either order and one after another, and runs begin so.
ghost use Rattle.sim_model.specs.FlatDesign.declared.design.Design.{Design};
ghost use Rattle.std.specs.Prelude.{List};
ghost use Rattle.sim_model.specs.Configuration.{Config, start};
ghost use Rattle.sim_model.specs.declared.plain.Command.{Command};
ghost use Rattle.laws_order.specs.Same.{Same};

/// What is the same as another is the same as itself; the other is the same as it; and what is the same as that is the same as the first.
pub fn being_the_same_is_an_equivalence()
    ensures itself { (c x : Config) → Same c x → Same c c }
    ensures flipped { (c x : Config) → Same c x → Same x c }
    ensures chained { (c x y : Config) → Same c x → Same x y → Same c y }
{}

/// The configuration before a run is the same as itself.
pub fn runs_begin_the_same()
    ensures { (d : Design) (script : List Command) → Same (start d script) (start d script) }
{}
