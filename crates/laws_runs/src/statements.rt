//! The statement in place, in a typed configuration.
ghost use Rattle.std.specs.Prelude.{◌≡◌, ℕ, Bool, Some, IfOk};
ghost use Rattle.sim_model.specs.FlatDesign.Code.{Statement, statement_at};
ghost use Rattle.sim_model.specs.FlatDesign.Sound.{SoundDesign};
ghost use Rattle.sim_model.specs.Residual.{next_of, statement};
ghost use Rattle.sim_model.specs.Configuration.{Config, Instance, instance_at};
ghost use Rattle.sim_model.specs.Reading.{here};
ghost use Rattle.sim_model.specs.Statements.{do_statement};
ghost use Rattle.laws_runs.specs.Standing.{code_of, IsStanding};
ghost use Rattle.laws_runs.specs.TypedConfig.{TypesHaveValues, IsTypedConfig};
ghost use Rattle.laws_runs.specs.Terms.{MeetsItsTypes, NextIsTyped};

/// In a typed configuration of a sound design, the statement that an instance carries out next is typed where it is carried
/// out, among local variables of their types (`next`): so by `typed_terms_have_their_types` each of its expressions has the
/// type that its place asks for, or is a run fault. And in each of its expressions operators meet operands of the types that
/// they ask for (`operands`).
pub fn each_statement_meets_its_types()
    ensures next { (c : Config) (p : ℕ) (i : Instance) → SoundDesign c.design → IsTypedConfig c → instance_at c p ≡ Some i → NextIsTyped c p i }
    ensures operands { (c : Config) (p : ℕ) (i : Instance) → SoundDesign c.design → IsTypedConfig c → instance_at c p ≡ Some i → MeetsItsTypes c p i }
{}

/// A statement of any form, where what is left of its instance stands in the bodies of the design, leaves a typed
/// configuration typed, or is a run fault.
pub fn each_statement_keeps_everything_typed()
    ensures { (c : Config) (p : ℕ) (i : Instance) (n : ℕ) (s : Statement) → SoundDesign c.design → TypesHaveValues c.design → IsTypedConfig c
        → instance_at c p ≡ Some i → IsStanding c.design i.home i.residual → next_of i.residual ≡ statement n → statement_at (code_of c.design) n ≡ Some s
        → IfOk (do_statement c p i i.residual (here c p i i.residual) n s) IsTypedConfig }
{}
