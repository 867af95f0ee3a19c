//! Unwind blocks run exactly once.
ghost use Rattle.std.specs.Prelude.{◌≡◌, ℕ, Bool, true, List, [], ◌∷◌, Some};
ghost use Rattle.sim_model.specs.FlatDesign.Sound.{SoundDesign};
ghost use Rattle.sim_model.specs.FlatDesign.declared.design.Design.{Design};
ghost use Rattle.sim_model.specs.Residual.{Residual, goal};
ghost use Rattle.sim_model.specs.Configuration.{Config, Instance, instance_at, start};
ghost use Rattle.sim_model.specs.Runs.{after};
ghost use Rattle.sim_model.specs.Clean.{open_guards};
ghost use Rattle.sim_model.specs.declared.plain.Command.{Command};
ghost use Rattle.sim_model.specs.declared.plain.Goal.{Goal};
ghost use Rattle.laws_runs.specs.Once.{guards_below, innermost_first, ends_of, once_each, Begins, HasNoGoal, IsOnTop, IsFirst};

/// In every run of a sound design, where a step has begun an unwinding of an instance, of the guards to be unwound none was
/// left and no unwind block had begun (`before`); and as soon as the unwinding is over, whatever happened in between, the
/// unwind block of each has begun exactly once and finished exactly once, the innermost first and one after another, none
/// was left, and no other instance had a part in it (`after`). So it is where an instance has ended, by a kill (`killed`), at
/// the goal of a reset, and in the handler of an exception. Of a kill and of a reset the guards to be unwound are all that
/// the instance has entered and not left (`all`); of an exception those inside its try (IEEE 1666-2011, 5.6.6).
pub fn unwind_blocks_run_once()
    ensures before { (design : Design) (script : List Command) → SoundDesign design
        → (n : ℕ) (choices : List ℕ) (c d : Config) → after n choices (start design script) ≡ Some c
        → (q : ℕ) (gs : List ℕ) → Begins c d q gs → ends_of gs d.trace.marks ≡ [] }
    ensures after { (design : Design) (script : List Command) → SoundDesign design
        → (n : ℕ) (choices : List ℕ) (c d : Config) → after n choices (start design script) ≡ Some c
        → (q : ℕ) (gs : List ℕ) → Begins c d q gs
        → (m : ℕ) (more : List ℕ) (e : Config) → after m more d ≡ Some e → HasNoGoal e q
        → ends_of gs e.trace.marks ≡ once_each q (innermost_first gs) }
    ensures killed { (design : Design) (script : List Command) → SoundDesign design
        → (n : ℕ) (choices : List ℕ) (c d : Config) → after n choices (start design script) ≡ Some c
        → (q : ℕ) (gs : List ℕ) → Begins c d q gs
        → (m : ℕ) (more : List ℕ) (e : Config) (i : Instance) → after m more d ≡ Some e → instance_at e q ≡ Some i → i.ended ≡ true
        → ends_of gs e.trace.marks ≡ once_each q (innermost_first gs) }
    ensures all { (design : Design) (script : List Command) → SoundDesign design
        → (n : ℕ) (choices : List ℕ) (d : Config) → after n choices (start design script) ≡ Some d
        → (q : ℕ) (i : Instance) (r : Residual) (k : Goal) → instance_at d q ≡ Some i → i.residual ≡ goal r k
        → guards_below i.residual ≡ open_guards q d.trace.marks }
{}

/// Where another instance p made the call that unwinds q, all this is done before the next step of p: in the first
/// configuration in which p is on top of the stack again, the unwinding is over.
pub fn unwinding_ends_before_the_caller_goes_on()
    ensures over { (design : Design) (script : List Command) → SoundDesign design
        → (n : ℕ) (choices : List ℕ) (c d : Config) → after n choices (start design script) ≡ Some c
        → (p q : ℕ) (rest gs : List ℕ) → Begins c d q gs → d.processes.stack ≡ q ∷ p ∷ rest
        → (m : ℕ) (more : List ℕ) (e : Config) → IsFirst (IsOnTop p) m more d e → HasNoGoal e q }
    ensures done { (design : Design) (script : List Command) → SoundDesign design
        → (n : ℕ) (choices : List ℕ) (c d : Config) → after n choices (start design script) ≡ Some c
        → (p q : ℕ) (rest gs : List ℕ) → Begins c d q gs → d.processes.stack ≡ q ∷ p ∷ rest
        → (m : ℕ) (more : List ℕ) (e : Config) → IsFirst (IsOnTop p) m more d e
        → ends_of gs e.trace.marks ≡ once_each q (innermost_first gs) }
{}
