//! Runs of a design that keeps the rule on the order of processes.
ghost use Rattle.std.specs.Prelude.{◌≡◌, ℕ, List, [], ◌∷◌, Some, Ok};
ghost use Rattle.sim_model.specs.FlatDesign.declared.design.Design.{Design};
ghost use Rattle.sim_model.specs.Configuration.{Config, Instance, instance_at, start};
ghost use Rattle.sim_model.specs.EventCore.declared.event.Ev.TheVariants as ev;
ghost use Rattle.sim_model.specs.Waits.{fire};
ghost use Rattle.sim_model.specs.Statements.{statement_step};
ghost use Rattle.sim_model.specs.Steps.{step, went};
ghost use Rattle.sim_model.specs.Runs.{after};
ghost use Rattle.sim_model.specs.declared.plain.Command.{Command};
ghost use Rattle.order_free.specs.Free.{Uses, Free};
ghost use Rattle.laws_order.specs.Alongside.{AreUnheard};
ghost use Rattle.laws_order.specs.Turns.{IsOnItsOwn};
ghost use Rattle.laws_order.specs.Fits.{Fits};

/// After any number of steps, whatever is chosen, each process keeps to itself: the instances are the processes of the design, and what
/// is left of the body of each is its own; nobody waits for the end or the reset of another one, and nobody is suspended or disabled;
/// one process at most is on the stack, and that in an evaluation phase; and nobody asked to stop.
pub fn processes_keep_to_themselves()
    ensures { (d : Design) (script : List Command) → Free d → (n : ℕ) (choices : List ℕ) (c : Config) → after n choices (start d script) ≡ Some c → Fits d c }
{}

/// So each step of a process is its own, and nobody hears of the end or the reset of one.
pub fn runs_are_on_their_own()
    ensures own { (d : Design) (script : List Command) → Free d → (n : ℕ) (choices : List ℕ) (c : Config) → after n choices (start d script) ≡ Some c
        → (p : ℕ) (i : Instance) → instance_at c p ≡ Some i → IsOnItsOwn (Uses d p) p c }
    ensures unheard { (d : Design) (script : List Command) → Free d → (n : ℕ) (choices : List ℕ) (c : Config) → after n choices (start d script) ≡ Some c
        → (p : ℕ) → AreUnheard p c }
{}

/// So nothing changes when the end or the reset of a process fires.
pub fn ends_change_nothing()
    ensures { (d : Design) (script : List Command) → Free d → (n : ℕ) (choices : List ℕ) (c : Config) → after n choices (start d script) ≡ Some c
        → (p : ℕ) → (fire c (ev.Terminated p) ≡ c) × (fire c (ev.Restarted p) ≡ c) }
{}

/// A step of a process makes nobody runnable, and moves neither the phase nor the time: so an evaluation phase takes those who were
/// runnable when it began, and no others.
pub fn steps_wake_nobody()
    ensures { (d : Design) (script : List Command) → Free d → (n : ℕ) (choices : List ℕ) (c : Config) → after n choices (start d script) ≡ Some c
        → (p : ℕ) → c.processes.stack ≡ p ∷ [] → (e : Config) → statement_step c p ≡ Ok e
        → (e.processes.runnable ≡ c.processes.runnable) × (e.cycle ≡ c.cycle) }
{}

/// A step that is none of a process, be it a command of the script or one of the scheduler, leaves nobody on the stack: only a taking
/// brings a process there.
pub fn the_stack_stays_empty_between_turns()
    ensures { (d : Design) (script : List Command) → Free d → (n : ℕ) (choices : List ℕ) (c : Config) → after n choices (start d script) ≡ Some c
        → c.processes.stack ≡ [] → (e : Config) → step c ≡ went e → e.processes.stack ≡ [] }
{}
