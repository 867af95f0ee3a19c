//! Statements, steps and turns of a process, in two configurations that it sees alike.
ghost use Rattle.std.specs.Prelude.{◌≡◌, ◌≢◌, ℕ, [], Some, Ok};
ghost use Rattle.sim_model.specs.FlatDesign.Code.{Statement};
ghost use Rattle.sim_model.specs.FlatDesign.declared.design.Design.{Design};
ghost use Rattle.sim_model.specs.Residual.{Residual, settle, next_of};
ghost use Rattle.sim_model.specs.Configuration.{Config, Instance, arena, instance_at};
ghost use Rattle.sim_model.specs.Reading.{here};
ghost use Rattle.sim_model.specs.Statements.{do_statement, statement_step};
ghost use Rattle.kernel_bodies.specs.Strip.{strip};
ghost use Rattle.order_free.specs.Free.{Uses, Free};
ghost use Rattle.laws_order.specs.Sees.{Sees};
ghost use Rattle.laws_order.specs.Alongside.{Alongside, Both, HasNoHops, OwnUses, OwnNext, AreUnheard};
ghost use Rattle.laws_order.specs.Turns.{Turn, EachIsOwn, TakesTurn, TurnsOfOthers};
ghost use Rattle.laws_order.specs.LeftAlike.{AreLeftAlike};

/// In a design that keeps the rule on the order of processes let a process see two configurations alike, and let the same be left of it
/// in both but for the numbers of guards, with no transport call open. A statement all whose uses are its own is then the same fault
/// in both; or it goes in both, by the same acts on what is shared, each of which its uses allow, and the process sees what comes of it
/// alike.
pub fn statements_are_done_alike()
    ensures { (p : ℕ) (c x : Config) → Free c.design → Sees (Uses c.design p) p c x → x.processes.stack ≡ c.processes.stack
        → (i j : Instance) → j.home ≡ i.home → (r t : Residual) → strip t ≡ strip r → HasNoHops r
        → (n : ℕ) (s : Statement) → OwnUses (Uses c.design p) c.design i.home s
        → Both (Alongside (Uses c.design p) p c x) (do_statement c p i r (here c p i r) n s) (do_statement x p j t (here x p j t) n s) }
{}

/// So it is with a whole step of a process, be it a statement, the end of a call, of its body or of an unwinding: where no transport call
/// is open in it, what comes next of it is its own, and nobody waits for its end or its reset.
pub fn steps_are_done_alike()
    ensures { (p : ℕ) (c x : Config) → Free c.design → Sees (Uses c.design p) p c x → x.processes.stack ≡ c.processes.stack
        → (i : Instance) → instance_at c p ≡ Some i → HasNoHops i.residual
        → OwnNext (Uses c.design p) c.design i.home (next_of (settle (arena c) i.residual)) → AreUnheard p c → AreUnheard p x
        → Both (Alongside (Uses c.design p) p c x) (statement_step c p) (statement_step x p) }
{}

/// Of such a step another process sees nothing.
pub fn steps_of_others_are_unseen()
    ensures { (p q : ℕ) → p ≢ q → (c : Config) → Free c.design → (i : Instance) → instance_at c q ≡ Some i → HasNoHops i.residual
        → OwnNext (Uses c.design q) c.design i.home (next_of (settle (arena c) i.residual)) → AreUnheard q c
        → (e : Config) → statement_step c q ≡ Ok e → Sees (Uses c.design p) p c e }
{}

/// A turn, each of whose steps is such a step of the process, is taken alike in both too: it has as many steps, and the same acts.
pub fn turns_are_done_alike()
    ensures { (p n : ℕ) (c e : Config) → Free c.design → (turn : Turn p n c e) → EachIsOwn (Uses c.design p) p n c e turn
        → (x : Config) → Sees (Uses c.design p) p c x → x.processes.stack ≡ c.processes.stack → AreUnheard p x
        → (y : Config) × (again : Turn p n x y) × EachIsOwn (Uses c.design p) p n x y again × Alongside (Uses c.design p) p c x e y }
{}

/// Of such a turn another process sees nothing.
pub fn turns_of_others_are_unseen()
    ensures { (p q : ℕ) → p ≢ q → (n : ℕ) (c e : Config) → Free c.design → (turn : Turn q n c e) → EachIsOwn (Uses c.design q) q n c e turn
        → Sees (Uses c.design p) p c e }
{}

/// So a process takes the same turn, whichever processes had such turns before it, and in whichever order: from the one configuration, with
/// nobody on the stack, it has as many steps, and the same acts.
pub fn turns_do_not_depend_on_others()
    ensures { (p n : ℕ) (c d e x : Config) → Free c.design → c.processes.stack ≡ [] → TurnsOfOthers (Uses c.design) p c d → TurnsOfOthers (Uses c.design) p c x
        → (turn : TakesTurn (Uses c.design p) p n d e) → AreUnheard p x
        → (y : Config) × (again : TakesTurn (Uses c.design p) p n x y) × Alongside (Uses c.design p) p turn.begun again.begun e y }
{}

/// Where one process takes such a turn and then another one does, and nobody waits for the end or the reset of either, the other one may
/// come first. Each turn has as many steps, and all is left alike but for the drivers of resolved signals.
pub fn turns_go_in_either_order()
    ensures { (p q : ℕ) → p ≢ q → (n m : ℕ) (c d e : Config) → Free c.design → c.processes.stack ≡ [] → TakesTurn (Uses c.design p) p n c d → TakesTurn (Uses c.design q) q m d e
        → AreUnheard q c → AreUnheard p c → AreUnheard p e
        → (x : Config) × (y : Config) × TakesTurn (Uses c.design q) q m c x × TakesTurn (Uses c.design p) p n x y × AreLeftAlike e y }
{}

/// What is left alike each process sees alike.
pub fn what_is_left_alike_is_seen_alike()
    ensures { (d : Design) (p : ℕ) (e y : Config) → AreLeftAlike e y → Sees (Uses d p) p e y }
{}

/// So a process takes the same such turn from both, and what it leaves is left alike again.
pub fn turns_leave_alike()
    ensures { (p n : ℕ) (e f y : Config) → Free e.design → AreLeftAlike e y → TakesTurn (Uses e.design p) p n e f → AreUnheard p y
        → (g : Config) × TakesTurn (Uses e.design p) p n y g × AreLeftAlike f g }
{}
