//! What a body shows.
ghost use Rattle.std.specs.Prelude.{◌≡◌, ℕ, true, slice_get, option_map};
ghost use Rattle.kernel_bodies.specs.FlatDesign.Code.{Arena};
ghost use Rattle.kernel_bodies.specs.SimModel.Residual as residual;
ghost use Rattle.kernel_bodies.specs.SimModel.Residual.{next_of};
ghost use Rattle.kernel_bodies.specs.SimModel.Unwinding as unwinding;
ghost use Rattle.kernel_bodies.specs.SimModel.Reading.{locals_of};
ghost use Rattle.kernel_bodies.specs.SimModel.declared.plain.Goal.{Goal as Aim};
ghost use Rattle.kernel_bodies.specs.Layers.{call_of};
ghost use Rattle.process_state.specs.Bodies.{via_of, answer_of, body_of};
ghost use Rattle.process_bodies.specs.Bodies as spec;
ghost use Rattle.process_bodies.specs.Bodies.{left_of, settled_in, next_in, IsSound};

use crate::body::Body;
use kernel_bodies::flat_design_api::{CodeId, NameId};
use kernel_bodies::logic_values_api::Value;
use kernel_bodies::sim_model_api::Via;
use kernel_bodies::{Frame, Next, Program};

impl Body {
    /// What comes next once finished parts have fallen away. The body is not changed.
    #[inline(always)]
    pub fn next(&self, program: &Program) -> Next
        requires { IsSound program.now self.now }
        ensures value { result ≡ next_in program.now self.now }
        ensures statement { (s : ℕ) → result ≡ Next.Statement s → next_of (settled_in program.now self.now) ≡ residual.statement s }
        ensures owes { (s q : ℕ) → result ≡ Next.Batch s q → next_of (settled_in program.now self.now) ≡ residual.owes s q }
        ensures somebody { (s q : ℕ) → result ≡ Next.Batch s q → spec.owes self.now.owed ≡ true }
        ensures goal { (k : Aim) → result ≡ Next.Goal k → next_of (settled_in program.now self.now) ≡ residual.reaches k }
        ensures done { result ≡ Next.Done → next_of (settled_in program.now self.now) ≡ residual.done }
        ensures nothing { result ≡ Next.Nothing → next_of (settled_in program.now self.now) ≡ residual.nothing }
    {
        match &self.owed {
            Some(owed) => {
                if owed.somebody {
                    Next::Batch(owed.statement, owed.first)
                } else {
                    self.calls.next(program)
                }
            }
            None => self.calls.next(program),
        }
    }

    /// The value of a local variable of the innermost call, once finished parts have fallen away, if there is such a variable.
    pub fn local(&self, program: &Program, number: usize) -> Option<Value>
        ensures { result ≡ slice_get (locals_of (residual.innermost (settled_in program.now self.now))) number }
    {
        self.calls.local(program, number)
    }

    /// The number of its code.
    pub fn code(&self) -> CodeId
        ensures { result ≡ self.now.calls.code }
    {
        self.calls.code()
    }

    /// The innermost call, also one that is being unwound, once finished parts have fallen away.
    pub fn innermost(&self, program: &Program) -> Option<&Frame>
        ensures { option_map (λ x. call_of x.now) result ≡ residual.innermost (settled_in program.now self.now) }
    {
        self.calls.innermost(program)
    }

    /// The number of the code of the innermost call, once finished parts have fallen away.
    pub fn function(&self, program: &Program) -> Option<CodeId>
        ensures { result ≡ body_of (residual.innermost (settled_in program.now self.now)) }
    {
        self.calls.function(program)
    }

    /// The innermost transport call, once finished parts have fallen away: it tells in which instance of a module the
    /// statement in place runs.
    pub fn within(&self, program: &Program) -> Option<Via>
        ensures { result ≡ residual.within (settled_in program.now self.now) }
    {
        self.calls.within(program)
    }

    /// The innermost transport call, of what is left as it stands.
    #[inline(always)]
    pub fn within_now(&self) -> Option<Via>
        ensures { (a : Arena) → result ≡ residual.within (left_of a self.now) }
    {
        self.calls.within_now()
    }

    /// Whether some `try` has a handler for an exception, once finished parts have fallen away.
    pub fn catches(&self, program: &Program, name: NameId) -> bool
        ensures { result ≡ unwinding.catches (settled_in program.now self.now) name }
    {
        self.calls.catches(program, name)
    }

    /// How many calls are open once finished parts have fallen away. The body is not counted; calls that are being unwound
    /// are.
    pub fn open_calls(&self, program: &Program) -> usize
        ensures { result ≡ residual.open_frames (settled_in program.now self.now) }
    {
        self.calls.open_calls(program)
    }

    /// The transport call that the innermost call serves, of what is left as it stands.
    pub fn via(&self) -> Option<Via>
        ensures { (a : Arena) → result ≡ via_of (residual.innermost (left_of a self.now)) }
    {
        self.calls.via()
    }

    /// The answer that the innermost call keeps, of what is left as it stands.
    pub fn answered(&self) -> Option<Value>
        ensures { (a : Arena) → result ≡ answer_of (residual.innermost (left_of a self.now)) }
    {
        self.calls.answered()
    }

    /// Whether some call that is not being unwound is a non-blocking transport call, of what is left as it stands.
    pub fn in_nb(&self) -> bool
        ensures { (a : Arena) → result ≡ residual.in_nb (left_of a self.now) }
    {
        self.calls.in_nb()
    }

    /// Whether the body is being unwound, or its goal is not passed yet.
    pub fn has_goal(&self) -> bool
        ensures { (a : Arena) → result ≡ residual.has_goal (left_of a self.now) }
    {
        self.calls.has_goal()
    }
}
