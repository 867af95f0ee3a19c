//! Unwinding of a body: what a kill, a reset or an exception makes of what is left. A call that is owed goes with its statement.
ghost use Rattle.std.specs.Prelude.{◌≡◌, true, false, slice_get, ◌+◌, ◌<◌, ◌^◌, IfSome};
ghost use Rattle.kernel_bodies.specs.FlatDesign.Code.{Arena, arena_of};
ghost use Rattle.kernel_bodies.specs.SimModel.Residual.{goal, has_goal};
ghost use Rattle.kernel_bodies.specs.SimModel.Unwinding as spec;
ghost use Rattle.kernel_bodies.specs.declared.program.Program.{Program as Whole};
ghost use Rattle.process_bodies.specs.Bodies.{left_of, left_in, IsSound, Keeps};

use crate::body::Body;
use kernel_bodies::Program;
use kernel_bodies::flat_design_api::NameId;
use kernel_bodies::sim_model_api::{Goal, Via};

impl Body {
    /// Unwinds all that is left, before this goal: the unwind blocks of its guards are owed, the innermost first (IEEE
    /// 1666-2011, 5.6.6). What was being unwound before another goal is unwound before this one. It takes no memory.
    pub fn unwind(&mut self, end: Goal)
        requires { (p : Whole) × IsSound p self.old }
        ensures left { (a : Arena) → left_of a self.new ≡ goal (spec.unw (left_of a self.old)) end }
        ensures sound { (p : Whole) → IsSound p self.old → IsSound p self.new }
        ensures kept { Keeps self.old self.new }
    {
        self.calls.unwind(end);
        self.owed = None;
    }

    /// Raises an exception: what is inside the innermost `try` that has a handler for it is unwound, before this goal, and
    /// the handler follows (IEEE 1666-2011, 5.6.6). The answer is whether there is such a `try`; without one nothing changes.
    /// It takes no memory.
    pub fn raise(&mut self, program: &Program, name: NameId, end: Goal) -> bool
        requires sound { IsSound program.now self.old }
        requires free { has_goal (left_in program.now self.old) ≡ false }
        ensures caught { result ≡ spec.catches (left_in program.now self.old) name }
        ensures left { result ≡ true → left_in program.now self.new ≡ spec.raise (arena_of program.now.code) (left_in program.now self.old) name end }
        ensures refused { result ≡ false → left_in program.now self.new ≡ left_in program.now self.old }
        ensures sound { IsSound program.now self.new }
        ensures kept { Keeps self.old self.new }
    {
        if !self.calls.raise(program, name, end) {
            return false;
        }
        self.owed = None;
        true
    }

    /// The transport call of this number among those that `unwind` would leave, the innermost first.
    pub fn left_by_unwind(&self, number: usize) -> Option<Via>
        ensures value { (a : Arena) → result ≡ slice_get (spec.left_by_unw (left_of a self.now)) number }
        ensures small { IfSome result (λ _. number + 1 < 2 ^ 64) }
    {
        self.calls.left_by_unwind(number)
    }

    /// The transport call of this number among those that `raise` would leave, the innermost first.
    pub fn left_by_raise(&self, program: &Program, name: NameId, number: usize) -> Option<Via>
        ensures value { result ≡ slice_get (spec.left_by_raise (left_in program.now self.now) name) number }
        ensures small { IfSome result (λ _. number + 1 < 2 ^ 64) }
    {
        self.calls.left_by_raise(program, name, number)
    }
}
