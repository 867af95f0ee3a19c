//! What a body shows.
ghost use Rattle.std.specs.Prelude.{◌≡◌, ℕ, ◌+◌, ◌≤◌, None, slice_get, option_map};
ghost use Rattle.kernel_bodies.specs.FlatDesign.Code.{Arena, arena_of};
ghost use Rattle.kernel_bodies.specs.SimModel.Residual as residual;
ghost use Rattle.kernel_bodies.specs.SimModel.Residual.{Residual};
ghost use Rattle.kernel_bodies.specs.SimModel.Unwinding as unwinding;
ghost use Rattle.kernel_bodies.specs.SimModel.Reading.{locals_of};
ghost use Rattle.kernel_bodies.specs.Layers.{call_of};
ghost use Rattle.kernel_bodies.specs.Sought.{last_call, last_via, many_calls};
ghost use Rattle.process_state.specs.Bodies.{left_of, left_in, settled_in, via_of, answer_of, body_of};

use crate::body::Body;
use kernel_bodies::flat_design_api::{CodeId, NameId};
use kernel_bodies::logic_values_api::Value;
use kernel_bodies::sim_model_api::Via;
use kernel_bodies::{
    Frame, Program, Saved, land, last_call, last_handler, last_try, last_via, many_calls,
    some_nonblocking, some_unwinds,
};

/// Whether a call is being unwound.
#[inline(always)]
fn is_shell(saved: &Saved) -> bool
    ensures { result ≡ saved.now.shell }
{
    saved.shell
}

impl Body {
    /// The frames that stand once finished parts have fallen away: all of them, where the innermost is not being unwound.
    #[inline(always)]
    fn standing(&self, program: &Program) -> &[Saved]
        ensures calls { last_call result.now ≡ residual.innermost (settled_in program.now self.now) }
        ensures transports { last_via result.now ≡ residual.within (settled_in program.now self.now) }
        ensures many { many_calls result.now ≡ residual.open_frames (settled_in program.now self.now) }
    {
        let many = self.frames.len();
        if many == 0 {
            return self.standing_landed(program);
        }
        if is_shell(&self.frames[many - 1]) {
            return self.standing_landed(program);
        }
        self.frames.as_slice()
    }

    /// The same, whatever falls away.
    #[inline(never)]
    fn standing_landed(&self, program: &Program) -> &[Saved]
        ensures calls { last_call result.now ≡ residual.innermost (settled_in program.now self.now) }
        ensures transports { last_via result.now ≡ residual.within (settled_in program.now self.now) }
        ensures many { many_calls result.now ≡ residual.open_frames (settled_in program.now self.now) }
    {
        let frames = self.frames.as_slice();
        match land(program, frames, self.statement) {
            Some(landing) => {
                let (standing, _) = frames.split_at(landing.outside + 1);
                standing
            }
            None => &[],
        }
    }

    /// The value of a local variable of the innermost call, once finished parts have fallen away, if there is such a variable.
    #[inline(always)]
    pub fn local(&self, program: &Program, number: usize) -> Option<Value>
        ensures { result ≡ slice_get (locals_of (residual.innermost (settled_in program.now self.now))) number }
    {
        match self.innermost(program) {
            Some(frame) => frame.locals.as_slice().get(number).copied(),
            None => None,
        }
    }

    /// The number of its code.
    pub fn code(&self) -> CodeId
        ensures { result ≡ self.now.code }
    {
        self.code
    }

    /// The innermost call, also one that is being unwound, once finished parts have fallen away.
    #[inline(always)]
    pub fn innermost(&self, program: &Program) -> Option<&Frame>
        ensures { option_map (λ x. call_of x.now) result ≡ residual.innermost (settled_in program.now self.now) }
    {
        last_call(self.standing(program))
    }

    /// The number of the code of the innermost call, once finished parts have fallen away.
    pub fn function(&self, program: &Program) -> Option<CodeId>
        ensures { result ≡ body_of (residual.innermost (settled_in program.now self.now)) }
    {
        match last_call(self.standing(program)) {
            Some(frame) => Some(frame.body),
            None => None,
        }
    }

    /// The innermost transport call, once finished parts have fallen away: it tells in which instance of a module the
    /// statement in place runs.
    pub fn within(&self, program: &Program) -> Option<Via>
        ensures { result ≡ residual.within (settled_in program.now self.now) }
    {
        last_via(self.standing(program))
    }

    /// The innermost transport call, of what is left as it stands.
    #[inline(always)]
    pub fn within_now(&self) -> Option<Via>
        ensures { (a : Arena) → result ≡ residual.within (left_of a self.now) }
    {
        last_via(self.frames.as_slice())
    }

    /// Whether some `try` has a handler for an exception, once finished parts have fallen away.
    pub fn catches(&self, program: &Program, name: NameId) -> bool
        ensures { result ≡ unwinding.catches (settled_in program.now self.now) name }
    {
        let frames = self.frames.as_slice();
        match land(program, frames, self.statement) {
            Some(landing) => {
                let (blocks, _) = frames[landing.outside].blocks.split_at(landing.blocks);
                let (outer, _) = frames.split_at(landing.outside);
                last_try(program, blocks, name).is_some()
                    || last_handler(program, outer, name).is_some()
            }
            None => false,
        }
    }

    /// How many calls are open once finished parts have fallen away. The body is not counted; calls that are being unwound
    /// are.
    pub fn open_calls(&self, program: &Program) -> usize
        ensures { result ≡ residual.open_frames (settled_in program.now self.now) }
    {
        many_calls(self.standing(program))
    }

    /// The transport call that the innermost call serves, of what is left as it stands.
    pub fn via(&self) -> Option<Via>
        ensures { (a : Arena) → result ≡ via_of (residual.innermost (left_of a self.now)) }
    {
        match last_call(self.frames.as_slice()) {
            Some(frame) => frame.via,
            None => None,
        }
    }

    /// The answer that the innermost call keeps, of what is left as it stands.
    pub fn answered(&self) -> Option<Value>
        ensures { (a : Arena) → result ≡ answer_of (residual.innermost (left_of a self.now)) }
    {
        match last_call(self.frames.as_slice()) {
            Some(frame) => frame.answer,
            None => None,
        }
    }

    /// Whether some call that is not being unwound is a non-blocking transport call, of what is left as it stands.
    pub fn in_nb(&self) -> bool
        ensures { (a : Arena) → result ≡ residual.in_nb (left_of a self.now) }
    {
        some_nonblocking(self.frames.as_slice())
    }

    /// Whether the body is being unwound, or its goal is not passed yet.
    pub fn has_goal(&self) -> bool
        ensures { (a : Arena) → result ≡ residual.has_goal (left_of a self.now) }
    {
        self.goal.is_some() || some_unwinds(self.frames.as_slice())
    }
}
