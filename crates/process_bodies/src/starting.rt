//! Bodies that start, begin again and become idle, and calls that are entered.
ghost use Rattle.std.specs.Prelude.{◌≡◌, ℕ, ◌<◌, ◌≤◌, Some, OnOk, OnErr, IfOk, IsOk, Err, vec_capacity};
ghost use Rattle.kernel_bodies.specs.FlatDesign.Code.{Arena, arena_of};
ghost use Rattle.kernel_bodies.specs.SimModel.Residual as residual;
ghost use Rattle.kernel_bodies.specs.SimModel.Residual.{next_of, put, skip, begun, entered, open_frames};
ghost use Rattle.kernel_bodies.specs.SimModel.Calls.{frame_limit};
ghost use Rattle.kernel_bodies.specs.declared.program.Program.{Program as Whole};
ghost use Rattle.kernel_bodies.specs.Room.{locals_with};
ghost use Rattle.process_bodies.specs.Bodies.{left_of, left_in, settled_in, next_in, IsSound, Keeps, IsStatement, HasRoomFor};

use crate::body::{Body, let_go};
use kernel_bodies::Program;
use kernel_bodies::flat_design_api::CodeId;
use kernel_bodies::logic_values_api::Value;
use kernel_bodies::sim_model_api::Via;
use process_state::{Body as Calls, EnterStop};
use std::alloc::{AllocError, Global};

impl Body {
    /// A body of this code that was not begun, with its first arguments.
    pub fn start(
        alloc: Global,
        program: &Program,
        code: CodeId,
        arguments: Vec<Value>,
    ) -> Result<Body, AllocError>
        ensures left { IfOk result (λ b. (a : Arena) → left_of a b ≡ skip) }
        ensures sound { IfOk result (λ b. IsSound program.now b) }
        ensures kept { IfOk result (λ b. (b.calls.code ≡ code) × (b.calls.arguments.items ≡ arguments.items)) }
    {
        match Calls::start(alloc, program, code, arguments) {
            Ok(calls) => Ok(Body { calls, owed: None }),
            Err(_) => Err(AllocError),
        }
    }

    /// Begins the body with its first arguments. It takes no memory.
    #[inline(always)]
    pub fn restart(&mut self, program: &Program)
        requires { IsSound program.now self.old }
        ensures left { left_in program.now self.new ≡ begun (arena_of program.now.code) self.old.calls.code self.old.calls.arguments.items }
        ensures sound { IsSound program.now self.new }
        ensures kept { Keeps self.old self.new }
    {
        self.calls.restart(program);
        let_go(&mut self.owed);
    }

    /// Makes the body one that was not begun. It keeps its first arguments, and takes no memory.
    #[inline(always)]
    pub fn idle(&mut self)
        ensures left { (a : Arena) → left_of a self.new ≡ skip }
        ensures sound { (p : Whole) → IsSound p self.old → IsSound p self.new }
        ensures kept { Keeps self.old self.new }
    {
        self.calls.idle();
        let_go(&mut self.owed);
    }

    /// Makes room for a call of this code. It is refused where as many calls are open as may be once finished
    /// parts have fallen away, and where memory is. What is left stays as it is.
    pub fn reserve(&mut self, program: &Program, function: CodeId) -> Result<(), EnterStop>
        requires { IsSound program.now self.old }
        ensures left { (a : Arena) → left_of a self.new ≡ left_of a self.old }
        ensures ready { OnOk result (HasRoomFor program.now self.new function) }
        ensures shallow { OnOk result (open_frames (settled_in program.now self.old) < frame_limit) }
        ensures deep { result ≡ Err EnterStop.TooDeep → frame_limit ≤ open_frames (settled_in program.now self.old) }
        ensures only { frame_limit ≤ open_frames (settled_in program.now self.old) → result ≡ Err EnterStop.TooDeep }
        ensures succeeds { HasRoomFor program.now self.old function → open_frames (settled_in program.now self.old) < frame_limit → IsOk result }
        ensures sound { IsSound program.now self.new }
        ensures kept { Keeps self.old self.new }
    {
        self.calls.reserve(program, function)
    }

    /// The statement in place calls this code with these arguments. It is refused where as many calls are open as may be, and
    /// where memory is; then what is left stays as it is. After `reserve`, and with a vector that has room for all local
    /// variables, it takes no memory.
    pub fn enter(
        &mut self,
        program: &Program,
        function: CodeId,
        arguments: Vec<Value>,
        via: Option<Via>,
    ) -> Result<(), EnterStop>
        requires sound { IsSound program.now self.old }
        requires statement { IsStatement (next_in program.now self.old) }
        ensures entered { OnOk result ((s : ℕ) → next_of (settled_in program.now self.old) ≡ residual.statement s → left_in program.now self.new ≡ put (settled_in program.now self.old) (entered (arena_of program.now.code) function arguments.items (Some s) via)) }
        ensures refused { OnErr result (left_in program.now self.new ≡ left_in program.now self.old) }
        ensures shallow { OnOk result (open_frames (settled_in program.now self.old) < frame_limit) }
        ensures deep { result ≡ Err EnterStop.TooDeep → frame_limit ≤ open_frames (settled_in program.now self.old) }
        ensures only { frame_limit ≤ open_frames (settled_in program.now self.old) → result ≡ Err EnterStop.TooDeep }
        ensures succeeds { HasRoomFor program.now self.old function → locals_with (arena_of program.now.code) function arguments.items ≤ vec_capacity arguments → open_frames (settled_in program.now self.old) < frame_limit → IsOk result }
        ensures sound { IsSound program.now self.new }
        ensures kept { Keeps self.old self.new }
    {
        match self.calls.enter(program, function, arguments, via) {
            Ok(()) => {
                self.owed = None;
                Ok(())
            }
            Err(stop) => Err(stop),
        }
    }
}
