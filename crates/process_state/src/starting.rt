//! Bodies that start, begin again and become idle, and calls that are entered.
ghost use Rattle.std.specs.Prelude.{◌≡◌, ℕ, ◌+◌, ◌<◌, ◌≤◌, ◌++◌, ◌∷◌, [], List, length, None, Some, OnOk, OnErr, IfOk, IsOk, Err, vec_len, vec_capacity, alloc_error};
ghost use Rattle.kernel_bodies.specs.LogicValues.declared.kinds.Value.{Value as Kept};
ghost use Rattle.kernel_bodies.specs.FlatDesign.Code.{Arena, arena_of, body_at};
ghost use Rattle.kernel_bodies.specs.SimModel.Residual as residual;
ghost use Rattle.kernel_bodies.specs.SimModel.Residual.{next_of, put, skip, begun, entered, open_frames, first_locals};
ghost use Rattle.kernel_bodies.specs.SimModel.Calls.{frame_limit};
ghost use Rattle.kernel_bodies.specs.Depths.{locals_at};
ghost use Rattle.kernel_bodies.specs.declared.program.Program.{Program as Whole};
ghost use Rattle.kernel_bodies.specs.Layers.{call_of, standing, whole};
ghost use Rattle.kernel_bodies.specs.Room.{locals_with, body_depth, begun_in, own_locals, own_blocks, FitsIn};
ghost use Rattle.process_state.specs.Bodies.{left_of, left_in, settled_in, next_in, IsSound, IsOwnFirst, Keeps, IsStatement, HasRoomFor, Begins};

use crate::body::{Body, keep_outer, put_by};
use kernel_bodies::flat_design_api::{CodeId, Local, StmtId};
use kernel_bodies::logic_values_api::Value;
use kernel_bodies::sim_model_api::Via;
use kernel_bodies::{
    Frame, Open, Program, Saved, add_layers, add_locals, body_begins, depth_in, locals_in,
    many_locals, place,
};
use std::alloc::{AllocError, Global};
use std::mem;

/// Why a call is not entered.
#[derive(Clone, Copy, Debug, PartialEq, Eq)]
pub enum EnterStop {
    /// As many calls are open as may be.
    TooDeep,
    /// Memory was refused.
    NoMemory,
}

/// As many calls as may be open, the body not counted.
const FRAME_LIMIT: usize = 64;

/// Begins the body of a call inside frames, with a vector for what stands open in it, and gives its first statement.
#[inline(always)]
fn begin_call(
    program: &Program,
    frames: &mut Vec<Saved>,
    frame: Frame,
    blocks: Vec<Open>,
) -> Option<StmtId>
    requires place { vec_len frames.old < vec_capacity frames.old }
    requires room { body_depth program.now.depths.items (body_at (arena_of program.now.code) frame.body) + 3 ≤ vec_capacity blocks }
    ensures begun { Begins program.now frames.old.items frame (vec_capacity blocks) result frames.new.items }
    ensures capacity { vec_capacity frames.old ≤ vec_capacity frames.new }
{
    let mut inner = blocks;
    inner.clear();
    let comes = body_begins(program, frame.body);
    let first = add_layers(&mut inner, comes);
    place(
        frames,
        Saved {
            frame,
            shell: false,
            blocks: inner,
        },
    );
    first
}

/// Adds some arguments of a call, for which there is room.
#[inline(never)]
fn add_some(values: &mut Vec<Value>, arguments: &[Value])
    requires { vec_len values.old + length arguments.now ≤ vec_capacity values.old }
    ensures items { values.new.items ≡ values.old.items ++ arguments.now }
    ensures capacity { vec_capacity values.old ≤ vec_capacity values.new }
{
    let _ = values.extend_from_slice(arguments);
}

/// Adds the arguments of a call, for which there is room.
#[inline(always)]
fn add_arguments(values: &mut Vec<Value>, arguments: &[Value])
    requires { vec_len values.old + length arguments.now ≤ vec_capacity values.old }
    ensures items { values.new.items ≡ values.old.items ++ arguments.now }
    ensures capacity { vec_capacity values.old ≤ vec_capacity values.new }
{
    if !arguments.is_empty() {
        add_some(values, arguments);
    }
}

/// The first values of the local variables of a call, in a vector that has room for them.
#[inline(always)]
fn begin_locals(values: &mut Vec<Value>, arguments: &[Value], locals: &[Local])
    requires { length (first_locals arguments.now locals.now) ≤ vec_capacity values.old }
    ensures items { values.new.items ≡ first_locals arguments.now locals.now }
    ensures capacity { vec_capacity values.old ≤ vec_capacity values.new }
{
    values.clear();
    add_arguments(values, arguments);
    add_locals(values, locals);
}

/// The body's own call begins with its first arguments, in the vectors that it has, and gives its first statement.
#[inline(always)]
fn begin_own(
    program: &Program,
    saved: &mut Saved,
    code: CodeId,
    arguments: &[Value],
) -> Option<StmtId>
    requires locals { locals_with (arena_of program.now.code) code arguments.now ≤ vec_capacity saved.old.frame.locals }
    requires blocks { body_depth program.now.depths.items (body_at (arena_of program.now.code) code) + 3 ≤ vec_capacity saved.old.blocks }
    ensures left { whole (arena_of program.now.code) saved.new (standing result) ≡ begun (arena_of program.now.code) code arguments.now }
    ensures fits { FitsIn (arena_of program.now.code) program.now.depths.items saved.new result }
    ensures own { saved.new.frame.call ≡ None }
    ensures locals { vec_capacity saved.old.frame.locals ≤ vec_capacity saved.new.frame.locals }
    ensures blocks { vec_capacity saved.old.blocks ≤ vec_capacity saved.new.blocks }
{
    begin_locals(&mut saved.frame.locals, arguments, locals_in(program, code));
    saved.frame.body = code;
    saved.frame.answer = None;
    saved.frame.call = None;
    saved.frame.via = None;
    saved.shell = false;
    saved.blocks.clear();
    let comes = body_begins(program, code);
    add_layers(&mut saved.blocks, comes)
}

/// The body's own call that rests, with these vectors, in a vector that has room for it.
fn rest_in(place_of: Vec<Saved>, code: CodeId, locals: Vec<Value>, blocks: Vec<Open>) -> Vec<Saved>
    requires none { place_of.items ≡ [] }
    requires room { 1 ≤ vec_capacity place_of }
    ensures own { IsOwnFirst result.items }
    ensures locals { own_locals 0 result.items ≡ vec_capacity locals }
    ensures blocks { own_blocks 0 result.items ≡ vec_capacity blocks }
{
    let mut resting = place_of;
    place(
        &mut resting,
        Saved {
            frame: Frame {
                body: code,
                locals,
                answer: None,
                call: None,
                via: None,
            },
            shell: false,
            blocks,
        },
    );
    resting
}

/// Where no frame is open, the body's own call is taken up from where it rests.
#[inline(always)]
fn take_up(frames: &mut Vec<Saved>, resting: &mut Vec<Saved>)
    requires own { IsOwnFirst frames.old.items }
    requires rests { IsOwnFirst resting.old.items }
    requires there { 0 < own_blocks (own_blocks 0 resting.old.items) frames.old.items }
    ensures some { 0 < vec_len frames.new }
    ensures own { IsOwnFirst frames.new.items }
    ensures rests { IsOwnFirst resting.new.items }
    ensures locals { own_locals 0 frames.new.items ≡ own_locals (own_locals 0 resting.old.items) frames.old.items }
    ensures blocks { own_blocks 0 frames.new.items ≡ own_blocks (own_blocks 0 resting.old.items) frames.old.items }
{
    let many = frames.len();
    if many == 0 {
        mem::swap(frames, resting);
    }
}

/// The vector for what stands open in a call. An empty one stays.
fn take_blocks(room: &mut Vec<Open>) -> Vec<Open>
    ensures { result ≡ room.old }
{
    let none = Vec::new(*room.allocator());
    mem::replace(room, none)
}

impl Body {
    /// A body of this code that was not begun, with its first arguments.
    pub fn start(
        alloc: Global,
        program: &Program,
        code: CodeId,
        arguments: Vec<Value>,
    ) -> Result<Body, AllocError>
        ensures left { IfOk result (λ b. (a : Arena) → left_of a b ≡ skip) }
        ensures sound { IfOk result (λ b. IsSound program.now b) }
        ensures kept { IfOk result (λ b. (b.code ≡ code) × (b.arguments.items ≡ arguments.items)) }
    {
        let resting = Vec::with_capacity(alloc, 1)?;
        let blocks = Vec::with_capacity(alloc, depth_in(program, code) + 3)?;
        let many = many_locals(program, code, arguments.as_slice());
        let locals = Vec::with_capacity(alloc, many)?;
        Ok(Body {
            code,
            arguments,
            goal: None,
            frames: Vec::new(alloc),
            statement: None,
            resting: rest_in(resting, code, locals, blocks),
            room: Vec::new(alloc),
        })
    }

    /// Begins the body with its first arguments. It takes no memory.
    pub fn restart(&mut self, program: &Program)
        requires { IsSound program.now self.old }
        ensures left { left_in program.now self.new ≡ begun (arena_of program.now.code) self.old.code self.old.arguments.items }
        ensures sound { IsSound program.now self.new }
        ensures kept { Keeps self.old self.new }
    {
        self.goal = None;
        take_up(&mut self.frames, &mut self.resting);
        keep_outer(&mut self.frames, 1);
        self.statement = begin_own(
            program,
            &mut self.frames[0],
            self.code,
            self.arguments.as_slice(),
        );
    }

    /// Makes the body one that was not begun. It keeps its first arguments, and takes no memory.
    #[inline(always)]
    pub fn idle(&mut self)
        ensures left { (a : Arena) → left_of a self.new ≡ skip }
        ensures sound { (p : Whole) → IsSound p self.old → IsSound p self.new }
        ensures kept { Keeps self.old self.new }
    {
        put_by(&mut self.frames, &mut self.resting);
        self.goal = None;
        self.statement = None;
    }

    /// Makes room for a call of this code. It is refused where as many calls are open as may be once finished
    /// parts have fallen away, and where memory is. What is left stays as it is.
    pub fn reserve(&mut self, program: &Program, function: CodeId) -> Result<(), EnterStop>
        requires { IsSound program.now self.old }
        ensures left { (a : Arena) → left_of a self.new ≡ left_of a self.old }
        ensures ready { OnOk result (HasRoomFor program.now self.new function) }
        ensures shallow { OnOk result (open_frames (settled_in program.now self.old) < frame_limit) }
        ensures deep { result ≡ Err EnterStop.TooDeep → frame_limit ≤ open_frames (settled_in program.now self.old) }
        ensures only { frame_limit ≤ open_frames (settled_in program.now self.old) → result ≡ Err EnterStop.TooDeep }
        ensures succeeds { HasRoomFor program.now self.old function → open_frames (settled_in program.now self.old) < frame_limit → IsOk result }
        ensures sound { IsSound program.now self.new }
        ensures kept { Keeps self.old self.new }
    {
        if self.open_calls(program) >= FRAME_LIMIT {
            return Err(EnterStop::TooDeep);
        }
        match self.frames.reserve(1) {
            Ok(()) => {}
            Err(_) => return Err(EnterStop::NoMemory),
        }
        self.room.clear();
        match self.room.reserve(depth_in(program, function) + 3) {
            Ok(()) => Ok(()),
            Err(_) => Err(EnterStop::NoMemory),
        }
    }

    /// The statement in place calls this code with these arguments. It is refused where as many calls are open as may be, and
    /// where memory is; then what is left stays as it is. After `reserve`, and with a vector that has room for all local
    /// variables, it takes no memory.
    pub fn enter(
        &mut self,
        program: &Program,
        function: CodeId,
        arguments: Vec<Value>,
        via: Option<Via>,
    ) -> Result<(), EnterStop>
        requires sound { IsSound program.now self.old }
        requires statement { IsStatement (next_in program.now self.old) }
        ensures entered { OnOk result ((s : ℕ) → next_of (settled_in program.now self.old) ≡ residual.statement s → left_in program.now self.new ≡ put (settled_in program.now self.old) (entered (arena_of program.now.code) function arguments.items (Some s) via)) }
        ensures refused { OnErr result (left_in program.now self.new ≡ left_in program.now self.old) }
        ensures shallow { OnOk result (open_frames (settled_in program.now self.old) < frame_limit) }
        ensures deep { result ≡ Err EnterStop.TooDeep → frame_limit ≤ open_frames (settled_in program.now self.old) }
        ensures only { frame_limit ≤ open_frames (settled_in program.now self.old) → result ≡ Err EnterStop.TooDeep }
        ensures succeeds { HasRoomFor program.now self.old function → locals_with (arena_of program.now.code) function arguments.items ≤ vec_capacity arguments → open_frames (settled_in program.now self.old) < frame_limit → IsOk result }
        ensures sound { IsSound program.now self.new }
        ensures kept { Keeps self.old self.new }
    {
        match self.reserve(program, function) {
            Ok(()) => {}
            Err(stop) => return Err(stop),
        }
        let mut locals = arguments;
        let more = many_locals(program, function, locals.as_slice()) - locals.len();
        match locals.reserve(more) {
            Ok(()) => {
                add_locals(&mut locals, locals_in(program, function));
                self.enter_with(program, function, locals, via);
                Ok(())
            }
            Err(_) => Err(EnterStop::NoMemory),
        }
    }

    /// The statement in place calls this code, with these parameters and local variables.
    fn enter_with(
        &mut self,
        program: &Program,
        function: CodeId,
        locals: Vec<Value>,
        via: Option<Via>,
    )
        requires sound { IsSound program.now self.old }
        requires statement { IsStatement (next_in program.now self.old) }
        requires room { HasRoomFor program.now self.old function }
        ensures left { (s : ℕ) → next_of (settled_in program.now self.old) ≡ residual.statement s → left_in program.now self.new ≡ put (settled_in program.now self.old) (residual.frame (begun_in (arena_of program.now.code) (body_at (arena_of program.now.code) function)) (record { body = function; locals = locals.items; answer = None; call = Some s; via = via })) }
        ensures sound { IsSound program.now self.new }
        ensures kept { Keeps self.old self.new }
    {
        let _ = self.settle_to(program);
        let frame = Frame {
            body: function,
            locals,
            answer: None,
            call: self.statement,
            via,
        };
        let blocks = take_blocks(&mut self.room);
        self.statement = begin_call(program, &mut self.frames, frame, blocks);
    }
}
