//! Bodies.
ghost use Rattle.std.specs.Prelude.{◌≡◌, ℕ, ◌+◌, ◌<◌, ◌≤◌, ◌++◌, [], length, take, Contains, vec_len, vec_capacity, true, false, None, Some, IfSome, IfNone};
ghost use Rattle.kernel_bodies.specs.FlatDesign.Code.{Arena, arena_of};
ghost use Rattle.kernel_bodies.specs.SimModel.Residual as residual;
ghost use Rattle.kernel_bodies.specs.SimModel.Residual.{next_of, put, settle, skip, in_innermost};
ghost use Rattle.kernel_bodies.specs.SimModel.Unwinding.{returned};
ghost use Rattle.kernel_bodies.specs.SimModel.Storing.{with_local};
ghost use Rattle.kernel_bodies.specs.Depths.{blocks_of};
ghost use Rattle.kernel_bodies.specs.Around.{around_at};
ghost use Rattle.kernel_bodies.specs.SimModel.declared.plain.Goal.{Goal as Aim};
ghost use Rattle.kernel_bodies.specs.declared.program.Program.{Program as Whole};
ghost use Rattle.kernel_bodies.specs.Layers.{call_of, inside, inside_frames, under, whole, rest_if, shown_by, statement_of, Settled};
ghost use Rattle.kernel_bodies.specs.Room.{FitsIn, FitsFrames, SameCall, own_locals, own_blocks};
ghost use Rattle.process_state.specs.Bodies.{left_of, left_in, settled_in, next_in, IsSound, IsOwnFirst, Keeps, IsStatement, IsGoal, IsEnd, ComesIn, EndsIn, enclosed};

use kernel_bodies::flat_design_api::{BlockId, CodeId, StmtId};
use kernel_bodies::logic_values_api::Value;
use kernel_bodies::sim_model_api::Goal;
use kernel_bodies::{
    Comes, Cursor, Frame, Next, Open, Program, Saved, begin_in, comes_in, drop_block, end_in, fill,
    land, last_exit, next_shown, set_local_in, take_frame, under_goal,
};
use std::mem;

/// What is left of a body, with the number of its code and its first arguments, which a restart begins it with. It is used
/// with the code that it was started with.
#[derive(Drop)]
pub struct Body {
    /// The number of its code.
    pub(crate) code: CodeId,
    /// Its first arguments.
    pub(crate) arguments: Vec<Value>,
    /// How an unwinding of all that is left ends, where all of it is unwound.
    pub(crate) goal: Option<Goal>,
    /// The open calls, the body's own first: the frames of a coroutine that is set aside.
    pub(crate) frames: Vec<Saved>,
    /// The statement inside all of them, where there is one.
    pub(crate) statement: Option<StmtId>,
    /// The body's own call while it is not open, for its vectors.
    pub(crate) resting: Vec<Saved>,
    /// A vector for what stands open in the next call.
    pub(crate) room: Vec<Open>,
}

/// Where the rest of a block with a statement in it stands innermost in a call, or a loop that follows, the statement that comes.
#[inline(always)]
fn first_in(program: &Program, saved: &Saved) -> Option<StmtId>
    ensures { IfSome result (λ s. ComesIn (arena_of program.now.code) saved.now.blocks.items s) }
{
    let many = saved.blocks.len();
    if many == 0 {
        return None;
    }
    match comes_in(program, &saved.blocks[many - 1]) {
        Some((statement, _)) => Some(statement),
        None => None,
    }
}

/// The rest of a block stands in place of the innermost block of a call; where there is none that block is popped.
#[inline(always)]
fn leave_rest(saved: &mut Saved, place: usize, rest: Option<Cursor>)
    requires { place + 1 ≡ length saved.old.blocks.items }
    ensures same { SameCall saved.old saved.new }
    ensures blocks { saved.new.blocks.items ≡ take place saved.old.blocks.items ++ rest_if rest }
{
    match rest {
        Some(cursor) => saved.blocks[place] = Open::Rest(cursor),
        None => drop_block(saved),
    }
}

/// Where the rest of a block with a statement in it stands innermost in a call, or a loop that follows, its statement is answered, and
/// stands inside what is left of the blocks then. Where it is neither nothing changes.
#[inline(always)]
fn take_in(program: &Program, saved: &mut Saved) -> Option<StmtId>
    ensures settles { IfSome result (λ s. settle (arena_of program.now.code) (inside (arena_of program.now.code) saved.old.blocks.items skip) ≡ inside (arena_of program.now.code) saved.new.blocks.items (residual.one s)) }
    ensures room { IfSome result (λ s. FitsIn (arena_of program.now.code) program.now.depths.items saved.old None → FitsIn (arena_of program.now.code) program.now.depths.items saved.new (Some s)) }
    ensures same { SameCall saved.old saved.new }
    ensures stays { IfNone result (saved.new ≡ saved.old) }
{
    let many = saved.blocks.len();
    if many == 0 {
        return None;
    }
    match comes_in(program, &saved.blocks[many - 1]) {
        Some((statement, rest)) => {
            leave_rest(saved, many - 1, rest);
            Some(statement)
        }
        None => None,
    }
}

/// The end of a call, where nothing is open in it and it is not being unwound.
#[inline(always)]
fn end_of(saved: &Saved) -> Option<Next>
    ensures end { IfSome result IsEnd }
    ensures settled { IfSome result (λ n. (a : Arena) → Settled a (whole a saved.now skip) (whole a saved.now skip) n) }
{
    if saved.shell {
        return None;
    }
    let many = saved.blocks.len();
    if many > 0 {
        return None;
    }
    match saved.frame.call {
        Some(_) => Some(Next::Leave),
        None => Some(Next::Done),
    }
}

/// Lets all but the outermost frames go, of which there are more.
#[cold]
#[inline(never)]
fn drop_frames(frames: &mut Vec<Saved>, many: usize)
    requires { many ≤ vec_len frames.old }
    ensures items { frames.new.items ≡ take many frames.old.items }
    ensures len { vec_len frames.new ≡ many }
    ensures capacity { vec_capacity frames.new ≡ vec_capacity frames.old }
{
    frames.truncate(many);
}

/// Lets all but the outermost frames go.
#[inline(always)]
pub(crate) fn keep_outer(frames: &mut Vec<Saved>, many: usize)
    requires { many ≤ vec_len frames.old }
    ensures items { frames.new.items ≡ take many frames.old.items }
    ensures len { vec_len frames.new ≡ many }
    ensures capacity { vec_capacity frames.new ≡ vec_capacity frames.old }
{
    if frames.len() > many {
        drop_frames(frames, many);
    }
}

/// Lets all frames go.
#[inline(always)]
fn drop_all(frames: &mut Vec<Saved>)
    ensures { frames.new.items ≡ [] }
{
    let many = frames.len();
    if many > 0 {
        drop_frames(frames, 0);
    }
}

/// The outermost of these frames rests, and the others are let go.
#[inline(always)]
fn lay_by(frames: &mut Vec<Saved>, resting: &mut Vec<Saved>)
    requires { 0 < vec_len frames.old }
    ensures none { frames.new.items ≡ [] }
    ensures rests { resting.new.items ≡ take 1 frames.old.items }
{
    keep_outer(frames, 1);
    mem::swap(frames, resting);
    drop_all(frames);
}

/// No frame is open: the body's own call rests, and the others are let go.
#[inline(always)]
pub(crate) fn put_by(frames: &mut Vec<Saved>, resting: &mut Vec<Saved>)
    ensures none { frames.new.items ≡ [] }
    ensures rests { IsOwnFirst frames.old.items → IsOwnFirst resting.old.items → IsOwnFirst resting.new.items }
    ensures locals { IsOwnFirst frames.old.items → own_locals (own_locals 0 resting.old.items) frames.old.items ≤ own_locals 0 resting.new.items }
    ensures blocks { IsOwnFirst frames.old.items → own_blocks (own_blocks 0 resting.old.items) frames.old.items ≤ own_blocks 0 resting.new.items }
{
    let many = frames.len();
    if many > 0 {
        lay_by(frames, resting);
    }
}

impl Body {
    /// Lets finished parts fall away, and tells what comes then.
    #[inline(always)]
    pub(crate) fn settle_to(&mut self, program: &Program) -> Comes
        requires { IsSound program.now self.old }
        ensures fewer { vec_len self.new.frames ≤ vec_len self.old.frames }
        ensures room { IsStatement (next_in program.now self.old) → vec_capacity self.old.frames ≤ vec_capacity self.new.frames }
        ensures call_room { vec_capacity self.new.room ≡ vec_capacity self.old.room }
        ensures left { left_in program.now self.new ≡ settled_in program.now self.old }
        ensures shows { next_in program.now self.old ≡ shown_by result }
        ensures statement { self.new.statement ≡ statement_of result }
        ensures ends { EndsIn self.new.goal self.new.frames.items result }
        ensures sound { IsSound program.now self.new }
        ensures kept { Keeps self.old self.new }
    {
        match land(program, self.frames.as_slice(), self.statement) {
            Some(landing) => {
                let place = landing.outside;
                keep_outer(&mut self.frames, place + 1);
                let comes = landing.comes;
                self.statement = fill(&mut self.frames[place], landing.blocks, comes);
                comes
            }
            None => {
                put_by(&mut self.frames, &mut self.resting);
                self.statement = None;
                under_goal(self.goal, Comes::Nothing)
            }
        }
    }

    /// Lets finished parts fall away.
    pub fn settle(&mut self, program: &Program)
        requires { IsSound program.now self.old }
        ensures left { left_in program.now self.new ≡ settled_in program.now self.old }
        ensures sound { IsSound program.now self.new }
        ensures kept { Keeps self.old self.new }
    {
        let _ = self.settle_to(program);
    }

    /// What comes next once finished parts have fallen away. The body is not changed.
    #[inline(always)]
    pub fn next(&self, program: &Program) -> Next
        ensures value { result ≡ next_in program.now self.now }
        ensures statement { (s : ℕ) → result ≡ Next.Statement s → next_of (settled_in program.now self.now) ≡ residual.statement s }
        ensures goal { (k : Aim) → result ≡ Next.Goal k → next_of (settled_in program.now self.now) ≡ residual.reaches k }
        ensures done { result ≡ Next.Done → next_of (settled_in program.now self.now) ≡ residual.done }
        ensures nothing { result ≡ Next.Nothing → next_of (settled_in program.now self.now) ≡ residual.nothing }
        ensures alone { (s q : ℕ) → result ≡ Next.Batch s q → ⊥ }
    {
        match self.next_in_place(program) {
            Some(statement) => Next::Statement(statement),
            None => self.next_else(program),
        }
    }

    /// The statement that comes next, where it stands inside all frames, or comes in the innermost block.
    #[inline(always)]
    pub(crate) fn next_in_place(&self, program: &Program) -> Option<StmtId>
        ensures { IfSome result (λ s. next_of (settled_in program.now self.now) ≡ residual.statement s) }
    {
        let many = self.frames.len();
        if many == 0 {
            return None;
        }
        match self.statement {
            Some(statement) => Some(statement),
            None => first_in(program, &self.frames[many - 1]),
        }
    }

    /// The end that comes next, where nothing is open in the innermost call and it is not being unwound.
    #[inline(always)]
    fn end_in_place(&self) -> Option<Next>
        ensures value { IfSome result (λ n. (p : Whole) → n ≡ next_in p self.now) }
        ensures end { IfSome result IsEnd }
    {
        let many = self.frames.len();
        if many == 0 {
            return None;
        }
        match self.statement {
            Some(_) => None,
            None => end_of(&self.frames[many - 1]),
        }
    }

    /// What comes next once finished parts have fallen away, where that is told neither by the innermost block nor by the statement.
    #[inline(never)]
    fn next_else(&self, program: &Program) -> Next
        ensures value { result ≡ next_in program.now self.now }
        ensures statement { (s : ℕ) → result ≡ Next.Statement s → next_of (settled_in program.now self.now) ≡ residual.statement s }
        ensures goal { (k : Aim) → result ≡ Next.Goal k → next_of (settled_in program.now self.now) ≡ residual.reaches k }
        ensures done { result ≡ Next.Done → next_of (settled_in program.now self.now) ≡ residual.done }
        ensures nothing { result ≡ Next.Nothing → next_of (settled_in program.now self.now) ≡ residual.nothing }
        ensures alone { (s q : ℕ) → result ≡ Next.Batch s q → ⊥ }
    {
        match self.end_in_place() {
            Some(end) => end,
            None => self.next_landed(program),
        }
    }

    /// What comes next once finished parts have fallen away, wherever it is.
    #[inline(never)]
    fn next_landed(&self, program: &Program) -> Next
        ensures value { result ≡ next_in program.now self.now }
        ensures statement { (s : ℕ) → result ≡ Next.Statement s → next_of (settled_in program.now self.now) ≡ residual.statement s }
        ensures goal { (k : Aim) → result ≡ Next.Goal k → next_of (settled_in program.now self.now) ≡ residual.reaches k }
        ensures done { result ≡ Next.Done → next_of (settled_in program.now self.now) ≡ residual.done }
        ensures nothing { result ≡ Next.Nothing → next_of (settled_in program.now self.now) ≡ residual.nothing }
        ensures alone { (s q : ℕ) → result ≡ Next.Batch s q → ⊥ }
    {
        match land(program, self.frames.as_slice(), self.statement) {
            Some(landing) => next_shown(landing.comes),
            None => next_shown(under_goal(self.goal, Comes::Nothing)),
        }
    }

    /// The statement in place is past.
    #[inline(always)]
    pub fn past(&mut self, program: &Program)
        requires sound { IsSound program.now self.old }
        requires statement { IsStatement (next_in program.now self.old) }
        ensures left { left_in program.now self.new ≡ put (settled_in program.now self.old) skip }
        ensures sound { IsSound program.now self.new }
        ensures kept { Keeps self.old self.new }
    {
        if self.statement.is_some() {
            self.statement = None;
            return;
        }
        self.past_inside(program);
    }

    /// The same where no statement stands inside all frames.
    #[inline(always)]
    fn past_inside(&mut self, program: &Program)
        requires sound { IsSound program.now self.old }
        requires none { self.old.statement ≡ None }
        requires statement { IsStatement (next_in program.now self.old) }
        ensures left { left_in program.now self.new ≡ put (settled_in program.now self.old) skip }
        ensures sound { IsSound program.now self.new }
        ensures kept { Keeps self.old self.new }
    {
        if !self.pass_first(program) {
            self.past_landed(program);
        }
    }

    /// The same once finished parts have fallen away, wherever the statement is.
    #[inline(never)]
    fn past_landed(&mut self, program: &Program)
        requires sound { IsSound program.now self.old }
        requires statement { IsStatement (next_in program.now self.old) }
        ensures left { left_in program.now self.new ≡ put (settled_in program.now self.old) skip }
        ensures sound { IsSound program.now self.new }
        ensures kept { Keeps self.old self.new }
    {
        let _ = self.settle_to(program);
        self.statement = None;
    }

    /// Where the rest of a block with a statement in it stands innermost, or a loop that follows, that statement is past. The answer
    /// is whether it is so; where it is not all that is left stays.
    #[inline(always)]
    fn pass_first(&mut self, program: &Program) -> bool
        requires sound { IsSound program.now self.old }
        requires none { self.old.statement ≡ None }
        ensures left { result ≡ true → left_in program.now self.new ≡ put (settled_in program.now self.old) skip }
        ensures stays { result ≡ false → left_in program.now self.new ≡ left_in program.now self.old }
        ensures sound { IsSound program.now self.new }
        ensures kept { Keeps self.old self.new }
    {
        match self.take_first(program) {
            Some(_) => true,
            None => false,
        }
    }

    /// Where the rest of a block with a statement in it stands innermost, or a loop that follows, its statement is answered, and is
    /// in place inside what is left then, where it has yet to be put. Where it is not all that is left stays.
    #[inline(always)]
    fn take_first(&mut self, program: &Program) -> Option<StmtId>
        requires sound { IsSound program.now self.old }
        requires none { self.old.statement ≡ None }
        ensures settles { IfSome result (λ s. settled_in program.now self.old ≡ under self.new.goal (inside_frames (arena_of program.now.code) self.new.frames.items (residual.one s))) }
        ensures fits { IfSome result (λ s. FitsFrames (arena_of program.now.code) program.now.depths.items self.new.frames.items (Some s)) }
        ensures there { IfSome result (λ _. 0 < length self.new.frames.items) }
        ensures stays { IfNone result (left_in program.now self.new ≡ left_in program.now self.old) }
        ensures none { self.new.statement ≡ None }
        ensures sound { IsSound program.now self.new }
        ensures kept { Keeps self.old self.new }
    {
        let many = self.frames.len();
        if many == 0 {
            return None;
        }
        take_in(program, &mut self.frames[many - 1])
    }

    /// The statement in place goes on with one of its blocks, and with what it puts around that.
    pub fn begin_block(&mut self, program: &Program, block: BlockId)
        requires sound { IsSound program.now self.old }
        requires statement { IsStatement (next_in program.now self.old) }
        requires inner { (s : ℕ) → next_in program.now self.old ≡ Next.Statement s → Contains (blocks_of (arena_of program.now.code) s) block }
        ensures left { (s : ℕ) → next_of (settled_in program.now self.old) ≡ residual.statement s → left_in program.now self.new ≡ put (settled_in program.now self.old) (enclosed (arena_of program.now.code) s (around_at (arena_of program.now.code) s) (residual.block (arena_of program.now.code) block)) }
        ensures sound { IsSound program.now self.new }
        ensures kept { Keeps self.old self.new }
    {
        match self.statement {
            Some(statement) => self.begin_standing(program, statement, block),
            None => self.begin_inside(program, block),
        }
    }

    /// A statement that stands inside all frames, or is to, goes on with one of its blocks, and with what it puts around that.
    #[inline(always)]
    fn begin_standing(&mut self, program: &Program, statement: StmtId, block: BlockId)
        requires sound { IsSound program.now self.old }
        requires fits { FitsFrames (arena_of program.now.code) program.now.depths.items self.old.frames.items (Some statement) }
        requires there { 0 < length self.old.frames.items }
        requires inner { Contains (blocks_of (arena_of program.now.code) statement) block }
        ensures left { left_in program.now self.new ≡ under self.old.goal (inside_frames (arena_of program.now.code) self.old.frames.items (enclosed (arena_of program.now.code) statement (around_at (arena_of program.now.code) statement) (residual.block (arena_of program.now.code) block))) }
        ensures sound { IsSound program.now self.new }
        ensures kept { Keeps self.old self.new }
    {
        let place = self.frames.len() - 1;
        self.statement = begin_in(program, &mut self.frames[place], statement, block);
    }

    /// The same where no statement stands inside all frames.
    #[inline(always)]
    fn begin_inside(&mut self, program: &Program, block: BlockId)
        requires sound { IsSound program.now self.old }
        requires none { self.old.statement ≡ None }
        requires statement { IsStatement (next_in program.now self.old) }
        requires inner { (s : ℕ) → next_in program.now self.old ≡ Next.Statement s → Contains (blocks_of (arena_of program.now.code) s) block }
        ensures left { (s : ℕ) → next_of (settled_in program.now self.old) ≡ residual.statement s → left_in program.now self.new ≡ put (settled_in program.now self.old) (enclosed (arena_of program.now.code) s (around_at (arena_of program.now.code) s) (residual.block (arena_of program.now.code) block)) }
        ensures sound { IsSound program.now self.new }
        ensures kept { Keeps self.old self.new }
    {
        match self.take_first(program) {
            Some(statement) => self.begin_standing(program, statement, block),
            None => self.begin_landed(program, block),
        }
    }

    /// The same once finished parts have fallen away, wherever the statement is.
    #[inline(never)]
    fn begin_landed(&mut self, program: &Program, block: BlockId)
        requires sound { IsSound program.now self.old }
        requires statement { IsStatement (next_in program.now self.old) }
        requires inner { (s : ℕ) → next_in program.now self.old ≡ Next.Statement s → Contains (blocks_of (arena_of program.now.code) s) block }
        ensures left { (s : ℕ) → next_of (settled_in program.now self.old) ≡ residual.statement s → left_in program.now self.new ≡ put (settled_in program.now self.old) (enclosed (arena_of program.now.code) s (around_at (arena_of program.now.code) s) (residual.block (arena_of program.now.code) block)) }
        ensures sound { IsSound program.now self.new }
        ensures kept { Keeps self.old self.new }
    {
        let _ = self.settle_to(program);
        if let Some(statement) = self.statement {
            let place = self.frames.len() - 1;
            self.statement = begin_in(program, &mut self.frames[place], statement, block);
        }
    }

    /// A call ends: its frame is taken away.
    pub fn leave(&mut self, program: &Program) -> Frame
        requires sound { IsSound program.now self.old }
        requires leaves { next_in program.now self.old ≡ Next.Leave }
        ensures frame { next_of (settled_in program.now self.old) ≡ residual.leaves (call_of result) }
        ensures left { left_in program.now self.new ≡ put (settled_in program.now self.old) skip }
        ensures sound { IsSound program.now self.new }
        ensures kept { Keeps self.old self.new }
    {
        let _ = self.settle_to(program);
        let Saved {
            frame,
            shell: _,
            blocks,
        } = take_frame(&mut self.frames);
        self.room = blocks;
        frame
    }

    /// The goal of an unwinding is reached: the body goes on behind it.
    pub fn go_on(&mut self, program: &Program)
        requires sound { IsSound program.now self.old }
        requires reaches { IsGoal (next_in program.now self.old) }
        ensures left { left_in program.now self.new ≡ put (settled_in program.now self.old) skip }
        ensures sound { IsSound program.now self.new }
        ensures kept { Keeps self.old self.new }
    {
        let _ = self.settle_to(program);
        let many = self.frames.len();
        if many == 0 {
            self.goal = None;
        } else {
            drop_block(&mut self.frames[many - 1]);
        }
    }

    /// A return: it ends the innermost call, which keeps the answer, or the innermost unwind block, which drops it.
    pub fn answer(&mut self, program: &Program, answer: Option<Value>)
        requires { IsSound program.now self.old }
        ensures left { left_in program.now self.new ≡ returned answer (settled_in program.now self.old) }
        ensures sound { IsSound program.now self.new }
        ensures kept { Keeps self.old self.new }
    {
        let _ = self.settle_to(program);
        if let Some(place) = last_exit(self.frames.as_slice()) {
            keep_outer(&mut self.frames, place + 1);
            end_in(&mut self.frames[place], answer);
            self.statement = None;
        }
    }

    /// Another value for a local variable of the innermost call.
    #[inline(always)]
    pub fn set_local(&mut self, number: usize, value: Value)
        ensures left { (a : Arena) → left_of a self.new ≡ in_innermost (with_local number value) (left_of a self.old) }
        ensures sound { (p : Whole) → IsSound p self.old → IsSound p self.new }
        ensures kept { Keeps self.old self.new }
    {
        let many = self.frames.len();
        if many > 0 {
            set_local_in(&mut self.frames[many - 1], number, value);
        }
    }
}
