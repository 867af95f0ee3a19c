//! Bodies.
ghost use Rattle.std.specs.Prelude.{◌≡◌, ℕ, None, Contains};
ghost use Rattle.kernel_bodies.specs.FlatDesign.Code.{Arena, arena_of};
ghost use Rattle.kernel_bodies.specs.SimModel.Residual as residual;
ghost use Rattle.kernel_bodies.specs.SimModel.Residual.{next_of, put, skip, in_innermost};
ghost use Rattle.kernel_bodies.specs.SimModel.Unwinding.{returned};
ghost use Rattle.kernel_bodies.specs.SimModel.Storing.{with_local};
ghost use Rattle.kernel_bodies.specs.Depths.{blocks_of};
ghost use Rattle.kernel_bodies.specs.Around.{around_at};
ghost use Rattle.kernel_bodies.specs.declared.program.Program.{Program as Whole};
ghost use Rattle.kernel_bodies.specs.Layers.{call_of};
ghost use Rattle.process_state.specs.Bodies.{enclosed};
ghost use Rattle.process_bodies.specs.Bodies as spec;
ghost use Rattle.process_bodies.specs.Bodies.{left_of, left_in, settled_in, next_in, IsSound, Keeps, IsStatement, IsGoal};

use kernel_bodies::flat_design_api::{BlockId, StmtId};
use kernel_bodies::logic_values_api::Value;
use kernel_bodies::{Frame, Next, Program};
use process_state::Body as Calls;

/// A control call that is owed to instances, one after the other.
#[derive(Drop)]
pub struct Owed {
    /// The statement that owes it.
    pub(crate) statement: StmtId,
    /// Whether it is owed to somebody yet.
    pub(crate) somebody: bool,
    /// To whom it is owed first, by serial, where it is.
    pub(crate) first: u32,
    /// To whom it is owed then, the last of these first.
    pub(crate) rest: Vec<u32>,
}

/// What is left of a body, with the number of its code and its first arguments, which a restart begins it with. It is used
/// with the code that it was started with.
#[derive(Drop)]
pub struct Body {
    /// Its open calls, with the place in them.
    pub(crate) calls: Calls,
    /// The call that is owed in that place, where one is.
    pub(crate) owed: Option<Owed>,
}

/// Nothing is owed from now on.
#[cold]
#[inline(never)]
fn drop_owed(owed: &mut Option<Owed>)
    ensures { owed.new ≡ None }
{
    *owed = None;
}

/// Nothing is owed from now on. Where nothing was, nothing is written.
#[inline(always)]
pub(crate) fn let_go(owed: &mut Option<Owed>)
    ensures { owed.new ≡ None }
{
    match owed {
        Some(_) => drop_owed(owed),
        None => {}
    }
}

impl Body {
    /// Whether the call in place is owed to somebody.
    pub(crate) fn owes(&self) -> bool
        ensures { result ≡ spec.owes self.now.owed }
    {
        match &self.owed {
            Some(owed) => owed.somebody,
            None => false,
        }
    }

    /// Lets finished parts fall away. A call that is owed to somebody stands.
    pub fn settle(&mut self, program: &Program)
        requires { IsSound program.now self.old }
        ensures left { left_in program.now self.new ≡ settled_in program.now self.old }
        ensures sound { IsSound program.now self.new }
        ensures kept { Keeps self.old self.new }
    {
        self.calls.settle(program);
        if self.owes() {
            return;
        }
        self.owed = None;
    }

    /// The statement in place is past.
    #[inline(always)]
    pub fn past(&mut self, program: &Program)
        requires sound { IsSound program.now self.old }
        requires statement { IsStatement (next_in program.now self.old) }
        ensures left { left_in program.now self.new ≡ put (settled_in program.now self.old) skip }
        ensures sound { IsSound program.now self.new }
        ensures kept { Keeps self.old self.new }
    {
        self.calls.past(program);
        let_go(&mut self.owed);
    }

    /// The statement in place goes on with one of its blocks, and with what it puts around that.
    #[inline(always)]
    pub fn begin_block(&mut self, program: &Program, block: BlockId)
        requires sound { IsSound program.now self.old }
        requires statement { IsStatement (next_in program.now self.old) }
        requires inner { (s : ℕ) → next_in program.now self.old ≡ Next.Statement s → Contains (blocks_of (arena_of program.now.code) s) block }
        ensures left { (s : ℕ) → next_of (settled_in program.now self.old) ≡ residual.statement s → left_in program.now self.new ≡ put (settled_in program.now self.old) (enclosed (arena_of program.now.code) s (around_at (arena_of program.now.code) s) (residual.block (arena_of program.now.code) block)) }
        ensures sound { IsSound program.now self.new }
        ensures kept { Keeps self.old self.new }
    {
        self.calls.begin_block(program, block);
        let_go(&mut self.owed);
    }

    /// A call ends: its frame is taken away.
    pub fn leave(&mut self, program: &Program) -> Frame
        requires sound { IsSound program.now self.old }
        requires leaves { next_in program.now self.old ≡ Next.Leave }
        ensures frame { next_of (settled_in program.now self.old) ≡ residual.leaves (call_of result) }
        ensures left { left_in program.now self.new ≡ put (settled_in program.now self.old) skip }
        ensures sound { IsSound program.now self.new }
        ensures kept { Keeps self.old self.new }
    {
        let frame = self.calls.leave(program);
        self.owed = None;
        frame
    }

    /// The goal of an unwinding is reached: the body goes on behind it.
    pub fn go_on(&mut self, program: &Program)
        requires sound { IsSound program.now self.old }
        requires reaches { IsGoal (next_in program.now self.old) }
        ensures left { left_in program.now self.new ≡ put (settled_in program.now self.old) skip }
        ensures sound { IsSound program.now self.new }
        ensures kept { Keeps self.old self.new }
    {
        self.calls.go_on(program);
        self.owed = None;
    }

    /// A return, which is the statement in place: it ends the innermost call, which keeps the answer, or the innermost unwind
    /// block, which drops it.
    pub fn answer(&mut self, program: &Program, answer: Option<Value>)
        requires sound { IsSound program.now self.old }
        requires statement { IsStatement (next_in program.now self.old) }
        ensures left { left_in program.now self.new ≡ returned answer (settled_in program.now self.old) }
        ensures sound { IsSound program.now self.new }
        ensures kept { Keeps self.old self.new }
    {
        self.calls.answer(program, answer);
        self.owed = None;
    }

    /// Another value for a local variable of the innermost call.
    #[inline(always)]
    pub fn set_local(&mut self, number: usize, value: Value)
        ensures left { (a : Arena) → left_of a self.new ≡ in_innermost (with_local number value) (left_of a self.old) }
        ensures sound { (p : Whole) → IsSound p self.old → IsSound p self.new }
        ensures kept { Keeps self.old self.new }
    {
        self.calls.set_local(number, value);
    }
}
