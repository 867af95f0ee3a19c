//! A control call that a statement comes to owe to several instances, and owes to one less.
ghost use Rattle.std.specs.Prelude.{◌≡◌, ℕ, ◌∷◌, [], true, false, reverse, Some, None};
ghost use Rattle.kernel_bodies.specs.SimModel.Residual as residual;
ghost use Rattle.kernel_bodies.specs.SimModel.Residual.{next_of, put, batch, taken_off};
ghost use Rattle.process_state.specs.Bodies as calls;
ghost use Rattle.process_bodies.specs.Bodies as spec;
ghost use Rattle.process_bodies.specs.Bodies.{left_in, settled_in, next_in, in_place, first_owed, IsSound, Keeps, IsStatement, IsOwed};

use crate::body::{Body, Owed};
use kernel_bodies::flat_design_api::StmtId;
use kernel_bodies::{Next, Program};
use std::mem;

/// A call of a statement that is owed to these, the last of them first; and to nobody where there are none.
fn owed_to(statement: StmtId, list: Vec<u32>) -> Owed
    ensures statement { result.statement ≡ statement }
    ensures somebody { (result.somebody ≡ true) → reverse list.items ≡ result.first ∷ reverse result.rest.items }
    ensures nobody { (result.somebody ≡ false) → list.items ≡ [] }
{
    let mut rest = list;
    match rest.pop() {
        Some(first) => Owed {
            statement,
            somebody: true,
            first,
            rest,
        },
        None => Owed {
            statement,
            somebody: false,
            first: 0,
            rest,
        },
    }
}

impl Body {
    /// The statement in place owes its call to somebody.
    fn owe_some(&mut self, program: &Program, owed: Owed)
        requires calls { calls.IsSound program.now self.old.calls }
        requires place { in_place (calls.settled_in program.now self.old.calls) ≡ Some owed.statement }
        requires somebody { owed.somebody ≡ true }
        ensures left { left_in program.now self.new ≡ put (calls.settled_in program.now self.old.calls) (batch owed.statement (owed.first ∷ reverse owed.rest.items)) }
        ensures sound { IsSound program.now self.new }
        ensures kept { Keeps self.old self.new }
    {
        self.calls.settle(program);
        self.owed = Some(owed);
    }

    /// The statement in place owes its call to nobody.
    fn owe_none(&mut self, program: &Program, owed: Owed)
        requires calls { calls.IsSound program.now self.old.calls }
        requires place { in_place (calls.settled_in program.now self.old.calls) ≡ Some owed.statement }
        requires nobody { owed.somebody ≡ false }
        ensures left { left_in program.now self.new ≡ put (calls.settled_in program.now self.old.calls) (batch owed.statement []) }
        ensures sound { IsSound program.now self.new }
        ensures kept { Keeps self.old self.new }
    {
        self.calls.past(program);
        self.owed = Some(owed);
    }

    /// The statement in place, which is this one, owes its call to these, the last of them first.
    fn owe_to(&mut self, program: &Program, statement: StmtId, list: Vec<u32>)
        requires calls { calls.IsSound program.now self.old.calls }
        requires place { in_place (calls.settled_in program.now self.old.calls) ≡ Some statement }
        ensures left { left_in program.now self.new ≡ put (calls.settled_in program.now self.old.calls) (batch statement (reverse list.items)) }
        ensures sound { IsSound program.now self.new }
        ensures kept { Keeps self.old self.new }
    {
        let owed = owed_to(statement, list);
        if owed.somebody {
            self.owe_some(program, owed);
        } else {
            self.owe_none(program, owed);
        }
    }

    /// The statement in place, which comes next.
    fn statement_in_place(&self, program: &Program) -> StmtId
        requires { IsStatement (calls.next_in program.now self.now.calls) }
        ensures { next_of (calls.settled_in program.now self.now.calls) ≡ residual.statement result }
    {
        match self.calls.next(program) {
            Next::Statement(statement) => statement,
            Next::Batch(_, _) => 0,
            Next::Leave => 0,
            Next::Done => 0,
            Next::Goal(_) => 0,
            Next::Nothing => 0,
        }
    }

    /// The statement in place, a control call, is owed to these instances from now on, to the last of them first. It takes no
    /// memory.
    pub fn owe(&mut self, program: &Program, list: Vec<u32>)
        requires sound { IsSound program.now self.old }
        requires statement { IsStatement (next_in program.now self.old) }
        ensures left { (s : ℕ) → next_of (settled_in program.now self.old) ≡ residual.statement s → left_in program.now self.new ≡ put (settled_in program.now self.old) (batch s (reverse list.items)) }
        ensures sound { IsSound program.now self.new }
        ensures kept { Keeps self.old self.new }
    {
        let statement = self.statement_in_place(program);
        self.owe_to(program, statement, list);
    }

    /// What is owed, which is taken out of the body.
    fn take_owed(&mut self) -> Option<Owed>
        ensures owed { result ≡ self.old.owed }
        ensures calls { self.new.calls ≡ self.old.calls }
        ensures none { self.new.owed ≡ None }
    {
        mem::replace(&mut self.owed, None)
    }

    /// The call that is owed to somebody is owed to one less from now on: to the first, who is answered.
    fn owe_less(&mut self, program: &Program) -> Option<u32>
        requires sound { IsSound program.now self.old }
        requires owes { spec.owes self.old.owed ≡ true }
        ensures answer { result ≡ first_owed (next_in program.now self.old) }
        ensures some { result ≡ None → ⊥ }
        ensures left { left_in program.now self.new ≡ taken_off (settled_in program.now self.old) }
        ensures sound { IsSound program.now self.new }
        ensures kept { Keeps self.old self.new }
    {
        match self.take_owed() {
            Some(owed) => {
                let Owed {
                    statement,
                    somebody: _,
                    first,
                    rest,
                } = owed;
                self.owe_to(program, statement, rest);
                Some(first)
            }
            None => None,
        }
    }

    /// The call that comes next is owed to one less from now on: to the one whose serial is answered. None where no call that is
    /// owed comes next, and then nothing changes. It takes no memory.
    pub fn owed(&mut self, program: &Program) -> Option<u32>
        requires sound { IsSound program.now self.old }
        ensures answer { result ≡ first_owed (next_in program.now self.old) }
        ensures left { IsOwed (next_in program.now self.old) → left_in program.now self.new ≡ taken_off (settled_in program.now self.old) }
        ensures other { result ≡ None → left_in program.now self.new ≡ left_in program.now self.old }
        ensures sound { IsSound program.now self.new }
        ensures kept { Keeps self.old self.new }
    {
        match self.next(program) {
            Next::Batch(_, _) => self.owe_less(program),
            Next::Statement(_) => None,
            Next::Leave => None,
            Next::Done => None,
            Next::Goal(_) => None,
            Next::Nothing => None,
        }
    }
}
