//! A control call that a statement owes, made for one instance.
ghost use Rattle.std.specs.Prelude.{◌≡◌, ◌≢◌};
ghost use Rattle.flat_design.specs.Code.{arena_of, statement_at, statement_of};
ghost use Rattle.exec_channels.specs.SimModel.Residual.{taken_off};
ghost use Rattle.exec_channels.specs.SimModel.Configuration.{with_residual};
ghost use Rattle.exec_channels.specs.SimModel.Statements as statements;
ghost use Rattle.exec_channels.specs.KernelState.Kernel.{IsSound};
ghost use Rattle.exec_channels.specs.KernelState.Moves.{IsOnTop};
ghost use Rattle.exec_channels.specs.KernelState.Ways.{HasOwed};
ghost use Rattle.exec_control.specs.Thrown.{OthersHaveNoGoal};
ghost use Rattle.kernel_steps.specs.Owing.{Owes, call_of};
ghost use Rattle.kernel_steps.specs.StepAnswers.{MakesAll, whole_step};

use crate::answers::{StepAnswer, StepBrief, plain};
use exec_channels::kernel_state_api::{Kernel, Way, move_on, top_lives};
use exec_channels::model_tree_api::Control;
use exec_control::{control_owed, throw_owed};
use flat_design::{NameId, Statement, StmtId};

/// Which call a statement owes.
#[derive(Clone, Copy)]
pub(crate) enum OwedCall {
    /// None: it is no control call.
    Nothing,
    /// A suspend, resume, disable, enable, kill or reset.
    Control(Control),
    /// An exception.
    Throw(NameId),
}

/// Which call a statement owes.
fn call_of(statement: &Statement) -> OwedCall
    ensures { result ≡ call_of (statement_of statement.now) }
{
    match statement {
        Statement::Control(order, _, _) => OwedCall::Control(*order),
        Statement::ThrowIt(_, e, _) => OwedCall::Throw(*e),
        _ => OwedCall::Nothing,
    }
}

/// A call that is owed to instance `q` first is made for it. It takes no memory.
fn make_owed(
    k: &mut Kernel,
    p: u32,
    q: u32,
    statement: &Statement,
    said: &mut StepAnswer,
) -> StepBrief
    requires sound { IsSound k.old }
    requires top { IsOnTop k.old p }
    requires owes { HasOwed k.old p }
    requires others { OthersHaveNoGoal k.old }
    ensures makes { MakesAll k.old k.new (whole_step result said.new) p (λ c t i r. statements.owed_call (with_residual c t (taken_off r)) q (statement_of statement.now)) }
    ensures takes_none { whole_step result said.new ≢ StepAnswer.NoMemory }
    ensures sound { IsSound k.new }
    ensures made { k.new.made ≡ k.old.made }
{
    top_lives(k, p);
    match call_of(statement) {
        OwedCall::Control(order) => plain(control_owed(k, p, q, order), said),
        OwedCall::Throw(e) => plain(throw_owed(k, p, q, e), said),
        OwedCall::Nothing => {
            move_on(k, p, Way::TakenOff);
            StepBrief::Went
        }
    }
}

/// The call that statement `s` owes to instance `q` comes next, and is made for it; the statement owes it to one less. It takes no
/// memory.
pub(crate) fn on_owed(k: &mut Kernel, p: u32, s: StmtId, q: u32, said: &mut StepAnswer) -> StepBrief
    requires sound { IsSound k.old }
    requires top { IsOnTop k.old p }
    requires owes { Owes k.old p s q }
    requires others { OthersHaveNoGoal k.old }
    ensures makes { MakesAll k.old k.new (whole_step result said.new) p (λ c t i r. statements.owed_by (with_residual c t (taken_off r)) q (statement_at (arena_of k.old.program.now.code) s)) }
    ensures takes_none { whole_step result said.new ≢ StepAnswer.NoMemory }
    ensures sound { IsSound k.new }
    ensures made { k.new.made ≡ k.old.made }
{
    top_lives(k, p);
    let program = k.program;
    match program.statement(s) {
        Some(x) => make_owed(k, p, q, x, said),
        None => {
            move_on(k, p, Way::TakenOff);
            StepBrief::Went
        }
    }
}
