//! Statements of data, whole: their expressions are evaluated, and then the statement acts.
ghost use Rattle.std.specs.Prelude.{◌≡◌, ◌≢◌, Some, option_map};
ghost use Rattle.flat_design.specs.Code as code;
ghost use Rattle.flat_design.specs.Code.{arena_of, channel_term, destination_term, statement_at, term_of};
ghost use Rattle.exec_channels.specs.KernelState.Kernel.{IsSound, whole_design};
ghost use Rattle.exec_channels.specs.KernelState.Moves.{HasStatement, IsOnTop};
ghost use Rattle.exec_control.specs.ExecData.Entered.{Shows};
ghost use Rattle.exec_control.specs.ExecData.Written.{NamesFit};
ghost use Rattle.kernel_steps.specs.StepAnswers.{Carries, CarriesAll, whole_step};

use crate::answers::{StepAnswer, StepBrief, plain, taking};
use exec_channels::kernel_state_api::{Kernel, top_lives};
use exec_channels::kernel_view_api::{eval_at, eval_if_at};
use exec_channels::model_tree_api::PrintText;
use exec_control::exec_data_api::{assign, if_then, var, while_do, write};
use flat_design::{BlockId, ChannelUse, Destination, Expr, StmtId, ValueType};

/// `var`.
pub(crate) fn var_step(
    k: &mut Kernel,
    p: u32,
    s: StmtId,
    n: u32,
    t: ValueType,
    e: &Option<Expr>,
    said: &mut StepAnswer,
) -> StepBrief
    requires sound { IsSound k.old }
    requires top { IsOnTop k.old p }
    requires statement { HasStatement k.old p }
    ensures carries { Carries k.old k.new (whole_step result said.new) p s (code.var n t (option_map term_of e.now)) }
    ensures takes_none { whole_step result said.new ≢ StepAnswer.NoMemory }
    ensures sound { IsSound k.new }
    ensures made { k.new.made ≡ k.old.made }
{
    top_lives(k, p);
    let value = eval_if_at(k, p, e);
    plain(var(k, p, n, t, value), said)
}

/// An assignment.
pub(crate) fn assign_step(
    k: &mut Kernel,
    p: u32,
    s: StmtId,
    to: &Destination,
    e: &Expr,
    said: &mut StepAnswer,
) -> StepBrief
    requires sound { IsSound k.old }
    requires top { IsOnTop k.old p }
    requires statement { HasStatement k.old p }
    ensures carries { Carries k.old k.new (whole_step result said.new) p s (code.assign (destination_term to.now) (term_of e.now)) }
    ensures takes_none { whole_step result said.new ≢ StepAnswer.NoMemory }
    ensures sound { IsSound k.new }
    ensures made { k.new.made ≡ k.old.made }
{
    plain(assign(k, p, to, e), said)
}

/// `write`.
pub(crate) fn write_step(
    k: &mut Kernel,
    p: u32,
    s: StmtId,
    to: &ChannelUse,
    t: ValueType,
    e: &Expr,
    said: &mut StepAnswer,
) -> StepBrief
    requires sound { IsSound k.old }
    requires top { IsOnTop k.old p }
    requires statement { HasStatement k.old p }
    requires names { NamesFit (whole_design k.old) }
    ensures carries { Carries k.old k.new (whole_step result said.new) p s (code.write (channel_term to.now) t (term_of e.now)) }
    ensures sound { IsSound k.new }
    ensures made { k.new.made ≡ k.old.made }
{
    taking(write(k, p, to, t, e), said)
}

/// `print`.
pub(crate) fn print_step(
    k: &mut Kernel,
    p: u32,
    s: StmtId,
    text: &PrintText,
    e: &Option<Expr>,
    said: &mut StepAnswer,
) -> StepBrief
    requires sound { IsSound k.old }
    requires top { IsOnTop k.old p }
    requires statement { HasStatement k.old p }
    requires there { statement_at (arena_of k.old.program.now.code) s ≡ Some (code.print text.now (option_map term_of e.now)) }
    ensures carries { CarriesAll k.old k.new (whole_step result said.new) p s (code.print text.now (option_map term_of e.now)) }
    ensures takes_none { whole_step result said.new ≢ StepAnswer.NoMemory }
    ensures sound { IsSound k.new }
    ensures made { k.new.made ≡ k.old.made }
{
    let _ = text;
    top_lives(k, p);
    let value = eval_if_at(k, p, e);
    match exec_control::exec_data_api::print(k, p, value) {
        Ok(shown) => *said = StepAnswer::Printed(p, s, shown),
        Err(fault) => *said = StepAnswer::Fault(fault),
    }
    StepBrief::Said
}

/// `if`.
pub(crate) fn if_step(
    k: &mut Kernel,
    p: u32,
    s: StmtId,
    e: &Expr,
    b: BlockId,
    other: Option<BlockId>,
    said: &mut StepAnswer,
) -> StepBrief
    requires sound { IsSound k.old }
    requires top { IsOnTop k.old p }
    requires statement { HasStatement k.old p }
    requires next { Shows k.old p s }
    requires there { statement_at (arena_of k.old.program.now.code) s ≡ Some (code.if_ (term_of e.now) b other) }
    ensures carries { Carries k.old k.new (whole_step result said.new) p s (code.if_ (term_of e.now) b other) }
    ensures takes_none { whole_step result said.new ≢ StepAnswer.NoMemory }
    ensures sound { IsSound k.new }
    ensures made { k.new.made ≡ k.old.made }
{
    top_lives(k, p);
    let value = eval_at(k, p, e);
    plain(if_then(k, p, s, b, other, value), said)
}

/// `while`.
pub(crate) fn while_step(
    k: &mut Kernel,
    p: u32,
    s: StmtId,
    e: &Expr,
    b: BlockId,
    said: &mut StepAnswer,
) -> StepBrief
    requires sound { IsSound k.old }
    requires top { IsOnTop k.old p }
    requires statement { HasStatement k.old p }
    requires next { Shows k.old p s }
    requires there { statement_at (arena_of k.old.program.now.code) s ≡ Some (code.while_ (term_of e.now) b) }
    ensures carries { Carries k.old k.new (whole_step result said.new) p s (code.while_ (term_of e.now) b) }
    ensures takes_none { whole_step result said.new ≢ StepAnswer.NoMemory }
    ensures sound { IsSound k.new }
    ensures made { k.new.made ≡ k.old.made }
{
    top_lives(k, p);
    let value = eval_at(k, p, e);
    plain(while_do(k, p, s, b, value), said)
}
