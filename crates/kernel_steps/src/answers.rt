//! What a step of an instance answers.
ghost use Rattle.std.specs.Prelude.{◌≡◌};
ghost use Rattle.kernel_steps.specs.StepAnswers.{plain_answer, taking_answer, whole_step};

use exec_channels::kernel_state_api::StatementStop;
use exec_channels::logic_values_api::Value;
use flat_design::{RunFault, StmtId};

/// What a step of an instance answers.
#[derive(Clone, Copy)]
pub enum StepAnswer {
    /// The step is made.
    Went,
    /// The step is made: this instance has carried out the print of this number, which shows this value, where it shows one.
    Printed(u32, StmtId, Option<Value>),
    /// The run is at fault, and nothing changed.
    Fault(RunFault),
    /// There is no memory, and nothing changed. No fault but one of the base protocol can have been there.
    NoMemory,
}

/// What a step of an instance answers, in a word.
#[derive(Clone, Copy)]
pub enum StepBrief {
    /// The step is made, and nothing else is to be said of it.
    Went,
    /// What was said of it.
    Said,
}

/// The answer of a statement that takes no memory.
#[inline(always)]
pub(crate) fn plain(done: Result<(), RunFault>, said: &mut StepAnswer) -> StepBrief
    ensures { whole_step result said.new ≡ plain_answer done }
{
    match done {
        Ok(()) => StepBrief::Went,
        Err(fault) => {
            *said = StepAnswer::Fault(fault);
            StepBrief::Said
        }
    }
}

/// That of a statement that may take memory.
#[inline(always)]
pub(crate) fn taking(done: Result<(), StatementStop>, said: &mut StepAnswer) -> StepBrief
    ensures { whole_step result said.new ≡ taking_answer done }
{
    match done {
        Ok(()) => StepBrief::Went,
        Err(StatementStop::Fault(fault)) => {
            *said = StepAnswer::Fault(fault);
            StepBrief::Said
        }
        Err(StatementStop::NoMemory) => {
            *said = StepAnswer::NoMemory;
            StepBrief::Said
        }
    }
}
