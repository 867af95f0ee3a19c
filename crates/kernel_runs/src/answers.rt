//! What a step of a session answers.
ghost use Rattle.std.specs.Prelude.{◌≡◌, true};
ghost use Rattle.kernel_steps.specs.StepAnswers.{whole_step};
ghost use Rattle.kernel_steps.specs.declared.answers.StepAnswer.{StepAnswer as Answer};
ghost use Rattle.kernel_runs.specs.Made.{made_of, whole_of};

use flat_design::{RunFault, StmtId};
use kernel_phases::logic_values_api::Value;
use kernel_steps::{StepAnswer, StepBrief};

/// What a report tells of a step.
#[derive(Clone, Copy)]
pub enum Telling {
    /// Nothing.
    Nothing,
    /// This instance has carried out the print of this number, which shows this value, where it shows one.
    Print(u32, StmtId, Option<Value>),
    /// The script shows this object, by its number among those that have values to be seen.
    Show(u32),
}

/// What became of a step.
#[derive(Clone, Copy)]
pub enum Made {
    /// The run went on, and this is told of it.
    Went(Telling),
    /// The process of this serial was taken.
    Took(u32),
    /// There is no step: the session has ended.
    Ended,
    /// The step is a run fault; nothing has changed.
    Fault(RunFault),
    /// The step takes a process, and the chooser picked none that is runnable; of the kernel nothing has changed.
    NotReady,
    /// Memory was refused; nothing has changed. No fault but one of the base protocol can have been there.
    NoMemory,
}

/// What became of a step, in a word or two.
#[derive(Clone, Copy)]
pub(crate) enum Brief {
    /// The run went on, and nothing is told of it.
    Went,
    /// The process of this serial was taken.
    Took(u32),
    /// The run went on, and the script shows this object.
    Shows(u32),
    /// There is no step: the session has ended.
    Ended,
    /// No process that is runnable was picked.
    NotReady,
    /// Memory was refused.
    NoMemory,
    /// What the step of an instance answered.
    Answered,
}

/// The step of an instance as one of the session.
#[inline(always)]
fn of_answer(answer: &StepAnswer) -> Made
    ensures { result ≡ made_of answer.now }
{
    match answer {
        StepAnswer::Went => Made::Went(Telling::Nothing),
        StepAnswer::Printed(p, s, shown) => Made::Went(Telling::Print(*p, *s, *shown)),
        StepAnswer::Fault(fault) => Made::Fault(*fault),
        StepAnswer::NoMemory => Made::NoMemory,
    }
}

/// What became of a step, in a word or two where that says it, and else as what an instance answered.
#[inline(always)]
pub(crate) fn brief_of(made: &Made, said: &mut StepAnswer) -> Brief
    ensures { whole_of result said.new ≡ made.now }
{
    match made {
        Made::Went(Telling::Nothing) => Brief::Went,
        Made::Went(Telling::Show(n)) => Brief::Shows(*n),
        Made::Went(Telling::Print(p, s, shown)) => {
            *said = StepAnswer::Printed(*p, *s, *shown);
            Brief::Answered
        }
        Made::Took(p) => Brief::Took(*p),
        Made::Ended => Brief::Ended,
        Made::Fault(fault) => {
            *said = StepAnswer::Fault(*fault);
            Brief::Answered
        }
        Made::NotReady => Brief::NotReady,
        Made::NoMemory => Brief::NoMemory,
    }
}

/// What became of a step, by its brief answer and what an instance answered.
#[inline(always)]
pub(crate) fn whole_of(brief: Brief, said: &StepAnswer) -> Made
    ensures { result ≡ whole_of brief said.now }
{
    match brief {
        Brief::Went => Made::Went(Telling::Nothing),
        Brief::Took(p) => Made::Took(p),
        Brief::Shows(n) => Made::Went(Telling::Show(n)),
        Brief::Ended => Made::Ended,
        Brief::NotReady => Made::NotReady,
        Brief::NoMemory => Made::NoMemory,
        Brief::Answered => of_answer(said),
    }
}

/// The step of an instance as one of the session, by its word.
#[inline(always)]
pub(crate) fn of_instance(step: StepBrief) -> Brief
    ensures { (said : Answer) → whole_of result said ≡ made_of (whole_step step said) }
{
    match step {
        StepBrief::Went => Brief::Went,
        StepBrief::Said => Brief::Answered,
    }
}

/// Whether the run went on, and nothing is told of it.
#[inline(always)]
pub(crate) fn is_quiet(brief: Brief) -> bool
    ensures { result ≡ true → (said : Answer) → whole_of brief said ≡ Made.Went Telling.Nothing }
{
    match brief {
        Brief::Went => true,
        Brief::Took(_) => false,
        Brief::Shows(_) => false,
        Brief::Ended => false,
        Brief::NotReady => false,
        Brief::NoMemory => false,
        Brief::Answered => false,
    }
}
