ghost use Rattle.std.specs.Prelude.{◌≡◌};
ghost use Rattle.check_names.specs.ModelRules.Names as spec;

use check_names::model_rules_api::{Meaning, Need};
use flat_design::ValueType;

fn is_value(meaning: Meaning) -> bool
    ensures { result ≡ spec.is_value meaning }
{
    matches!(
        meaning,
        Meaning::Signal(_)
            | Meaning::Resolved
            | Meaning::Clock
            | Meaning::Variable(_)
            | Meaning::In(_, _)
            | Meaning::Out(_, _)
            | Meaning::Process
    )
}

fn is_memory(meaning: Meaning) -> bool
    ensures { result ≡ spec.is_memory meaning }
{
    matches!(meaning, Meaning::Memory)
}

fn is_signal_written(meaning: Meaning) -> bool
    ensures { result ≡ spec.is_signal_written meaning }
{
    matches!(
        meaning,
        Meaning::Signal(_) | Meaning::Resolved | Meaning::Out(_, _)
    )
}

fn is_fifo_written(meaning: Meaning) -> bool
    ensures { result ≡ spec.is_fifo_written meaning }
{
    matches!(meaning, Meaning::Fifo(_) | Meaning::FifoOut(_, _))
}

fn is_fifo_read(meaning: Meaning) -> bool
    ensures { result ≡ spec.is_fifo_read meaning }
{
    matches!(meaning, Meaning::Fifo(_) | Meaning::FifoIn(_, _))
}

fn is_mutex(meaning: Meaning) -> bool
    ensures { result ≡ spec.is_mutex meaning }
{
    matches!(meaning, Meaning::Mutex | Meaning::MutexPort(_))
}

fn is_semaphore(meaning: Meaning) -> bool
    ensures { result ≡ spec.is_semaphore meaning }
{
    matches!(meaning, Meaning::Semaphore | Meaning::SemaphorePort(_))
}

fn is_plain_event(meaning: Meaning) -> bool
    ensures { result ≡ spec.is_plain_event meaning }
{
    matches!(meaning, Meaning::Event)
}

fn is_event(meaning: Meaning) -> bool
    ensures { result ≡ spec.is_event meaning }
{
    matches!(
        meaning,
        Meaning::Event
            | Meaning::Signal(_)
            | Meaning::Resolved
            | Meaning::Clock
            | Meaning::In(_, _)
            | Meaning::Out(_, _)
    )
}

fn is_variable(meaning: Meaning) -> bool
    ensures { result ≡ spec.is_variable meaning }
{
    matches!(meaning, Meaning::Variable(_))
}

fn is_payload(meaning: Meaning) -> bool
    ensures { result ≡ spec.is_payload meaning }
{
    matches!(meaning, Meaning::Variable(Some(ValueType::Payload)))
}

fn is_process(meaning: Meaning) -> bool
    ensures { result ≡ spec.is_process meaning }
{
    matches!(
        meaning,
        Meaning::Process | Meaning::Variable(Some(ValueType::Process))
    )
}

fn is_function(meaning: Meaning) -> bool
    ensures { result ≡ spec.is_function meaning }
{
    matches!(meaning, Meaning::Function)
}

fn is_keeper(meaning: Meaning) -> bool
    ensures { result ≡ spec.is_keeper meaning }
{
    matches!(meaning, Meaning::Keeper)
}

fn is_initiator(meaning: Meaning) -> bool
    ensures { result ≡ spec.is_initiator meaning }
{
    matches!(meaning, Meaning::Initiator(_))
}

fn is_target(meaning: Meaning) -> bool
    ensures { result ≡ spec.is_target meaning }
{
    matches!(meaning, Meaning::Target(_))
}

/// Whether a name stands for what a construct needs.
pub fn meets(need: Need, meaning: Meaning) -> bool
    ensures { result ≡ spec.meets need meaning }
{
    match need {
        Need::Readable => is_value(meaning),
        Need::Object => true,
        Need::Indexed => is_memory(meaning) || is_value(meaning),
        Need::Written => is_signal_written(meaning) || is_fifo_written(meaning),
        Need::Put => is_fifo_written(meaning),
        Need::Taken => is_fifo_read(meaning),
        Need::Mutex => is_mutex(meaning),
        Need::Semaphore => is_semaphore(meaning),
        Need::Event | Need::StaticEvent => is_event(meaning),
        Need::StaticObject => !is_variable(meaning),
        Need::PlainEvent => is_plain_event(meaning),
        Need::Variable => is_variable(meaning),
        Need::Payload => is_payload(meaning),
        Need::Process => is_process(meaning),
        Need::Function => is_function(meaning),
        Need::Keeper => is_keeper(meaning),
        Need::Memory => is_memory(meaning),
        Need::Socket => is_initiator(meaning) || is_target(meaning),
        Need::Initiator => is_initiator(meaning),
    }
}

/// Whether a name stands for something that is not what a construct needs.
pub fn is_unmet(need: Need, meaning: Option<Meaning>) -> bool
    ensures { result ≡ spec.is_unmet need meaning }
{
    match meaning {
        None => false,
        Some(meaning) => !meets(need, meaning),
    }
}
