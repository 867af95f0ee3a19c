ghost use Rattle.std.specs.Prelude.{◌≡◌, bytes_eq, None};
ghost use Rattle.model_rules.specs.Members as spec;
ghost use Rattle.model_rules.specs.declared.meanings.Row.TheVariants as row;

use model_rules::flat_design_api::{EventMember, Member, PayloadBytes, PayloadField, ValueType};
use model_rules::{ExpressionType, Meaning, Row, ValueMember};

/// The row of what a variable holds: the handle of a process or a payload.
fn variable_row(value_type: Option<ValueType>) -> Option<Row>
    ensures { result ≡ spec.variable_row value_type }
{
    match value_type {
        Some(ValueType::Process) => Some(Row::Processes),
        Some(ValueType::Payload) => Some(Row::Payloads),
        _ => None,
    }
}

/// The row of the table of members for what a name stands for; none where it has no members.
pub fn row_of(meaning: Meaning) -> Option<Row>
    ensures { result ≡ spec.row_of meaning }
{
    match meaning {
        Meaning::Signal(t) | Meaning::In(t, _) | Meaning::Out(t, _) => Some(Row::Signals(t)),
        Meaning::Resolved => Some(Row::Signals(Some(ValueType::Logic))),
        Meaning::Clock => Some(Row::Signals(Some(ValueType::Bool))),
        Meaning::Fifo(_) | Meaning::FifoIn(_, _) | Meaning::FifoOut(_, _) => Some(Row::Fifos),
        Meaning::Keeper => Some(Row::Keepers),
        Meaning::Semaphore | Meaning::SemaphorePort(_) => Some(Row::Semaphores),
        Meaning::Variable(t) => variable_row(t),
        Meaning::Process => Some(Row::Processes),
        Meaning::Mutex
        | Meaning::Event
        | Meaning::Memory
        | Meaning::MutexPort(_)
        | Meaning::Export
        | Meaning::Initiator(_)
        | Meaning::Target(_)
        | Meaning::Instance
        | Meaning::Function => None,
    }
}

/// Whether a word of the table is this name.
fn is_named(word: &str, name: &[u8]) -> bool
    ensures { result ≡ bytes_eq word.now name.now }
{
    word.as_bytes() == name
}

fn fifo_value(name: &[u8]) -> Option<ValueMember>
    ensures { result ≡ spec.value_member row.Fifos name.now }
{
    if is_named("available", name) {
        Some(ValueMember::One(Member::Available))
    } else if is_named("free", name) {
        Some(ValueMember::One(Member::Free))
    } else {
        None
    }
}

fn process_value(name: &[u8]) -> Option<ValueMember>
    ensures { result ≡ spec.value_member row.Processes name.now }
{
    if is_named("valid", name) {
        Some(ValueMember::One(Member::Valid))
    } else if is_named("terminated", name) {
        Some(ValueMember::One(Member::Terminated))
    } else {
        None
    }
}

fn payload_value(name: &[u8]) -> Option<ValueMember>
    ensures { result ≡ spec.value_member row.Payloads name.now }
{
    if is_named("live", name) {
        Some(ValueMember::One(Member::Live))
    } else if is_named("command", name) {
        Some(ValueMember::One(Member::Field(PayloadField::Command)))
    } else if is_named("status", name) {
        Some(ValueMember::One(Member::Field(PayloadField::Status)))
    } else if is_named("address", name) {
        Some(ValueMember::One(Member::Field(PayloadField::Address)))
    } else if is_named("width", name) {
        Some(ValueMember::One(Member::Field(PayloadField::Width)))
    } else if is_named("length", name) {
        Some(ValueMember::One(Member::Length))
    } else if is_named("enable_length", name) {
        Some(ValueMember::One(Member::EnableLength))
    } else if is_named("data", name) {
        Some(ValueMember::Many(PayloadBytes::Data))
    } else if is_named("byte_enable", name) {
        Some(ValueMember::Many(PayloadBytes::ByteEnable))
    } else {
        None
    }
}

fn keeper_value(name: &[u8]) -> Option<ValueMember>
    ensures { result ≡ spec.value_member row.Keepers name.now }
{
    if is_named("local", name) {
        Some(ValueMember::One(Member::Local))
    } else if is_named("next", name) {
        Some(ValueMember::One(Member::Next))
    } else if is_named("need_sync", name) {
        Some(ValueMember::One(Member::NeedSync))
    } else {
        None
    }
}

/// The member that is a value, or bytes, by its name.
pub fn value_member(of: Row, name: &[u8]) -> Option<ValueMember>
    ensures { result ≡ spec.value_member of name.now }
{
    match of {
        Row::Signals(_) if is_named("changed", name) => Some(ValueMember::One(Member::Changed)),
        Row::Signals(_) => None,
        Row::Fifos => fifo_value(name),
        Row::Semaphores if is_named("value", name) => Some(ValueMember::One(Member::Value)),
        Row::Semaphores => None,
        Row::Processes => process_value(name),
        Row::Payloads => payload_value(name),
        Row::Keepers => keeper_value(name),
    }
}

fn edge(name: &[u8]) -> Option<EventMember>
    ensures { result ≡ spec.event_member (row.Signals None) name.now }
{
    if is_named("pos", name) {
        Some(EventMember::Posedge)
    } else if is_named("neg", name) {
        Some(EventMember::Negedge)
    } else {
        None
    }
}

fn fifo_event(name: &[u8]) -> Option<EventMember>
    ensures { result ≡ spec.event_member row.Fifos name.now }
{
    if is_named("data_written", name) {
        Some(EventMember::DataWritten)
    } else if is_named("data_read", name) {
        Some(EventMember::DataRead)
    } else {
        None
    }
}

fn process_event(name: &[u8]) -> Option<EventMember>
    ensures { result ≡ spec.event_member row.Processes name.now }
{
    if is_named("terminated_event", name) {
        Some(EventMember::Terminated)
    } else if is_named("reset_event", name) {
        Some(EventMember::Reset)
    } else {
        None
    }
}

/// The member that is an event, by its name.
pub fn event_member(of: Row, name: &[u8]) -> Option<EventMember>
    ensures { result ≡ spec.event_member of name.now }
{
    match of {
        Row::Signals(_) => edge(name),
        Row::Fifos => fifo_event(name),
        Row::Processes => process_event(name),
        Row::Semaphores | Row::Payloads | Row::Keepers => None,
    }
}

/// Whether values of this type have edges.
pub fn has_edges(value_type: ValueType) -> bool
    ensures { result ≡ spec.has_edges value_type }
{
    matches!(value_type, ValueType::Bool | ValueType::Logic)
}

/// The type of a field of a payload.
fn field_type(field: PayloadField) -> ExpressionType
    ensures { result ≡ spec.field_type field }
{
    match field {
        PayloadField::Command | PayloadField::Status => ExpressionType::Signed,
        PayloadField::Address | PayloadField::Width => ExpressionType::Unsigned,
    }
}

/// The type of a member that is a value.
pub fn member_type(member: Member) -> ExpressionType
    ensures { result ≡ spec.member_type member }
{
    match member {
        Member::Changed | Member::Valid | Member::Terminated | Member::Live | Member::NeedSync =>
            ExpressionType::Bool,
        Member::Available | Member::Free | Member::Value | Member::Length | Member::EnableLength =>
            ExpressionType::Unsigned,
        Member::Field(field) => field_type(field),
        Member::Local | Member::Next => ExpressionType::Time,
    }
}
