ghost use Rattle.std.specs.Prelude.{◌≡◌};
ghost use Rattle.model_rules.specs.Meanings as spec;

use model_rules::Meaning;
use model_rules::flat_design_api::ValueType;
use model_rules::model_tree_api::{
    InitiatorRole, Interface, PlainKind, PortSize, SignalType, TargetRole, TypeForm, VarType,
};

/// Whether a width is one of 1 to 64.
pub fn is_width(width: u64) -> bool
    ensures { result ≡ spec.is_width width }
{
    1 <= width && width <= 64
}

/// The type of values that a written type stands for; none where its width is not one of 1 to 64.
pub fn form_type(form: TypeForm) -> Option<ValueType>
    ensures { result ≡ spec.form_type form }
{
    match form {
        TypeForm::Bool => Some(ValueType::Bool),
        TypeForm::Logic => Some(ValueType::Logic),
        TypeForm::Int(width) if is_width(width) => Some(ValueType::Int(width as u8)),
        TypeForm::Uint(width) if is_width(width) => Some(ValueType::Uint(width as u8)),
        TypeForm::Vector(width) if is_width(width) => Some(ValueType::Vector(width as u8)),
        TypeForm::Int(_) | TypeForm::Uint(_) | TypeForm::Vector(_) => None,
    }
}

/// The type of values of a signal; none where its width is out of range.
pub fn signal_type(t: SignalType) -> Option<ValueType>
    ensures { result ≡ spec.signal_type t }
{
    form_type(t.form)
}

/// The type of values of a variable; none where its width is out of range.
pub fn variable_type(t: VarType) -> Option<ValueType>
    ensures { result ≡ spec.variable_type t }
{
    match t {
        VarType::Plain(t) => signal_type(t),
        VarType::Time => Some(ValueType::Time),
        VarType::Process => Some(ValueType::Process),
        VarType::Payload => Some(ValueType::Payload),
    }
}

/// The greatest number of channels of a port: 1 where none is written.
pub fn port_size(size: Option<PortSize>) -> u64
    ensures { result ≡ spec.port_size size }
{
    match size {
        None => 1,
        Some(size) => size.count,
    }
}

/// What the name of a port of this size stands for.
pub fn port_meaning(interface: Interface, size: u64) -> Meaning
    ensures { result ≡ spec.port_meaning interface size }
{
    match interface {
        Interface::In(t) => Meaning::In(signal_type(t), size),
        Interface::Out(t) => Meaning::Out(signal_type(t), size),
        Interface::FifoIn(t) => Meaning::FifoIn(signal_type(t), size),
        Interface::FifoOut(t) => Meaning::FifoOut(signal_type(t), size),
        Interface::Mutex => Meaning::MutexPort(size),
        Interface::Semaphore => Meaning::SemaphorePort(size),
    }
}

/// What the name of an object that has nothing but a name stands for.
pub fn plain_meaning(kind: PlainKind) -> Meaning
    ensures { result ≡ spec.plain_meaning kind }
{
    match kind {
        PlainKind::Mutex => Meaning::Mutex,
        PlainKind::Event => Meaning::Event,
        PlainKind::Keeper => Meaning::Keeper,
    }
}

/// Whether an initiator socket hands calls on to another socket.
pub fn hands_on(role: &InitiatorRole) -> bool
    ensures { result ≡ spec.hands_on role.now }
{
    match role {
        InitiatorRole::Pass => true,
        InitiatorRole::Own(_) => false,
    }
}

/// Whether a target socket hands calls on to another socket.
pub fn takes_over(role: &TargetRole) -> bool
    ensures { result ≡ spec.takes_over role.now }
{
    match role {
        TargetRole::Pass => true,
        TargetRole::Own(_, _) => false,
    }
}
