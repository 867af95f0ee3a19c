ghost use Rattle.std.specs.Prelude.{◌≡◌};
ghost use Rattle.design_rules.specs.Fits as spec;

use super::forms::form_at;
use design_rules::flat_design_api::{Binding, LeadsTo, ObjectForm, Objects, ValueType};

/// Whether two types of values are the same.
fn is_same_type(s: ValueType, t: ValueType) -> bool
    ensures { result ≡ spec.is_same_type s t }
{
    match (s, t) {
        (ValueType::Bool, ValueType::Bool)
        | (ValueType::Logic, ValueType::Logic)
        | (ValueType::Time, ValueType::Time)
        | (ValueType::Process, ValueType::Process)
        | (ValueType::Payload, ValueType::Payload) => true,
        (ValueType::Int(v), ValueType::Int(w))
        | (ValueType::Uint(v), ValueType::Uint(w))
        | (ValueType::Vector(v), ValueType::Vector(w)) => v == w,
        _ => false,
    }
}

/// Whether a port or an export leads to signals of this type.
fn leads_to_signal(t: ValueType, left: LeadsTo) -> bool
    ensures { result ≡ spec.leads_to_signal t left }
{
    match left {
        LeadsTo::In(s) | LeadsTo::Out(s) => is_same_type(s, t),
        LeadsTo::FifoIn(_) | LeadsTo::FifoOut(_) | LeadsTo::Mutex | LeadsTo::Semaphore => false,
    }
}

/// Whether it only reads signals of this type.
fn only_reads(t: ValueType, left: LeadsTo) -> bool
    ensures { result ≡ spec.only_reads t left }
{
    match left {
        LeadsTo::In(s) => is_same_type(s, t),
        LeadsTo::Out(_)
        | LeadsTo::FifoIn(_)
        | LeadsTo::FifoOut(_)
        | LeadsTo::Mutex
        | LeadsTo::Semaphore => false,
    }
}

/// Whether it reads from fifos of this type.
fn reads_fifo(t: ValueType, left: LeadsTo) -> bool
    ensures { result ≡ spec.reads_fifo t left }
{
    match left {
        LeadsTo::FifoIn(s) => is_same_type(s, t),
        LeadsTo::In(_)
        | LeadsTo::Out(_)
        | LeadsTo::FifoOut(_)
        | LeadsTo::Mutex
        | LeadsTo::Semaphore => false,
    }
}

/// Whether it writes to fifos of this type.
fn writes_fifo(t: ValueType, left: LeadsTo) -> bool
    ensures { result ≡ spec.writes_fifo t left }
{
    match left {
        LeadsTo::FifoOut(s) => is_same_type(s, t),
        LeadsTo::In(_)
        | LeadsTo::Out(_)
        | LeadsTo::FifoIn(_)
        | LeadsTo::Mutex
        | LeadsTo::Semaphore => false,
    }
}

/// Whether it reads from fifos of this type or writes to them.
fn leads_to_fifo(t: ValueType, left: LeadsTo) -> bool
    ensures { result ≡ spec.leads_to_fifo t left }
{
    match left {
        LeadsTo::FifoIn(s) | LeadsTo::FifoOut(s) => is_same_type(s, t),
        LeadsTo::In(_) | LeadsTo::Out(_) | LeadsTo::Mutex | LeadsTo::Semaphore => false,
    }
}

fn leads_to_mutex(left: LeadsTo) -> bool
    ensures { result ≡ spec.leads_to_mutex left }
{
    match left {
        LeadsTo::Mutex => true,
        LeadsTo::In(_)
        | LeadsTo::Out(_)
        | LeadsTo::FifoIn(_)
        | LeadsTo::FifoOut(_)
        | LeadsTo::Semaphore => false,
    }
}

fn leads_to_semaphore(left: LeadsTo) -> bool
    ensures { result ≡ spec.leads_to_semaphore left }
{
    match left {
        LeadsTo::Semaphore => true,
        LeadsTo::In(_)
        | LeadsTo::Out(_)
        | LeadsTo::FifoIn(_)
        | LeadsTo::FifoOut(_)
        | LeadsTo::Mutex => false,
    }
}

/// Whether a port or an export that leads to `right` fits one that leads to `left`.
fn leads_through(left: LeadsTo, right: LeadsTo) -> bool
    ensures { result ≡ spec.leads_through left right }
{
    match right {
        LeadsTo::In(t) => only_reads(t, left),
        LeadsTo::Out(t) => leads_to_signal(t, left),
        LeadsTo::FifoIn(t) => reads_fifo(t, left),
        LeadsTo::FifoOut(t) => writes_fifo(t, left),
        LeadsTo::Mutex => leads_to_mutex(left),
        LeadsTo::Semaphore => leads_to_semaphore(left),
    }
}

/// Whether a right end of this form fits a port or an export.
fn fits(left: LeadsTo, right: ObjectForm) -> bool
    ensures { result ≡ spec.fits left right }
{
    match right {
        ObjectForm::Signal { value_type, .. } => leads_to_signal(value_type, left),
        ObjectForm::Resolved => leads_to_signal(ValueType::Logic, left),
        ObjectForm::Clock { .. } => only_reads(ValueType::Bool, left),
        ObjectForm::Fifo { value_type, .. } => leads_to_fifo(value_type, left),
        ObjectForm::Mutex => leads_to_mutex(left),
        ObjectForm::Semaphore { .. } => leads_to_semaphore(left),
        ObjectForm::Port { leads_to, .. } | ObjectForm::Export { leads_to } => {
            leads_through(left, leads_to)
        }
        ObjectForm::Instance { .. }
        | ObjectForm::Event
        | ObjectForm::Keeper
        | ObjectForm::Memory { .. }
        | ObjectForm::Variable { .. }
        | ObjectForm::Initiator { .. }
        | ObjectForm::Target { .. }
        | ObjectForm::Process { .. } => false,
    }
}

/// Whether a right end fits a port or an export; where there is no such object it does not.
fn fits_end(left: LeadsTo, right: Option<ObjectForm>) -> bool
    ensures { result ≡ spec.fits_end left right }
{
    match right {
        None => false,
        Some(form) => fits(left, form),
    }
}

/// Whether the ends of a binding differ in kind; sockets fit by their forms alone.
fn differs(right: Option<ObjectForm>, left: ObjectForm) -> bool
    ensures { result ≡ spec.differs right left }
{
    match left {
        ObjectForm::Port { leads_to, .. } | ObjectForm::Export { leads_to } => {
            !fits_end(leads_to, right)
        }
        ObjectForm::Instance { .. }
        | ObjectForm::Signal { .. }
        | ObjectForm::Resolved
        | ObjectForm::Clock { .. }
        | ObjectForm::Fifo { .. }
        | ObjectForm::Mutex
        | ObjectForm::Event
        | ObjectForm::Keeper
        | ObjectForm::Semaphore { .. }
        | ObjectForm::Memory { .. }
        | ObjectForm::Variable { .. }
        | ObjectForm::Initiator { .. }
        | ObjectForm::Target { .. }
        | ObjectForm::Process { .. } => false,
    }
}

/// Whether the ends of this binding differ in kind.
pub(crate) fn kind_differs(objects: &Objects, b: Binding) -> bool
    ensures { result ≡ spec.kind_differs objects.now b }
{
    match form_at(objects, b.left) {
        None => false,
        Some(left) => differs(form_at(objects, b.right), left),
    }
}
