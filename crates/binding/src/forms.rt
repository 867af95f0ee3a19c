ghost use Rattle.std.specs.Prelude.{◌≡◌};
ghost use Rattle.design_rules.specs.Objects.{form_at};
ghost use Rattle.design_rules.specs.Paths.{ends_path, is_end, begins_path, is_beginning};
ghost use Rattle.design_rules.specs.Bound.{is_port};

use design_rules::flat_design_api::{ObjectForm, Objects};

/// The form of the object of this number; none where there is no such object.
pub(crate) fn form_at(objects: &Objects, i: u32) -> Option<ObjectForm>
    ensures { result ≡ form_at objects.now i }
{
    match objects.list.as_slice().get(i as usize) {
        Some(object) => Some(object.form),
        None => None,
    }
}

/// Whether a path of bindings ends at an object of this form.
fn ends_path(form: ObjectForm) -> bool
    ensures { result ≡ ends_path form }
{
    match form {
        ObjectForm::Port { .. } | ObjectForm::Export { .. } | ObjectForm::Initiator { .. } => false,
        ObjectForm::Target { pass, .. } => !pass,
        ObjectForm::Instance { .. }
        | ObjectForm::Signal { .. }
        | ObjectForm::Resolved
        | ObjectForm::Clock { .. }
        | ObjectForm::Fifo { .. }
        | ObjectForm::Mutex
        | ObjectForm::Event
        | ObjectForm::Keeper
        | ObjectForm::Semaphore { .. }
        | ObjectForm::Memory { .. }
        | ObjectForm::Variable { .. }
        | ObjectForm::Process { .. } => true,
    }
}

/// Whether a path of bindings ends at this object.
pub(crate) fn is_end(objects: &Objects, i: u32) -> bool
    ensures { result ≡ is_end (form_at objects.now i) }
{
    match form_at(objects, i) {
        Some(form) => ends_path(form),
        None => true,
    }
}

/// Whether an object of this form leads to targets: it is an initiator without `pass`.
pub(crate) fn begins_path(form: ObjectForm) -> bool
    ensures { result ≡ begins_path form }
{
    match form {
        ObjectForm::Initiator { pass, .. } => !pass,
        ObjectForm::Port { .. }
        | ObjectForm::Export { .. }
        | ObjectForm::Target { .. }
        | ObjectForm::Instance { .. }
        | ObjectForm::Signal { .. }
        | ObjectForm::Resolved
        | ObjectForm::Clock { .. }
        | ObjectForm::Fifo { .. }
        | ObjectForm::Mutex
        | ObjectForm::Event
        | ObjectForm::Keeper
        | ObjectForm::Semaphore { .. }
        | ObjectForm::Memory { .. }
        | ObjectForm::Variable { .. }
        | ObjectForm::Process { .. } => false,
    }
}

/// Whether this object leads to targets.
pub(crate) fn is_beginning(objects: &Objects, i: u32) -> bool
    ensures { result ≡ is_beginning (form_at objects.now i) }
{
    match form_at(objects, i) {
        Some(form) => begins_path(form),
        None => false,
    }
}

pub(crate) fn is_port(form: ObjectForm) -> bool
    ensures { result ≡ is_port form }
{
    match form {
        ObjectForm::Port { .. } => true,
        ObjectForm::Export { .. }
        | ObjectForm::Initiator { .. }
        | ObjectForm::Target { .. }
        | ObjectForm::Instance { .. }
        | ObjectForm::Signal { .. }
        | ObjectForm::Resolved
        | ObjectForm::Clock { .. }
        | ObjectForm::Fifo { .. }
        | ObjectForm::Mutex
        | ObjectForm::Event
        | ObjectForm::Keeper
        | ObjectForm::Semaphore { .. }
        | ObjectForm::Memory { .. }
        | ObjectForm::Variable { .. }
        | ObjectForm::Process { .. } => false,
    }
}
