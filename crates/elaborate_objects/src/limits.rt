//! The limits of a design.
ghost use Rattle.std.specs.Prelude.{◌≡◌, ◌++◌, ◌∷◌, [], not};
ghost use Rattle.check_names.specs.FlatDesign.declared.objects.Object.{Object};
ghost use Rattle.design_rules.specs.ObjectFaults.{bytes_in, are_too_many};
ghost use Rattle.elaborate_objects.specs.Walks.{IsCounted};

use super::walks::Walk;
use check_names::flat_design_api::ObjectForm;

/// The greatest number of objects.
const OBJECT_LIMIT: usize = 65_536;

/// The greatest number of bytes of memories.
const BYTE_LIMIT: u64 = 67_108_864;

/// The bytes of an object of this form.
pub(crate) fn bytes_in(form: ObjectForm) -> u64
    ensures { result ≡ bytes_in form }
{
    match form {
        ObjectForm::Memory { size } => size,
        ObjectForm::Instance { .. }
        | ObjectForm::Signal { .. }
        | ObjectForm::Resolved
        | ObjectForm::Clock { .. }
        | ObjectForm::Fifo { .. }
        | ObjectForm::Mutex
        | ObjectForm::Event
        | ObjectForm::Keeper
        | ObjectForm::Semaphore { .. }
        | ObjectForm::Variable { .. }
        | ObjectForm::Port { .. }
        | ObjectForm::Export { .. }
        | ObjectForm::Initiator { .. }
        | ObjectForm::Target { .. }
        | ObjectForm::Process { .. } => 0,
    }
}

/// Whether one more object of this form keeps the limits.
pub(crate) fn fits(walk: &Walk, form: ObjectForm) -> bool
    requires { IsCounted walk.now }
    ensures { (o : Object) → o.form ≡ form → are_too_many (walk.now.objects ++ o ∷ []) ≡ not result }
{
    walk.objects.as_slice().len() < OBJECT_LIMIT && bytes_in(form) <= BYTE_LIMIT - walk.bytes
}
