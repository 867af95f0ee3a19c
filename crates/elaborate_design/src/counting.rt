//! How many objects of each kind come before an object.
ghost use Rattle.std.specs.Prelude.{◌≡◌, ◌+◌, IfOk};
ghost use Rattle.elaborate_objects.specs.DesignRules.Counting as spec;

use elaborate_objects::design_rules_api::Counts;
use elaborate_objects::flat_design_api::{Object, ObjectForm};
use std::alloc::AllocError;

/// Before the first object.
pub(crate) fn nothing_before() -> Counts
    ensures { result ≡ spec.nothing_before }
{
    Counts {
        objects: 0,
        instances: 0,
        signals: 0,
        resolved: 0,
        fifos: 0,
        mutexes: 0,
        semaphores: 0,
        keepers: 0,
        memories: 0,
        variables: 0,
        ports: 0,
        processes: 0,
        events: 0,
    }
}

/// So many more.
fn more(count: u32, by: u32) -> Result<u32, AllocError>
    ensures { IfOk result (λ sum. sum ≡ count + by) }
{
    match count.checked_add(by) {
        Some(sum) => Ok(sum),
        None => Err(AllocError),
    }
}

/// Behind an object of this form.
pub(crate) fn behind(n: Counts, form: ObjectForm) -> Result<Counts, AllocError>
    ensures { IfOk result (λ counts. counts ≡ spec.behind n form) }
{
    let objects = more(n.objects, 1)?;
    match form {
        ObjectForm::Instance { .. } => Ok(Counts {
            objects,
            instances: more(n.instances, 1)?,
            ..n
        }),
        ObjectForm::Signal { .. } => Ok(Counts {
            objects,
            signals: more(n.signals, 1)?,
            events: more(n.events, 3)?,
            ..n
        }),
        ObjectForm::Resolved => Ok(Counts {
            objects,
            resolved: more(n.resolved, 1)?,
            events: more(n.events, 3)?,
            ..n
        }),
        ObjectForm::Clock { .. } => Ok(Counts {
            objects,
            signals: more(n.signals, 1)?,
            processes: more(n.processes, 1)?,
            events: more(n.events, 3)?,
            ..n
        }),
        ObjectForm::Fifo { .. } => Ok(Counts {
            objects,
            fifos: more(n.fifos, 1)?,
            events: more(n.events, 2)?,
            ..n
        }),
        ObjectForm::Mutex => Ok(Counts {
            objects,
            mutexes: more(n.mutexes, 1)?,
            events: more(n.events, 1)?,
            ..n
        }),
        ObjectForm::Event => Ok(Counts {
            objects,
            events: more(n.events, 1)?,
            ..n
        }),
        ObjectForm::Keeper => Ok(Counts {
            objects,
            keepers: more(n.keepers, 1)?,
            ..n
        }),
        ObjectForm::Semaphore { .. } => Ok(Counts {
            objects,
            semaphores: more(n.semaphores, 1)?,
            events: more(n.events, 1)?,
            ..n
        }),
        ObjectForm::Memory { .. } => Ok(Counts {
            objects,
            memories: more(n.memories, 1)?,
            ..n
        }),
        ObjectForm::Variable { .. } => Ok(Counts {
            objects,
            variables: more(n.variables, 1)?,
            ..n
        }),
        ObjectForm::Port { .. } => Ok(Counts {
            objects,
            ports: more(n.ports, 1)?,
            ..n
        }),
        ObjectForm::Export { .. } | ObjectForm::Initiator { .. } | ObjectForm::Target { .. } => {
            Ok(Counts { objects, ..n })
        }
        ObjectForm::Process { .. } => Ok(Counts {
            objects,
            processes: more(n.processes, 1)?,
            ..n
        }),
    }
}

/// All of these objects.
pub(crate) fn totals(objects: &[Object]) -> Result<Counts, AllocError>
    ensures { IfOk result (λ counts. counts ≡ spec.totals objects.now) }
{
    let mut n = nothing_before();
    for object in objects {
        n = behind(n, object.form)?;
    }
    Ok(n)
}
