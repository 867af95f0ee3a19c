//! The processes of a design before the first command.
ghost use Rattle.std.specs.Prelude.{◌≡◌, ◌≤◌, ◌<◌, ◌+◌, ◌-◌, ◌^◌, ℕ, IfOk, OnOk, length};
ghost use Rattle.kernel_state.specs.InstanceTable.declared.TheConstants.{MAX_LIVE};
ghost use Rattle.kernel_state.specs.KernelProcesses.InstanceViews.{kind_of};
ghost use Rattle.kernel_start.specs.Made.{IsMade, Adds, AddsAll};

use kernel_state::flat_design_api::ProcessPart;
use kernel_state::instance_table_api::ProcessKind;
use kernel_state::kernel_bodies_api::Program;
use kernel_state::kernel_processes_api::{Schedule, empty, spawn};
use kernel_state::logic_values_api::Items;
use kernel_state::model_tree_api::ProcessKind as Kind;
use kernel_state::process_bodies_api::Body;
use kernel_state::{Kept, PathOf};
use std::alloc::{AllocError, Global};

fn kind_by(kind: Kind) -> ProcessKind
    ensures { kind_of result ≡ kind }
{
    match kind {
        Kind::Thread => ProcessKind::Thread,
        Kind::Method => ProcessKind::Method,
    }
}

/// Adds a process of the design: it waits for its static sensitivity.
fn add_process(
    alloc: Global,
    program: &Program,
    s: &mut Schedule<Kept>,
    part: &ProcessPart,
) -> Result<(), AllocError>
    requires sound { IsMade program.now s.old }
    requires serials { s.old.table.next + 1 < 2 ^ 32 - 1 }
    ensures adds { OnOk result (Adds program.now part.now s.old s.new) }
    ensures sound { OnOk result (IsMade program.now s.new) }
    ensures next { OnOk result (s.new.table.next ≡ s.old.table.next + 1) }
{
    let sensitive = Vec::from_slice(alloc, part.sensitive.as_slice())?;
    let body = match Body::start(alloc, program, part.code, Vec::new(alloc)) {
        Ok(body) => body,
        Err(_) => return Err(AllocError),
    };
    let kept = Kept {
        home: part.home,
        path: PathOf::Object(part.object),
        body,
        trigger: None,
    };
    match spawn(
        s,
        kind_by(part.kind),
        Items::from_vec(sensitive),
        kept,
        true,
    ) {
        Ok(_) => Ok(()),
        Err(_) => Err(AllocError),
    }
}

/// The processes of the design.
pub(crate) fn first_processes(
    alloc: Global,
    program: &Program,
    parts: &[ProcessPart],
) -> Result<Schedule<Kept>, AllocError>
    requires { length parts.now ≤ MAX_LIVE }
    ensures adds { IfOk result (λ s. AddsAll program.now parts.now s) }
    ensures sound { IfOk result (λ s. IsMade program.now s) }
    ensures next { IfOk result (λ s. s.table.next ≡ length parts.now) }
{
    let mut s = empty(alloc);
    for part in parts {
        match add_process(alloc, program, &mut s, part) {
            Ok(()) => {}
            Err(_) => return Err(AllocError),
        }
    }
    Ok(s)
}
