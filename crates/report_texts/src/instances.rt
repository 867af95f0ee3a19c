//! Paths of instances.
ghost use Rattle.std.specs.Prelude.{◌≡◌, ◌++◌, OnOk, slice_get};
ghost use Rattle.flat_design.specs.Code.{arena_of, body_at};
ghost use Rattle.kernel_state.specs.SimModel.Calls.{body_name, home_path};
ghost use Rattle.kernel_state.specs.Kernel.{path_in, whole_design};
ghost use Rattle.report_texts.specs.Instances.{path_at};

use crate::paths::push_path;
use crate::pieces::{push_bytes, push_number};
use crate::shows::push_object;
use flat_design::{CodeId, Design};
use kernel_state::kernel_bodies_api::Program;
use kernel_state::{Kept, Kernel, PathOf};
use std::alloc::{AllocError, Global};

/// Adds the path of an instance of a module, by its number among these.
fn push_home(
    alloc: Global,
    text: &mut Vec<u8>,
    design: &Design,
    home: u32,
) -> Result<(), AllocError>
    ensures { OnOk result (text.new.items ≡ text.old.items ++ home_path design.now (slice_get design.now.instances home)) }
{
    match design.instances.as_slice().get(home as usize) {
        Some(part) => push_path(alloc, text, design.objects.list.as_slice(), part.object),
        None => Ok(()),
    }
}

/// Adds the name of a body.
fn push_body_name(text: &mut Vec<u8>, program: &Program, code: CodeId) -> Result<(), AllocError>
    ensures { OnOk result (text.new.items ≡ text.old.items ++ body_name (body_at (arena_of program.now.code) code)) }
{
    match program.body(code) {
        Some(body) => push_bytes(text, body.name.as_slice()),
        None => Ok(()),
    }
}

/// Adds the path of a spawned instance: that of the instance of a module, the name of the body and the serial.
fn push_spawned(
    alloc: Global,
    text: &mut Vec<u8>,
    k: &Kernel,
    home: u32,
    code: CodeId,
    serial: u32,
) -> Result<(), AllocError>
    ensures { OnOk result (text.new.items ≡ text.old.items ++ path_in (whole_design k.now) home code (PathOf.Spawned serial)) }
{
    push_home(alloc, text, &k.design, home)?;
    text.extend_from_slice(b".")?;
    push_body_name(text, k.program, code)?;
    text.extend_from_slice(b"_")?;
    push_number(text, u64::from(serial))
}

/// Adds the path of an instance, by what is kept of it.
fn push_kept(alloc: Global, text: &mut Vec<u8>, k: &Kernel, kept: &Kept) -> Result<(), AllocError>
    ensures { OnOk result (text.new.items ≡ text.old.items ++ path_in (whole_design k.now) kept.now.home kept.now.body.calls.code kept.now.path) }
{
    match kept.path {
        PathOf::Object(number) => push_object(alloc, text, k, number),
        PathOf::Spawned(serial) => {
            push_spawned(alloc, text, k, kept.home, kept.body.code(), serial)
        }
    }
}

/// Adds the path of the instance of this serial, which has not ended.
#[inline(always)]
pub(crate) fn push_path_at(
    alloc: Global,
    text: &mut Vec<u8>,
    k: &Kernel,
    p: u32,
) -> Result<(), AllocError>
    ensures { OnOk result (text.new.items ≡ text.old.items ++ path_at k.now p) }
{
    match k.schedule.table.get(p) {
        Some(x) => push_kept(alloc, text, k, &x.body.body),
        None => Ok(()),
    }
}
