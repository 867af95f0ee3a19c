//! The line of a show.
ghost use Rattle.std.specs.Prelude.{◌≡◌, ◌++◌, OnOk, IfOk, slice_get};
ghost use Rattle.kernel_state.specs.SimModel.Configuration.{Config, path_of};
ghost use Rattle.kernel_state.specs.SimModel.Steps as step;
ghost use Rattle.kernel_state.specs.Kernel.{StandsFor};
ghost use Rattle.report_texts.specs.ReportViews.{with_line, value_in, line_for};

use crate::paths::push_path;
use crate::pieces::{push_number, push_value};
use flat_design::{Line, Visible, VisibleId};
use kernel_state::Kernel;
use kernel_state::logic_values_api::Value;
use std::alloc::{AllocError, Global};

/// The value of an object that has values to be seen.
pub(crate) fn value_of(k: &Kernel, id: VisibleId) -> Value
    ensures { result ≡ value_in k.now.channels id }
{
    match id {
        VisibleId::Signal(n) => k.channels.signal(n),
        VisibleId::Resolved(n) => k.channels.resolved(n),
    }
}

/// Adds the path of an object of the design.
pub(crate) fn push_object(
    alloc: Global,
    text: &mut Vec<u8>,
    k: &Kernel,
    number: u32,
) -> Result<(), AllocError>
    ensures { OnOk result (text.new.items ≡ text.old.items ++ path_of k.now.design number) }
{
    push_path(alloc, text, k.design.objects.list.as_slice(), number)
}

fn push_show(
    alloc: Global,
    text: &mut Vec<u8>,
    k: &Kernel,
    visible: Visible,
) -> Result<(), AllocError>
    ensures { OnOk result (text.new.items ≡ text.old.items ++ step.show_line k.now.cycle.now.0 (path_of k.now.design visible.object) (value_in k.now.channels visible.id)) }
{
    push_number(text, k.cycle.now.0)?;
    text.extend_from_slice(b" script ")?;
    push_object(alloc, text, k, visible.object)?;
    text.extend_from_slice(b" ")?;
    push_value(alloc, text, value_of(k, visible.id))?;
    text.extend_from_slice(b"\n")
}

/// The line of a show of the object of this number, in terms of the kernel.
fn line_at(alloc: Global, k: &Kernel, number: u32) -> Result<Option<Line>, AllocError>
    ensures { IfOk result (λ shown. shown ≡ line_for k.now (slice_get k.now.design.visible number)) }
{
    match k.design.visible.as_slice().get(number as usize) {
        Some(visible) => {
            let mut text = Vec::new(alloc);
            push_show(alloc, &mut text, k, *visible)?;
            Ok(Some(Line::from_vec(text)))
        }
        None => Ok(None),
    }
}

/// The line that a show of an object that has values to be seen adds to the report, by the object's number among these in
/// object order: the simulated time, the word `script`, its path and its value. There is none where no such object is there.
///
/// # Errors
/// Memory was refused.
pub fn show(alloc: Global, k: &Kernel, number: u32) -> Result<Option<Line>, AllocError>
    ensures { IfOk result (λ shown. (c : Config) → StandsFor k.now c → step.shows c (slice_get c.design.visible number) ≡ with_line c shown) }
{
    line_at(alloc, k, number)
}
