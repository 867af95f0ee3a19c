//! What follows the lines of a run once the session has ended.
ghost use Rattle.std.specs.Prelude.{◌≡◌, ◌++◌, OnOk, IfOk};
ghost use Rattle.kernel_state.specs.SimModel.Configuration.{Config};
ghost use Rattle.kernel_state.specs.SimModel.Texts as spec;
ghost use Rattle.kernel_state.specs.Kernel.{StandsFor};
ghost use Rattle.report_texts.specs.ReportViews.{final_of, finals_of, closing_of};

use crate::faults::push_fault;
use crate::pieces::{push_number, push_value, push_word_and_number};
use crate::shows::{push_object, value_of};
use flat_design::{Design, Visible};
use kernel_state::Kernel;
use kernel_state::sim_model_api::Stop;
use std::alloc::{AllocError, Global};

fn push_final(
    alloc: Global,
    text: &mut Vec<u8>,
    k: &Kernel,
    visible: Visible,
) -> Result<(), AllocError>
    ensures { OnOk result (text.new.items ≡ text.old.items ++ final_of k.now visible) }
{
    text.extend_from_slice(b"final ")?;
    push_object(alloc, text, k, visible.object)?;
    text.extend_from_slice(b" ")?;
    push_value(alloc, text, value_of(k, visible.id))?;
    text.extend_from_slice(b"\n")
}

fn push_finals(
    alloc: Global,
    text: &mut Vec<u8>,
    k: &Kernel,
    visible: &[Visible],
) -> Result<(), AllocError>
    ensures { OnOk result (text.new.items ≡ text.old.items ++ finals_of k.now visible.now) }
{
    for object in visible {
        push_final(alloc, text, k, *object)?;
    }
    Ok(())
}

fn push_end(
    alloc: Global,
    text: &mut Vec<u8>,
    design: &Design,
    now: u64,
    stop: Stop,
) -> Result<(), AllocError>
    ensures { OnOk result (text.new.items ≡ text.old.items ++ spec.end_line design.now now stop) }
{
    match stop {
        Stop::Done => text.extend_from_slice(b"end done ")?,
        Stop::Stopped => text.extend_from_slice(b"end stopped ")?,
        Stop::Budget => text.extend_from_slice(b"end budget ")?,
        Stop::Replay { place: _ } => text.extend_from_slice(b"end replay ")?,
        Stop::Fault(_) => text.extend_from_slice(b"end fault ")?,
        Stop::WriteFault | Stop::NoMemory => return Ok(()),
    }
    push_number(text, now)?;
    match stop {
        Stop::Replay { place } => push_word_and_number(text, b"", place)?,
        Stop::Fault(fault) => {
            text.extend_from_slice(b" ")?;
            push_fault(alloc, text, design, fault)?;
        }
        _ => {}
    }
    text.extend_from_slice(b"\n")
}

/// What follows, in terms of the kernel.
fn closing_of(alloc: Global, k: &Kernel, stop: Stop) -> Result<Vec<u8>, AllocError>
    ensures { IfOk result (λ text. text.items ≡ closing_of k.now stop) }
{
    let mut text = Vec::new(alloc);
    push_finals(alloc, &mut text, k, k.design.visible.as_slice())?;
    push_end(alloc, &mut text, &k.design, k.cycle.now.0, stop)?;
    Ok(text)
}

/// What follows the lines of the run once the session has ended: a final line for each object that has values to be seen, in
/// object order, with its path and its value, and the end line, which says how the session ended and at which simulated
/// time. A session that was cut has no end line.
///
/// # Errors
/// Memory was refused.
pub fn closing(alloc: Global, k: &Kernel, stop: Stop) -> Result<Vec<u8>, AllocError>
    ensures { IfOk result (λ text. (c : Config) → StandsFor k.now c → text.items ≡ spec.closing c stop) }
{
    closing_of(alloc, k, stop)
}
