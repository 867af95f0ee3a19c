//! The text of a run fault.
ghost use Rattle.std.specs.Prelude.{◌≡◌, ◌++◌, OnOk, codes};
ghost use Rattle.kernel_state.specs.SimModel.Configuration.{path_of};
ghost use Rattle.kernel_state.specs.SimModel.Texts as spec;

use crate::paths::push_path;
use crate::pieces::{push_bytes, push_number, push_word_and_number, push_word_and_numbers};
use flat_design::{Design, RunFault};
use std::alloc::{AllocError, Global};

/// Adds the name of an exception.
fn push_exception(text: &mut Vec<u8>, design: &Design, name: u32) -> Result<(), AllocError>
    ensures { OnOk result (text.new.items ≡ text.old.items ++ spec.exception_name design.now name) }
{
    match design.exceptions.as_slice().get(name as usize) {
        Some(name) => push_bytes(text, name.as_slice()),
        None => Ok(()),
    }
}

/// Adds the path of the initiator of a hop.
fn push_hop(alloc: Global, text: &mut Vec<u8>, design: &Design, hop: u32) -> Result<(), AllocError>
    ensures { OnOk result (text.new.items ≡ text.old.items ++ spec.hop_path design.now hop) }
{
    match design.hops.as_slice().get(hop as usize) {
        Some(hop) => push_path(alloc, text, design.objects.list.as_slice(), hop.initiator),
        None => Ok(()),
    }
}

fn push_conflict(text: &mut Vec<u8>, first: u32, second: u32) -> Result<(), AllocError>
    ensures { OnOk result (text.new.items ≡ text.old.items ++ spec.with_number (spec.with_number (codes "WriterConflict") first) second) }
{
    push_word_and_number(text, b"WriterConflict", u64::from(first))?;
    push_word_and_number(text, b"", u64::from(second))
}

fn push_uncaught(text: &mut Vec<u8>, design: &Design, name: u32) -> Result<(), AllocError>
    ensures { OnOk result (text.new.items ≡ text.old.items ++ spec.fault_text design.now (RunFault.Uncaught name)) }
{
    text.extend_from_slice(b"Uncaught ")?;
    push_exception(text, design, name)
}

fn push_protocol(
    alloc: Global,
    text: &mut Vec<u8>,
    design: &Design,
    rule: u8,
    hop: u32,
    serial: u32,
) -> Result<(), AllocError>
    ensures { OnOk result (text.new.items ≡ text.old.items ++ spec.fault_text design.now (RunFault.Protocol rule hop serial)) }
{
    text.extend_from_slice(b"Protocol P")?;
    push_number(text, u64::from(rule))?;
    text.extend_from_slice(b" ")?;
    push_hop(alloc, text, design, hop)?;
    push_word_and_number(text, b"", u64::from(serial))
}

/// Adds a run fault and its fields.
pub(crate) fn push_fault(
    alloc: Global,
    text: &mut Vec<u8>,
    design: &Design,
    fault: RunFault,
) -> Result<(), AllocError>
    ensures { OnOk result (text.new.items ≡ text.old.items ++ spec.fault_text design.now fault) }
{
    match fault {
        RunFault::WriterConflict { first, second } => push_conflict(text, first, second),
        RunFault::DivideByZero => push_bytes(text, b"DivideByZero"),
        RunFault::IndexRange { index, size } => {
            push_word_and_numbers(text, b"IndexRange", index, size)
        }
        RunFault::TimeOverflow => push_bytes(text, b"TimeOverflow"),
        RunFault::Uncaught { name } => push_uncaught(text, design, name),
        RunFault::ControlOnActive { serial } => {
            push_word_and_number(text, b"ControlOnActive", u64::from(serial))
        }
        RunFault::EmptyHandle => push_bytes(text, b"EmptyHandle"),
        RunFault::PayloadFreed { serial } => {
            push_word_and_number(text, b"PayloadFreed", u64::from(serial))
        }
        RunFault::TooManyPayloads => push_bytes(text, b"TooManyPayloads"),
        RunFault::TooManyInstances => push_bytes(text, b"TooManyInstances"),
        RunFault::FrameDepth => push_bytes(text, b"FrameDepth"),
        RunFault::Protocol { rule, hop, serial } => {
            push_protocol(alloc, text, design, rule, hop, serial)
        }
    }
}
