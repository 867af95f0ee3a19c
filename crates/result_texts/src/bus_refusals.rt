//! The line of a refusal.
ghost use Rattle.std.specs.Prelude.{◌≡◌, ◌++◌, IfOk, OnOk, codes};
ghost use Rattle.std.specs.Fmt.{decimal};
ghost use Rattle.result_texts.specs.Refusals as spec;

use crate::bus_lines::push_number;
use bus_router::traffic_file_api::{BusKind, BusStop};
use std::alloc::{AllocError, Global};

fn kind_word(kind: BusKind) -> &'static [u8]
    ensures { result.now ≡ spec.kind_word kind }
{
    match kind {
        BusKind::DoubleName => b"DoubleName",
        BusKind::UnknownName => b"UnknownName",
        BusKind::TooMany => b"TooMany",
        BusKind::Overlap => b"Overlap",
    }
}

/// Adds `bus ` and the number of a line.
fn push_place(alloc: Global, text: &mut Vec<u8>, line: u32) -> Result<(), AllocError>
    ensures { OnOk result (text.new.items ≡ text.old.items ++ codes "bus " ++ decimal line) }
{
    text.extend_from_slice(b"bus ")?;
    push_number(alloc, text, u64::from(line))
}

/// The line that says why a traffic file is refused: `bus LINE Syntax` or `bus LINE KIND NAME`; of want of memory `no memory`.
pub fn bus_refusal_line(alloc: Global, stop: &BusStop) -> Result<Vec<u8>, AllocError>
    ensures { IfOk result (λ text. text.items ≡ spec.refusal_line stop.now) }
{
    let mut text = Vec::new(alloc);
    match stop {
        BusStop::Syntax { line } => {
            push_place(alloc, &mut text, *line)?;
            text.extend_from_slice(b" Syntax\n")?;
        }
        BusStop::Refused { kind, line, name } => {
            push_place(alloc, &mut text, *line)?;
            text.extend_from_slice(b" ")?;
            text.extend_from_slice(kind_word(*kind))?;
            text.extend_from_slice(b" ")?;
            text.extend_from_slice(name.as_slice())?;
            text.extend_from_slice(b"\n")?;
        }
        BusStop::NoMemory => text.extend_from_slice(b"no memory\n")?,
    }
    Ok(text)
}
