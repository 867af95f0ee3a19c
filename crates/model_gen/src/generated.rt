ghost use Rattle.std.specs.Prelude.{◌≡◌, ◌≤◌, ◌++◌, OnOk, IfOk};
ghost use Rattle.std.specs.Fmt.{decimal};
ghost use Rattle.model_gen.specs.Generated as spec;

use super::modules::{consumer, first_lines, producer, stage};
use logic_values::Text;
use std::alloc::{AllocError, Global};

/// Adds a number between two pieces.
fn push_numbered(
    alloc: Global,
    text: &mut Vec<u8>,
    before: &[u8],
    number: u32,
    behind: &[u8],
) -> Result<(), AllocError>
    ensures { OnOk result (text.new.items ≡ text.old.items ++ (before.now ++ decimal number ++ behind.now)) }
{
    let digits = format!(in alloc; "{number}")?;
    text.extend_from_slice(before)?;
    text.extend_from_slice(digits.as_bytes())?;
    text.extend_from_slice(behind)
}

/// Adds the line of a fifo.
fn push_fifo(alloc: Global, text: &mut Vec<u8>, number: u32) -> Result<(), AllocError>
    ensures { OnOk result (text.new.items ≡ text.old.items ++ spec.fifo_line number) }
{
    push_numbered(alloc, text, b"  fifo uint<32> f", number, b" size 4;\n")
}

/// Adds the line of the instance of a stage.
fn push_instance(alloc: Global, text: &mut Vec<u8>, number: u32) -> Result<(), AllocError>
    ensures { OnOk result (text.new.items ≡ text.old.items ++ spec.instance_line number) }
{
    push_numbered(alloc, text, b"  inst S s", number, b";\n")
}

/// Adds the line that binds a port of a stage to a fifo.
fn push_bind(
    alloc: Global,
    text: &mut Vec<u8>,
    stage: u32,
    port: &[u8],
    fifo: u32,
) -> Result<(), AllocError>
    ensures { OnOk result (text.new.items ≡ text.old.items ++ spec.bind_line stage port.now fifo) }
{
    push_numbered(alloc, text, b"  bind s", stage, b".")?;
    text.extend_from_slice(port)?;
    push_numbered(alloc, text, b" to f", fifo, b";\n")
}

/// Adds the lines of a stage: its fifo, its instance, and what its two ports are bound to.
#[tactic(auto, unfolding(crate::specs::Generated::stage_lines))]
fn push_stage(alloc: Global, text: &mut Vec<u8>, number: u32) -> Result<(), AllocError>
    requires { 1 ≤ number }
    ensures { OnOk result (text.new.items ≡ text.old.items ++ spec.stage_lines number) }
{
    push_fifo(alloc, text, number)?;
    push_instance(alloc, text, number)?;
    push_bind(alloc, text, number, b"a", number - 1)?;
    push_bind(alloc, text, number, b"b", number)
}

/// Adds the lines of all stages, in order.
fn push_stages(alloc: Global, text: &mut Vec<u8>, size: u32) -> Result<(), AllocError>
    ensures { OnOk result (text.new.items ≡ text.old.items ++ spec.stages size) }
{
    for made in 0..size {
        push_stage(alloc, text, made + 1)?;
    }
    Ok(())
}

/// Adds the last lines: the consumer, bound to the last fifo, and which module is the top.
fn push_last_lines(alloc: Global, text: &mut Vec<u8>, size: u32) -> Result<(), AllocError>
    ensures { OnOk result (text.new.items ≡ text.old.items ++ spec.last_lines size) }
{
    push_numbered(
        alloc,
        text,
        b"  inst C c;\n  bind c.a to f",
        size,
        b";\n}\ntop G g;\n",
    )
}

/// The text of the model of this size, laid out as a printed model is.
///
/// # Errors
/// Memory was refused.
pub fn generate(alloc: Global, size: u32) -> Result<Text, AllocError>
    ensures { IfOk result (λ text. text ≡ spec.generated size) }
{
    let mut text = Vec::new(alloc);
    text.extend_from_slice(producer())?;
    text.extend_from_slice(stage())?;
    text.extend_from_slice(consumer())?;
    text.extend_from_slice(first_lines())?;
    push_stages(alloc, &mut text, size)?;
    push_last_lines(alloc, &mut text, size)?;
    Ok(Text::from_vec(text))
}
