ghost use Rattle.std.specs.Prelude.{◌≡◌, ◌++◌, IfOk, codes};
ghost use Rattle.result_texts.specs.ErrLines as spec;

use super::kinds::kind_word;
use super::refusals::{ModelFault, Refusal, ScriptFault};
use bus_router::traffic_file_api::BusStop;
use model_tree::logic_values_api::Text;
use std::alloc::{AllocError, Global};

/// A line on a text that does not read.
fn syntax_line(alloc: Global, source: &str, line: u32) -> Result<Text, AllocError>
    ensures { IfOk result (λ text. text ≡ spec.syntax_line source.now line) }
{
    let text = format!(in alloc; "{source} {line} Syntax\n")?;
    Ok(Text::from_vec(text.into_bytes()))
}

/// A line on a text at fault.
fn fault_line(
    alloc: Global,
    source: &str,
    line: u32,
    word: &str,
    name: &[u8],
) -> Result<Text, AllocError>
    ensures { IfOk result (λ text. text ≡ spec.fault_line source.now line word.now name.now) }
{
    let digits = format!(in alloc; "{line}")?;
    let mut text = Vec::new(alloc);
    text.extend_from_slice(source.as_bytes())?;
    text.extend_from_slice(b" ")?;
    text.extend_from_slice(digits.as_bytes())?;
    text.extend_from_slice(b" ")?;
    text.extend_from_slice(word.as_bytes())?;
    text.extend_from_slice(b" ")?;
    text.extend_from_slice(name)?;
    text.extend_from_slice(b"\n")?;
    Ok(Text::from_vec(text))
}

fn model_line(alloc: Global, fault: &ModelFault) -> Result<Text, AllocError>
    ensures { IfOk result (λ text. text ≡ spec.model_line fault.now) }
{
    match fault {
        ModelFault::Syntax(line) => syntax_line(alloc, "model", *line),
        ModelFault::Rule(fault) => fault_line(
            alloc,
            "model",
            fault.line,
            kind_word(fault.kind),
            fault.name.as_slice(),
        ),
    }
}

fn script_line(alloc: Global, fault: &ScriptFault) -> Result<Text, AllocError>
    ensures { IfOk result (λ text. text ≡ spec.script_line fault.now) }
{
    match fault {
        ScriptFault::Syntax(line) => syntax_line(alloc, "script", *line),
        ScriptFault::Command(fault) => fault_line(
            alloc,
            "script",
            fault.line,
            kind_word(fault.kind),
            fault.name.as_slice(),
        ),
    }
}

/// A line on a file: what happened, and its name.
fn file_line(alloc: Global, cause: &[u8], name: &[u8]) -> Result<Text, AllocError>
    ensures { IfOk result (λ text. text ≡ cause.now ++ name.now ++ codes "\n") }
{
    let mut text = Vec::new(alloc);
    text.extend_from_slice(cause)?;
    text.extend_from_slice(name)?;
    text.extend_from_slice(b"\n")?;
    Ok(Text::from_vec(text))
}

fn bus_line(alloc: Global, stop: &BusStop) -> Result<Text, AllocError>
    ensures { IfOk result (λ text. text ≡ spec.bus_line stop.now) }
{
    let text = crate::bus_refusal_line(alloc, stop)?;
    Ok(Text::from_vec(text))
}

fn usage_line(alloc: Global) -> Result<Text, AllocError>
    ensures { IfOk result (λ text. text ≡ spec.usage_line) }
{
    let text = Vec::from_slice(alloc, b"usage: tlmsim MODEL SCRIPT [options]\n")?;
    Ok(Text::from_vec(text))
}

/// The line of a refusal, with its end. The only error is being out of memory.
pub fn refusal_line(alloc: Global, refusal: &Refusal) -> Result<Text, AllocError>
    ensures { IfOk result (λ text. text ≡ spec.err_line refusal.now) }
{
    match refusal {
        Refusal::Usage => usage_line(alloc),
        Refusal::Read(file) => file_line(alloc, b"read fault ", file.as_slice()),
        Refusal::Model(fault) => model_line(alloc, fault),
        Refusal::Script(fault) => script_line(alloc, fault),
        Refusal::Replay(line) => syntax_line(alloc, "replay", *line),
        Refusal::Bus(stop) => bus_line(alloc, stop),
        Refusal::TooLarge(file) => file_line(alloc, b"too large ", file.as_slice()),
    }
}

/// The line of a run that was cut by a write that failed. It takes no memory.
pub fn write_line() -> &'static [u8]
    ensures { result.now ≡ spec.write_line }
{
    b"write fault\n"
}

/// The line of a run that was cut for want of memory. It takes no memory.
pub fn memory_line() -> &'static [u8]
    ensures { result.now ≡ spec.memory_line }
{
    b"no memory\n"
}
