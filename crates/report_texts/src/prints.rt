//! The lines of prints and of takings.
ghost use Rattle.std.specs.Prelude.{◌≡◌, ◌≤◌, ◌++◌, ℕ, List, Option, Some, IfSome, OnOk, IfOk, length, drop};
ghost use Rattle.flat_design.specs.Code as code;
ghost use Rattle.flat_design.specs.Code.{Term, arena_of, statement_at, statement_of};
ghost use Rattle.kernel_state.specs.SimModel.Steps as step;
ghost use Rattle.kernel_state.specs.SimModel.Storing.{print_line};
ghost use Rattle.report_texts.specs.Instances.{path_at, end_of_print, IsPrintLine, IsTurnLine};

use crate::instances::push_path_at;
use crate::pieces::{push_byte, push_number, push_value};
use crate::rows::row_of_print;
use flat_design::{Line, Statement, StmtId};
use kernel_state::Kernel;
use kernel_state::logic_values_api::Value;
use std::alloc::{AllocError, Global};

/// So many bytes have room in a line from the first: the line of most prints and takings.
const USUAL: usize = 64;

/// The text of a statement that is a print.
fn print_text(statement: &Statement) -> &[u8]
    ensures { (text : List ℕ) (shown : Option Term) → statement_of statement.now ≡ code.print text shown → result.now ≡ text }
{
    match statement {
        Statement::Print(text, _) => text.bytes(),
        _ => &[],
    }
}

/// The text of the statement of this number, where it is a print.
fn text_at<'a>(k: &'a Kernel, s: StmtId) -> &'a [u8]
    ensures { (text : List ℕ) (shown : Option Term) → statement_at (arena_of k.now.program.now.code) s ≡ Some (code.print text shown) → result.now ≡ text }
{
    match k.program.statement(s) {
        Some(statement) => print_text(statement),
        None => &[],
    }
}

/// Adds a value, where there is one, and the end of the line.
fn push_end_of_print(
    alloc: Global,
    line: &mut Vec<u8>,
    value: Option<Value>,
) -> Result<(), AllocError>
    ensures { OnOk result (line.new.items ≡ line.old.items ++ end_of_print value) }
{
    match value {
        Some(value) => {
            push_byte(line, b' ')?;
            push_value(alloc, line, value)?;
            push_byte(line, b'\n')
        }
        None => push_byte(line, b'\n'),
    }
}

/// Adds the line of a print of this text piece by piece, in terms of the kernel.
#[cold]
#[inline(never)]
fn push_print(
    alloc: Global,
    line: &mut Vec<u8>,
    k: &Kernel,
    p: u32,
    text: &[u8],
    value: Option<Value>,
) -> Result<(), AllocError>
    ensures { OnOk result (line.new.items ≡ line.old.items ++ print_line k.now.cycle.now.0 (path_at k.now p) text.now value) }
{
    push_number(line, k.cycle.now.0)?;
    push_byte(line, b' ')?;
    push_path_at(alloc, line, k, p)?;
    push_byte(line, b' ')?;
    line.extend_from_slice(text)?;
    push_end_of_print(alloc, line, value)
}

/// The line of a taking, in terms of the kernel.
fn line_of_turn(alloc: Global, k: &Kernel, p: u32) -> Result<Line, AllocError>
    ensures { IfOk result (λ line. line ≡ step.turn_line k.now.cycle.now.0 (path_at k.now p) p) }
{
    let mut line = Vec::with_capacity(alloc, USUAL)?;
    push_number(&mut line, k.cycle.now.0)?;
    push_byte(&mut line, b' ')?;
    push_path_at(alloc, &mut line, k, p)?;
    line.extend_from_slice(b" turn ")?;
    push_number(&mut line, u64::from(p))?;
    push_byte(&mut line, b'\n')?;
    Ok(Line::from_vec(line))
}

/// Makes of a list the line that a print of an instance adds to the report, where the print is the statement of this number and
/// shows this value: the simulated time in picoseconds, the path of the instance, the text, and the value, where there is one.
/// What the list held goes, and its room is used again.
///
/// # Errors
/// Memory was refused.
pub fn print_in(
    alloc: Global,
    line: &mut Vec<u8>,
    k: &Kernel,
    p: u32,
    s: StmtId,
    value: Option<Value>,
) -> Result<(), AllocError>
    ensures { OnOk result (IsPrintLine k.now p s value line.new.items) }
{
    line.clear();
    push_print(alloc, line, k, p, text_at(k, s), value)
}

/// Writes the line of such a print at the end of a room, and tells where in the room it begins. There is none where the line is
/// longer than the room, or may be, or where the value is no truth value, number or time; then the room holds anything.
#[inline(always)]
pub fn print_within(
    k: &Kernel,
    p: u32,
    s: StmtId,
    value: Option<Value>,
    room: &mut [u8],
) -> Option<usize>
    ensures { IfSome result (λ start. (start ≤ length room.new) × IsPrintLine k.now p s value (drop start room.new)) }
{
    row_of_print(room, k, p, text_at(k, s), value)
}

/// The line of a taking of an instance, which a report that tells the turns gets: the simulated time in picoseconds, the path
/// of the instance, the word `turn` and the serial.
///
/// # Errors
/// Memory was refused.
pub fn turn_text(alloc: Global, k: &Kernel, p: u32) -> Result<Line, AllocError>
    ensures { IfOk result (λ line. IsTurnLine k.now p line) }
{
    line_of_turn(alloc, k, p)
}
