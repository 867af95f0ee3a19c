ghost use Rattle.std.specs.Prelude.{◌≡◌, ◌<◌, [], ◌∷◌, ◌++◌, length, Ok, Err, OnOk, IfOk, IfErr, IfSome};
ghost use Rattle.text_lines.specs.ModelTree.Stops.{IfSyntax};
ghost use Rattle.script_text.specs.ChoiceList as spec;
ghost use Rattle.script_text.specs.ChoiceList.{read_choices};
ghost use Rattle.script_text.specs.ChoiceProgress.{list_lines_left, SerialGoesOn, SerialStopsAt};

use sim_model::flat_design_api::Choices;
use sim_model::logic_values_api::Items;
use std::alloc::Global;
use text_lines::model_tree_api::ParseStop;
use text_lines::{cut, decimal_read, line_number, without_return};

fn serial_read(line: &[u8]) -> Option<u32>
    ensures { result ≡ spec.serial_read line.now }
{
    let number = decimal_read(line)?;
    match u32::try_from(number) {
        Ok(serial) => Some(serial),
        Err(_) => None,
    }
}

/// The first line of a text that is not empty, and what is behind it.
fn next_line(bytes: &[u8]) -> (&[u8], Option<&[u8]>)
    requires { 0 < length bytes.now }
    ensures shorter { IfSome result.1 (λ rest. length rest.now < length bytes.now) }
    ensures lines { spec.list_lines bytes.now ≡ result.0.now ∷ list_lines_left result.1 }
{
    let (line, behind) = cut(bytes, b'\n');
    (without_return(line), behind)
}

/// Adds a serial to those before it.
fn add_serial(list: &mut Choices, serial: u32) -> Result<(), ParseStop>
    ensures ok { OnOk result (list.new ≡ list.old ++ serial ∷ []) }
    ensures syntax { IfErr result (λ stop. IfSyntax stop (λ line. ⊥)) }
{
    match list.push(serial) {
        Ok(()) => Ok(()),
        Err(_) => Err(ParseStop::NoMemory),
    }
}

/// Adds the serial of a line to those before it.
fn read_serial(list: &mut Choices, number: u64, line: &[u8]) -> Result<(), ParseStop>
    ensures ok { OnOk result (SerialGoesOn list.old number line.now list.new) }
    ensures syntax { IfErr result (λ stop. IfSyntax stop (SerialStopsAt list.old number line.now)) }
{
    match serial_read(line) {
        None => Err(ParseStop::Syntax {
            line: line_number(number),
        }),
        Some(serial) => add_serial(list, serial),
    }
}

/// The choices of a text: one serial a line, in decimal and below 2^32.
///
/// A byte 13 at the end of a line is ignored, the last line may lack its end, and an empty text is the
/// empty list. Syntax has the first line that is no serial.
pub fn choice_list(alloc: Global, text: &[u8]) -> Result<Choices, ParseStop>
    ensures read { IfOk result (λ list. read_choices text.now ≡ Ok list) }
    ensures syntax { IfErr result (λ stop. IfSyntax stop (λ line. read_choices text.now ≡ Err line)) }
{
    let mut list = Items::new(alloc);
    let mut number = 1;
    let mut rest = Some(text);
    'lines: while let Some(bytes) = rest {
        if bytes.is_empty() {
            return Ok(list);
        }
        let (line, behind) = next_line(bytes);
        match read_serial(&mut list, number, line) {
            Ok(()) => {}
            Err(stop) => return Err(stop),
        }
        number += 1;
        rest = behind;
    }
    Ok(list)
}
