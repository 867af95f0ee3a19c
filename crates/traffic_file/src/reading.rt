//! The bus of a text.
ghost use Rattle.std.specs.Prelude.{◌≡◌, IfOk, IfErr, IsOkUnless};
ghost use Rattle.text_lines.specs.Lines.{lines};
ghost use Rattle.text_lines.specs.LineForms.{line_form};
ghost use Rattle.traffic_file.specs.BusText as spec;
ghost use Rattle.traffic_file.specs.BusText.{bus_of};
ghost use Rattle.traffic_file.specs.Traffic.{CanRun};
ghost use Rattle.traffic_file.specs.Stops.{IfSyntax, IfRefused, IsJudgedAs, IsRefusedSo};

use super::Bus;
use super::judging::{SoFar, first_so_far, judge};
use super::stops::BusStop;
use std::alloc::{AllocError, Global};
use text_lines::{LineForm, cut, line_form, line_number, without_return};

fn is_unreadable(alloc: Global, line: &[u8]) -> Result<bool, AllocError>
    ensures { IfOk result (λ is. is ≡ spec.is_unreadable (line_form line.now)) }
{
    let form = line_form(alloc, line)?;
    Ok(matches!(form, LineForm::Unreadable))
}

/// The first line that has none of the forms.
fn first_unreadable(alloc: Global, text: &[u8]) -> Result<Option<u32>, AllocError>
    ensures { IfOk result (λ line. line ≡ spec.unreadable_from 1 (lines text.now)) }
{
    let mut number = 1;
    let mut rest = Some(text);
    'lines: while let Some(bytes) = rest {
        let (line, behind) = cut(bytes, b'\n');
        if is_unreadable(alloc, without_return(line))? {
            return Ok(Some(line_number(number)));
        }
        number += 1;
        rest = behind;
    }
    Ok(None)
}

/// What lines say with one line more, or the fault of that line.
fn judge_line(alloc: Global, so_far: SoFar, number: u64, line: &[u8]) -> Result<SoFar, BusStop>
    ensures { IsJudgedAs result (spec.judged so_far number (line_form line.now)) }
{
    match line_form(alloc, line) {
        Ok(form) => judge(alloc, so_far, number, form),
        Err(_) => Err(BusStop::NoMemory),
    }
}

/// What all lines of a text say, or the first fault.
fn judge_lines(alloc: Global, text: &[u8]) -> Result<SoFar, BusStop>
    ensures { IsJudgedAs result (spec.judged_from spec.first_so_far 1 (lines text.now)) }
{
    let mut so_far = first_so_far(alloc);
    let mut number = 1;
    let mut rest = Some(text);
    'lines: while let Some(bytes) = rest {
        let (line, behind) = cut(bytes, b'\n');
        match judge_line(alloc, so_far, number, without_return(line)) {
            Ok(next) => so_far = next,
            Err(stop) => return Err(stop),
        }
        number += 1;
        rest = behind;
    }
    Ok(so_far)
}

fn bus_read(alloc: Global, text: &[u8]) -> Result<Bus, BusStop>
    ensures { IsJudgedAs result (bus_of text.now) }
{
    match first_unreadable(alloc, text) {
        Err(_) => return Err(BusStop::NoMemory),
        Ok(Some(line)) => return Err(BusStop::Syntax { line }),
        Ok(None) => {}
    }
    match judge_lines(alloc, text) {
        Ok(so_far) => Ok(so_far.bus),
        Err(stop) => Err(stop),
    }
}

/// The bus of a text.
///
/// A line is empty, a comment that begins with `#`, or one of `delay D`, `target NAME LOW SIZE LATENCY`,
/// `initiator NAME`, `initiator NAME dmi`, `at TIME INITIATOR read ADDRESS LENGTH`,
/// `at TIME INITIATOR write ADDRESS HEX` and `invalidate TIME LOW HIGH`, its words separated by spaces. Numbers
/// are those of a model, in decimal or in hexadecimal behind `0x`; names may be its reserved words. Times are below
/// 2^40, the delay is from 1 up, SIZE from 1 up, LENGTH from 1 to 4,096, HEX two digits for each of 1 to 4,096
/// bytes, and LOW of an invalidation at most HIGH. The delay is 1 where no line has it.
///
/// Syntax has the first line of all that is none of these. Where there is none, Refused has the first line with a
/// fault, and the first of its faults: DoubleName, of a target or an initiator that has the name of an earlier
/// one, or of a second delay (its name is `delay`); UnknownName, of an access whose initiator no earlier line has;
/// TooMany, of target or initiator 257, of access or invalidation 4,097 (these are counted together; the name is that of the
/// initiator, or `invalidate`), of a target that passes the last of the 2^64 addresses, or with which targets
/// have more than 67,108,864 bytes; Overlap, of a target that shares an address with an earlier one.
pub fn read_bus(alloc: Global, text: &[u8]) -> Result<Bus, BusStop>
    ensures read { IfOk result (λ bus. bus_of text.now ≡ Ok bus) }
    ensures syntax { IfErr result (λ stop. IfSyntax stop (λ line. bus_of text.now ≡ Err (BusStop.Syntax line))) }
    ensures refused { IfErr result (λ stop. IfRefused stop (λ kind line name. bus_of text.now ≡ Err (BusStop.Refused kind line name))) }
    ensures accepted { IfOk (bus_of text.now) (λ bus. IsOkUnless result BusStop.NoMemory) }
    ensures comes { IfErr (bus_of text.now) (IsRefusedSo result) }
    ensures runs { IfOk result CanRun }
{
    bus_read(alloc, text)
}
