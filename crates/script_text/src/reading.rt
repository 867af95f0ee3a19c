ghost use Rattle.std.specs.Prelude.{◌≡◌, ◌≤◌, [], ◌∷◌, ◌++◌, length, bytes_eq, codes, IfOk, IfErr, OnOk};
ghost use Rattle.text_lines.specs.ModelTree.Stops.{IfSyntax};
ghost use Rattle.text_lines.specs.ModelLexer.Expressions as grammar;
ghost use Rattle.script_text.specs.ScriptText as spec;
ghost use Rattle.text_lines.specs.Lines.{words, line_number};
ghost use Rattle.script_text.specs.ScriptText.{read_script};
ghost use Rattle.script_text.specs.Progress.{GoesOn, StopsAt};

use super::forms::{CommandForm, LineForm, TextCommand};
use sim_model::logic_values_api::{Items, Text};
use sim_model::sim_time_api::Unit;
use std::alloc::{AllocError, Global};
use text_lines::model_tree_api::ParseStop;
use text_lines::{cut, is_comment, line_number, next_word, number_read, without_return};

/// The greatest number of commands of a script.
pub const COMMAND_LIMIT: usize = 4096;

/// The commands of a text in order. Contracts see the list of them.
pub type Commands = Items<TextCommand>;

fn text_of(alloc: Global, bytes: &[u8]) -> Result<Text, AllocError>
    ensures { IfOk result (λ text. text ≡ bytes.now) }
{
    Ok(Text::from_vec(Vec::from_slice(alloc, bytes)?))
}

fn run_form(word: &[u8]) -> LineForm
    ensures { result ≡ spec.words_form (word.now ∷ []) }
{
    if word == b"run".as_slice() {
        LineForm::Command(CommandForm::Run(None))
    } else {
        LineForm::Unreadable
    }
}

fn show_form(alloc: Global, word: &[u8], path: &[u8]) -> Result<LineForm, AllocError>
    ensures { IfOk result (λ form. form ≡ spec.words_form (word.now ∷ path.now ∷ [])) }
{
    if word == b"show".as_slice() {
        let path = text_of(alloc, path)?;
        Ok(LineForm::Command(CommandForm::Show { path }))
    } else {
        Ok(LineForm::Unreadable)
    }
}

fn set_form(alloc: Global, word: &[u8], path: &[u8], value: &[u8]) -> Result<LineForm, AllocError>
    ensures { IfOk result (λ form. form ≡ spec.command_if (bytes_eq word.now (codes "set")) (CommandForm.Set path.now value.now)) }
{
    if word == b"set".as_slice() {
        let path = text_of(alloc, path)?;
        let value = text_of(alloc, value)?;
        Ok(LineForm::Command(CommandForm::Set { path, value }))
    } else {
        Ok(LineForm::Unreadable)
    }
}

/// The unit that these bytes name, if they name one.
fn unit_of(bytes: &[u8]) -> Option<Unit>
    ensures { result ≡ grammar.unit_of bytes.now }
{
    if bytes == b"ps".as_slice() {
        return Some(Unit::Ps);
    }
    if bytes == b"ns".as_slice() {
        return Some(Unit::Ns);
    }
    if bytes == b"us".as_slice() {
        return Some(Unit::Us);
    }
    if bytes == b"ms".as_slice() {
        return Some(Unit::Ms);
    }
    if bytes == b"s".as_slice() {
        return Some(Unit::S);
    }
    None
}

/// The unit that these bytes name in a script: a femtosecond too, in either language.
fn script_unit(bytes: &[u8]) -> Option<Unit>
    ensures { result ≡ spec.script_unit bytes.now }
{
    if bytes == b"fs".as_slice() {
        Some(Unit::Fs)
    } else {
        unit_of(bytes)
    }
}

/// A number from 1 up.
fn positive(number: u64) -> Option<u64>
    ensures { result ≡ spec.positive number }
{
    if number > 0 { Some(number) } else { None }
}

/// The number and the unit that a run is written with: a number from 1 up.
fn length_read(number: &[u8], unit: &[u8]) -> Option<(u64, Unit)>
    ensures { result ≡ spec.length_read number.now unit.now }
{
    let number = number_read(number)?;
    let number = positive(number)?;
    let unit = script_unit(unit)?;
    Some((number, unit))
}

fn run_for(length: Option<(u64, Unit)>) -> LineForm
    ensures { result ≡ spec.run_for length }
{
    match length {
        Some(length) => LineForm::Command(CommandForm::Run(Some(length))),
        None => LineForm::Unreadable,
    }
}

fn three_words(
    alloc: Global,
    word: &[u8],
    second: &[u8],
    third: &[u8],
) -> Result<LineForm, AllocError>
    ensures { IfOk result (λ form. form ≡ spec.words_form (word.now ∷ second.now ∷ third.now ∷ [])) }
{
    if word == b"run".as_slice() {
        Ok(run_for(length_read(second, third)))
    } else {
        set_form(alloc, word, second, third)
    }
}

fn words_form(alloc: Global, line: &[u8]) -> Result<LineForm, AllocError>
    ensures { IfOk result (λ form. form ≡ spec.words_form (words line.now)) }
{
    let Some((word, rest)) = next_word(Some(line)) else {
        return Ok(LineForm::Blank);
    };
    let Some((second, rest)) = next_word(rest) else {
        return Ok(run_form(word));
    };
    let Some((third, rest)) = next_word(rest) else {
        return show_form(alloc, word, second);
    };
    if next_word(rest).is_some() {
        return Ok(LineForm::Unreadable);
    }
    three_words(alloc, word, second, third)
}

fn line_form(alloc: Global, line: &[u8]) -> Result<LineForm, AllocError>
    ensures { IfOk result (λ form. form ≡ spec.line_form line.now) }
{
    if is_comment(line) {
        return Ok(LineForm::Blank);
    }
    words_form(alloc, line)
}

/// Adds a command to those before it, where one more may stand.
fn add(list: &mut Commands, number: u64, form: CommandForm) -> Result<(), ParseStop>
    requires { length list.old ≤ COMMAND_LIMIT }
    ensures within { OnOk result (length list.new ≤ COMMAND_LIMIT) }
    ensures ok { OnOk result (list.new ≡ list.old ++ (record { line = line_number number; form = form }) ∷ []) }
    ensures syntax { IfErr result (λ stop. IfSyntax stop (λ line. (length list.old ≡ COMMAND_LIMIT) × (line ≡ line_number number))) }
{
    let line = line_number(number);
    if list.as_slice().len() == COMMAND_LIMIT {
        return Err(ParseStop::Syntax { line });
    }
    match list.push(TextCommand { line, form }) {
        Ok(()) => Ok(()),
        Err(_) => Err(ParseStop::NoMemory),
    }
}

/// Adds what a line says to the commands before it.
fn read_line(alloc: Global, list: &mut Commands, number: u64, line: &[u8]) -> Result<(), ParseStop>
    requires { length list.old ≤ COMMAND_LIMIT }
    ensures within { OnOk result (length list.new ≤ COMMAND_LIMIT) }
    ensures ok { OnOk result (GoesOn list.old number line.now list.new) }
    ensures syntax { IfErr result (λ stop. IfSyntax stop (StopsAt list.old number line.now)) }
{
    match line_form(alloc, line) {
        Err(_) => Err(ParseStop::NoMemory),
        Ok(LineForm::Blank) => Ok(()),
        Ok(LineForm::Unreadable) => Err(ParseStop::Syntax {
            line: line_number(number),
        }),
        Ok(LineForm::Command(form)) => add(list, number, form),
    }
}

/// The commands of a script text, each with its line.
///
/// A line is empty, a comment that begins with `#`, or a command: `run`, `run NUM UNIT`,
/// `set PATH VALUE` or `show PATH`, its words separated by spaces. NUM is a number as in a model, in
/// decimal or in hexadecimal behind `0x`, from 1 to 2^64 - 1, and UNIT is fs, ps, ns, us, ms or s. A byte
/// 13 at the end of a line is ignored, and the last line may lack its end. Syntax has the first line that
/// is none of these, or that holds command 4,097.
pub fn commands(alloc: Global, text: &[u8]) -> Result<Commands, ParseStop>
    ensures read { IfOk result (λ list. read_script text.now ≡ Ok list) }
    ensures syntax { IfErr result (λ stop. IfSyntax stop (λ line. read_script text.now ≡ Err line)) }
{
    let mut list = Items::new(alloc);
    let mut number = 1;
    let mut rest = Some(text);
    'lines: while let Some(bytes) = rest {
        let (line, behind) = cut(bytes, b'\n');
        match read_line(alloc, &mut list, number, without_return(line)) {
            Ok(()) => {}
            Err(stop) => return Err(stop),
        }
        number += 1;
        rest = behind;
    }
    Ok(list)
}
