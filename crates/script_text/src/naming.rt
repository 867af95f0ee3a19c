ghost use Rattle.std.specs.Prelude.{◌≡◌, position, All, IfOk, IfErr};
ghost use Rattle.text_lines.specs.ModelTree.Stops.{IfRefused};
ghost use Rattle.sim_model.specs.SimTime.Times.{ticks_of};
ghost use Rattle.script_text.specs.NamedScript as spec;
ghost use Rattle.script_text.specs.NamedScript.{name_script};
ghost use Rattle.script_text.specs.Fits.{Fits};
ghost use Rattle.script_text.specs.Naming.{IsNamedAs};

use super::forms::{CommandForm, TextCommand};
use super::paths::is_path_of;
use super::reading::Commands;
use super::values::value_read;
use model_tree::sim_time_api::{Resolution, Unit, of_unit};
use sim_model::Command;
use sim_model::flat_design_api::{Design, ObjectForm, ValueType, Visible, VisibleId};
use sim_model::logic_values_api::{Items, Text, Value};
use std::alloc::Global;
use text_lines::model_tree_api::{CheckStop, Fault, Kind};

/// The commands of a script over a design, in order. Contracts see the list of them.
pub type Script = Items<Command>;

fn is_set_by_scripts(form: ObjectForm) -> bool
    ensures { result ≡ spec.is_set_by_scripts form }
{
    matches!(form, ObjectForm::Signal { .. })
}

/// The type of a signal, buffer or clock.
fn signal_type(design: &Design, id: VisibleId) -> Option<ValueType>
    ensures { result ≡ spec.signal_type design.now id }
{
    match id {
        VisibleId::Signal(number) => match design.signals.as_slice().get(number as usize) {
            Some(part) => Some(part.value_type),
            None => None,
        },
        VisibleId::Resolved(_) => None,
    }
}

/// The type of what a script may set: none where it may only be shown.
fn set_type(design: &Design, visible: Visible) -> Option<ValueType>
    ensures { result ≡ spec.set_type design.now visible }
{
    let object = design.objects.list.as_slice().get(visible.object as usize)?;
    if is_set_by_scripts(object.form) {
        signal_type(design, visible.id)
    } else {
        None
    }
}

fn is_shown_at(design: &Design, path: &[u8], visible: Visible) -> bool
    ensures { result ≡ spec.is_shown_at design.now path.now visible }
{
    is_path_of(design.objects.list.as_slice(), visible.object, path)
}

fn is_set_at(design: &Design, path: &[u8], visible: Visible) -> bool
    ensures { result ≡ spec.is_set_at design.now path.now visible }
{
    is_shown_at(design, path, visible) && set_type(design, visible).is_some()
}

/// The place of the object to be shown under a path, among those that have values to be seen.
fn place_to_show(design: &Design, path: &[u8]) -> Option<usize>
    ensures { result ≡ position (spec.is_shown_at design.now path.now) design.now.visible }
{
    design
        .visible
        .as_slice()
        .iter()
        .position(|visible| is_shown_at(design, path, *visible))
}

/// The place of the object to be set under a path, among those that have values to be seen.
fn place_to_set(design: &Design, path: &[u8]) -> Option<usize>
    ensures { result ≡ position (spec.is_set_at design.now path.now) design.now.visible }
{
    design
        .visible
        .as_slice()
        .iter()
        .position(|visible| is_set_at(design, path, *visible))
}

/// The value that bytes spell for what a script may set at a place.
fn value_at(design: &Design, place: usize, text: &[u8]) -> Option<Value>
    ensures { result ≡ spec.value_at design.now place text.now }
{
    let visible = design.visible.as_slice().get(place)?;
    let value_type = set_type(design, *visible)?;
    value_read(value_type, text)
}

fn refused(alloc: Global, kind: Kind, line: u32, path: &[u8]) -> CheckStop
    ensures { IfRefused result (λ fault. fault ≡ spec.fault kind line path.now) }
{
    match Vec::from_slice(alloc, path) {
        Ok(bytes) => CheckStop::Refused(Fault {
            kind,
            line,
            name: Text::from_vec(bytes),
        }),
        Err(_) => CheckStop::NoMemory,
    }
}

fn show_named(alloc: Global, design: &Design, line: u32, path: &[u8]) -> Result<Command, CheckStop>
    ensures { IsNamedAs result (spec.named_form design.now line (CommandForm.Show path.now)) }
{
    let Some(place) = place_to_show(design, path) else {
        return Err(refused(alloc, Kind::UnknownName, line, path));
    };
    match u32::try_from(place) {
        Ok(number) => Ok(Command::Show(number)),
        Err(_) => Err(CheckStop::NoMemory),
    }
}

fn set_named(
    alloc: Global,
    design: &Design,
    line: u32,
    path: &[u8],
    text: &[u8],
) -> Result<Command, CheckStop>
    ensures { IsNamedAs result (spec.named_form design.now line (CommandForm.Set path.now text.now)) }
{
    let Some(place) = place_to_set(design, path) else {
        return Err(refused(alloc, Kind::UnknownName, line, path));
    };
    let Some(value) = value_at(design, place, text) else {
        return Err(refused(alloc, Kind::BadValue, line, path));
    };
    match u32::try_from(place) {
        Ok(number) => Ok(Command::Set(number, value)),
        Err(_) => Err(CheckStop::NoMemory),
    }
}

/// A run of so many units at a resolution.
fn run_timed(
    alloc: Global,
    line: u32,
    number: u64,
    unit: Unit,
    resolution: Resolution,
) -> Result<Command, CheckStop>
    ensures { IsNamedAs result (spec.run_timed line (ticks_of number unit resolution)) }
{
    match of_unit(number, unit, resolution) {
        Ok(time) => Ok(Command::Run(Some(time))),
        Err(_) => Err(refused(alloc, Kind::BadValue, line, b"run")),
    }
}

fn named(alloc: Global, design: &Design, command: &TextCommand) -> Result<Command, CheckStop>
    ensures { IsNamedAs result (spec.named design.now command.now) }
{
    match &command.form {
        CommandForm::Run(None) => Ok(Command::Run(None)),
        CommandForm::Run(Some((number, unit))) => {
            run_timed(alloc, command.line, *number, *unit, design.resolution)
        }
        CommandForm::Set { path, value } => {
            set_named(
                alloc,
                design,
                command.line,
                path.as_slice(),
                value.as_slice(),
            )
        }
        CommandForm::Show { path } => show_named(alloc, design, command.line, path.as_slice()),
    }
}

/// The commands of a script over a design: each path as the place of its object among those that have
/// values to be seen, and each value as the object's type reads it.
///
/// A run is for its number of resolutions of the design. Refused has the line of the first command that
/// is not accepted: BadValue and the name `run` where that number is not whole, or 2^64 or more; else its
/// path, and UnknownName where no object is to be shown, or set, under the path, and else BadValue where
/// the value has not the form of its type or is out of its range. `set` needs a signal or a buffer; a
/// clock or a resolved signal can only be shown. NoMemory is also answered where the place of an object
/// does not fit 32 bits.
///
/// No path is made: a command takes the time of one look at the last name of each object that has
/// values to be seen, and of one more for each further name that agrees.
pub fn name_all(alloc: Global, commands: Commands, design: &Design) -> Result<Script, CheckStop>
    ensures named { IfOk result (λ script. name_script design.now commands ≡ Ok script) }
    ensures fits { IfOk result (λ script. All (Fits design.now) script) }
    ensures refused { IfErr result (λ stop. IfRefused stop (λ fault. name_script design.now commands ≡ Err fault)) }
{
    let mut script = Items::new(alloc);
    for command in commands.as_slice() {
        match named(alloc, design, command) {
            Ok(next) => match script.push(next) {
                Ok(()) => {}
                Err(_) => return Err(CheckStop::NoMemory),
            },
            Err(stop) => return Err(stop),
        }
    }
    Ok(script)
}
