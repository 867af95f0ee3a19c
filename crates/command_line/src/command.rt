ghost use Rattle.std.specs.Prelude.{◌≡◌, IfOk};
ghost use Rattle.clap.specs.Words.{app_of, rule_of, with_rule};
ghost use Rattle.command_line.specs.Command as spec;

use clap::{Arg, Command};
use std::alloc::{AllocError, Global};

/// A command that is the words alone, without the program's name and without flags of its own.
fn bare_command<'a>(alloc: Global) -> Command<'a>
    ensures { app_of result ≡ spec.bare_command }
{
    Command::new(alloc, "tlmsim")
        .no_binary_name(true)
        .disable_help_flag(true)
        .disable_version_flag(true)
}

/// The command with one more positional.
fn with_positional<'a>(
    alloc: Global,
    command: Command<'a>,
    name: &'a str,
) -> Result<Command<'a>, AllocError>
    ensures { IfOk result (λ r. app_of r ≡ with_rule (app_of command.entry) (spec.positional name.entry.now)) }
{
    command.arg(Arg::new(alloc, name))
}

/// The command with one more option.
fn with_option<'a>(
    alloc: Global,
    command: Command<'a>,
    name: &'a str,
) -> Result<Command<'a>, AllocError>
    ensures { IfOk result (λ r. app_of r ≡ with_rule (app_of command.entry) (spec.option_named name.entry.now)) }
{
    command.arg(Arg::new(alloc, name).long(name))
}

/// The command that the words are read by.
pub fn line_command<'a>(alloc: Global) -> Result<Command<'a>, AllocError>
    ensures { IfOk result (λ r. app_of r ≡ spec.line_command) }
{
    let command = bare_command(alloc);
    let command = with_positional(alloc, command, "model")?;
    let command = with_positional(alloc, command, "script")?;
    let command = with_option(alloc, command, "vcd")?;
    let command = with_option(alloc, command, "budget")?;
    let command = with_option(alloc, command, "order")?;
    let command = with_option(alloc, command, "seed")?;
    let command = with_option(alloc, command, "choices")?;
    let command = with_option(alloc, command, "replay")?;
    let command = with_option(alloc, command, "log")?;
    let command = with_option(alloc, command, "format")?;
    let command = with_option(alloc, command, "order-free")?;
    let command = with_option(alloc, command, "bus")?;
    with_option(alloc, command, "generate")
}
