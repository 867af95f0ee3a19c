ghost use Rattle.std.specs.Prelude.{◌≡◌, map, string_bytes};
ghost use Rattle.clap.specs.Words.{app_of, found_of, rows_of};
ghost use Rattle.command_line.specs.Command as spec;
ghost use Rattle.command_line.specs.Given.{given_in};
ghost use Rattle.command_line.specs.Views.{Gives, Matches, given_of, stop_of};

use super::command::line_command;
use super::modes::WordsStop;
use super::words::Words;
use clap::error::ErrorKind;
use clap::{ArgMatches, Command, Error};
use std::alloc::Global;

/// The value of each argument that the words give.
#[derive(Clone, Copy)]
pub struct Given<'a> {
    pub model: Option<&'a str>,
    pub script: Option<&'a str>,
    pub vcd: Option<&'a str>,
    pub budget: Option<&'a str>,
    pub order: Option<&'a str>,
    pub seed: Option<&'a str>,
    pub choices: Option<&'a str>,
    pub replay: Option<&'a str>,
    pub log: Option<&'a str>,
    pub format: Option<&'a str>,
    pub order_free: Option<&'a str>,
    pub bus: Option<&'a str>,
    pub generate: Option<&'a str>,
}

/// What clap matched, by argument.
fn given_in<'a>(matches: &ArgMatches<'a>) -> Given<'a>
    ensures { given_of result ≡ given_in (rows_of (found_of matches.now)) }
{
    Given {
        model: matches.get_str("model"),
        script: matches.get_str("script"),
        vcd: matches.get_str("vcd"),
        budget: matches.get_str("budget"),
        order: matches.get_str("order"),
        seed: matches.get_str("seed"),
        choices: matches.get_str("choices"),
        replay: matches.get_str("replay"),
        log: matches.get_str("log"),
        format: matches.get_str("format"),
        order_free: matches.get_str("order-free"),
        bus: matches.get_str("bus"),
        generate: matches.get_str("generate"),
    }
}

// What clap makes of words. No tactic tries its goal: clap's clauses unfold too far, and the answer cites them.
#[tactic(none)]
fn matches_of<'a>(command: Command<'a>, words: &'a [String]) -> Result<ArgMatches<'a>, Error>
    requires { app_of command ≡ spec.line_command }
    ensures { Matches (map string_bytes words.entry.now) result }
{
    command.try_get_matches_from(words)
}

fn stop_of(error: &Error) -> WordsStop
    ensures { result ≡ stop_of error.now }
{
    match error.kind() {
        ErrorKind::OutOfMemory => WordsStop::NoMemory,
        _ => WordsStop::Usage,
    }
}

/// What the words give each argument. They are refused exactly where clap refuses them, but for want of memory.
pub fn given_by<'a>(alloc: Global, words: &'a Words) -> Result<Given<'a>, WordsStop>
    ensures { Gives words.entry.now result }
{
    let command = match line_command(alloc) {
        Ok(command) => command,
        Err(_) => return Err(WordsStop::NoMemory),
    };
    match matches_of(command, words.texts()) {
        Ok(matches) => Ok(given_in(&matches)),
        Err(error) => Err(stop_of(&error)),
    }
}
