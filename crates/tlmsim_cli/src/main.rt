//! The program: runs the model and the script that its words name, writes the report to standard
//! output, and ends with the status of the run.
#![tactic(auto)]

ghost use Rattle.std.specs.Prelude.{◌≡◌, ◌≤◌};
ghost use Rattle.std.specs.IoError.{error_kind};
ghost use Rattle.std.specs.Process.{exit_status};

use std::io::ErrorKind;
use std::process::ExitCode;
use std::rt::Env;
use std::{env, io};
use tlmsim::sim_io_api::{HostShelf, HostSink};
use tlmsim::{Words, WordsStop, end_without_words, sim_main};

/// Why the words cannot be had, by the error of asking for them: memory was refused, or one of them is no text.
fn stop_of(error: &io::Error) -> WordsStop
    ensures memory { error_kind error.now ≡ ErrorKind.OutOfMemory → result ≡ WordsStop.NoMemory }
    ensures text { ¬ (error_kind error.now ≡ ErrorKind.OutOfMemory) → result ≡ WordsStop.Usage }
{
    match error.kind() {
        ErrorKind::OutOfMemory => WordsStop::NoMemory,
        _ => WordsStop::Usage,
    }
}

/// The words behind the program's name.
fn words_given(rt: &(impl Env + AllocGlobal)) -> Result<Words, WordsStop> {
    let given = match env::args(rt) {
        Ok(given) => given,
        Err(error) => return Err(stop_of(&error)),
    };
    let mut words = Words::new(rt.alloc());
    for word in given.skip(1) {
        if words.push(word.as_str()).is_err() {
            return Err(WordsStop::NoMemory);
        }
    }
    Ok(words)
}

/// The status of the run that the words ask for.
fn run(rt: HostRuntime, words: &Words) -> u8
    ensures { result ≤ 10 }
{
    let alloc = rt.alloc();
    let mut out = HostSink::new(rt.stdout());
    let mut err = HostSink::new(rt.stderr());
    let mut shelf = HostShelf::new(rt, alloc);
    sim_main(alloc, words, &mut shelf, &mut out, &mut err).status
}

/// The status of a program whose words cannot be had.
fn refuse(rt: HostRuntime, stop: WordsStop) -> u8
    ensures { result ≤ 10 }
{
    let mut err = HostSink::new(rt.stderr());
    end_without_words(rt.alloc(), stop, &mut err)
}

/// The exit code of the program, whose statuses go from 0 to 10.
fn exit_code(rt: HostRuntime) -> ExitCode
    ensures { exit_status result ≤ 10 }
{
    let status = match words_given(&rt) {
        Ok(words) => run(rt, &words),
        Err(stop) => refuse(rt, stop),
    };
    ExitCode::from(status)
}

fn main(rt: HostRuntime) -> ExitCode {
    exit_code(rt)
}
