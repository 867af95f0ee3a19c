ghost use Rattle.std.specs.Prelude.{◌≡◌, ◌≤◌, IfErr, IfOk, IfSome, length, option_copied};
ghost use Rattle.sim_io.specs.Contents.{AfterTold, IsText, IsWhole, Same};
ghost use Rattle.sim_io.specs.Cause.{Rose};
ghost use Rattle.run_input.specs.Limits.{model_limit, replay_limit};
ghost use Rattle.run_input.specs.Together.{Together};
ghost use Rattle.run_input.specs.Loaded.{AreTexts, FileCause, IfTooLarge, IsAloneLimit, IsRunLimit, LoadCause, ReplayCause, TextCause, TookOnePast, TookPast, TookReplayPast};

use model_print::logic_values_api::Text;
use sim_io::{Bytes, ReadStop, Shelf, read_all};
use std::alloc::{AllocError, Global};

/// The most bytes that a model may have.
pub const MODEL_LIMIT: u64 = 1_048_576;

/// The most bytes that a script may have.
pub const SCRIPT_LIMIT: u64 = 65_536;

/// The most bytes that a replay file may have.
pub const REPLAY_LIMIT: u64 = 67_108_864;

/// The texts that a run is made of.
#[derive(Drop)]
pub struct Texts {
    /// The bytes of the model.
    pub model: Bytes,
    /// The bytes of the script.
    pub script: Bytes,
    /// The bytes of the replay file, where one is named.
    pub replay: Option<Bytes>,
}

/// Why texts were not read.
#[derive(Drop)]
pub enum LoadStop {
    /// The file of this name could not be read.
    Failed(Text),
    /// The file of this name has more bytes than its limit.
    TooLarge(Text),
    /// Memory was refused.
    NoMemory,
}

/// A name, in memory of its own.
fn name_text(alloc: Global, name: &str) -> Result<Text, AllocError>
    ensures { IfOk result (λ text. text ≡ name.now) }
{
    let bytes = Vec::from_slice(alloc, name.as_bytes())?;
    Ok(Text::from_vec(bytes))
}

/// Reads a file to its end within its limit. What stops it has the name of the file.
fn load_text<S: Shelf>(
    alloc: Global,
    shelf: &mut S,
    name: &str,
    limit: u64,
) -> Result<Bytes, LoadStop>
    ensures whole { IfOk result (λ bytes. IsWhole (S.files shelf.old) name.now bytes) }
    ensures within { IfOk result (λ bytes. length bytes ≤ limit) }
    ensures cause { IfErr result (TextCause (S.files shelf.old) (Rose (S.reads shelf.old) (S.reads shelf.new)) name.now limit) }
    ensures no_more { IfErr result (λ stop. IfTooLarge stop (TookPast S.reading S.left shelf.new (S.files shelf.old) name.now limit)) }
    ensures later { S.reads shelf.old ≤ S.reads shelf.new }
    ensures files { AfterTold (S.files shelf.old) (S.files shelf.new) Same }
    ensures writes { S.writes shelf.new ≡ S.writes shelf.old }
{
    match read_all(alloc, shelf, name, limit) {
        Ok(bytes) => Ok(bytes),
        Err(ReadStop::Failed) => match name_text(alloc, name) {
            Ok(file) => Err(LoadStop::Failed(file)),
            Err(_) => Err(LoadStop::NoMemory),
        },
        Err(ReadStop::TooLarge { limit: _ }) => match name_text(alloc, name) {
            Ok(file) => Err(LoadStop::TooLarge(file)),
            Err(_) => Err(LoadStop::NoMemory),
        },
        Err(ReadStop::NoMemory) => Err(LoadStop::NoMemory),
    }
}

/// Reads a model alone to its end, within its limit. Where it is larger, just one byte past the limit was taken of it.
pub fn load_model<S: Shelf>(alloc: Global, shelf: &mut S, model: &str) -> Result<Bytes, LoadStop>
    ensures text { IfOk result (IsText (S.files shelf.old) (S.files shelf.new) model.now) }
    ensures within { IfOk result (λ bytes. length bytes ≤ model_limit) }
    ensures cause { IfErr result (FileCause (S.files shelf.old) (S.files shelf.new) (Rose (S.reads shelf.old) (S.reads shelf.new)) model.now model_limit) }
    ensures no_more { IfErr result (λ stop. IfTooLarge stop (TookOnePast S.reading S.left shelf.new (S.files shelf.old) (S.files shelf.new) (IsAloneLimit model.now))) }
    ensures later { S.reads shelf.old ≤ S.reads shelf.new }
    ensures files { AfterTold (S.files shelf.old) (S.files shelf.new) Same }
    ensures writes { S.writes shelf.new ≡ S.writes shelf.old }
{
    match load_text(alloc, shelf, model, MODEL_LIMIT) {
        Ok(bytes) => Ok(bytes),
        Err(stop) => Err(stop),
    }
}

/// Reads the replay file, where one is named, to its end within its limit.
fn load_replay<S: Shelf>(
    alloc: Global,
    shelf: &mut S,
    replay: Option<&str>,
) -> Result<Option<Bytes>, LoadStop>
    ensures whole { IfOk result (λ bytes. Together (option_copied replay.entry) bytes (IsWhole (S.files shelf.old))) }
    ensures within { IfOk result (λ bytes. IfSome bytes (λ text. length text ≤ replay_limit)) }
    ensures cause { IfErr result (ReplayCause (S.files shelf.old) (Rose (S.reads shelf.old) (S.reads shelf.new)) (option_copied replay.entry)) }
    ensures no_more { IfErr result (λ stop. IfTooLarge stop (TookReplayPast S.reading S.left shelf.new (S.files shelf.old) (option_copied replay.entry))) }
    ensures later { S.reads shelf.old ≤ S.reads shelf.new }
    ensures files { AfterTold (S.files shelf.old) (S.files shelf.new) Same }
    ensures writes { S.writes shelf.new ≡ S.writes shelf.old }
{
    match replay {
        None => Ok(None),
        Some(name) => match load_text(alloc, shelf, name, REPLAY_LIMIT) {
            Ok(bytes) => Ok(Some(bytes)),
            Err(stop) => Err(stop),
        },
    }
}

/// Reads the model, then the script, and then the replay file where one is named, each to its end within its limit.
/// Where one is larger, just one byte past its limit was taken of it.
pub fn load<S: Shelf>(
    alloc: Global,
    shelf: &mut S,
    model: &str,
    script: &str,
    replay: Option<&str>,
) -> Result<Texts, LoadStop>
    ensures texts { IfOk result (λ texts. AreTexts (S.files shelf.old) (S.files shelf.new) model.now script.now (option_copied replay.entry) texts.model texts.script texts.replay) }
    ensures cause { IfErr result (LoadCause (S.files shelf.old) (S.files shelf.new) (Rose (S.reads shelf.old) (S.reads shelf.new)) model.now script.now (option_copied replay.entry)) }
    ensures no_more { IfErr result (λ stop. IfTooLarge stop (TookOnePast S.reading S.left shelf.new (S.files shelf.old) (S.files shelf.new) (IsRunLimit model.now script.now (option_copied replay.entry)))) }
    ensures later { S.reads shelf.old ≤ S.reads shelf.new }
    ensures files { AfterTold (S.files shelf.old) (S.files shelf.new) Same }
    ensures writes { S.writes shelf.new ≡ S.writes shelf.old }
{
    let model = match load_text(alloc, shelf, model, MODEL_LIMIT) {
        Ok(bytes) => bytes,
        Err(stop) => return Err(stop),
    };
    let script = match load_text(alloc, shelf, script, SCRIPT_LIMIT) {
        Ok(bytes) => bytes,
        Err(stop) => return Err(stop),
    };
    match load_replay(alloc, shelf, replay) {
        Ok(replay) => Ok(Texts {
            model,
            script,
            replay,
        }),
        Err(stop) => Err(stop),
    }
}
