//! The files that a session writes, made empty.
ghost use Rattle.std.specs.Prelude.{◌≡◌, Option, IfOk, IfSome, IsErrOf, IsSome, OnErr, option_copied};
ghost use Rattle.session.specs.SimIo.Contents.{AfterTold};
ghost use Rattle.session.specs.SimIo.Cause.{RoseIf};
ghost use Rattle.session.specs.SimIo.Keeps.{WriteKeeps};
ghost use Rattle.session.specs.Outputs.{AreApart, AreNames, HasName};
ghost use Rattle.tlmsim.specs.Call.{IsNamed, NamesOne};
ghost use Rattle.tlmsim.specs.Held.{FileMade, FileSpared, FilesMade, FilesSpared, ForEach, names_of};

use session::sim_io_api::{Shelf, Trouble};

/// The ids of the files that a session writes, where it writes them.
#[derive(Clone, Copy)]
pub struct Created {
    /// The file of the trace.
    pub trace: Option<u32>,
    /// The file of the choices.
    pub choices: Option<u32>,
}

/// Creates a file, where one is named.
fn create_if<S: Shelf>(shelf: &mut S, name: Option<&str>) -> Result<Option<u32>, Trouble>
    ensures asked { IfOk result (ForEach (option_copied name.entry)) }
    ensures created { IfOk result (λ id. IfSome id (S.created shelf.new)) }
    ensures made { IfOk result (λ id. AfterTold (S.files shelf.old) (S.files shelf.new) (FileMade (option_copied name.entry))) }
    ensures named { IfOk result (λ id. IfSome (S.files shelf.new) (λ told. HasName S.stands shelf.new id (option_copied name.entry))) }
    ensures spared { OnErr result (AfterTold (S.files shelf.old) (S.files shelf.new) (FileSpared (option_copied name.entry))) }
    ensures refused { OnErr result (IsNamed (option_copied name.entry)) }
    ensures kept { WriteKeeps S.files S.reads S.reading S.created S.stands shelf.old shelf.new }
    ensures cause { RoseIf (S.writes shelf.old) (S.writes shelf.new) (IsErrOf result Trouble.Failed) }
{
    match name {
        None => Ok(None),
        Some(name) => match shelf.create(name) {
            Ok(id) => Ok(Some(id)),
            Err(trouble) => Err(trouble),
        },
    }
}

/// Creates the files that are named, the trace's and then the choices', each empty. Where one cannot be created, each is as
/// before or empty.
pub fn create_files<S: Shelf>(
    shelf: &mut S,
    trace: Option<&str>,
    choices: Option<&str>,
) -> Result<Created, Trouble>
    requires apart { AreApart (option_copied trace) (option_copied choices) }
    ensures trace_asked { IfOk result (λ made. ForEach (option_copied trace.entry) made.trace) }
    ensures choices_asked { IfOk result (λ made. ForEach (option_copied choices.entry) made.choices) }
    ensures trace_created { IfOk result (λ made. IfSome made.trace (S.created shelf.new)) }
    ensures choices_created { IfOk result (λ made. IfSome made.choices (S.created shelf.new)) }
    ensures made { IfOk result (λ made. AfterTold (S.files shelf.old) (S.files shelf.new) (FilesMade (names_of (option_copied trace.entry) (option_copied choices.entry)))) }
    ensures named { IfOk result (λ made. IfSome (S.files shelf.new) (λ told. AreNames S.stands shelf.new made.trace made.choices (names_of (option_copied trace.entry) (option_copied choices.entry)))) }
    ensures spared { OnErr result (AfterTold (S.files shelf.old) (S.files shelf.new) (FilesSpared (names_of (option_copied trace.entry) (option_copied choices.entry)))) }
    ensures refused { OnErr result (NamesOne (names_of (option_copied trace.entry) (option_copied choices.entry))) }
    ensures kept { WriteKeeps S.files S.reads S.reading S.created S.stands shelf.old shelf.new }
    ensures cause { RoseIf (S.writes shelf.old) (S.writes shelf.new) (IsErrOf result Trouble.Failed) }
{
    let trace = match create_if(shelf, trace) {
        Ok(id) => id,
        Err(trouble) => return Err(trouble),
    };
    match create_if(shelf, choices) {
        Ok(choices) => Ok(Created { trace, choices }),
        Err(trouble) => Err(trouble),
    }
}
