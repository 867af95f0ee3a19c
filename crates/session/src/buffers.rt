//! What a session holds of its texts before it is written.
ghost use Rattle.std.specs.Prelude.{◌≡◌, ◌≤◌, ◌⊎◌, ℕ, List, IfOk, IfSome};
ghost use Rattle.sim_io.specs.Keeps.{WriteKeeps};
ghost use Rattle.sim_io.specs.Contents.{Grew};
ghost use Rattle.session.specs.Outputs.{AreNames, FileGrew, FitsRoom, IsFront, LetGo, due_of, no_texts, outer_of};

use sim_io::{Held, Shelf, Sink};
use std::alloc::{AllocError, Global};

/// A buffer for each text of a session.
#[derive(Drop)]
pub struct Buffers {
    /// That of the report.
    pub report: Held,
    /// That of the trace.
    pub trace: Held,
    /// That of the choices.
    pub choices: Held,
    /// Where a line is made, before it is held.
    pub line: Vec<u8>,
}

impl Buffers {
    /// Buffers that hold nothing, with their room.
    pub(crate) fn new(alloc: Global) -> Result<Buffers, AllocError>
        ensures { IfOk result (λ b. due_of b ≡ no_texts) }
    {
        let report = Held::new(alloc)?;
        let trace = Held::new(alloc)?;
        let choices = Held::new(alloc)?;
        Ok(Buffers {
            report,
            trace,
            choices,
            line: Vec::new(alloc),
        })
    }

    /// Each holds no more than its room.
    pub(crate) fn hold_little(&self)
        ensures { FitsRoom (due_of self.now) }
    {
        let _ = self.report.len();
        let _ = self.trace.len();
        let _ = self.choices.len();
    }
}

/// Writes what is held for a sink, as far as it can be written.
fn let_go_to<O: Sink>(held: &mut Held, out: &mut O)
    ensures goes { (taken : List ℕ) × IsFront taken held.old × Grew (O.holds out.old) (O.holds out.new) taken }
    ensures later { O.faults out.old ≤ O.faults out.new }
{
    let _ = held.flush(out);
}

/// Writes what is held for a file, where there is one, as far as it can be written.
fn let_go_into<S: Shelf>(held: &mut Held, file: Option<u32>, shelf: &mut S)
    requires created { IfSome file (S.created shelf.old) }
    ensures goes { (taken : List ℕ) × IsFront taken held.old × FileGrew S.files S.stands shelf.old shelf.new file taken }
    ensures kept { WriteKeeps S.files S.reads S.reading S.created S.stands shelf.old shelf.new }
    ensures later { S.writes shelf.old ≤ S.writes shelf.new }
{
    match file {
        None => {}
        Some(id) => {
            let _ = held.flush_file(shelf, id);
        }
    }
}

/// Writes what is held of each text, as far as it can be written.
#[cold]
#[inline(never)]
pub(crate) fn let_go<S: Shelf, O: Sink>(
    held: &mut Buffers,
    vcd: Option<u32>,
    list: Option<u32>,
    shelf: &mut S,
    out: &mut O,
)
    requires created { IfSome vcd (S.created shelf.old) }
    requires listed { IfSome list (S.created shelf.old) }
    ensures goes { LetGo (AreNames S.stands shelf.old vcd list) (outer_of S.files O.holds shelf.old out.old) (outer_of S.files O.holds shelf.new out.new) (due_of held.old) }
    ensures kept { WriteKeeps S.files S.reads S.reading S.created S.stands shelf.old shelf.new }
    ensures faults_later { O.faults out.old ≤ O.faults out.new }
    ensures writes_later { S.writes shelf.old ≤ S.writes shelf.new }
{
    let_go_to(&mut held.report, out);
    let_go_into(&mut held.trace, vcd, shelf);
    let_go_into(&mut held.choices, list, shelf);
}
