//! Whole texts: read to their end within a limit, or written to their last byte.
ghost use Rattle.std.specs.Prelude.{◌≡◌, ◌<◌, ◌≤◌, ◌+◌, ◌⊎◌, ℕ, List, [], length, IfOk, IfSome, IsErrOf, OnOk};
ghost use Rattle.std.specs.Io.KnownBytes.{Consumes, IsAtEnd};
ghost use Rattle.sim_io.specs.Contents.{Lacks, IsWhole, IsPastLimit, IsPast};
ghost use Rattle.sim_io.specs.Cause.{Rose, RoseIf};
ghost use Rattle.sim_io.specs.Keeps.{ReadKeeps, WriteKeeps};
ghost use Rattle.sim_io.specs.Writes.{TookOf, FileTook};

use super::outside::{Shelf, Sink, Trouble};
use logic_values::Bytes;
use std::alloc::Global;
use thiserror::Error;

/// Why a file could not be read to its end.
#[derive(Clone, Copy, Debug, PartialEq, Eq, Error)]
pub enum ReadStop {
    /// The shelf failed at this file, or lacks it.
    #[error("the file cannot be read")]
    Failed,
    /// The file has more bytes than the limit allows.
    #[error("the file has more than {limit} bytes")]
    TooLarge {
        /// The most bytes that were allowed.
        limit: u64,
    },
    /// Memory was refused.
    #[error("out of memory")]
    NoMemory,
}

/// How many bytes one call of `read` may give.
const CHUNK: usize = 1024;

/// Reads a file to its end. A file of more than `limit` bytes is refused as soon as one byte more
/// than the limit was read: no further byte is taken.
///
/// `Failed` comes only where the count of reads rose, or where the shelf tells its files and lacks
/// this one.
pub fn read_all<S: Shelf>(
    alloc: Global,
    shelf: &mut S,
    name: &str,
    limit: u64,
) -> Result<Bytes, ReadStop>
    ensures whole { IfOk result (λ bytes. IsWhole (S.files shelf.old) name.now bytes) }
    ensures within { IfOk result (λ bytes. length bytes ≤ limit) }
    ensures large { (most : ℕ) → IsErrOf result (ReadStop.TooLarge most) →
        (most ≡ limit) × ((bytes : List ℕ) × IsPastLimit (S.files shelf.old) name.now limit bytes) }
    ensures no_more { (most : ℕ) → IsErrOf result (ReadStop.TooLarge most) →
        (id : ℕ) × S.reading shelf.new id × IsPast (S.files shelf.old) name.now limit (S.left shelf.new id) }
    ensures failed { IsErrOf result ReadStop.Failed →
        Rose (S.reads shelf.old) (S.reads shelf.new) ⊎ Lacks (S.files shelf.old) name.now }
    ensures later { S.reads shelf.old ≤ S.reads shelf.new }
    ensures kept { ReadKeeps S.files S.writes S.reading S.created S.stands shelf.old shelf.new }
{
    match shelf.open_read(name) {
        Ok(id) => match read_opened(alloc, shelf, id, limit) {
            Ok(held) => Ok(Bytes::from_vec(held)),
            Err(stop) => Err(stop),
        },
        Err(Trouble::Failed) => Err(ReadStop::Failed),
        Err(Trouble::NoMemory) => Err(ReadStop::NoMemory),
    }
}

/// Reads what is left of an opened file. Whatever the answer, one byte past the limit is taken at most.
///
/// `Failed` comes only where the count of reads rose.
pub fn read_opened<S: Shelf>(
    alloc: Global,
    shelf: &mut S,
    id: u32,
    limit: u64,
) -> Result<Vec<u8>, ReadStop>
    requires { S.reading shelf.old id }
    ensures taken { IfOk result (λ v. Consumes (S.left shelf.old id) (S.left shelf.new id) v.items) }
    ensures end { OnOk result (IsAtEnd (S.left shelf.new id)) }
    ensures at_most { (bytes : List ℕ) × Consumes (S.left shelf.old id) (S.left shelf.new id) bytes × (length bytes ≤ limit + 1) }
    ensures within { IfOk result (λ v. length v.items ≤ limit) }
    ensures large { (most : ℕ) → IsErrOf result (ReadStop.TooLarge most) →
        (most ≡ limit) × ((bytes : List ℕ) × Consumes (S.left shelf.old id) (S.left shelf.new id) bytes × (length bytes ≡ limit + 1)) }
    ensures cause { RoseIf (S.reads shelf.old) (S.reads shelf.new) (IsErrOf result ReadStop.Failed) }
    ensures kept { ReadKeeps S.files S.writes S.reading S.created S.stands shelf.old shelf.new }
{
    let mut bytes = Vec::new(alloc);
    let mut buffer = [0u8; CHUNK];
    while bytes.len() as u64 <= limit {
        let room = (limit - bytes.len() as u64).min(1023) as usize + 1;
        match shelf.read(id, &mut buffer[..room]) {
            Ok(0) => return Ok(bytes),
            Ok(count) => {
                if bytes.extend_from_slice(&buffer[..count]).is_err() {
                    return Err(ReadStop::NoMemory);
                }
            }
            Err(Trouble::Failed) => return Err(ReadStop::Failed),
            Err(Trouble::NoMemory) => return Err(ReadStop::NoMemory),
        }
    }
    Err(ReadStop::TooLarge { limit })
}

/// Writes a whole piece to a sink. An empty piece makes no call.
///
/// After a refusal the sink took a proper prefix of the piece. `Failed` comes only where the count
/// of faults rose.
pub fn write_all<O: Sink>(sink: &mut O, piece: &[u8]) -> Result<(), Trouble>
    ensures bytes { TookOf (O.holds sink.old) (O.holds sink.new) piece.now result }
    ensures cause { RoseIf (O.faults sink.old) (O.faults sink.new) (IsErrOf result Trouble.Failed) }
    ensures empty { piece.now ≡ [] → sink.new ≡ sink.old }
{
    let mut done = 0;
    while done < piece.len() {
        match sink.write(&piece[done..]) {
            Ok(count) => done += count,
            Err(trouble) => return Err(trouble),
        }
    }
    Ok(())
}

/// Writes a whole piece to a created file. An empty piece makes no call.
///
/// After a refusal the file took a proper prefix of the piece. `Failed` comes only where the count
/// of writes rose.
pub fn write_file<S: Shelf>(shelf: &mut S, id: u32, piece: &[u8]) -> Result<(), Trouble>
    requires { S.created shelf.old id }
    ensures bytes { FileTook (S.stands shelf.old id) (S.files shelf.old) (S.files shelf.new) piece.now result }
    ensures cause { RoseIf (S.writes shelf.old) (S.writes shelf.new) (IsErrOf result Trouble.Failed) }
    ensures kept { WriteKeeps S.files S.reads S.reading S.created S.stands shelf.old shelf.new }
    ensures created { S.created shelf.new id }
    ensures empty { piece.now ≡ [] → shelf.new ≡ shelf.old }
{
    let mut done = 0;
    while done < piece.len() {
        match shelf.write(id, &piece[done..]) {
            Ok(count) => done += count,
            Err(trouble) => return Err(trouble),
        }
    }
    Ok(())
}
