//! A shelf of files in memory whose calls never fail.
ghost use Rattle.std.specs.Prelude.{◌≡◌, ◌<◌, ◌≤◌, ◌^◌, ◌-◌, ℕ, List, [], ◌∷◌, Option, Some, None, Ok, true, false, length, take, min, IfOk, IfSome, IsErrOf, position};
ghost use Rattle.std.specs.List.{position_or_len, slice_index_or};
ghost use Rattle.std.specs.Io.KnownBytes.{ReadConsumes};
ghost use Rattle.sim_io.specs.Contents.{text_of, Lacks, Unchanged, AfterTold, Grows};
ghost use Rattle.sim_io.specs.Cause.{HasCause, HasCauseOrLacks};
ghost use Rattle.sim_io.specs.Keeps.{ReadKeeps, WriteKeeps};
ghost use Rattle.sim_io.specs.Writes.{taken, Creates};
ghost use Rattle.sim_io.specs.Sound.{SoundState, named, texts, place_of, file_at, rest_of, put, begun, given, told, IsReading, left_of, IsCreated, StandsFor, reads_of, writes_of};

use super::sound_file::SoundFile;
use crate::{Shelf, Trouble};
use std::marker::Model;

// The place of the first file of a name.
fn find_file(files: &[SoundFile], name: &str) -> Option<usize>
    ensures { result ≡ position (named name.now) files.now }
{
    files.iter().position(|file| file.has_name(name))
}

// The place of the first file of a name, or the number of files where there is none.
fn place_or_count(files: &[SoundFile], name: &str) -> usize
    ensures { result ≡ place_of files.now name.now }
{
    match find_file(files, name) {
        Some(place) => place,
        None => files.len(),
    }
}

// Has the file at a place read from its first byte again, where there is one.
fn begin_at(files: &mut [SoundFile], place: usize)
    ensures { files.new ≡ put files.old place (begun (file_at files.old place)) }
{
    if place < files.len() {
        let file = &mut files[place];
        file.begin();
    }
}

// Copies what the file at a place has still to give, as far as it fits: nothing where there is none.
fn give_at(files: &mut [SoundFile], place: usize, into: &mut [u8]) -> usize
    ensures count { result ≡ min (length into.old) (length (rest_of (file_at files.old place))) }
    ensures front { take result into.new ≡ take result (rest_of (file_at files.old place)) }
    ensures after { files.new ≡ put files.old place (given (file_at files.old place) result) }
{
    if place < files.len() {
        let file = &mut files[place];
        file.give(into)
    } else {
        0
    }
}

/// A shelf of files in memory. Its calls never fail and take no memory, and its counts are 0 for ever.
///
/// Of two files of one name the first counts, and a missing name reads as an empty file. Each file has
/// one reading place: opening its name again answers the same id, and begins it anew. What is written
/// is dropped, and from the first `create` on the shelf tells no files. Contracts see it as a
/// `SoundState`.
#[derive(Drop)]
pub struct SoundShelf {
    files: Vec<SoundFile>,
    created: bool,
}

impl Model for SoundShelf {
    ghost use Rattle.std.specs.Prelude.{◌<◌, ◌-◌, ◌^◌, length};
    ghost use Rattle.sim_io.specs.Sound.{SoundState};

    ghost Value = { SoundState };

    ghost view = { λ s. record { files = s.files.items; created = s.created } };

    ghost invariant = { λ s. length s.files.items < 2 ^ 32 - 1 };
}

impl SoundShelf {
    /// A shelf with these files, fewer than 2^32 - 1.
    pub fn new(files: Vec<SoundFile>) -> SoundShelf
        requires { length files.items < 2 ^ 32 - 1 }
        ensures { result ≡ record { files = files.items; created = false } }
    {
        SoundShelf {
            files,
            created: false,
        }
    }

    // Begins the first file of a name anew, and answers its place, or the number of files.
    fn open(&mut self, name: &str) -> u32
        ensures id { result ≡ place_of self.old.files name.now }
        ensures after { self.new ≡ record self.old { files = put self.old.files result (begun (file_at self.old.files result)) } }
    {
        let place = place_or_count(&self.files, name);
        begin_at(&mut self.files, place);
        place as u32
    }

    // Copies what the file of an id has still to give, as far as it fits.
    fn give(&mut self, id: usize, into: &mut [u8]) -> usize
        ensures count { result ≡ min (length into.old) (length (rest_of (file_at self.old.files id))) }
        ensures front { take result into.new ≡ take result (rest_of (file_at self.old.files id)) }
        ensures after { self.new ≡ record self.old { files = put self.old.files id (given (file_at self.old.files id) result) } }
    {
        give_at(&mut self.files, id, into)
    }

    // Stops telling files, and answers an id behind those of the files.
    fn forget(&mut self) -> u32
        ensures id { result ≡ length self.old.files }
        ensures after { self.new ≡ record self.old { created = true } }
    {
        self.created = true;
        self.files.len() as u32
    }
}

impl Shelf for SoundShelf {
    ghost files = { told };

    ghost reading = { IsReading };

    ghost left = { left_of };

    ghost created = { IsCreated };

    ghost stands = { StandsFor };

    ghost reads = { reads_of };

    ghost writes = { writes_of };

    fn open_read(&mut self, name: &str) -> Result<u32, Trouble>
        // exactly what it answers, and what it leaves
        ensures answer { result ≡ Ok (place_of self.old.files name.now) }
        ensures after { self.new ≡ record self.old {
          files =
              put self.old.files (place_of self.old.files name.now) (begun (file_at self.old.files (place_of self.old.files name.now)));
        } }
        ensures text { left_of self.new (place_of self.old.files name.now) ≡ Some (text_of (texts self.old.files name.now)) }

        // what every shelf promises
        ensures id { IfOk result (λ id. IsReading self.new id) }
        ensures bytes { IfOk result (λ id. IfSome (told self.old)
            (λ files. left_of self.new id ≡ Some (text_of (files name.now)))) }
        ensures kept { ReadKeeps told writes_of IsReading IsCreated StandsFor self.old self.new }
        ensures cause { HasCauseOrLacks (reads_of self.old) (reads_of self.new)
            (Lacks (told self.old) name.now) result }
        ensures memory { IsErrOf result Trouble.NoMemory → Unchanged (told self.old) (told self.new) }
    {
        Ok(self.open(name))
    }

    fn read(&mut self, id: u32, into: &mut [u8]) -> Result<usize, Trouble>
        requires id { IsReading self.old id }
        requires room { 0 < length into.old }

        // exactly what it answers, and what it leaves
        ensures answer { result ≡ Ok (min (length into.old) (length (rest_of (file_at self.old.files id)))) }
        ensures front { IfOk result (λ count.
            take count into.new ≡ take count (rest_of (file_at self.old.files id))) }
        ensures after { IfOk result (λ count. self.new ≡ record self.old {
          files =
              put self.old.files id (given (file_at self.old.files id) count);
        }) }

        // what every shelf promises
        ensures bound { IfOk result (λ count. count ≤ length into.new) }
        ensures bytes { ReadConsumes (left_of self.old id) (left_of self.new id) result into.new }
        ensures kept { ReadKeeps told writes_of IsReading IsCreated StandsFor self.old self.new }
        ensures cause { HasCause (reads_of self.old) (reads_of self.new) result }
        ensures memory { IsErrOf result Trouble.NoMemory → Unchanged (told self.old) (told self.new) }
    {
        Ok(self.give(id as usize, into))
    }

    fn create(&mut self, name: &str) -> Result<u32, Trouble>
        // exactly what it answers, and what it leaves
        ensures answer { result ≡ Ok (length self.old.files) }
        ensures after { self.new ≡ record self.old { created = true } }

        // what every shelf promises
        ensures id { IfOk result (λ id. IsCreated self.new id) }
        ensures file { IfOk result (λ id. IfSome (told self.new) (λ _. StandsFor self.new id name.now)) }
        ensures files { AfterTold (told self.old) (told self.new) (Creates name.now result) }
        ensures kept { WriteKeeps told reads_of IsReading IsCreated StandsFor self.old self.new }
        ensures cause { HasCause (writes_of self.old) (writes_of self.new) result }
        ensures memory { IsErrOf result Trouble.NoMemory → Unchanged (told self.old) (told self.new) }
    {
        Ok(self.forget())
    }

    fn write(&mut self, id: u32, piece: &[u8]) -> Result<usize, Trouble>
        requires id { IsCreated self.old id }
        requires some { 0 < length piece.now }

        // exactly what it answers, and what it leaves
        ensures answer { result ≡ Ok (length piece.now) }
        ensures after { self.new ≡ self.old }

        // what every shelf promises
        ensures bound { IfOk result (λ count. (0 < count) × (count ≤ length piece.now)) }
        ensures bytes { (name : List ℕ) → StandsFor self.old id name →
            AfterTold (told self.old) (told self.new) (Grows name (taken result piece.now)) }
        ensures kept { WriteKeeps told reads_of IsReading IsCreated StandsFor self.old self.new }
        ensures cause { HasCause (writes_of self.old) (writes_of self.new) result }
        ensures memory { IsErrOf result Trouble.NoMemory → Unchanged (told self.old) (told self.new) }
    {
        Ok(piece.len())
    }
}
