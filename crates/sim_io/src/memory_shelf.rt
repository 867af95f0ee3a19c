//! A shelf that keeps its files in memory.
ghost use Rattle.std.specs.Prelude.{◌≡◌, ◌<◌, ◌≤◌, ◌+◌, ◌^◌, ◌↔◌, ◌⊎◌, ℕ, List, [], ◌∷◌, ◌++◌, Option, Some, Contains, IsTrue, length, take, drop, min, nat_eq, nat_lt, unwrap_or, IfOk, IfSome, OnOk, IsErrOf, MatchResult, MatchOption, position, option_copied, vec_len, is_ok, if◌then◌else◌, bytes_eq, string_bytes};
ghost use Rattle.std.specs.List.{list_any};
ghost use Rattle.std.specs.Io.KnownBytes.{ReadConsumes};
ghost use Rattle.sim_io.specs.Contents.{text_of, Lacks, Unchanged, AfterTold, Grows};
ghost use Rattle.sim_io.specs.Cause.{next, HasCause, HasCauseOrLacks};
ghost use Rattle.sim_io.specs.Keeps.{ReadKeeps, WriteKeeps};
ghost use Rattle.sim_io.specs.Writes.{taken, Creates};
ghost use Rattle.sim_io.specs.Memory.{entries, named, contents, place_of, put, bytes_at, rest_of, reader_at, moved, with_empty, told, IsReading, left_of, IsCreated, StandsFor, reads_of, writes_of, is_listed, IsListed, opened, given, emptied, appended};

use super::memory_sink::is_listed_in;
use super::outside::{Shelf, Trouble};
use std::alloc::{AllocError, Global};
use std::marker::Model;

// A file that is being read: its place, and how many of its bytes were given.
#[derive(Clone, Copy)]
pub(crate) struct Reader {
    file: usize,
    at: usize,
}

// The place of the first pair whose text is this name.
fn find_name(files: &[(String, Vec<u8>)], name: &str) -> Option<usize>
    ensures { result ≡ position (λ file. bytes_eq (string_bytes file.0) name.now) files.now }
{
    files.iter().position(|file| file.0.as_str() == name)
}

// The place of the first file of this name.
fn find_file(files: &[(String, Vec<u8>)], name: &str) -> Option<usize>
    ensures { MatchOption result
        (length (entries files.now) ≤ place_of (entries files.now) name.now)
        (λ place. (place ≡ place_of (entries files.now) name.now) × (place < length (entries files.now))) }
{
    find_name(files, name)
}

// Makes the file at a place empty.
fn empty_file(files: &mut Vec<(String, Vec<u8>)>, place: usize)
    requires { place < vec_len files.old }
    ensures { entries files.new.items ≡ put (entries files.old.items) place [] }
{
    let file = &mut files[place];
    file.1.clear();
}

// Adds an empty file of this name at the end.
fn add_file(alloc: Global, files: &mut Vec<(String, Vec<u8>)>, name: &str) -> Result<(), AllocError>
    ensures { entries files.new.items ≡ (if is_ok result
        then entries files.old.items ++ (record { name = name.now; bytes = [] }) ∷ []
        else entries files.old.items) }
{
    let name = String::from_str(alloc, name)?;
    files.push((name, Vec::new(alloc)))?;
    Ok(())
}

// Appends a piece to the file at a place.
fn append_to(
    files: &mut Vec<(String, Vec<u8>)>,
    place: usize,
    piece: &[u8],
) -> Result<(), AllocError>
    requires { place < vec_len files.old }
    ensures { entries files.new.items ≡ (if is_ok result
        then put (entries files.old.items) place (bytes_at (entries files.old.items) place ++ piece.now)
        else entries files.old.items) }
{
    let file = &mut files[place];
    file.1.extend_from_slice(piece)
}

// What a reader has still to give.
fn rest_for(files: &[(String, Vec<u8>)], reader: Reader) -> &[u8]
    ensures rest { result.now ≡ rest_of (entries files.now) reader }
    ensures fits { reader.at + length result.now < 2 ^ 64 }
{
    match files.get(reader.file) {
        Some(file) => {
            if reader.at <= file.1.len() {
                &file.1[reader.at..]
            } else {
                &[]
            }
        }
        None => &[],
    }
}

// Copies what fits to the front of a slice.
fn copy_front(rest: &[u8], into: &mut [u8]) -> usize
    ensures count { result ≡ min (length into.old) (length rest.now) }
    ensures front { take result into.new ≡ take result rest.now }
{
    let count = rest.len().min(into.len());
    into[..count].copy_from_slice(&rest[..count]);
    count
}

// Moves a reader on.
fn move_reader(readers: &mut Vec<Reader>, id: usize, count: usize)
    requires id { id < vec_len readers.old }
    requires fits { (reader_at readers.old.items id).at + count < 2 ^ 64 }
    ensures { readers.new.items ≡ moved readers.old.items id count }
{
    let reader = &mut readers[id];
    reader.at += count;
}

/// A shelf in memory, with faults at chosen calls, for tests and for callers that want the files back.
///
/// Contracts see it as a `ShelfState`. Its calls are numbered from 0; the last value of a `u64` is the
/// number of all calls from there on. A call that is refused memory has no number.
#[derive(Drop)]
pub struct MemoryShelf {
    alloc: Global,
    stored: Vec<(String, Vec<u8>)>,
    reading: Vec<Reader>,
    listed: Vec<u64>,
    number: u64,
    failed_reads: u64,
    failed_writes: u64,
}

impl Model for MemoryShelf {
    ghost use Rattle.sim_io.specs.Memory.{ShelfState, entries};

    ghost Value = { ShelfState };

    ghost view = { λ s. record { files = entries s.stored.items; readers = s.reading.items; failing = s.listed.items; calls = s.number; reads = s.failed_reads; writes = s.failed_writes } };
}

impl MemoryShelf {
    /// A shelf with these files, which fails at the calls whose numbers are listed. Of two files of
    /// one name the first counts.
    pub fn new(alloc: Global, files: Vec<(String, Vec<u8>)>, failing: Vec<u64>) -> MemoryShelf
        ensures { result ≡ record { files = entries files.items; readers = []; failing = failing.items; calls = 0; reads = 0; writes = 0 } }
    {
        MemoryShelf {
            alloc,
            stored: files,
            reading: Vec::new(alloc),
            listed: failing,
            number: 0,
            failed_reads: 0,
            failed_writes: 0,
        }
    }

    /// The bytes of the file of this name.
    pub fn file(&self, name: &str) -> Option<&[u8]>
        ensures { option_copied result ≡ contents self.now.files name.now }
    {
        match find_file(&self.stored, name) {
            Some(place) => Some(self.stored[place].1.as_slice()),
            None => None,
        }
    }

    // Counts a call of `open_read` or `read` that failed.
    fn fail_read(&mut self)
        ensures after { self.new ≡ record self.old { calls = next self.old.calls; reads = next self.old.reads } }
        ensures later { self.old.reads ≤ self.new.reads }
    {
        self.number = self.number.saturating_add(1);
        self.failed_reads = self.failed_reads.saturating_add(1);
    }

    // Counts a call of `create` or `write` that failed.
    fn fail_write(&mut self)
        ensures after { self.new ≡ record self.old { calls = next self.old.calls; writes = next self.old.writes } }
        ensures later { self.old.writes ≤ self.new.writes }
    {
        self.number = self.number.saturating_add(1);
        self.failed_writes = self.failed_writes.saturating_add(1);
    }

    // Counts a call.
    fn count_call(&mut self)
        ensures { self.new ≡ record self.old { calls = next self.old.calls } }
    {
        self.number = self.number.saturating_add(1);
    }

    // Whether the next call is to fail.
    fn is_next_listed(&self) -> bool
        ensures value { result ≡ is_listed self.now }
        ensures listed { IsTrue result ↔ IsListed self.now }
    {
        is_listed_in(&self.listed, self.number)
    }

    // The place of the first file of a name.
    fn place(&self, name: &str) -> Option<usize>
        ensures { MatchOption result
            (Lacks (told self.now) name.now × (place_of self.now.files name.now ≡ length self.now.files))
            (λ place. (place ≡ place_of self.now.files name.now) × (place < length self.now.files)) }
    {
        find_file(&self.stored, name)
    }

    // Adds a reader at the first byte of a file.
    fn add_reader(&mut self, place: usize) -> Result<u32, AllocError>
        ensures id { IfOk result (λ id. id ≡ length self.old.readers) }
        ensures after { self.new ≡ (if is_ok result
            then record self.old { readers = self.old.readers ++ (record { file = place; at = 0 }) ∷ [] }
            else self.old) }
    {
        let Ok(id) = u32::try_from(self.reading.len()) else {
            return Err(AllocError);
        };
        self.reading.push(Reader { file: place, at: 0 })?;
        Ok(id)
    }

    fn open(&mut self, name: &str) -> Result<u32, Trouble>
        ensures exact { IsErrOf result Trouble.Failed ↔ (IsListed self.old ⊎ Lacks (told self.old) name.now) }
        ensures id { IfOk result (λ id. id ≡ length self.old.readers) }
        ensures there { OnOk result (place_of self.old.files name.now < length self.old.files) }
        ensures after { self.new ≡ opened self.old name.now result }
        ensures cause { HasCauseOrLacks (reads_of self.old) (reads_of self.new) (Lacks (told self.old) name.now) result }
    {
        if self.is_next_listed() {
            self.fail_read();
            return Err(Trouble::Failed);
        }
        let Some(place) = self.place(name) else {
            self.count_call();
            return Err(Trouble::Failed);
        };
        let Ok(id) = self.add_reader(place) else {
            return Err(Trouble::NoMemory);
        };
        self.count_call();
        Ok(id)
    }

    // Copies what a reader has still to give, as far as it fits, and moves the reader on.
    fn hand_out(&mut self, id: usize, into: &mut [u8]) -> usize
        requires { id < length self.old.readers }
        ensures count { result ≡ min (length into.old) (length (rest_of self.old.files (reader_at self.old.readers id))) }
        ensures front { take result into.new ≡ take result (rest_of self.old.files (reader_at self.old.readers id)) }
        ensures after { self.new ≡ record self.old { readers = moved self.old.readers id result } }
    {
        let reader = self.reading[id];
        let count = copy_front(rest_for(&self.stored, reader), into);
        move_reader(&mut self.reading, id, count);
        count
    }

    fn give(&mut self, id: usize, into: &mut [u8]) -> Result<usize, Trouble>
        requires { id < length self.old.readers }
        ensures exact { IsErrOf result Trouble.Failed ↔ IsListed self.old }
        ensures count { IfOk result (λ count.
            count ≡ min (length into.old) (length (rest_of self.old.files (reader_at self.old.readers id)))) }
        ensures front { IfOk result (λ count.
            take count into.new ≡ take count (rest_of self.old.files (reader_at self.old.readers id))) }
        ensures after { self.new ≡ given self.old id result }
        ensures cause { HasCause (reads_of self.old) (reads_of self.new) result }
    {
        if self.is_next_listed() {
            self.fail_read();
            return Err(Trouble::Failed);
        }
        let count = self.hand_out(id, into);
        self.count_call();
        Ok(count)
    }

    // Makes the first file of a name empty, or adds an empty one.
    fn make_empty(&mut self, name: &str) -> Result<u32, AllocError>
        ensures id { IfOk result (λ id. id ≡ place_of self.old.files name.now) }
        ensures after { self.new ≡ (if is_ok result
            then record self.old { files = with_empty self.old.files name.now }
            else self.old) }
    {
        match self.place(name) {
            Some(place) => {
                let Ok(id) = u32::try_from(place) else {
                    return Err(AllocError);
                };
                empty_file(&mut self.stored, place);
                Ok(id)
            }
            None => {
                let Ok(id) = u32::try_from(self.stored.len()) else {
                    return Err(AllocError);
                };
                add_file(self.alloc, &mut self.stored, name)?;
                Ok(id)
            }
        }
    }

    fn clear(&mut self, name: &str) -> Result<u32, Trouble>
        ensures exact { IsErrOf result Trouble.Failed ↔ IsListed self.old }
        ensures id { IfOk result (λ id. id ≡ place_of self.old.files name.now) }
        ensures after { self.new ≡ emptied self.old name.now result }
        ensures cause { HasCause (writes_of self.old) (writes_of self.new) result }
    {
        if self.is_next_listed() {
            self.fail_write();
            return Err(Trouble::Failed);
        }
        let Ok(id) = self.make_empty(name) else {
            return Err(Trouble::NoMemory);
        };
        self.count_call();
        Ok(id)
    }

    // Appends a piece to the file at a place.
    fn extend(&mut self, place: usize, piece: &[u8]) -> Result<(), AllocError>
        requires { place < length self.old.files }
        ensures { self.new ≡ (if is_ok result
            then record self.old { files = put self.old.files place (bytes_at self.old.files place ++ piece.now) }
            else self.old) }
    {
        append_to(&mut self.stored, place, piece)
    }

    fn append(&mut self, place: usize, piece: &[u8]) -> Result<usize, Trouble>
        requires { place < length self.old.files }
        ensures exact { IsErrOf result Trouble.Failed ↔ IsListed self.old }
        ensures count { IfOk result (λ count. count ≡ length piece.now) }
        ensures after { self.new ≡ appended self.old place piece.now result }
        ensures cause { HasCause (writes_of self.old) (writes_of self.new) result }
    {
        if self.is_next_listed() {
            self.fail_write();
            return Err(Trouble::Failed);
        }
        if self.extend(place, piece).is_err() {
            return Err(Trouble::NoMemory);
        }
        self.count_call();
        Ok(piece.len())
    }
}

impl Shelf for MemoryShelf {
    ghost files = { told };

    ghost reading = { IsReading };

    ghost left = { left_of };

    ghost created = { IsCreated };

    ghost stands = { StandsFor };

    ghost reads = { reads_of };

    ghost writes = { writes_of };

    fn open_read(&mut self, name: &str) -> Result<u32, Trouble>
        // exactly what it answers, and what it leaves
        ensures exact { IsErrOf result Trouble.Failed ↔ (IsListed self.old ⊎ Lacks (told self.old) name.now) }
        ensures after { self.new ≡ opened self.old name.now result }

        // what every shelf promises
        ensures id { IfOk result (λ id. IsReading self.new id) }
        ensures bytes { IfOk result (λ id. IfSome (told self.old)
            (λ files. left_of self.new id ≡ Some (text_of (files name.now)))) }
        ensures kept { ReadKeeps told writes_of IsReading IsCreated StandsFor self.old self.new }
        ensures cause { HasCauseOrLacks (reads_of self.old) (reads_of self.new)
            (Lacks (told self.old) name.now) result }
        ensures memory { IsErrOf result Trouble.NoMemory → Unchanged (told self.old) (told self.new) }
    {
        self.open(name)
    }

    fn read(&mut self, id: u32, into: &mut [u8]) -> Result<usize, Trouble>
        requires id { IsReading self.old id }
        requires room { 0 < length into.old }

        // exactly what it answers, and what it leaves
        ensures exact { IsErrOf result Trouble.Failed ↔ IsListed self.old }
        ensures count { IfOk result (λ count.
            count ≡ min (length into.old) (length (rest_of self.old.files (reader_at self.old.readers id)))) }
        ensures after { self.new ≡ given self.old id result }

        // what every shelf promises
        ensures bound { IfOk result (λ count. count ≤ length into.new) }
        ensures bytes { ReadConsumes (left_of self.old id) (left_of self.new id) result into.new }
        ensures kept { ReadKeeps told writes_of IsReading IsCreated StandsFor self.old self.new }
        ensures cause { HasCause (reads_of self.old) (reads_of self.new) result }
        ensures memory { IsErrOf result Trouble.NoMemory → Unchanged (told self.old) (told self.new) }
    {
        self.give(id as usize, into)
    }

    fn create(&mut self, name: &str) -> Result<u32, Trouble>
        // exactly what it answers, and what it leaves
        ensures exact { IsErrOf result Trouble.Failed ↔ IsListed self.old }
        ensures place { IfOk result (λ id. id ≡ place_of self.old.files name.now) }
        ensures after { self.new ≡ emptied self.old name.now result }

        // what every shelf promises
        ensures id { IfOk result (λ id. IsCreated self.new id) }
        ensures file { IfOk result (λ id. IfSome (told self.new) (λ _. StandsFor self.new id name.now)) }
        ensures files { AfterTold (told self.old) (told self.new) (Creates name.now result) }
        ensures kept { WriteKeeps told reads_of IsReading IsCreated StandsFor self.old self.new }
        ensures cause { HasCause (writes_of self.old) (writes_of self.new) result }
        ensures memory { IsErrOf result Trouble.NoMemory → Unchanged (told self.old) (told self.new) }
    {
        self.clear(name)
    }

    fn write(&mut self, id: u32, piece: &[u8]) -> Result<usize, Trouble>
        requires id { IsCreated self.old id }
        requires some { 0 < length piece.now }

        // exactly what it answers, and what it leaves
        ensures exact { IsErrOf result Trouble.Failed ↔ IsListed self.old }
        ensures count { IfOk result (λ count. count ≡ length piece.now) }
        ensures after { self.new ≡ appended self.old id piece.now result }

        // what every shelf promises
        ensures bound { IfOk result (λ count. (0 < count) × (count ≤ length piece.now)) }
        ensures bytes { (name : List ℕ) → StandsFor self.old id name →
            AfterTold (told self.old) (told self.new) (Grows name (taken result piece.now)) }
        ensures kept { WriteKeeps told reads_of IsReading IsCreated StandsFor self.old self.new }
        ensures cause { HasCause (writes_of self.old) (writes_of self.new) result }
        ensures memory { IsErrOf result Trouble.NoMemory → Unchanged (told self.old) (told self.new) }
    {
        self.append(id as usize, piece)
    }
}
