//! The silent forms: a shelf whose calls never fail, and a sink that drops what it is given.

use sim_io::{NullSink, Shelf, SoundFile, SoundShelf, read_all, write_all, write_file};
use std::alloc::{AllocError, Global};
use std::test::Fail;

// A shelf with two files of the name `m`, and one of the name `n`.
fn make_shelf(alloc: Global) -> Result<SoundShelf, AllocError> {
    let mut files = Vec::new(alloc);
    for (name, text) in [("m", "model"), ("m", "other"), ("n", "new")] {
        let name = String::from_str(alloc, name)?;
        let bytes = Vec::from_slice(alloc, text.as_bytes())?;
        files.push(SoundFile::new(name, bytes))?;
    }
    if files.len() > 3 {
        return Err(AllocError);
    }
    Ok(SoundShelf::new(files))
}

#[test]
fn nothing_fails_and_nothing_is_kept(rt: HostRuntime) -> Result<(), Fail> {
    let alloc = rt.alloc();
    let mut shelf = make_shelf(alloc)?;
    let trace = shelf.create("m")?;
    write_file(&mut shelf, trace, b"changed")?;
    for (name, text) in [
        ("m", "model"),
        ("n", "new"),
        ("m", "model"),
        ("missing", ""),
    ] {
        let bytes = read_all(alloc, &mut shelf, name, 9)?;
        assert_eq!(rt; bytes.as_slice(), text.as_bytes());
    }
    let mut sink = NullSink::new();
    write_all(&mut sink, b"report")?;
    Ok(())
}
