//! Files and streams, of the operating system and in memory, with a call that fails in their midst.

use sim_io::{
    Held, HostShelf, HostSink, MemoryShelf, MemorySink, ReadStop, Shelf, Trouble, read_all,
    read_opened, write_all, write_file,
};
use std::alloc::{AllocError, Global};
use std::fs;
use std::test::Fail;

// A shelf with two files of the name `m`, of which the first holds "model". This call of it fails.
fn make_shelf(alloc: Global, fails_at: u64) -> Result<MemoryShelf, AllocError> {
    let mut files = Vec::new(alloc);
    for text in ["model", "other"] {
        let name = String::from_str(alloc, "m")?;
        files.push((name, Vec::from_slice(alloc, text.as_bytes())?))?;
    }
    let mut failing = Vec::new(alloc);
    failing.push(fails_at)?;
    Ok(MemoryShelf::new(alloc, files, failing))
}

// Whether a reading gives what is wanted.
fn reads(
    alloc: Global,
    shelf: &mut MemoryShelf,
    name: &str,
    limit: u64,
    want: Result<&str, ReadStop>,
) -> bool {
    match (read_all(alloc, shelf, name, limit), want) {
        (Ok(bytes), Ok(text)) => bytes.as_slice() == text.as_bytes(),
        (Err(stop), Err(want)) => stop == want,
        _ => false,
    }
}

#[test]
fn a_shelf_in_memory(rt: HostRuntime) -> Result<(), Fail> {
    let alloc = rt.alloc();
    let late = 9;
    for (name, limit, fails_at, want) in [
        ("m", 5, late, Ok("model")),
        ("m", 4, late, Err(ReadStop::TooLarge { limit: 4 })),
        ("n", 5, late, Err(ReadStop::Failed)),
        ("m", 5, 0, Err(ReadStop::Failed)),
        ("m", 5, 1, Err(ReadStop::Failed)),
        ("m", 5, 2, Err(ReadStop::Failed)),
        ("m", 5, 3, Ok("model")),
    ] {
        let mut shelf = make_shelf(alloc, fails_at)?;
        assert!(rt;
            reads(alloc, &mut shelf, name, limit, want),
            "{name}, failing at {fails_at}"
        );
    }
    let mut shelf = make_shelf(alloc, 2)?;
    let id = shelf.create("m")?;
    write_file(&mut shelf, id, b"new")?;
    assert_eq!(rt; write_file(&mut shelf, id, b"er"), Err(Trouble::Failed));
    assert_eq!(rt; shelf.file("m").unwrap_or(b"none"), b"new".as_slice());
    Ok(())
}

#[test]
fn an_opened_file_of_which_one_byte_past_the_limit_is_taken(rt: HostRuntime) -> Result<(), Fail> {
    let alloc = rt.alloc();
    let mut shelf = make_shelf(alloc, 9)?;
    let id = shelf.open_read("m")?;
    let large = read_opened(alloc, &mut shelf, id, 2);
    assert!(rt; matches!(large, Err(ReadStop::TooLarge { limit: 2 })));
    let rest = read_opened(alloc, &mut shelf, id, 2)?;
    assert_eq!(rt; rest.as_slice(), b"el".as_slice());
    Ok(())
}

#[test]
fn a_sink_in_memory(rt: HostRuntime) -> Result<(), Fail> {
    for (room, fails_at, want) in [
        (None, 9, "abc"),
        (Some(3), 9, "abc"),
        (Some(2), 9, "ab"),
        (None, 0, ""),
        (Some(2), 1, "ab"),
    ] {
        let mut failing = Vec::new(rt.alloc());
        failing.push(fails_at)?;
        let mut sink = MemorySink::new(rt.alloc(), room, failing);
        let done = write_all(&mut sink, b"abc");
        assert_eq!(rt; sink.bytes(), want.as_bytes());
        assert_eq!(rt; done.is_ok(), want.len() == 3);
    }
    Ok(())
}

#[test]
fn a_buffer_before_a_sink_and_a_file(rt: HostRuntime) -> Result<(), Fail> {
    let alloc = rt.alloc();
    let mut held = Held::new(alloc)?;
    let mut sink = MemorySink::new(alloc, None, Vec::new(alloc));
    held.put(&mut sink, b"some")?;
    assert_eq!(rt; sink.bytes(), b"".as_slice());
    held.flush(&mut sink)?;
    assert_eq!(rt; sink.bytes(), b"some".as_slice());
    let mut shelf = make_shelf(alloc, 9)?;
    let id = shelf.create("n")?;
    held.put_file(&mut shelf, id, b"by")?;
    held.put_file(&mut shelf, id, b"tes")?;
    held.flush_file(&mut shelf, id)?;
    let bytes = read_all(alloc, &mut shelf, "n", 5)?;
    assert_eq!(rt; bytes.as_slice(), b"bytes".as_slice());
    Ok(())
}

#[test]
fn real_files_and_streams(rt: HostRuntime) -> Result<(), Fail> {
    let alloc = rt.alloc();
    let mut shelf = HostShelf::new(&rt, alloc);
    let report = shelf.create("report")?;
    let trace = shelf.create("trace")?;
    write_file(&mut shelf, report, b"some")?;
    write_file(&mut shelf, trace, b"a trace")?;
    write_file(&mut shelf, report, b" bytes")?;
    let bytes = read_all(alloc, &mut shelf, "report", 10)?;
    assert_eq!(rt; bytes.as_slice(), b"some bytes".as_slice());
    let other = read_all(alloc, &mut shelf, "trace", 10)?;
    assert_eq!(rt; other.as_slice(), b"a trace".as_slice());
    let large = read_all(alloc, &mut shelf, "report", 9);
    assert!(rt; matches!(large, Err(ReadStop::TooLarge { limit: 9 })));
    let missing = read_all(alloc, &mut shelf, "missing", 10);
    assert!(rt; matches!(missing, Err(ReadStop::Failed)));

    let mut sink = HostSink::new(fs::create(&rt, "stream")?);
    write_all(&mut sink, b"to a stream")?;
    assert_eq!(rt; fs::read_to_string(&rt, "stream")?.as_str(), "to a stream");
    Ok(())
}
