//! What the system's files and sinks give and take, and how their faults are worded.

use crate::expected::expect;
use mx_io::{FileFault, Files, OsFiles, OsSink, Sink, SinkFailed};
use std::test::Fail;
use std::{env, fs, process};

/// A path in the folder for temporary files that no other run of the tests has.
fn temporary_path(rt: &HostRuntime, word: &str) -> Result<String, Fail> {
    let folder = env::temp_dir(rt)?;
    let number = process::id(rt.process());
    Ok(format!(in rt.alloc(); "{}/mx_io_{number}_{word}", folder.as_path().display())?)
}

/// Writes a text piece by piece until it is written or a write fails.
fn write_whole<S: Sink>(sink: &mut S, text: &[u8]) -> Result<(), SinkFailed> {
    let mut rest = text;
    for _ in 0..text.len() {
        if rest.is_empty() {
            break;
        }
        let count = sink.write(rest)?;
        rest = &rest[count..];
    }
    Ok(())
}

/// Whether a read gave this.
fn is_read(seen: Result<Vec<u8>, FileFault>, wanted: Result<&[u8], FileFault>) -> bool {
    match (seen, wanted) {
        (Ok(bytes), Ok(known)) => bytes.as_slice() == known,
        (Err(fault), Err(cause)) => fault == cause,
        _ => false,
    }
}

#[test]
fn a_file_of_the_system_is_read_whole(rt: HostRuntime) -> Result<(), Fail> {
    let path = temporary_path(&rt, "read")?;
    let mut text = vec![in rt.alloc(); b'a'; 4096]?;
    text.extend_from_slice(b"more than one piece")?;
    fs::write(&rt, &path, text.as_slice())?;
    let mut files = OsFiles::new(&rt, rt.alloc());
    let most = text.len() as u64;
    assert!(rt; 4096 < most && most < 8192);
    let whole = files.read(&path, most);
    let larger = files.read(&path, most - 1);
    fs::remove_file(&rt, &path)?;
    let gone = files.read(&path, most);
    expect(&rt, is_read(whole, Ok(text.as_slice())), "the whole file");
    expect(
        &rt,
        is_read(larger, Err(FileFault::TooLarge(most))),
        "one byte more",
    );
    expect(&rt, is_read(gone, Err(FileFault::Failed)), "no file");
    Ok(())
}

#[test]
fn a_sink_of_the_system_writes_the_pieces_in_order(rt: HostRuntime) -> Result<(), Fail> {
    let path = temporary_path(&rt, "written")?;
    let mut sink = OsSink::new(fs::create(&rt, &path)?);
    write_whole(&mut sink, b"a.c:1:28: ")?;
    write_whole(&mut sink, b"free_checker: double free of p!\n")?;
    let written = fs::read(&rt, &path);
    fs::remove_file(&rt, &path)?;
    let wanted = b"a.c:1:28: free_checker: double free of p!\n";
    expect(
        &rt,
        written?.as_slice() == wanted.as_slice(),
        "what was written",
    );
    Ok(())
}

#[test]
fn faults_are_worded(rt: HostRuntime) -> Result<(), Fail> {
    let words = format!(in rt.alloc();
        "{}; {}; {}; {SinkFailed}",
        FileFault::Failed,
        FileFault::TooLarge(9),
        FileFault::NoMemory
    )?;
    let wanted =
        "the file was not read; the file has at least 9 bytes; no memory for the file; nothing was written";
    expect(&rt, words.as_str() == wanted, "the words");
    Ok(())
}
