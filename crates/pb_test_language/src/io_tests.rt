use crate::rows::{is_told, number, parts};
use pb_io::*;
use std::alloc::{AllocError, Global};
use std::test::Fail;
use std::{fs, io};

fn add(
    alloc: Global,
    files: &mut Vec<MemFile>,
    name: &str,
    bytes: &[u8],
) -> Result<(), AllocError> {
    let name = String::from_str(alloc, name)?;
    let bytes = Vec::from_slice(alloc, bytes)?;
    files.push(MemFile { name, bytes })?;
    Ok(())
}

/// Two files named `p`, of which the first counts, and an empty one.
fn files(alloc: Global) -> Result<Vec<MemFile>, AllocError> {
    let mut files = Vec::new(alloc);
    add(alloc, &mut files, "p", b"0123456789")?;
    add(alloc, &mut files, "p", b"other")?;
    add(alloc, &mut files, "empty", b"")?;
    Ok(files)
}

/// Whether just these bytes are read.
fn is_read<F: Folder>(
    alloc: Global,
    folder: &mut F,
    name: &str,
    limit: u32,
    expected: &[u8],
) -> bool {
    match read_all(alloc, folder, name, limit) {
        Ok(bytes) => bytes.as_slice() == expected,
        Err(_) => false,
    }
}

/// How many bytes are read, where this call fails.
fn length_read(
    alloc: Global,
    name: &str,
    limit: u32,
    fails: u64,
) -> Result<Result<usize, InFault>, AllocError> {
    let fails = [fails].to_vec(alloc)?;
    let mut folder = MemFolder::new(files(alloc)?, fails);
    Ok(read_all(alloc, &mut folder, name, limit).map(|bytes| bytes.len()))
}

/// The name, the limit and the call that fails, and how many bytes come.
const READ: &str = "p 10 9 => Ok(10)
p 9 9 => Err(TooLong)
p 0 9 => Err(TooLong)
empty 0 9 => Ok(0)
q 10 9 => Err(ReadFault)
p 10 0 => Err(ReadFault)
p 10 1 => Err(ReadFault)
p 10 2 => Err(ReadFault)
p 10 3 => Ok(10)";

fn is_length(alloc: Global, row: &str) -> bool {
    let (asked, want) = parts(row);
    let mut words = asked.split(' ');
    let name = words.next().unwrap_or("");
    let limit = number(words.next());
    let fails = number(words.next());
    match length_read(alloc, name, limit, u64::from(fails)) {
        Ok(length) => is_told(alloc, &length, want),
        Err(_) => false,
    }
}

#[test]
fn reads_whole_files(rt: HostRuntime) {
    for row in READ.lines() {
        assert!(rt; is_length(rt.alloc(), row), "{row}");
    }
}

/// Whether so many of twelve bytes are taken, and it is said whether these are all.
fn is_taken(
    alloc: Global,
    room: usize,
    most: usize,
    fails: u64,
    expected: usize,
) -> Result<bool, NoMemory> {
    if most == 0 {
        return Ok(false);
    }
    let fails = [fails].to_vec(alloc)?;
    let mut sink = MemSink::new(alloc, room, most, fails)?;
    let written = write_all(&mut sink, b"Hello, pipe!").is_ok();
    let taken = sink.taken();
    Ok(written == (expected == 12) && taken.len() == expected && b"Hello, pipe!".starts_with(taken))
}

/// The room, the most of a piece and the piece that fails, and how many bytes were taken.
const WRITTEN: &str = "12 12 9 12
10 12 9 10
0 1 99 0
12 1 99 12
12 12 0 0
12 1 0 0
12 1 1 1
12 5 1 5
12 5 2 10
12 1 11 11";

fn is_row_taken(alloc: Global, row: &str) -> Result<bool, NoMemory> {
    let mut words = row.split(' ');
    let room = number(words.next());
    let most = number(words.next());
    let fails = number(words.next());
    let expected = number(words.next());
    is_taken(
        alloc,
        room as usize,
        most as usize,
        u64::from(fails),
        expected as usize,
    )
}

#[test]
fn writes_what_fits(rt: HostRuntime) {
    for row in WRITTEN.lines() {
        assert!(rt; is_row_taken(rt.alloc(), row) == Ok(true), "{row}");
    }
}

fn sure_folder_reads(alloc: Global) -> Result<bool, AllocError> {
    let mut folder = SureFolder::new(files(alloc)?);
    Ok(
        is_read(alloc, &mut folder, "p", 10, b"0123456789")
            && is_read(alloc, &mut folder, "q", 10, b""),
    )
}

fn sure_count() -> Result<u64, OutFault> {
    let mut sink = SureSink::new();
    write_all(&mut sink, b"four")?;
    write_all(&mut sink, b"")?;
    Ok(sink.count())
}

#[test]
fn sure_ones_never_fail(rt: HostRuntime) {
    assert!(rt; sure_folder_reads(rt.alloc()) == Ok(true));
    assert!(rt; sure_count() == Ok(4));
}

fn is_refused<F: Folder>(
    alloc: Global,
    folder: &mut F,
    name: &str,
    limit: u32,
    fault: InFault,
) -> bool {
    read_all(alloc, folder, name, limit).map(|bytes| bytes.len()) == Err(fault)
}

/// Whether the first is left open behind some of its bytes, the second comes in its place, and both are read whole.
fn are_read<F: Folder>(alloc: Global, folder: &mut F, first: &str, second: &str) -> bool {
    let cut = is_refused(alloc, folder, first, 3, InFault::TooLong);
    let other = is_read(alloc, folder, second, 8, b"and this");
    let whole = is_read(alloc, folder, first, 7, b"on disk");
    cut && other && whole
}

/// Whether two files on disk are read while they are there.
fn host_reads(rt: &HostRuntime, first: &str, second: &str) -> bool {
    let made = fs::write(rt, first, b"on disk").is_ok()
        && fs::write(rt, second, b"and this").is_ok();
    let mut folder = HostFolder::new(rt);
    let read = are_read(rt.alloc(), &mut folder, first, second);
    let removed = fs::remove_file(rt, first).is_ok() && fs::remove_file(rt, second).is_ok();
    made && read && removed && is_refused(rt.alloc(), &mut folder, first, 7, InFault::ReadFault)
}

#[test]
fn host_folder_reads_files(rt: HostRuntime) -> Result<(), Fail> {
    let id = std::process::id(rt.process());
    let first = format!(in rt.alloc(); "/tmp/pb_io_{id}_first")?;
    let second = format!(in rt.alloc(); "/tmp/pb_io_{id}_second")?;
    assert!(rt; host_reads(&rt, first.as_str(), second.as_str()));
    Ok(())
}

#[test]
fn host_sink_writes_to_standard_output(rt: HostRuntime) {
    let mut sink = HostSink::new(io::writer(&rt));
    assert!(rt; write_all(&mut sink, b"written\n").is_ok());
}
