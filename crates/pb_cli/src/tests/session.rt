//! Calls of the program whose reads and writes may fail.

use crate::call::pabble;
use pb_cli_answers::word;
use pb_io::{MemFile, MemFolder, MemSink};
use pb_text::NoMemory;
use std::alloc::Global;
use std::process::Abort;

/// What reads and writes do in a call.
#[derive(Clone, Copy)]
pub struct Faults {
    /// The call of the folder that fails, counted from 0.
    pub read: u64,
    /// The piece that isn't taken, counted from 0.
    pub piece: u64,
    /// How many bytes are taken, and how many of them at once.
    pub room: usize,
    pub most: usize,
}

/// None fails, and all is taken at once.
pub const NONE: Faults = Faults {
    read: 9_999_999,
    piece: 9_999_999,
    room: 8192,
    most: 8192,
};

/// Asserts that each of these calls, with `; ` between them, answers so where the file `p` has these bytes: the exit status, and
/// below it what is written.
pub fn hold(
    rt: &impl Abort,
    alloc: Global,
    faults: Faults,
    p: &str,
    calls: &str,
    wanted: &str,
) -> Result<(), NoMemory> {
    for call in calls.split("; ") {
        let answer = answer(alloc, faults, p, call)?;
        assert!(rt; is_text(&answer, wanted), "$ {call}\n{answer}");
    }
    Ok(())
}

fn is_text(text: &str, wanted: &str) -> bool {
    text == wanted
}

/// The exit status of a call, and below it what is written.
fn answer(alloc: Global, faults: Faults, p: &str, line: &str) -> Result<String, NoMemory> {
    let mut out = sink(alloc, faults)?;
    let code = called(alloc, p, faults.read, line, &mut out)?;
    told(alloc, code, out.taken())
}

fn told(alloc: Global, code: u8, written: &[u8]) -> Result<String, NoMemory> {
    let text = std::str::from_utf8(written).unwrap_or("no text");
    Ok(format!(in alloc; "status {code}\n{text}")?)
}

/// The exit status of a call with these words, where this call of the folder fails.
fn called(
    alloc: Global,
    p: &str,
    failing: u64,
    line: &str,
    out: &mut MemSink,
) -> Result<u8, NoMemory> {
    let words = words_of(alloc, line)?;
    let mut folder = folder(alloc, p, failing)?;
    Ok(code_of(alloc, &words, &mut folder, out))
}

fn code_of(alloc: Global, words: &[String], folder: &mut MemFolder, out: &mut MemSink) -> u8 {
    pabble(alloc, words, folder, out, word_of).code()
}

/// What kernels answer, word by word.
pub fn word_of(seed: u64, rank: u32, count: u64) -> u32 {
    word(seed, rank, count)
}

pub fn words_of(alloc: Global, line: &str) -> Result<Vec<String>, NoMemory> {
    let mut words = Vec::new(alloc);
    for word in line.split_whitespace() {
        words.push(String::from_str(alloc, word)?)?;
    }
    Ok(words)
}

pub fn file(alloc: Global, name: &str, bytes: &[u8]) -> Result<MemFile, NoMemory> {
    let name = String::from_str(alloc, name)?;
    let bytes = Vec::from_slice(alloc, bytes)?;
    Ok(MemFile { name, bytes })
}

fn folder(alloc: Global, p: &str, failing: u64) -> Result<MemFolder, NoMemory> {
    let fails = [failing].to_vec(alloc)?;
    let p = file(alloc, "p", p.as_bytes())?;
    let files = vec![in alloc; p]?;
    Ok(MemFolder::new(files, fails))
}

fn sink(alloc: Global, faults: Faults) -> Result<MemSink, NoMemory> {
    let fails = [faults.piece].to_vec(alloc)?;
    MemSink::new(alloc, faults.room, faults.most.max(1), fails)
}
