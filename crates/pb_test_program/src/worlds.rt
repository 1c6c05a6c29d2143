//! Protocol files, their texts, and what simulating them answers.

ghost use Rattle.std.specs.Prelude.{◌≤◌, IfOk};
ghost use Rattle.pb_ctree.specs.Trees.{IsTree};

use crate::logs::is_answer_by_rank;
use crate::stored::{simulate_by_greatest, simulate_by_list};
use pb_cli_simulate::{CTree, Mode, Modes, Options, Shown, Status};
use pb_compile::{compile, generate};
use pb_io::{MemSink, NoMemory};
use pb_text::{MOST_EVENTS, MOST_TEXT_BYTES};
use std::alloc::{AllocError, Global};

/// How many bytes a log may have.
const ROOM: usize = 65_536;

/// A sink for a log.
pub fn sink(alloc: Global) -> Result<MemSink, NoMemory> {
    MemSink::new(alloc, ROOM, ROOM, Vec::new(alloc))
}

/// The protocol file with this range of N and this body, which begins in line 3.
pub fn protocol(alloc: Global, range: &str, body: &str) -> Result<String, AllocError> {
    format!(in alloc; "const N = {range};\nglobal protocol P(role W[0..N-1]) {{\n{body}\n}}\n")
}

/// The C tree of a protocol file that is accepted.
fn tree_of(alloc: Global, file: &str) -> Result<CTree, NoMemory>
    ensures { IfOk result IsTree }
{
    let bytes = file.as_bytes();
    if bytes.len() > MOST_TEXT_BYTES as usize {
        return Err(NoMemory);
    }
    match compile(alloc, bytes) {
        Ok(compiled) => Ok(compiled.tree),
        Err(_) => Err(NoMemory),
    }
}

/// The C text of a protocol file that is accepted.
pub fn text_of(alloc: Global, file: &str) -> Option<Vec<u8>> {
    let bytes = file.as_bytes();
    if bytes.len() > MOST_TEXT_BYTES as usize {
        return None;
    }
    generate(alloc, bytes).ok()
}

/// A simulation at N by seed 0, of at most 1,000,000 events, in which each send is eager.
pub fn options(n: u32) -> Options
    ensures { result.turns ≤ MOST_EVENTS }
{
    Options {
        n,
        seed: 0,
        turns: MOST_EVENTS,
        modes: Modes::Each(Mode::Eager),
        shown: Shown::Log,
    }
}

/// The status of simulating a protocol file with the greatest word for each kernel.
fn play_by_greatest(
    alloc: Global,
    file: &str,
    options: Options,
    out: &mut MemSink,
) -> Result<Status, NoMemory> {
    if options.turns > MOST_EVENTS {
        return Err(NoMemory);
    }
    match tree_of(alloc, file) {
        Ok(tree) => Ok(simulate_by_greatest(alloc, tree, options, out)),
        Err(error) => Err(error),
    }
}

/// The same with the words of a list for each rank's kernels.
pub fn play_by_list(
    alloc: Global,
    file: &str,
    options: Options,
    words: &[u32],
    out: &mut MemSink,
) -> Result<Status, NoMemory> {
    if options.turns > MOST_EVENTS {
        return Err(NoMemory);
    }
    match tree_of(alloc, file) {
        Ok(tree) => Ok(simulate_by_list(alloc, tree, options, words, out)),
        Err(error) => Err(error),
    }
}

/// Whether the answer has the exit status of simulating a protocol file with the greatest word for each kernel, and the log rank by rank.
pub fn plays_greatest_by_rank(
    alloc: Global,
    file: &str,
    options: Options,
    answer: &str,
) -> Result<bool, NoMemory> {
    let mut out = sink(alloc)?;
    let status = play_by_greatest(alloc, file, options, &mut out)?;
    Ok(is_answer_by_rank(alloc, status, &out, answer))
}
