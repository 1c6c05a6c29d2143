//! Protocol files, the logs of their simulations, and what `judge` answers to these.

ghost use Rattle.std.specs.Prelude.{◌≤◌, IfOk};
ghost use Rattle.pb_ctree.specs.Trees.{IsTree};

use pb_cli_judge::judge;
use pb_cli_simulate::{CTree, Options, simulate_tree};
use pb_compile::{Core, accept, compile};
use pb_io::{MemFile, MemFolder, MemSink};
use pb_text::{MOST_EVENTS, MOST_TEXT_BYTES, NoMemory};
use std::alloc::{AllocError, Global};

/// How many bytes a log may have.
const ROOM: usize = 65_536;

/// The core of a protocol file, where it is accepted.
pub fn core_of(alloc: Global, file: &str) -> Option<Core> {
    let bytes = file.as_bytes();
    if bytes.len() > MOST_TEXT_BYTES as usize {
        return None;
    }
    accept(alloc, bytes).ok()
}

/// The C tree of a protocol file that is accepted.
fn tree_of(alloc: Global, file: &str) -> Result<CTree, NoMemory>
    ensures { IfOk result IsTree }
{
    let bytes = file.as_bytes();
    if bytes.len() > MOST_TEXT_BYTES as usize {
        return Err(NoMemory);
    }
    match compile(alloc, bytes) {
        Ok(compiled) => Ok(compiled.tree),
        Err(_) => Err(NoMemory),
    }
}

/// What a rank's kernel answers at one of its calls.
fn answer(seed: u64, rank: u32, count: u64) -> u32 {
    let calls = u32::try_from(count).unwrap_or(0);
    let first = u32::try_from(seed).unwrap_or(0);
    let mixed = calls.wrapping_mul(2_654_435_761).wrapping_add(rank);
    mixed.wrapping_mul(40_503).wrapping_add(first) >> 3
}

fn simulate(
    alloc: Global,
    file: &str,
    options: Options,
    out: &mut MemSink,
) -> Result<(), NoMemory> {
    if options.turns > MOST_EVENTS {
        return Err(NoMemory);
    }
    let answers = |seed: u64, rank: u32, count: u64| answer(seed, rank, count);
    match tree_of(alloc, file) {
        Ok(tree) => {
            let _status = simulate_tree(alloc, tree, options, answers, out);
            Ok(())
        }
        Err(error) => Err(error),
    }
}

fn sink(alloc: Global) -> Result<MemSink, NoMemory> {
    MemSink::new(alloc, ROOM, ROOM, Vec::new(alloc))
}

/// What a simulation of a protocol file writes.
pub fn log_of(alloc: Global, file: &str, options: Options) -> Option<String> {
    let mut out = sink(alloc).ok()?;
    simulate(alloc, file, options, &mut out).ok()?;
    String::from_str(alloc, std::str::from_utf8(out.taken()).ok()?).ok()
}

/// The file with this name and text.
pub fn file_of(alloc: Global, name: &str, text: &str) -> Result<MemFile, AllocError> {
    let name = String::from_str(alloc, name)?;
    let bytes = Vec::from_slice(alloc, text.as_bytes())?;
    Ok(MemFile { name, bytes })
}

fn folder(alloc: Global, file: &str, log: &str) -> Result<MemFolder, AllocError> {
    let mut files = Vec::new(alloc);
    files.push(file_of(alloc, "p", file)?)?;
    files.push(file_of(alloc, "l", log)?)?;
    Ok(MemFolder::new(files, Vec::new(alloc)))
}

/// Whether `judge` writes this line of a protocol file and a log at N = n.
pub fn is_ruled(
    alloc: Global,
    file: &str,
    log: &str,
    n: u32,
    line: &str,
) -> Result<bool, NoMemory> {
    let mut folder = folder(alloc, file, log)?;
    let mut out = sink(alloc)?;
    let _status = judge(alloc, "p", "l", n, &mut folder, &mut out);
    Ok(out.taken() == line.as_bytes())
}
