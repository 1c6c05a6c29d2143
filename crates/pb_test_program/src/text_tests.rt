use crate::logs::is_answer;
use crate::worlds::{options, protocol, sink, text_of};
use pb_cli_simulate::sim;
use pb_io::{MemFile, MemFolder, NoMemory};
use std::alloc::{AllocError, Global};

/// A folder with the text `t`.
fn folder(alloc: Global, text: &str) -> Result<MemFolder, AllocError> {
    let name = String::from_str(alloc, "t")?;
    let bytes = Vec::from_slice(alloc, text.as_bytes())?;
    let files = vec![in alloc; MemFile { name, bytes }]?;
    Ok(MemFolder::new(files, Vec::new(alloc)))
}

/// Whether this is what `sim` answers on a text at N = 2, where each word is 0.
fn simulates(alloc: Global, text: &str, answer: &str) -> Result<bool, NoMemory> {
    let mut folder = folder(alloc, text)?;
    let mut out = sink(alloc)?;
    let answers = |_seed: u64, _rank: u32, _count: u64| 0;
    let status = sim(alloc, "t", options(2), answers, &mut folder, &mut out);
    Ok(is_answer(status, &out, answer))
}

/// The text of the protocol with this body.
fn text_with(alloc: Global, body: &str) -> Option<Vec<u8>> {
    let file = protocol(alloc, "2..max", body).ok()?;
    text_of(alloc, file.as_str())
}

/// One message from the first rank to the last, whose text has 44 lines.
const MESSAGE: &str = "  A() from W[0] to W[N-1];";

/// The first so many lines of a text.
fn front(text: &str, count: usize) -> &str {
    let mut length = 0_usize;
    for line in text.split_inclusive('\n').take(count) {
        length = length.saturating_add(line.len());
    }
    text.get(..length).unwrap_or("")
}

/// Whether a text that ends behind so many lines is refused behind them.
fn is_cut(alloc: Global, text: &str, count: usize) -> Result<bool, NoMemory> {
    let line = count.saturating_add(1);
    let answer = format!(in alloc; "8\npabble: text at {line}:1\n")?;
    simulates(alloc, front(text, count), answer.as_str())
}

/// The first number of lines behind which the text isn't refused, or 44.
fn first_uncut(alloc: Global, text: &[u8]) -> Result<usize, NoMemory> {
    let text = std::str::from_utf8(text).unwrap_or("");
    for count in 0..44 {
        if !is_cut(alloc, text, count)? {
            return Ok(count);
        }
    }
    Ok(44)
}

#[test]
fn a_text_is_cut(rt: HostRuntime) -> Result<(), NoMemory> {
    let text = text_with(rt.alloc(), MESSAGE).ok_or(NoMemory)?;
    assert!(rt; first_uncut(rt.alloc(), &text)? == 44);
    Ok(())
}
