//! What `cost` writes of a file.

use pb_cli_cost::{Status, cost};
use pb_io::{MemFile, MemFolder, MemSink};
use pb_text::NoMemory;
use std::alloc::Global;

/// How many bytes may be written.
const ROOM: usize = 4_194_304;

/// What is told of a file: the status of `cost`, and what is written.
#[derive(Drop)]
pub struct Answer {
    pub status: Status,
    pub lines: String,
}

/// The protocol file with this range of N and this body, which begins in line 3.
pub fn protocol(alloc: Global, range: &str, body: &str) -> Result<String, NoMemory> {
    let file = format!(in alloc;
        "const N = {range};\nglobal protocol P(role W[0..N-1]) {{\n{body}\n}}\n"
    )?;
    Ok(file)
}

/// A folder with the file `p` of this text.
fn folder(alloc: Global, text: &str) -> Result<MemFolder, NoMemory> {
    let name = String::from_str(alloc, "p")?;
    let bytes = Vec::from_slice(alloc, text.as_bytes())?;
    let files = vec![in alloc; MemFile { name, bytes }]?;
    Ok(MemFolder::new(files, Vec::new(alloc)))
}

/// Bytes as a text; nothing where they are none.
fn text_of(alloc: Global, bytes: &[u8]) -> Result<String, NoMemory> {
    match std::str::from_utf8(bytes) {
        Ok(text) => Ok(String::from_str(alloc, text)?),
        Err(_) => Ok(String::new(alloc)),
    }
}

/// What is told of a file with this text.
pub fn told(alloc: Global, text: &str) -> Result<Answer, NoMemory> {
    told_within(alloc, text, ROOM)
}

/// The same, where only so many bytes can be written.
pub fn told_within(alloc: Global, text: &str, room: usize) -> Result<Answer, NoMemory> {
    let mut out = MemSink::new(alloc, room, ROOM, Vec::new(alloc))?;
    let mut folder = folder(alloc, text)?;
    let status = cost(alloc, "p", &mut folder, &mut out);
    let lines = text_of(alloc, out.taken())?;
    Ok(Answer { status, lines })
}

/// A number, or 0 where the word is none.
fn number(word: Option<&str>) -> i64 {
    match word {
        Some(word) => word.parse().unwrap_or(0),
        None => 0,
    }
}

/// What the words behind the name of a list say at N = n, as `2 to 5: 0 * N + 0` does; None where n isn't of this piece.
fn value_of(words: &str, n: i64) -> Option<i64> {
    let mut parts = words.split(' ');
    let low = number(parts.next());
    let high = parts.nth(1)?.trim_end_matches(':');
    let is_within = low <= n && (high == "max" || n <= number(Some(high)));
    let slope = number(parts.next());
    let start = number(parts.nth(3));
    if is_within {
        Some(slope.saturating_mul(n).saturating_add(start))
    } else {
        None
    }
}

/// What the lines of a list say at N = n; None where not exactly one of them is of n.
pub fn value_at(lines: &str, name: &str, n: i64) -> Option<i64> {
    let mut found = None;
    for line in lines.lines() {
        if let Some(words) = line.strip_prefix(name) {
            let value = value_of(words, n);
            if value.is_some() && found.is_some() {
                return None;
            }
            found = found.or(value);
        }
    }
    found
}
