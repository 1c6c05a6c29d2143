//! The lines of a text.

use pb_text::NoMemory;
use std::alloc::Global;

/// How many bytes the first line has, with its line feed.
fn first_len(bytes: &[u8]) -> usize {
    let mut len = 0usize;
    for byte in bytes {
        len = len.saturating_add(1);
        if *byte == b'\n' {
            return len;
        }
    }
    len
}

/// The lines, each with its line feed, but for a last one that has none.
pub fn lines_of(alloc: Global, bytes: &[u8]) -> Result<Vec<&[u8]>, NoMemory> {
    let mut lines = Vec::new(alloc);
    let mut rest = bytes;
    for _ in 0..bytes.len() {
        if rest.is_empty() {
            break;
        }
        let len = first_len(rest);
        lines.push(rest.get(..len).unwrap_or_default())?;
        rest = rest.get(len..).unwrap_or_default();
    }
    Ok(lines)
}

/// The bytes before the line with this number, counted from 1.
pub fn before_line(bytes: &[u8], line: u32) -> &[u8] {
    let mut left = line.saturating_sub(1);
    for (at, byte) in bytes.iter().enumerate() {
        if left == 0 {
            return bytes.get(..at).unwrap_or_default();
        }
        if *byte == b'\n' {
            left = left.saturating_sub(1);
        }
    }
    bytes
}

/// How many spaces stand in front.
pub fn indent(line: &[u8]) -> usize {
    let mut count = 0usize;
    for byte in line {
        if *byte != b' ' {
            break;
        }
        count = count.saturating_add(1);
    }
    count
}

/// The last line of bytes that end with a line feed, without it.
pub fn last_line(bytes: &[u8]) -> &[u8] {
    let whole = bytes.strip_suffix(b"\n").unwrap_or(bytes);
    let mut from = 0usize;
    for (at, byte) in whole.iter().enumerate() {
        if *byte == b'\n' {
            from = at.saturating_add(1);
        }
    }
    whole.get(from..).unwrap_or_default()
}
