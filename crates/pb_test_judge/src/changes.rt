//! Logs with one line or one word changed.

use std::alloc::{AllocError, Global};

/// The lines of a log, but for the last one that tells how it ended.
pub fn lines_of<'a>(alloc: Global, log: &'a str) -> Result<Vec<&'a str>, AllocError> {
    log.lines()
        .filter(|line| *line != "ended" && !line.starts_with("pabble: "))
        .collect(alloc)
}

/// Appends a line.
fn push(out: &mut String, line: &str) -> Result<(), AllocError> {
    out.push_str(line)?;
    out.push('\n')
}

/// The log of these lines.
pub fn joined(alloc: Global, lines: &[&str]) -> Result<String, AllocError> {
    let mut out = String::new(alloc);
    for line in lines {
        push(&mut out, line)?;
    }
    Ok(out)
}

/// Without the line at a place.
pub fn dropped(alloc: Global, lines: &[&str], place: usize) -> Result<String, AllocError> {
    let mut out = String::new(alloc);
    for (at, line) in lines.iter().enumerate() {
        if at != place {
            push(&mut out, line)?;
        }
    }
    Ok(out)
}

/// With the line at a place twice.
pub fn doubled(alloc: Global, lines: &[&str], place: usize) -> Result<String, AllocError> {
    let mut out = String::new(alloc);
    for (at, line) in lines.iter().enumerate() {
        push(&mut out, line)?;
        if at == place {
            push(&mut out, line)?;
        }
    }
    Ok(out)
}

/// With another line at a place.
pub fn replaced(
    alloc: Global,
    lines: &[&str],
    place: usize,
    other: &str,
) -> Result<String, AllocError> {
    let mut out = String::new(alloc);
    for (at, line) in lines.iter().enumerate() {
        push(&mut out, if at == place { other } else { line })?;
    }
    Ok(out)
}

/// With the lines at two places exchanged.
pub fn exchanged(
    alloc: Global,
    lines: &[&str],
    first: usize,
    second: usize,
) -> Result<String, AllocError> {
    let mut out = String::new(alloc);
    for (at, line) in lines.iter().enumerate() {
        let from = if at == first {
            second
        } else if at == second {
            first
        } else {
            at
        };
        push(&mut out, lines.get(from).unwrap_or(line))?;
    }
    Ok(out)
}

fn rank_of(line: &str) -> Option<&str> {
    line.split(' ').next()
}

/// The next line of the same rank, or of another one.
pub fn next_of(lines: &[&str], place: usize, same: Same) -> Option<usize> {
    let line = lines.get(place)?;
    for (at, other) in lines.iter().enumerate() {
        let is_same = rank_of(line) == rank_of(other);
        if place < at && is_same == (same == Same::Rank) {
            return Some(at);
        }
    }
    None
}

/// Whose line is looked for.
#[derive(Clone, Copy)]
pub enum Same {
    Rank,
    No,
}

/// A line with another word at a place.
pub fn with_word(
    alloc: Global,
    line: &str,
    place: usize,
    word: &str,
) -> Result<String, AllocError> {
    let mut out = String::new(alloc);
    for (at, own) in line.split(' ').enumerate() {
        if at > 0 {
            out.push(' ')?;
        }
        out.push_str(if at == place { word } else { own })?;
    }
    Ok(out)
}
