//! What simulations answer, and the lines of logs.

use pb_cli_simulate::Status;
use pb_io::MemSink;
use std::alloc::{AllocError, Global};

/// The rank whose line it is, or the greatest number where it is no rank's.
fn rank_of(line: &str) -> u32 {
    match line.split(' ').next() {
        Some(word) => word.parse().unwrap_or(u32::MAX),
        None => u32::MAX,
    }
}

/// The lines, each with a line feed.
fn joined(alloc: Global, lines: &[&str]) -> Result<String, AllocError> {
    let mut out = String::new(alloc);
    for line in lines {
        out.push_str(line)?;
        out.push('\n')?;
    }
    Ok(out)
}

/// The lines rank by rank, those of a rank in the order of the log, and behind them those of no rank.
fn by_rank(alloc: Global, log: &str) -> Result<String, AllocError> {
    let mut lines: Vec<&str> = log.lines().collect(alloc)?;
    lines.sort_by_key(|line| rank_of(line))?;
    joined(alloc, &lines)
}

/// Whether the exit status is the number in the answer's first line, and the log is what stands behind it.
pub fn is_answer(status: Status, out: &MemSink, answer: &str) -> bool {
    match answer.split_once('\n') {
        Some((code, log)) => {
            code.parse().ok() == Some(status.code()) && out.taken() == log.as_bytes()
        }
        None => false,
    }
}

/// The same where the answer has the log rank by rank.
pub fn is_answer_by_rank(alloc: Global, status: Status, out: &MemSink, answer: &str) -> bool {
    let Some((code, wanted)) = answer.split_once('\n') else {
        return false;
    };
    let log = std::str::from_utf8(out.taken()).unwrap_or("");
    match by_rank(alloc, log) {
        Ok(log) => code.parse().ok() == Some(status.code()) && log.as_str() == wanted,
        Err(_) => false,
    }
}
