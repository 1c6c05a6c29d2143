//! How a run ended.

use pb_text_read::{number, strip};

/// Numbers of ranks fit 32 bits.
const LIMIT: u128 = 4_294_967_296;

/// The line behind those of actions, without its line feed. None where there is no such line.
pub fn ending(bytes: &[u8], end: usize) -> Option<&[u8]> {
    let rest = bytes.get(end..)?;
    let (_, line) = rest.split_last()?;
    Some(line)
}

/// The rank that the line calls stuck.
pub fn stuck_rank(line: &[u8]) -> Option<u32> {
    let (rank, _) = number(LIMIT, strip(b"pabble: stuck, rank ", line)?)?;
    Some(rank as u32)
}
