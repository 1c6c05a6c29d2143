//! Logs that a number makes.

use pb_draw_log::{Deed, Entry, NoMemory, Step};

/// Adds a message between two of four ranks, and what its receiver does, by the digits of the word. Some messages are never taken.
pub fn add_message(entries: &mut Vec<Entry>, word: u32) -> Result<(), NoMemory> {
    let rank = word / 65_536 % 4;
    let other = (rank + 1 + word / 1_048_576 % 3) % 4;
    let name = word / 16_777_216 % 2;
    entries.push(done(rank, Deed::Send(other), name))?;
    match word / 4096 % 4 {
        0 => entries.push(done(rank, Deed::Run, name))?,
        1 => {}
        _ => entries.push(done(other, Deed::Recv(rank), name))?,
    }
    Ok(())
}

/// The action, with as many words as its rank and one more.
pub fn done(rank: u32, deed: Deed, name: u32) -> Entry {
    Entry {
        step: Step { rank, deed, name },
        words: rank.saturating_add(1),
        start: 0,
    }
}
