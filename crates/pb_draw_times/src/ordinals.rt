//! How often the same was done before.

use indexmap::IndexMap;
use pb_draw_log::{Entry, Step};
use pb_text::NoMemory;
use std::alloc::Global;

/// For each action, how many earlier ones have the same step.
pub fn numbered(alloc: Global, entries: &[Entry]) -> Result<Vec<usize>, NoMemory> {
    let mut seen = IndexMap::new(alloc);
    let mut found = Vec::with_capacity(alloc, entries.len())?;
    for entry in entries {
        let count = count_of(&seen, entry.step);
        found.push(count)?;
        seen.insert(entry.step, count.saturating_add(1))?;
    }
    Ok(found)
}

fn count_of(seen: &IndexMap<Step, usize>, step: Step) -> usize {
    match seen.get(&step) {
        Some(count) => *count,
        None => 0,
    }
}

/// The number of an action, and 0 behind the last.
pub fn number_at(ordinals: &[usize], place: usize) -> usize {
    match ordinals.get(place) {
        Some(number) => *number,
        None => 0,
    }
}
