//! Collectives.

use indexmap::IndexMap;
use pb_draw_times::{Deed, Entry, link_at};
use pb_text::NoMemory;
use std::alloc::Global;

/// A collective: from the column of its first entry to that of its last leave, over the rows of all its ranks.
#[derive(Clone, Copy, PartialEq, Eq)]
pub struct Band {
    /// Its name, by its place among the log's names.
    pub name: u32,
    /// The first column.
    pub first: u32,
    /// The last column.
    pub last: u32,
    /// The row of its first rank.
    pub top: u32,
    /// The row of its last rank.
    pub bottom: u32,
    /// How many entries are drawn.
    pub entries: u32,
    /// How many leaves are drawn.
    pub leaves: u32,
}

impl Band {
    /// One event, in its column and its row.
    fn of(entry: &Entry, column: u32, row: u32) -> Band {
        let is_entry = entry.step.deed == Deed::Enter;
        Band {
            name: entry.step.name,
            first: column,
            last: column,
            top: row,
            bottom: row,
            entries: u32::from(is_entry),
            leaves: u32::from(!is_entry),
        }
    }

    /// Both together.
    fn with(self, other: Band) -> Band {
        Band {
            name: self.name,
            first: self.first.min(other.first),
            last: self.last.max(other.last),
            top: self.top.min(other.top),
            bottom: self.bottom.max(other.bottom),
            entries: self.entries.saturating_add(other.entries),
            leaves: self.leaves.saturating_add(other.leaves),
        }
    }
}

/// The collectives of the events that are drawn. `joints` has the number of each event's collective.
pub fn bands_of(
    alloc: Global,
    entries: &[Entry],
    joints: &[Option<usize>],
    columns: &[u32],
    rows: &[u32],
) -> Result<Vec<Band>, NoMemory> {
    let mut met = IndexMap::new(alloc);
    for (index, ((entry, column), row)) in entries.iter().zip(columns).zip(rows).enumerate() {
        if let Some(joint) = link_at(joints, index) {
            let band = Band::of(entry, *column, *row);
            met.insert(joint, widened(met.get(&joint).copied(), band))?;
        }
    }
    let mut all = Vec::new(alloc);
    for (_, band) in &met {
        all.push(*band)?;
    }
    Ok(all)
}

fn widened(old: Option<Band>, new: Band) -> Band {
    match old {
        Some(old) => old.with(new),
        None => new,
    }
}
