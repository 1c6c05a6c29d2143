//! The latest action of each rank and of each collective.

use crate::links::{Joint, joint_of};
use crate::ordinals::number_at;
use indexmap::IndexMap;
use pb_draw_log::{Deed, Entry};
use pb_text::NoMemory;
use std::alloc::Global;

/// An action and its time.
#[derive(Clone, Copy)]
pub struct Top {
    pub time: u32,
    pub place: usize,
}

/// The later of two; the first where they are at one time.
pub fn later(one: Option<Top>, other: Option<Top>) -> Option<Top> {
    match (one, other) {
        (Some(a), Some(b)) => Some(if a.time < b.time { b } else { a }),
        (Some(a), None) => Some(a),
        (None, other) => other,
    }
}

/// The latest entry of each collective.
pub fn gate_tops(
    alloc: Global,
    entries: &[Entry],
    ordinals: &[usize],
    times: &[u32],
) -> Result<IndexMap<Joint, Top>, NoMemory> {
    let mut tops = IndexMap::new(alloc);
    for (place, entry) in entries.iter().enumerate() {
        let number = number_at(ordinals, place);
        if let (Some(joint), Some(time)) = (entered(entry, number), times.get(place)) {
            let top = Top { time: *time, place };
            let old = tops.get(&joint).copied();
            tops.insert(joint, latest(old, top))?;
        }
    }
    Ok(tops)
}

/// The collective that an action enters.
fn entered(entry: &Entry, number: usize) -> Option<Joint> {
    match entry.step.deed {
        Deed::Enter => joint_of(entry, number),
        Deed::Choose(_) | Deed::Run | Deed::Send(_) | Deed::Recv(_) | Deed::Leave => None,
    }
}

fn latest(old: Option<Top>, new: Top) -> Top {
    match old {
        Some(old) => { if old.time < new.time { new } else { old } }
        None => new,
    }
}
