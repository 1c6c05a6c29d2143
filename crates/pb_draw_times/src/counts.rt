//! How many messages there are, and how many of a label stand on one chain.

use crate::links::link_at;
use crate::times::Times;
use pb_draw_log::{Deed, Entry};
use pb_text::NoMemory;
use std::alloc::Global;

/// How much is sent.
#[derive(Clone, Copy)]
pub struct Count {
    pub messages: u64,
    pub words: u64,
}

/// What is sent of each name, by its place among the names.
pub fn counted(alloc: Global, entries: &[Entry], names: usize) -> Result<Vec<Count>, NoMemory> {
    let nothing = Count {
        messages: 0,
        words: 0,
    };
    let mut counts = vec![in alloc; nothing; names]?;
    for entry in entries {
        if let Deed::Send(_) = entry.step.deed {
            if let Some(count) = counts.get_mut(entry.step.name as usize) {
                count.messages = count.messages.saturating_add(1);
                count.words = count.words.saturating_add(u64::from(entry.words));
            }
        }
    }
    Ok(counts)
}

/// The greatest number of sends on one chain: of this label, or of all.
pub fn message_chain(
    alloc: Global,
    entries: &[Entry],
    times: &Times,
    name: Option<u32>,
) -> Result<u32, NoMemory> {
    let mut on_chain: Vec<u32> = vec![in alloc; 0; entries.len()]?;
    let mut on_gate: Vec<u32> = vec![in alloc; 0; times.links.count]?;
    let mut most = 0;
    for place in &times.order {
        if let Some(entry) = entries.get(*place) {
            let own = before(entry, *place, times, &on_chain, &on_gate);
            let own = own.saturating_add(u32::from(is_send(entry, name)));
            if let Deed::Enter = entry.step.deed {
                raise(&mut on_gate, link_at(&times.links.joints, *place), own);
            }
            raise(&mut on_chain, Some(*place), own);
            most = own.max(most);
        }
    }
    Ok(most)
}

fn is_send(entry: &Entry, name: Option<u32>) -> bool {
    match entry.step.deed {
        Deed::Send(_) => is_named(name, entry.step.name),
        Deed::Choose(_) | Deed::Run | Deed::Recv(_) | Deed::Enter | Deed::Leave => false,
    }
}

fn is_named(wanted: Option<u32>, name: u32) -> bool {
    match wanted {
        Some(wanted) => wanted == name,
        None => true,
    }
}

fn before(entry: &Entry, place: usize, times: &Times, on_chain: &[u32], on_gate: &[u32]) -> u32 {
    let own = number(on_chain, link_at(&times.links.previous, place));
    match entry.step.deed {
        Deed::Recv(_) => own.max(number(on_chain, link_at(&times.mates, place))),
        Deed::Leave => own.max(number(on_gate, link_at(&times.links.joints, place))),
        Deed::Choose(_) | Deed::Run | Deed::Send(_) | Deed::Enter => own,
    }
}

fn number(numbers: &[u32], place: Option<usize>) -> u32 {
    match place {
        Some(place) => match numbers.get(place) {
            Some(number) => *number,
            None => 0,
        },
        None => 0,
    }
}

fn raise(numbers: &mut [u32], place: Option<usize>, least: u32) {
    if let Some(place) = place {
        if let Some(number) = numbers.get_mut(place) {
            *number = least.max(*number);
        }
    }
}
