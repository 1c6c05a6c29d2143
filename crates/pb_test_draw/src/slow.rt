//! The same numbers, computed step by step from what they mean. The tests compare with these.

use pb_draw_log::{Deed, Entry, NoMemory, Step};
use std::alloc::Global;

/// How many actions before a place have its step.
fn slow_number(entries: &[Entry], place: usize) -> usize {
    let mut count: usize = 0;
    for (earlier, entry) in entries.iter().enumerate() {
        if earlier < place && Some(entry.step) == step_at(entries, place) {
            count = count.saturating_add(1);
        }
    }
    count
}

/// The other end of a message: where the same number of its step is behind.
pub fn slow_mate(entries: &[Entry], place: usize) -> Option<usize> {
    let wanted = other_end(step_at(entries, place)?)?;
    let number = slow_number(entries, place);
    for (other, entry) in entries.iter().enumerate() {
        if entry.step == wanted && slow_number(entries, other) == number {
            return Some(other);
        }
    }
    None
}

fn step_at(entries: &[Entry], place: usize) -> Option<Step> {
    match entries.get(place) {
        Some(entry) => Some(entry.step),
        None => None,
    }
}

fn other_end(step: Step) -> Option<Step> {
    match step.deed {
        Deed::Send(to) => Some(Step {
            rank: to,
            deed: Deed::Recv(step.rank),
            name: step.name,
        }),
        Deed::Recv(from) => Some(Step {
            rank: from,
            deed: Deed::Send(step.rank),
            name: step.name,
        }),
        Deed::Choose(_) | Deed::Run | Deed::Enter | Deed::Leave => None,
    }
}

/// Whether the action at one place comes before that at another.
fn is_before(entries: &[Entry], one: usize, other: usize) -> bool {
    match (step_at(entries, one), step_at(entries, other)) {
        (Some(a), Some(b)) => {
            let is_own = a.rank == b.rank && one < other;
            is_own || is_linked(entries, (one, a), (other, b))
        }
        _ => false,
    }
}

fn is_linked(entries: &[Entry], one: (usize, Step), other: (usize, Step)) -> bool {
    match (one.1.deed, other.1.deed) {
        (Deed::Send(_), Deed::Recv(_)) => slow_mate(entries, other.0) == Some(one.0),
        (Deed::Enter, Deed::Leave) => {
            one.1.name == other.1.name
                && slow_number(entries, one.0) == slow_number(entries, other.0)
        }
        _ => false,
    }
}

/// The most that a chain up to each action counts, where each action counts its weight.
pub fn slow_chains(
    alloc: Global,
    entries: &[Entry],
    weights: &[u32],
) -> Result<Vec<u32>, NoMemory> {
    let mut most = Vec::new(alloc);
    for weight in weights {
        most.push(*weight)?;
    }
    for _ in 0..entries.len() {
        for one in 0..entries.len() {
            relax(entries, weights, &mut most, one);
        }
    }
    Ok(most)
}

/// What comes behind an action has at least what it has, and its own.
fn relax(entries: &[Entry], weights: &[u32], most: &mut Vec<u32>, one: usize) {
    for other in 0..entries.len() {
        if is_before(entries, one, other) {
            let least = at(most, one).saturating_add(at(weights, other));
            if let Some(slot) = most.get_mut(other) {
                *slot = least.max(*slot);
            }
        }
    }
}

pub fn at(list: &[u32], place: usize) -> u32 {
    match list.get(place) {
        Some(number) => *number,
        None => 0,
    }
}

/// How many messages of a name there are, and how many words they carry.
pub fn slow_count(entries: &[Entry], name: u32) -> (u64, u64) {
    let mut messages: u64 = 0;
    let mut words: u64 = 0;
    for entry in entries {
        if matches!(entry.step.deed, Deed::Send(_)) && entry.step.name == name {
            messages = messages.saturating_add(1);
            words = words.saturating_add(u64::from(entry.words));
        }
    }
    (messages, words)
}
