//! Which send and which receive are one message.

use crate::ordinals::number_at;
use indexmap::IndexMap;
use pb_draw_log::{Deed, Entry, Step};
use pb_text::NoMemory;
use std::alloc::Global;

/// The action behind so many of the same step.
#[derive(Clone, Copy, PartialEq, Eq, Hash)]
struct Nth {
    step: Step,
    number: usize,
}

/// The step at the other end of a message: the receive of a send, and the send of a receive.
fn mate_of(step: Step) -> Option<Step> {
    let Step { rank, deed, name } = step;
    match deed {
        Deed::Send(to) => Some(Step {
            rank: to,
            deed: Deed::Recv(rank),
            name,
        }),
        Deed::Recv(from) => Some(Step {
            rank: from,
            deed: Deed::Send(rank),
            name,
        }),
        Deed::Choose(_) | Deed::Run | Deed::Enter | Deed::Leave => None,
    }
}

/// For each send the receive that takes it, and for each receive the send that it takes: the k-th of one pair of ranks and
/// label takes the k-th.
pub fn mated(
    alloc: Global,
    entries: &[Entry],
    ordinals: &[usize],
) -> Result<Vec<Option<usize>>, NoMemory> {
    let places = places(alloc, entries, ordinals)?;
    let mut found = Vec::with_capacity(alloc, entries.len())?;
    for (place, entry) in entries.iter().enumerate() {
        found.push(mate(&places, entry.step, number_at(ordinals, place)))?;
    }
    Ok(found)
}

fn mate(places: &IndexMap<Nth, usize>, step: Step, number: usize) -> Option<usize> {
    let step = mate_of(step)?;
    places.get(&Nth { step, number }).copied()
}

/// Where each message's ends stand.
fn places(
    alloc: Global,
    entries: &[Entry],
    ordinals: &[usize],
) -> Result<IndexMap<Nth, usize>, NoMemory> {
    let mut places = IndexMap::new(alloc);
    for (place, entry) in entries.iter().enumerate() {
        if mate_of(entry.step).is_some() {
            let step = entry.step;
            places.insert(
                Nth {
                    step,
                    number: number_at(ordinals, place),
                },
                place,
            )?;
        }
    }
    Ok(places)
}
