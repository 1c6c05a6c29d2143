//! The longest chain.

use crate::links::link_at;
use crate::times::Times;
use pb_text::NoMemory;
use std::alloc::Global;

/// The places of a longest chain, from its last action to its first.
pub fn longest_chain(alloc: Global, times: &Times) -> Result<Vec<usize>, NoMemory> {
    let mut chain = Vec::new(alloc);
    let mut next = last(&times.times);
    for _ in 0..times.times.len() {
        let place = match next {
            Some(place) => place,
            None => break,
        };
        chain.push(place)?;
        next = link_at(&times.causes, place);
    }
    Ok(chain)
}

/// The place of the greatest time, the first of them.
fn last(times: &[u32]) -> Option<usize> {
    let mut best = None;
    let mut most = 0;
    for (place, time) in times.iter().enumerate() {
        if best.is_none() || most < *time {
            best = Some(place);
            most = *time;
        }
    }
    best
}
