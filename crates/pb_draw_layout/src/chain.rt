//! The longest chain, as far as it is drawn.

use crate::numbers::place_in;
use pb_draw_times::{Times, longest_chain};
use pb_text::NoMemory;
use std::alloc::Global;

/// An event of the longest chain.
#[derive(Clone, Copy)]
pub struct Link {
    /// Its place among the events that are drawn.
    pub index: usize,
    /// Whether the event before it in the list follows it in the chain.
    pub is_joined: bool,
}

/// The events of a longest chain that are drawn, from the last to the first, and how many actions the whole chain has.
pub fn drawn_chain(
    alloc: Global,
    times: &Times,
    places: &[usize],
) -> Result<(Vec<Link>, usize), NoMemory> {
    let chain = longest_chain(alloc, times)?;
    let mut links = Vec::new(alloc);
    let mut is_joined = false;
    for place in &chain {
        let found = place_in(places, *place);
        if let Some(index) = found {
            links.push(Link { index, is_joined })?;
        }
        is_joined = found.is_some();
    }
    let length = chain.len();
    Ok((links, length))
}
