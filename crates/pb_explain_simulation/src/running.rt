//! Which N a text is for, and how many ranks it has.

use pb_ctree::CTree;
use pb_explain_runs::{Count, MOST_RANKS, Values, tell_flight, tell_many_ranks, tell_outside_text};
use pb_explain_source::{NoMemory, Page, Source};
use pb_explain_waits::{seats_of, value};
use std::alloc::Global;

/// How many ranks each role of a text has at N.
fn counts_in(alloc: Global, tree: &CTree, n: i64) -> Result<Vec<Count>, NoMemory> {
    let seats = seats_of(alloc, tree, n)?;
    let mut counts = Vec::new(alloc);
    for seat in &seats {
        counts.push(Count {
            role: seat.role,
            ranks: seat.behind.saturating_sub(seat.first),
        })?;
    }
    Ok(counts)
}

/// The numbers N that a text is for.
fn values_in(tree: &CTree) -> Values {
    let range = tree.local.range;
    Values {
        low: i64::from(range.low),
        high: match range.high {
            Some(high) => Some(i64::from(high)),
            None => None,
        },
    }
}

/// Writes that a text isn't for this N.
pub fn tell_values_in(
    alloc: Global,
    page: &mut Page,
    tree: &CTree,
    n: i64,
) -> Result<(), NoMemory> {
    let values = values_in(tree);
    let counts = counts_in(alloc, tree, values.nearest(n))?;
    tell_outside_text(page, values, n, counts.as_slice())
}

/// Writes which limit a simulation of a text passes: that on ranks, or else that on words under way.
pub fn tell_many_in(
    alloc: Global,
    page: &mut Page,
    source: &Source,
    tree: &CTree,
    n: i64,
) -> Result<(), NoMemory> {
    if value(tree.size, n) <= MOST_RANKS {
        return tell_flight(page, source.file);
    }
    let counts = counts_in(alloc, tree, n)?;
    tell_many_ranks(
        page,
        source.file,
        n,
        values_in(tree).low,
        counts.as_slice(),
        tree.size.a,
    )
}
