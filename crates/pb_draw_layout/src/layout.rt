//! Rows and columns.

ghost use Rattle.std.specs.Prelude.{IfOk};
ghost use Rattle.pb_draw_times.specs.Pairs.{AreSingle};
ghost use Rattle.pb_draw_times.specs.Ascents.{AreSound};

use crate::bands::{Band, bands_of};
use crate::chain::{Link, drawn_chain};
use crate::cut::{Chosen, Cut};
use crate::numbers::{distinct, index_of, number_at, place_in};
use pb_draw_times::{Deed, Entry, Times, TimesFault, are_sound, link_at};
use pb_text::NoMemory;
use std::alloc::Global;

/// What is drawn, and where. An event is known by its place among those that are drawn.
#[derive(Drop)]
pub struct Layout {
    /// The rank of each row, ascending.
    pub ranks: Vec<u32>,
    /// The time of each column, ascending.
    pub times: Vec<u32>,
    /// The place of each event in the log, ascending.
    pub places: Vec<usize>,
    /// The events.
    pub entries: Vec<Entry>,
    /// The other end of each message, where it is drawn.
    pub mates: Vec<Option<usize>>,
    /// The column of each event.
    pub columns: Vec<u32>,
    /// The row of each event.
    pub rows: Vec<u32>,
    /// The collectives.
    pub bands: Vec<Band>,
    /// The longest chain, as far as it is drawn, from its last event to its first.
    pub chain: Vec<Link>,
    /// How many actions the longest chain has, drawn or not.
    pub chain_length: usize,
    /// How many events were asked for.
    pub asked: usize,
}

/// The rows and columns of the events that are chosen of a log.
///
/// A rank has a row where it does something that is drawn, or is the other rank of a message that is, or `stuck`, and `cut` has
/// it. A time has a column where an event has it. Each message that is drawn joins a send with its receive, and no two events
/// have one mate. Columns ascend along each rank, and from each send to its receive. `Circle` comes where they don't, as for
/// times that `timed` doesn't give.
pub fn laid_out(
    alloc: Global,
    entries: &[Entry],
    times: &Times,
    chosen: Chosen,
    cut: &Cut,
    stuck: Option<u32>,
) -> Result<Layout, TimesFault>
    ensures sound { IfOk result (λ layout. AreSound layout.entries.items layout.mates.items layout.columns.items) }
    ensures single { IfOk result (λ layout. AreSingle layout.mates.items) }
{
    let layout = laid(alloc, entries, times, chosen, cut, stuck)?;
    if are_sound(alloc, &layout.entries, &layout.mates, &layout.columns)? {
        Ok(layout)
    } else {
        Err(TimesFault::Circle)
    }
}

/// Rows and columns, before they are checked.
fn laid(
    alloc: Global,
    all: &[Entry],
    times: &Times,
    chosen: Chosen,
    cut: &Cut,
    stuck: Option<u32>,
) -> Result<Layout, NoMemory> {
    let Chosen { places, asked } = chosen;
    let entries = entries_at(alloc, all, &places)?;
    let ranks = ranks_of(alloc, &entries, cut, stuck)?;
    let own_times = times_at(alloc, &times.times, &places)?;
    let columns_of = distinct(alloc, Vec::from_slice(alloc, &own_times)?)?;
    let columns = indices(alloc, &own_times, &columns_of)?;
    let rows = rows_of(alloc, &entries, &ranks)?;
    let mates = links_at(alloc, &times.mates, &places)?;
    let joints = joints_at(alloc, &times.links.joints, &places)?;
    let bands = bands_of(alloc, &entries, &joints, &columns, &rows)?;
    let (chain, chain_length) = drawn_chain(alloc, times, &places)?;
    Ok(Layout {
        ranks,
        times: columns_of,
        places,
        entries,
        mates,
        columns,
        rows,
        bands,
        chain,
        chain_length,
        asked,
    })
}

fn entries_at(alloc: Global, all: &[Entry], places: &[usize]) -> Result<Vec<Entry>, NoMemory> {
    let mut entries = Vec::with_capacity(alloc, places.len())?;
    for place in places {
        if let Some(entry) = all.get(*place) {
            entries.push(*entry)?;
        }
    }
    Ok(entries)
}

fn times_at(alloc: Global, times: &[u32], places: &[usize]) -> Result<Vec<u32>, NoMemory> {
    let mut own = Vec::with_capacity(alloc, places.len())?;
    for place in places {
        own.push(number_at(times, *place))?;
    }
    Ok(own)
}

fn joints_at(
    alloc: Global,
    joints: &[Option<usize>],
    places: &[usize],
) -> Result<Vec<Option<usize>>, NoMemory> {
    let mut own = Vec::with_capacity(alloc, places.len())?;
    for place in places {
        own.push(link_at(joints, *place))?;
    }
    Ok(own)
}

/// The other end of each message, by its place among those that are drawn.
fn links_at(
    alloc: Global,
    mates: &[Option<usize>],
    places: &[usize],
) -> Result<Vec<Option<usize>>, NoMemory> {
    let mut own = Vec::with_capacity(alloc, places.len())?;
    for place in places {
        own.push(match link_at(mates, *place) {
            Some(mate) => place_in(places, mate),
            None => None,
        })?;
    }
    Ok(own)
}

fn indices(alloc: Global, numbers: &[u32], among: &[u32]) -> Result<Vec<u32>, NoMemory> {
    let mut found = Vec::with_capacity(alloc, numbers.len())?;
    for number in numbers {
        found.push(index_of(among, *number))?;
    }
    Ok(found)
}

fn rows_of(alloc: Global, entries: &[Entry], ranks: &[u32]) -> Result<Vec<u32>, NoMemory> {
    let mut rows = Vec::with_capacity(alloc, entries.len())?;
    for entry in entries {
        rows.push(index_of(ranks, entry.step.rank))?;
    }
    Ok(rows)
}

/// The ranks that have a row.
fn ranks_of(
    alloc: Global,
    entries: &[Entry],
    cut: &Cut,
    stuck: Option<u32>,
) -> Result<Vec<u32>, NoMemory> {
    let mut met = Vec::new(alloc);
    for entry in entries {
        met.push(entry.step.rank)?;
        add(&mut met, peer_of(entry.step.deed), cut)?;
    }
    add(&mut met, stuck, cut)?;
    distinct(alloc, met)
}

/// One more rank, where it is asked for.
fn add(met: &mut Vec<u32>, rank: Option<u32>, cut: &Cut) -> Result<(), NoMemory> {
    if let Some(rank) = rank {
        if cut.has_rank(rank) {
            met.push(rank)?;
        }
    }
    Ok(())
}

fn peer_of(deed: Deed) -> Option<u32> {
    match deed {
        Deed::Send(to) => Some(to),
        Deed::Recv(from) => Some(from),
        Deed::Choose(_) | Deed::Run | Deed::Enter | Deed::Leave => None,
    }
}
